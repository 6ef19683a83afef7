// Numbers as they are said: what stands at a place of a run, another past its end; and a number cut to 16 bits.
ghost use Rattle.std.specs.Prelude.{◌≡◌, get_or};
ghost use Rattle.phrases.specs.Sentences.{narrow};

pub fn get_or<T: Copy>(run: &[T], at: usize, other: T) -> T
    ensures { result ≡ get_or run.now at other }
{
    run.get(at).copied().unwrap_or(other)
}

// A number over 65,535 is said as that.
pub fn narrow(n: usize) -> u16
    ensures { result ≡ narrow n }
{
    u16::try_from(n).unwrap_or(u16::MAX)
}
