// How numbers are lent: as numbers, or as octets.
ghost use Rattle.std.specs.Prelude.{◌≡◌, ℕ, List, ◌++◌, ◌≤◌, ◌<◌, length, get_or, drop};
ghost use Rattle.rules.specs.Octets.{numbers_in};

// A run of numbers. What reads one reads either form of it by the same code.
pub trait Numbers: Copy {
    ghost numbers: { Self → List ℕ };

    fn len(self) -> usize
        ensures { result ≡ length (numbers self) };

    fn at(self, i: usize) -> u16
        requires { i < length (numbers self) }
        ensures { result ≡ get_or (numbers self) i 0 };

    // What stands after the first `i`.
    fn after(self, i: usize) -> Self
        requires { i ≤ length (numbers self) }
        ensures { numbers result ≡ drop i (numbers self) };
}

impl<'a> Numbers for &'a [u16] {
    ghost numbers = { λ t. t.now };

    fn len(self) -> usize {
        self.len()
    }

    fn at(self, i: usize) -> u16 {
        self[i]
    }

    fn after(self, i: usize) -> &'a [u16] {
        &self[i..]
    }
}

// Octets, two a number, high octet first.
#[derive(Clone, Copy)]
pub struct Octets<'a>(pub &'a [u8]);

#[tactic(auto, using(crate::proofs::Lent::lent))]
impl<'a> Numbers for Octets<'a> {
    ghost numbers = { λ t. numbers_in t.0.now };

    fn len(self) -> usize {
        self.0.len() / 2
    }

    fn at(self, i: usize) -> u16 {
        u16::from_be_bytes([self.0[2 * i], self.0[2 * i + 1]])
    }

    fn after(self, i: usize) -> Octets<'a> {
        Octets(&self.0[2 * i..])
    }
}

// Numbers, and octets behind them.
#[derive(Clone, Copy)]
pub struct Joined<'a>(pub &'a [u16], pub Octets<'a>);

#[tactic(auto, using(crate::proofs::Lent::joined))]
impl<'a> Numbers for Joined<'a> {
    ghost numbers = { λ t. t.0.now ++ numbers_in t.1.0.now };

    fn len(self) -> usize {
        self.0.len() + self.1.len()
    }

    fn at(self, i: usize) -> u16 {
        if i < self.0.len() {
            self.0[i]
        } else {
            self.1.at(i - self.0.len())
        }
    }

    fn after(self, i: usize) -> Joined<'a> {
        if i < self.0.len() {
            Joined(&self.0[i..], self.1)
        } else {
            Joined(&[], self.1.after(i - self.0.len()))
        }
    }
}
