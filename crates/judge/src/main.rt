// The judge program: a kind octet and a message on standard input; the verdict and the rows on standard output.
#![tactic(auto)]

use std::io;

// The text on an input, by way of `out`.
fn answer(rt: &impl Print, input: &[u8], out: &mut [u8]) -> io::Result<()> {
    let n = lines::text(input, out);
    rt.write_all(output::first(out, n))
}

fn main(rt: HostRuntime) -> io::Result<()> {
    let mut input = [0; 4098];
    let n = output::fill(&mut rt.reader(), &mut input)?;
    answer(&rt, &input[..n], &mut [0; output::ROOM])
}
