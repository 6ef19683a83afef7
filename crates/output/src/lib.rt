// The part of a buffer that a program reads into, and the part that it writes.
#![tactic(auto)]

ghost use Rattle.output.specs.Parts.{First};
ghost use Rattle.std.specs.Prelude.{◌≡◌, ◌<◌, length, take, IfOk};
ghost use Rattle.std.specs.Io.{ReadsAtMost};
ghost use Rattle.std.specs.Io.KnownBytes.{Consumes, IsAtEnd};

use std::io::{self, Read};

// Octets enough for all that a program reads, or writes at once.
pub const ROOM: usize = 65536;

// Reads until `buf` is full or nothing is left, and says how many octets that were.
pub fn fill<R: Read>(reader: &mut R, buf: &mut [u8]) -> io::Result<usize>
    ensures bound { ReadsAtMost result buf.new }
    ensures bytes { IfOk result (λ n. Consumes (R.remaining reader.old) (R.remaining reader.new) (take n buf.new)) }
    ensures end { IfOk result (λ n. n < length buf.new → IsAtEnd (R.remaining reader.new)) }
{
    let mut at = 0;
    // No range has these steps: each read says how far it went.
    while at < buf.len() {
        let got = reader.read(&mut buf[at..])?;
        if got == 0 {
            return Ok(at);
        }
        at += got;
    }
    Ok(at)
}

// The first `n` octets of `text`, or all of them if it has fewer.
pub fn first<'a>(text: &'a [u8], n: usize) -> &'a [u8]
    ensures { First text.entry n result }
{
    &text[..n.min(text.len())]
}
