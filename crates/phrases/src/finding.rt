// The text that a section has for a number.
ghost use Rattle.std.specs.Prelude.{◌≡◌};
ghost use Rattle.phrases.specs.Table.{text_for};

use crate::table;

// A section is asked for by its number. A `for`, which names the three parts of a row. Its text of number 255 is that of every number that has none of its own.
pub(crate) fn text(section: u8, number: u16) -> &'static [u8]
    ensures { result.now ≡ text_for section number }
{
    for &(s, n, octets) in table::texts() {
        if s.number() == section && (n == 255 || u16::from(n) == number) {
            return octets;
        }
    }
    b""
}
