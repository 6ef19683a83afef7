// Octets in lines of 16, each with the place of its first.
ghost use Rattle.std.specs.Prelude.{◌≡◌};
ghost use Rattle.wording.specs.Sheets.{Writes};
ghost use Rattle.refusing.specs.Dumps.{line_break, lead, dump};

use phrases::runs::narrow;
use wording::Sheet;

fn new_line(i: usize, sheet: &mut Sheet)
    ensures { Writes (line_break i) sheet.old sheet.new }
{
    if i != 0 {
        sheet.put(b'\n');
    }
}

// What stands before octet `i`: each 16th begins a line with its place.
fn lead(i: usize, sheet: &mut Sheet)
    ensures { Writes (lead i) sheet.old sheet.new }
{
    if i % 16 == 0 {
        new_line(i, sheet);
        sheet.right(narrow(i), 4);
        sheet.copy(b"  ");
    } else {
        sheet.put(b' ');
    }
}

// No octets have no line.
pub(crate) fn dump(part: &[u8], sheet: &mut Sheet)
    ensures { Writes (dump part.now) sheet.old sheet.new }
{
    for (i, &octet) in part.iter().enumerate() {
        lead(i, sheet);
        sheet.hex(octet);
    }
    if !part.is_empty() {
        sheet.put(b'\n');
    }
}
