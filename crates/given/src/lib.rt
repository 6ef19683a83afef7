// The table that is given to be built from, and the reasons of 14, which speak against it.
#![tactic(auto)]

ghost use Rattle.std.specs.Prelude.{◌≡◌};
ghost use Rattle.rules.proofs.Reasons.{NoReason};
ghost use Rattle.given.specs.Given.{Told, HeaderRight, HasCells, HasCell, RowsRight, Climbs, Climbed, row_in, FitRow};

use emitting::{Numbers, Row};

// Row `n`, behind the header.
pub(crate) fn row<T: Numbers>(table: T, n: usize) -> Row
    requires { HasCell (T.numbers table) n }
    ensures { result ≡ row_in (T.numbers table) n }
{
    Row::read(table.after(6), n)
}

// The header agrees with itself, if all rows are kept, and the table is as long as it says.
pub(crate) fn header_right<T: Numbers>(table: T) -> bool
    ensures { Told (HeaderRight (T.numbers table)) result }
{
    if table.len() < 6 {
        return false;
    }
    let count = table.at(0);
    let used = 6 + 6 * usize::from(count);
    table.at(1) == count
        && table.at(2) == 6
        && usize::from(table.at(3)) == used
        && used <= table.len()
}

// A row, but for its parent. Its standing is a number, as it is lent.
pub(crate) fn row_right(row: Row, values: &[u8]) -> bool
    ensures { Told (FitRow row values.now) result }
{
    row.stand == 0
        && row.typ <= 255
        && row.inst <= 15
        && (emitting::is_group(row.typ)
            || usize::from(row.place) + usize::from(row.len) <= values.len())
}

// From the innermost open group up, the first that does not stand after the parent. Who climbs past a group closes it, so that all rows together climb no
// more steps than there are groups. Each step leads to where the last one ended, so that this is no `for`.
pub(crate) fn climb<T: Numbers>(table: T, inner: usize, parent: usize) -> usize
    requires { Climbs (T.numbers table) inner }
    ensures { Climbed (T.numbers table) inner parent result }
{
    let mut a = inner;
    while parent < a {
        a = usize::from(row(table, a - 1).parent);
    }
    a
}

// The first `count` rows, each parent among the groups that are open before it.
pub(crate) fn rows_right<T: Numbers>(table: T, count: usize, values: &[u8]) -> bool
    requires { HasCells (T.numbers table) count }
    ensures { Told (RowsRight (T.numbers table) values.now count) result }
{
    let mut inner = 0;
    for n in 0..count {
        let row = row(table, n);
        let parent = usize::from(row.parent);
        if !row_right(row, values) || climb(table, inner, parent) != parent {
            return false;
        }
        inner = if emitting::is_group(row.typ) {
            n + 1
        } else {
            parent
        };
    }
    true
}

// Does no reason of 14 hold?
pub fn right<T: Numbers>(sequence: u32, table: T, values: &[u8]) -> bool
    ensures { Told (NoReason sequence (T.numbers table) values.now) result }
{
    sequence <= 0xff_ffff
        && header_right(table)
        && rows_right(table, usize::from(table.at(0)), values)
}
