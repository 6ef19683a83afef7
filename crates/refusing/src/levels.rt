// Which of its two reasons 9 had, by the rows that the reading leaves of what stands before its place.
ghost use Rattle.std.specs.Prelude.{◌≡◌, ◌<◌};
ghost use Rattle.masking.specs.Clearing.{number};
ghost use Rattle.refusing.specs.Levels.{inner_end, end_after, reason_of};

use columns::values::entered;
use phrases::runs::get_or;
use rules::Verdict;

// Number `j` of a row. Rows are flat numbers, as `reading::read` leaves them.
fn number(rows: &[u16], row: usize, j: usize) -> u16
    requires { (row < 1022) × (j < 6) }
    ensures { result ≡ number rows.now row j }
{
    get_or(rows, 6 * row + j, 0)
}

// The end of the level at `place` after a row: that of its inside, if it has one around the place, or else what was known.
fn inner_end(rows: &[u16], row: usize, place: usize, end: usize) -> usize
    requires { row < 1022 }
    ensures { result ≡ inner_end rows.now row place end }
{
    if !entered(number(rows, row, 1), number(rows, row, 5)) {
        return end;
    }
    let start = usize::from(number(rows, row, 3));
    let stop = start + usize::from(number(rows, row, 4));
    if start <= place && place < stop {
        stop
    } else {
        end
    }
}

// Numbers past the rows are 0, which is no group.
fn level_end(rows: &[u16], place: usize, size: usize) -> usize
    ensures { result ≡ end_after rows.now place size 1022 }
{
    let mut end = size;
    for row in 0..1022 {
        end = inner_end(rows, row, place, end);
    }
    end
}

// The message is read once more, for its rows: has the level fewer than four octets left?
pub(crate) fn reason(kind: u32, message: &[u8], v: Verdict) -> u16
    ensures { result ≡ reason_of kind message.now v }
{
    if v.code != 9 {
        return 0;
    }
    let mut rows = [0; scratch::ALL];
    let _read = reading::read(kind, message, &mut rows);
    let place = usize::from(v.place);
    if level_end(&rows, place, message.len()) < place + 4 {
        1
    } else {
        0
    }
}
