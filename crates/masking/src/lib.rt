// The masked copy: a copy of a message in which every covered octet is 0, each value cleared in its own part of the copy.
#![tactic(auto)]

ghost use Rattle.std.specs.Prelude.{◌≡◌, ◌+◌, ◌-◌, ◌≤◌, length};
ghost use Rattle.rules.specs.Frames.{frames_of};
ghost use Rattle.rules.specs.Covered.{zeroed, inside_cleared};
ghost use Rattle.rules.specs.Table.{laid};
ghost use Rattle.masking.specs.Clearing.{between, cleared_row, cleared_rows, Inside, RowWithin, Within, Masks};

// The standing of a void group, a row's sixth number: the values inside it are covered, their headers stay open.
const VOID: u16 = 4;

// A value of `len` octets at `place`, whose first `shown` octets stay.
pub(crate) fn clear_value(copy: &mut [u8], place: usize, len: usize, shown: usize)
    requires { (shown ≤ len) × (place + len ≤ length copy.old) }
    ensures { copy.new ≡ zeroed copy.old (place + shown) (len - shown) }
{
    let start = place + shown;
    let end = place + len;
    copy[start..end].fill(0);
}

// The values of the elements that fill the message from `place` up to `end`. Their headers are read where nothing is cleared.
pub(crate) fn clear_inside(message: &[u8], place: usize, end: usize, copy: &mut [u8])
    requires { Inside message.now place end (length copy.old) }
    ensures { copy.new ≡ inside_cleared copy.old place (frames_of (between message.now place end)) }
{
    let mut at = place;
    // No range has these steps: each header says where the next one stands.
    while at < end {
        let value = at + 4;
        let len = scratch::two(message, at + 1);
        clear_value(copy, value, len, 0);
        at = value + len;
    }
}

// By its number, as `cleared_row` goes: what is covered of the value of row `n`, and of a void one the values inside it.
pub(crate) fn clear_row(rows: &[u16], n: usize, message: &[u8], copy: &mut [u8])
    requires { RowWithin rows.now message.now n (length copy.old) }
    ensures { copy.new ≡ cleared_row rows.now message.now n copy.old }
{
    let at = 6 * n;
    let place = usize::from(rows[at + 3]);
    let len = usize::from(rows[at + 4]);
    let stand = rows[at + 5];
    let shown = facts::open_octets(facts::table(), rows[at + 1] as u8, stand, len);
    clear_value(copy, place, len, shown);
    if stand == VOID {
        clear_inside(message, place, place + len, copy);
    }
}

// What is covered of the values of the first `count` rows.
#[tactic(auto, unfolding(crate::specs::Clearing::cleared_rows))]
pub(crate) fn clear_rows(rows: &[u16], count: usize, message: &[u8], copy: &mut [u8])
    requires { Within rows.now message.now count (length copy.old) }
    ensures { copy.new ≡ cleared_rows rows.now message.now count copy.old }
{
    for row in 0..count {
        clear_row(rows, row, message, copy);
    }
}

// The message over the start of a copy, and what is covered of the values of its first `count` rows cleared.
pub fn write_copy(rows: &[u16], count: usize, message: &[u8], copy: &mut [u8])
    requires { Masks rows.now message.now count (length copy.old) }
    ensures { copy.new ≡ cleared_rows rows.now message.now count (laid message.now copy.old) }
{
    copying::copy_octets(message, copy);
    clear_rows(rows, count, message, copy);
}
