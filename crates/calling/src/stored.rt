// The one call for C: a table lent as octets, and a message that a ring may refill at any time. It is copied once, and verdict, table and copy are all of
// that.
ghost use Rattle.std.specs.Prelude.{◌≡◌, ◌≤◌, length};
ghost use Rattle.rules.specs.Sizes.{largest_message};
ghost use Rattle.rules.specs.Answers.{CalledStored};
ghost use Rattle.calling.specs.Calling.{Stored};

use crate::decide;
use rules::{Decision, Verdict};

// On acceptance, the table from a scratch that holds its rows.
fn store(d: Decision, rows: &[u16], table: &mut [u8]) -> Verdict
    ensures { Stored d rows.now table.old result table.new }
{
    // five numbers are what C is told
    if d.verdict.code == 0 {
        octets::put_table(rows, d.rows, d.kept, d.typ, d.kind, table);
    }
    d.verdict
}

// With room for the rows of any message. Kept out of its callers, which would have that room on the stack too.
#[inline(never)]
fn by_all(kind: u32, message: &[u8], table: &mut [u8], copy: &mut [u8]) -> Verdict
    ensures { CalledStored kind message.now table.old copy.old result table.new copy.new }
{
    let mut all = [0; scratch::ALL];
    let numbers = table.len() / 2;
    let d = decide(kind, message, &mut all, numbers, copy);
    store(d, &all, table)
}

// With room for few rows first, since the card's stack has none to waste: rows are counted also where the scratch is full, so that the count says whether it holds them all.
fn by_few(kind: u32, message: &[u8], table: &mut [u8], copy: &mut [u8]) -> Verdict
    ensures { CalledStored kind message.now table.old copy.old result table.new copy.new }
{
    if scratch::crowded(message) {
        return by_all(kind, message, table, copy);
    }
    let room = table.len() / 2;
    let mut few = [0; scratch::FEW];
    let d = decide(kind, message, &mut few, room, copy);
    if 64 < d.rows {
        return by_all(kind, message, table, copy);
    }
    store(d, &few, table)
}

// A message for which N octets are enough, copied first.
fn copied<const N: usize>(kind: u32, message: &[u8], table: &mut [u8], copy: &mut [u8]) -> Verdict
    requires room { length message.now ≤ N }
    requires most { N ≤ largest_message }
    ensures { CalledStored kind message.now table.old copy.old result table.new copy.new }
{
    let mut octets = [0; N];
    let n = message.len();
    octets[..n].copy_from_slice(message);
    by_few(kind, &octets[..n], table, copy)
}

// The verdict on a message. The table is written on acceptance alone, and the copy where 11 or 12 refuse, too. One that is too long is refused with no octet
// of it read.
pub fn judge_copy(kind: u32, message: &[u8], table: &mut [u8], copy: &mut [u8]) -> Verdict
    ensures { CalledStored kind message.now table.old copy.old result table.new copy.new }
{
    if message.len() <= scratch::SLIP {
        return copied::<{ scratch::SLIP }>(kind, message, table, copy);
    }
    if message.len() <= scratch::PAGE {
        return copied::<{ scratch::PAGE }>(kind, message, table, copy);
    }
    by_all(kind, message, table, copy)
}
