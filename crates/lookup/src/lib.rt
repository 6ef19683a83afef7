// Reading a value: the desk's lookup and the plain lookup. A table may hold anything at all, so nothing in it is believed before it
// is tested, and its 16-bit numbers are widened before they are summed. Whether it is a table of the message on the kind reads every row's standing, so that
// is looked at once a call.
#![tactic(auto)]

ghost use Rattle.std.specs.Prelude.{◌≡◌, cond, length, unwrap_or};
ghost use Rattle.rules.specs.Values.{standing_kept, is_of, table_rows, cell, is_plain, seek_plain, plain_span, desk_span, Stands};
ghost use Rattle.rules.specs.Answers.{Plain, PlainFound, Desk, DeskFound};
ghost use Rattle.lookup.specs.Lent.{HasRow, HasRows, Asked, headed, span_by, desk_by, Finds, Seeks};

// The numbers of a table's header, after which the rows stand, and the numbers of a row.
const HEADER: usize = 6;

const ROW: usize = 6;

// Number `j` of a row, of which no more than one is asked for at a time.
fn number(row: usize, j: usize, table: &[u16]) -> u16
    requires { Asked table.now row j }
    ensures { result ≡ cell table.now row j }
{
    table[HEADER + ROW * row + j]
}

// Is the table as long as its header says, with the rows where they have to be?
#[tactic(auto, unfolding(crate::specs::Lent::headed))]
fn is_headed(table: &[u16]) -> bool
    ensures { result ≡ headed table.now }
{
    HEADER <= table.len()
        && usize::from(table[3]) <= table.len()
        && usize::from(table[2]) == HEADER
        && usize::from(table[3]) == HEADER + ROW * usize::from(table[0])
}

// How many of the first `count` rows have standing 0. Count and table go apart here and below, since `desk_part` takes them so.
fn standing_kept(count: usize, table: &[u16]) -> usize
    requires { HasRows table.now count }
    ensures { result ≡ standing_kept table.now 0 count }
{
    let mut kept = 0;
    for row in 0..count {
        if number(row, 5, table) == 0 {
            kept += 1;
        }
    }
    kept
}

// By its header, is it a table of that message on that kind? The kind may be any number, and is compared alone.
#[tactic(auto, using(crate::proofs::Tables::of_by))]
fn is_of(kind: u32, message: &[u8], table: &[u16]) -> bool
    ensures { result ≡ is_of kind message.now table.now }
{
    if !is_headed(table) {
        return false;
    }
    u32::from(table[5]) == kind
        && 1 < message.len()
        && table[4] == u16::from(message[1])
        && usize::from(table[1]) == standing_kept(usize::from(table[0]), table)
}

// How many rows the table has for the lookups: none if it is not of that message on that kind.
#[tactic(auto, using(crate::proofs::Tables::all_rows, crate::proofs::Tables::no_rows))]
pub fn rows(kind: u32, message: &[u8], table: &[u16]) -> usize
    ensures { result ≡ table_rows kind message.now table.now }
{
    if is_of(kind, message, table) {
        usize::from(table[0])
    } else {
        0
    }
}

// The part of a buffer where the value of a row stands, of a table with `count` rows.
fn row_part<'a>(count: usize, row: usize, buffer: &'a [u8], table: &[u16]) -> Option<&'a [u8]>
    requires { HasRows table.now count }
    ensures { Finds buffer.entry (span_by count table.now row (length buffer.now)) result }
{
    if count <= row {
        return None;
    }
    let start = usize::from(number(row, 3, table));
    let end = start + usize::from(number(row, 4, table));
    if buffer.len() < end {
        return None;
    }
    Some(&buffer[start..end])
}

// Is the row kept, with parent 0 and that pair?
#[tactic(auto, unfolding(rules::specs::Values::is_plain))]
fn is_plain(typ: u16, inst: u16, row: usize, table: &[u16]) -> bool
    requires { HasRow table.now row }
    ensures { result ≡ is_plain table.now typ inst row }
{
    number(row, 0, table) == 0
        && number(row, 1, table) == typ
        && number(row, 2, table) == inst
        && number(row, 5, table) == 0
}

// The first such row of `count`. A `for`: a search over a range would say no less in its closure.
fn seek_plain(count: usize, typ: u16, inst: u16, table: &[u16]) -> Option<usize>
    requires { HasRows table.now count }
    ensures { Seeks table.now typ inst count result }
{
    for row in 0..count {
        if is_plain(typ, inst, row, table) {
            return Some(row);
        }
    }
    None
}

// What the plain lookup finds: the part of the message where the value of the pair's first kept row in the body stands. The first such row decides: no later
// one is tried.
pub fn find_plain<'a>(
    kind: u32,
    typ: u16,
    inst: u16,
    message: &'a [u8],
    table: &[u16],
) -> Option<&'a [u8]>
    ensures { Finds message.entry (plain_span kind typ inst message.now table.now) result }
{
    let count = rows(kind, message, table);
    let row = seek_plain(count, typ, inst, table)?;
    row_part(count, row, message, table)
}

// The plain lookup: that part, or the empty part. It and its companion are the two that the rules name, as `desk` and `desk_found` are.
#[tactic(auto, using(crate::proofs::Spans::stands))]
pub fn plain<'a>(kind: u32, typ: u16, inst: u16, message: &'a [u8], table: &[u16]) -> &'a [u8]
    ensures { Plain kind typ inst message.entry table.now result }
{
    find_plain(kind, typ, inst, message, table).unwrap_or(&message[..0])
}

// Does the plain lookup answer a row's part, be it empty?
#[tactic(auto, using(crate::proofs::Spans::there))]
pub fn plain_found(kind: u32, typ: u16, inst: u16, message: &[u8], table: &[u16]) -> bool
    ensures { PlainFound kind typ inst message.now table.now result }
{
    find_plain(kind, typ, inst, message, table).is_some()
}

// What the desk's lookup finds on a table with `count` rows, so that who asks for many rows counts them once.
fn desk_row<'a>(
    count: usize,
    row: usize,
    right: bool,
    message: &'a [u8],
    copy: &'a [u8],
    table: &[u16],
) -> Option<&'a [u8]>
    requires { HasRows table.now count }
    ensures { Finds (cond right message.entry copy.entry) (desk_by count row (length message.now) (length copy.now) table.now) result }
{
    if message.len() != copy.len() {
        return None;
    }
    if right {
        row_part(count, row, message, table)
    } else {
        row_part(count, row, copy, table)
    }
}

// That part, or the empty part of the same buffer: each branch names the one that its edit exchanges.
#[tactic(auto, using(crate::proofs::Spans::stands))]
pub fn desk_part<'a>(
    count: usize,
    row: usize,
    right: bool,
    message: &'a [u8],
    copy: &'a [u8],
    table: &[u16],
) -> &'a [u8]
    requires { HasRows table.now count }
    ensures { Stands (cond right message.entry copy.entry) (desk_by count row (length message.now) (length copy.now) table.now) result }
{
    let found = desk_row(count, row, right, message, copy, table);
    if right {
        found.unwrap_or(&message[..0])
    } else {
        found.unwrap_or(&copy[..0])
    }
}

// What the desk's lookup finds: the part of the message for the right to see subscribers, else of the copy, where the row's value stands.
pub fn find_desk<'a>(
    kind: u32,
    row: usize,
    right: bool,
    message: &'a [u8],
    copy: &'a [u8],
    table: &[u16],
) -> Option<&'a [u8]>
    ensures { Finds (cond right message.entry copy.entry) (desk_span kind row message.now (length copy.now) table.now) result }
{
    desk_row(rows(kind, message, table), row, right, message, copy, table)
}

// The desk's lookup: that part, or the empty part.
pub fn desk<'a>(
    kind: u32,
    row: usize,
    right: bool,
    message: &'a [u8],
    copy: &'a [u8],
    table: &[u16],
) -> &'a [u8]
    ensures { Desk kind row right message.entry copy.entry table.now result }
{
    desk_part(rows(kind, message, table), row, right, message, copy, table)
}

// Does the desk's lookup answer a row's part, be it empty? The right does not bear on it.
#[tactic(auto, using(crate::proofs::Spans::there))]
pub fn desk_found(
    kind: u32,
    row: usize,
    right: bool,
    message: &[u8],
    copy: &[u8],
    table: &[u16],
) -> bool
    ensures { DeskFound kind row right message.now copy.now table.now result }
{
    find_desk(kind, row, right, message, copy, table).is_some()
}
