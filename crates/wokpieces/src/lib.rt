// The pieces form, exported to C: state and table go as octets, and the code is the result. It is a library of its own, so that the judge's stays as it is.
#![tactic(auto)]

ghost use Rattle.wokpieces.specs.Exports.{FedTable, Told, Takes, Ending, Finished, StartedOctets, PartedOctets, EndedOctets};
ghost use Rattle.pieces.specs.Agreements.{FitsAll};

use answers::Refusal;
use pieces::{Pieces, rows};
use rules::Verdict;

// The octets of a part go into a table's rows, which stand after its header, if it has one.
fn feed_table(p: Pieces, part: &[u8], table: &mut [u8]) -> Pieces
    requires { FitsAll p }
    ensures { FedTable p part.now table.old result table.new }
{
    let from = table.len().min(12);
    rows::feed(p, part, &mut table[from..])
}

// The five numbers of a verdict, and its code.
fn told(v: Verdict, five: &mut [u8]) -> u16
    ensures { Told v five.old result five.new }
{
    octets::put_five(v, five);
    v.code
}

// A message begins: its table is zero. A state that is too short is 17, and nothing is written.
#[unsafe(no_mangle)]
pub extern "C" fn wok_start(kind: u32, state: &mut [u8], table: &mut [u8]) -> u16
    ensures { StartedOctets kind state.old table.old result state.new table.new }
{
    if state.len() < keeping::SIZE {
        return Refusal::State.verdict().code;
    }
    let room = table.len() / 2;
    keeping::keep(pieces::anew(kind, room), state);
    table[..2 * room].fill(0);
    0
}

// The state that is kept, if a part or an end may be taken with it and a table of so many numbers.
#[tactic(auto, using(crate::proofs::Calls::taken_short, crate::proofs::Calls::taken_out, crate::proofs::Calls::taken_by))]
fn taken(state: &[u8], room: usize) -> Option<Pieces>
    ensures { Takes state.now room result }
{
    if state.len() < keeping::SIZE {
        return None;
    }
    let p = keeping::kept(state);
    pieces::sound::ready(p, room).then_some(p)
}

// The next octets of the message.
#[unsafe(no_mangle)]
pub extern "C" fn wok_part(state: &mut [u8], part: &[u8], table: &mut [u8], five: &mut [u8]) -> u16
    ensures { PartedOctets state.old part.now table.old five.old result
        state.new table.new five.new }
{
    let room = table.len() / 2;
    let Some(p) = taken(state, room) else {
        return told(Refusal::State.verdict(), five);
    };
    let q = feed_table(p, part, &mut table[..2 * room]);
    keeping::keep(q, state);
    told(answers::accept(), five)
}

// What the end leaves in a table: zeros, or its header over the rows.
#[tactic(auto, using(pieces::proofs::Feeds::row_low, pieces::proofs::Ends::kind_fits, crate::proofs::Stores::header_room))]
fn finish(p: Pieces, verdict: Verdict, table: &mut [u8])
    requires { Ending p verdict table.old }
    ensures { Finished p verdict table.old table.new }
{
    // five numbers are what C is told
    if verdict.code != 0 {
        table.fill(0);
        return;
    }
    octets::put_header(
        p.going.counts.rows,
        p.going.counts.kept,
        u16::from(p.head[1]),
        p.kind as u16,
        table,
    );
}

// The end of the message.
#[unsafe(no_mangle)]
pub extern "C" fn wok_end(state: &mut [u8], table: &mut [u8], five: &mut [u8]) -> u16
    ensures { EndedOctets state.old table.old five.old result
        state.new table.new five.new }
{
    let room = table.len() / 2;
    let Some(p) = taken(state, room) else {
        return told(Refusal::State.verdict(), five);
    };
    let verdict = pieces::verdict_on(p, room);
    finish(p, verdict, &mut table[..2 * room]);
    keeping::keep(pieces::ended(p), state);
    told(verdict, five)
}
