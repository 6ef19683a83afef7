// Octets as the ring hands them over: a form of the judge that is fed parts of a message and then told the end.
#![tactic(auto)]

ghost use Rattle.std.specs.Prelude.{◌≡◌};
ghost use Rattle.pieces.specs.Answers.{start_of, told_out, ended_by, reading_by, verdict_by, Started, Parted, Ended};
ghost use Rattle.pieces.specs.Agreements.{FitsAll};

use answers::Refusal;
use rules::{Reading, Verdict};
use taking::Counts;

mod level;
mod message;
pub mod pace;
pub mod rows;
pub mod sound;
mod step;

// A level that is open: its listing, the marks of its pairs, its parent's row, its place, and the octets that it has left from the next element on.
#[derive(Clone, Copy)]
pub struct Open {
    pub level: u8,
    pub marks: [u8; 32],
    pub parent: usize,
    pub home: usize,
    pub left: usize,
}

// What is held of the elements: cut at `place`; or `depth` levels are open, the next element begins at `place`, `have` octets of its
// header are in `some`, and `pass` octets are passed over before it. The innermost level may be `limited`: it has held `apns` so far, and if they
// are too many the counts go `back` to what they are without its inside. These flags stay beside their values, since a caller in C hands in any
// combination of them and is told of each (`Answers.walk_fits`, and `Kept.walk_in` in `keeping`).
#[derive(Clone, Copy)]
pub struct Going {
    pub stopped: bool,
    pub depth: usize,
    pub levels: [Open; 3],
    pub place: usize,
    pub have: usize,
    pub some: [u8; 4],
    pub pass: usize,
    pub counts: Counts,
    pub limited: bool,
    pub apns: usize,
    pub back: Counts,
}

// What is held between two parts: no octet of the message but the first four, and those of a header that is not whole.
#[derive(Clone, Copy)]
pub struct Pieces {
    pub kind: u32,
    pub room: usize,
    pub ended: bool,
    pub count: usize,
    pub head: [u8; 4],
    pub going: Going,
}

// What some octets leave, of the elements or of the message: the state, how many octets were taken, and the row of an element if one was taken.
#[derive(Clone, Copy)]
pub struct Stride<S> {
    pub state: S,
    pub taken: usize,
    pub row: Option<[u16; 6]>,
}

// What a part or the end answers: the state to go on with, on a refusal too, and the verdict (`Answers.part_told`, `end_told`).
#[derive(Clone, Copy)]
pub struct Told {
    pub state: Pieces,
    pub verdict: Verdict,
}

// A slot that no level is open in.
pub(crate) const CLOSED: Open = Open {
    level: 0,
    marks: [0; 32],
    parent: 0,
    home: 0,
    left: 0,
};

const UNCOUNTED: Counts = Counts {
    rows: 0,
    kept: 0,
    short: 0,
    gap: 0,
};

// Nothing is walked.
pub(crate) const IDLE: Going = Going {
    stopped: false,
    depth: 0,
    levels: [CLOSED; 3],
    place: 0,
    have: 0,
    some: [0; 4],
    pass: 0,
    counts: UNCOUNTED,
    limited: false,
    apns: 0,
    back: UNCOUNTED,
};

// A message that begins, on this kind, with a table of so many numbers.
#[tactic(auto, unfolding(crate::specs::Coded::idle_by))]
pub fn anew(kind: u32, room: usize) -> Pieces
    ensures { result ≡ start_of kind room }
{
    Pieces {
        kind,
        room,
        ended: false,
        count: 0,
        head: [0; 4],
        going: IDLE,
    }
}

// A message begins: its table is zero.
pub fn start(kind: u32, table: &mut [u16]) -> Pieces
    ensures { Started kind table.old result table.new }
{
    table.fill(0);
    anew(kind, table.len())
}

// 17: nothing is taken.
pub(crate) fn out(p: Pieces) -> Told
    ensures { result ≡ told_out p }
{
    Told {
        state: p,
        verdict: Refusal::State.verdict(),
    }
}

// The next octets of the message.
pub fn part(p: Pieces, octets: &[u8], table: &mut [u16]) -> Told
    ensures { Parted p octets.now table.old result table.new }
{
    if !sound::ready(p, table.len()) {
        return out(p);
    }
    let from = table.len().min(6);
    Told {
        state: rows::feed(p, octets, &mut table[from..]),
        verdict: answers::accept(),
    }
}

#[tactic(auto, unfolding(crate::specs::Answers::ended_by))]
pub fn ended(p: Pieces) -> Pieces
    ensures { result ≡ ended_by p }
{
    Pieces { ended: true, ..p }
}

// Checks 1 to 9 on what was fed.
#[tactic(auto, using(answers::proofs::Refusing::named_refuses), unfolding(crate::specs::Answers::reading_by))]
pub(crate) fn reading_on(p: Pieces) -> Reading
    requires { FitsAll p }
    ensures { result ≡ reading_by p }
{
    if let Err(refusal) = heading::opening(p.kind, &p.head, p.count) {
        return reading::refused(refusal.verdict());
    }
    if p.going.stopped {
        return reading::refused(reading::cut_at(p.going.place));
    }
    reading::whole(p.going.counts)
}

// The verdict on what was fed: checks 1 to 12, for a table of `room` numbers.
#[tactic(auto, using(crate::proofs::Ends::reading_rows))]
pub fn verdict_on(p: Pieces, room: usize) -> Verdict
    requires { FitsAll p }
    ensures { result ≡ verdict_by p room }
{
    judging::verdict_on(reading_on(p), room)
}

// The end of the message.
#[tactic(auto, using(crate::proofs::Ends::end_room, crate::proofs::Ends::kind_fits, crate::proofs::Feeds::row_low))]
pub fn end(p: Pieces, table: &mut [u16]) -> Told
    ensures { Ended p table.old result table.new }
{
    if !sound::ready(p, table.len()) {
        return out(p);
    }
    let state = ended(p);
    let verdict = verdict_on(p, table.len());
    // five numbers are what C is told
    if verdict.code != 0 {
        table.fill(0);
        return Told { state, verdict };
    }
    judging::write_header(
        p.going.counts.rows,
        p.going.counts.kept,
        u16::from(p.head[1]),
        p.kind as u16, // one of the kinds, since the verdict accepts it
        table,
    );
    Told { state, verdict }
}
