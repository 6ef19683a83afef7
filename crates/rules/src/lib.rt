// The answers that the rules name, and what is read off one element's header. This crate has no function: the rules are
// definitions in specs/, and the laws about them are in proofs/. C is told of these as numbers, and what is promised speaks of them so: a refusal is a
// code that is not 0. The code itself answers `Option` and `Result`, and says which of these each stands for (`answers`, `Refusals`).
#![tactic(auto)]

// A verdict is five numbers; acceptance is five zeros.
#[derive(Clone, Copy)]
pub struct Verdict {
    pub code: u16,
    pub cause: u16,
    pub place: u16,
    pub typ: u16,
    pub inst: u16,
}

// What stands at the head of the octets that are left of a level: an element, if a whole one stands there. `first` is its
// first value octet, or 0 if the value is empty: no rule reads another.
#[derive(Clone, Copy)]
pub struct Head {
    pub whole: bool,
    pub typ: u8,
    pub inst: u8,
    pub len: usize,
    pub first: u8,
}

// What the reading of a message comes to: the refusal by checks 1 to 9, or five zeros; the rows and the kept rows; the refusal by
// check 11 and the one by check 12, or five zeros each.
#[derive(Clone, Copy)]
pub struct Reading {
    pub refusal: Verdict,
    pub rows: usize,
    pub kept: usize,
    pub short: Verdict,
    pub lack: Verdict,
}

// What the one call decides of a message for a table and a copy of some room: the verdict, and the numbers of its table's header: rows, kept rows,
// and on acceptance message type and kind, else 0.
#[derive(Clone, Copy)]
pub struct Decision {
    pub verdict: Verdict,
    pub rows: usize,
    pub kept: usize,
    pub typ: u16,
    pub kind: u16,
}

// What is answered where a message is written: the verdict, and how many octets were written, 0 if refused.
#[derive(Clone, Copy)]
pub struct Sent {
    pub verdict: Verdict,
    pub length: usize,
}

// What is answered where rows are counted: the refusal by checks 1 to 9, or five zeros; and the rows, 0 if refused.
#[derive(Clone, Copy)]
pub struct Count {
    pub verdict: Verdict,
    pub rows: usize,
}

// Where a value stands in a buffer, and whether a row has one that lies in it. Not there: 0, 0, no.
#[derive(Clone, Copy)]
pub struct Span {
    pub start: usize,
    pub len: usize,
    pub there: bool,
}
