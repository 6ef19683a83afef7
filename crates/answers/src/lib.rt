// What refuses a message, a table or a state, each by its own name; and the verdicts that say it in five numbers.
#![tactic(auto)]

ghost use Rattle.std.specs.Prelude.{◌≡◌, [], ◌∷◌, is_err};
ghost use Rattle.rules.specs.Verdicts.{accepted, refused, refused_at, refuses, first};
ghost use Rattle.answers.specs.Refusals.{verdict_of, outcome};

use rules::Verdict;

// Why something is refused, by the check that finds it, with what it names.
#[derive(Clone, Copy, PartialEq, Eq)]
pub enum Refusal {
    Kind, // 1: no kind that there is
    Size, // 2: empty, or over 4,096 octets
    Version, // 3: not 2
    Header, // 4: shorter than its header
    Piggybacked, // 5: a second message follows
    Length, // 6: not the length that its header says
    MessageType, // 7: none that is handled
    OtherKind, // 21: none that is handled on this kind
    Teid, // 8: T is not as the message type has it
    Cut { place: u16 }, // 9: no whole element stands at the place
    Table, // 10: no room for the table
    Short { place: u16, typ: u16, inst: u16 }, // 11: a mandatory element is short
    Missing { place: u16, typ: u16, inst: u16 }, // 12: a mandatory element is missing
    Copy, // 13: no room for the copy
    Given, // 14: the table to build from is wrong
    Room, // 15: no room for what is built
    Misread, // 16: what is built would not be read as it was given
    State, // 17: no state that goes on
}

impl Refusal {
    pub fn verdict(self) -> Verdict
        ensures { result ≡ verdict_of self }
    {
        match self {
            Refusal::Kind => refuse(1, 0),
            Refusal::Size => refuse(2, 0),
            Refusal::Version => refuse(3, 0),
            Refusal::Header => refuse(4, 0),
            Refusal::Piggybacked => refuse(5, 0),
            Refusal::Length => refuse(6, 67),
            Refusal::MessageType => refuse(7, 0),
            Refusal::OtherKind => refuse(21, 0),
            Refusal::Teid => refuse(8, 0),
            Refusal::Cut { place } => refuse_at(9, 67, place, 0, 0),
            Refusal::Table => refuse(10, 0),
            Refusal::Short { place, typ, inst } => refuse_at(11, 67, place, typ, inst),
            Refusal::Missing { place, typ, inst } => refuse_at(12, 70, place, typ, inst),
            Refusal::Copy => refuse(13, 0),
            Refusal::Given => refuse(14, 0),
            Refusal::Room => refuse(15, 0),
            Refusal::Misread => refuse(16, 0),
            Refusal::State => refuse(17, 0),
        }
    }
}

impl From<Refusal> for Verdict {
    ghost from_gives = { λ r v. v ≡ verdict_of r };

    fn from(r: Refusal) -> Verdict {
        r.verdict()
    }
}

// Acceptance: five zeros.
pub fn accept() -> Verdict
    ensures { result ≡ accepted }
{
    refuse(0, 0)
}

// A refusal that names nothing.
pub fn refuse(code: u16, cause: u16) -> Verdict
    ensures { result ≡ refused code cause }
{
    refuse_at(code, cause, 0, 0, 0)
}

// A refusal that names a place and a pair.
pub fn refuse_at(code: u16, cause: u16, place: u16, typ: u16, inst: u16) -> Verdict
    ensures { result ≡ refused_at code cause place typ inst }
{
    Verdict {
        code,
        cause,
        place,
        typ,
        inst,
    }
}

// The first of two that refuses, or acceptance.
#[tactic(auto, using(crate::proofs::Refusing::refusing, crate::proofs::Refusing::accepting), unfolding(rules::specs::Verdicts::first))]
pub fn first_of(a: Verdict, b: Verdict) -> Verdict
    ensures { result ≡ first (a ∷ b ∷ []) }
{
    if a.code != 0 {
        return a;
    }
    if b.code != 0 {
        return b;
    }
    accept()
}

// A verdict that refuses is an error, so that `?` hands it on.
#[tactic(auto, using(crate::proofs::Refusing::refusing, crate::proofs::Refusing::accepting), unfolding(rules::specs::Verdicts::first))]
pub fn check(v: Verdict) -> Result<(), Verdict>
    ensures value { outcome result ≡ first (v ∷ []) }
    ensures refuses { is_err result ≡ refuses v }
{
    if v.code != 0 {
        return Err(v);
    }
    Ok(())
}

// The five numbers that an outcome stands for.
pub fn verdict_on(r: Result<(), Verdict>) -> Verdict
    ensures { result ≡ outcome r }
{
    match r {
        Ok(()) => accept(),
        Err(v) => v,
    }
}
