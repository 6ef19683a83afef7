// The header of a message: checks 1 to 8 with 21, where the elements begin, and the level that they are read by. The checks ask for a message's first
// four octets and its length and no more, so that it does not matter whether the rest is at hand. These are no entry points: a function
// here may ask for what its callers show.
#![tactic(auto)]

ghost use Rattle.std.specs.Prelude.{◌≡◌, ◌<◌, ◌≤◌, length};
ghost use Rattle.std.specs.Bool.{beq};
ghost use Rattle.rules.specs.Framing.{version, flag_p, flag_t};
ghost use Rattle.rules.specs.Types.{among};
ghost use Rattle.rules.specs.Listings.{book, message_of};
ghost use Rattle.rules.specs.Verdicts.{first, opening_checks};
ghost use Rattle.answers.specs.Refusals.{told};
ghost use Rattle.heading.specs.Header.{Opens, Known, Field, Start, Listed, Body, HeaderOf, Sought, sent_by};

use answers::Refusal;

// What the rules say of a message type: has it T = 1, is it sent on kinds 1 to 3, and on kind 4, and the level of its body.
pub(crate) struct Handled {
    typ: u8,
    teid: bool,
    gateways: bool,
    mmes: bool,
    body: u8,
}

// A line a type, which the formatter would make seven.
#[rattlefmt::skip]
static HANDLED: [Handled; 10] = [
    Handled { typ: 1, teid: false, gateways: true, mmes: true, body: 1 }, // Echo Request
    Handled { typ: 2, teid: false, gateways: true, mmes: true, body: 1 }, // Echo Response
    Handled { typ: 32, teid: true, gateways: true, mmes: false, body: 2 },
    Handled { typ: 37, teid: true, gateways: true, mmes: false, body: 5 },
    Handled { typ: 66, teid: true, gateways: true, mmes: false, body: 6 },
    Handled { typ: 67, teid: true, gateways: true, mmes: false, body: 9 },
    Handled { typ: 68, teid: true, gateways: true, mmes: false, body: 12 },
    Handled { typ: 69, teid: true, gateways: true, mmes: false, body: 13 },
    Handled { typ: 97, teid: true, gateways: true, mmes: false, body: 14 },
    Handled { typ: 131, teid: true, gateways: false, mmes: true, body: 16 }, // Context Response
];

impl Handled {
    // A kind is a number, since C lends any.
    fn is_sent_on(&self, kind: u32) -> bool
        ensures { result ≡ sent_by self.now kind }
    {
        if kind == 4 { self.mmes } else { self.gateways }
    }
}

// Is it one of the kinds, which are numbers as C lends them?
#[tactic(auto, unfolding(rules::specs::Listings::book))]
pub fn known(kind: u32) -> bool
    ensures { result ≡ among kind book.kinds }
{
    matches!(kind, 1..=4)
}

#[tactic(auto, unfolding(rules::specs::Framing::version))]
pub(crate) fn version(head: &[u8]) -> u8
    requires { 0 < length head.now }
    ensures { result ≡ version head.now }
{
    head[0] / 32
}

#[tactic(auto, unfolding(rules::specs::Framing::flag_p))]
pub(crate) fn flag_p(head: &[u8]) -> bool
    requires { 0 < length head.now }
    ensures { result ≡ flag_p head.now }
{
    head[0] / 16 % 2 == 1
}

#[tactic(auto, unfolding(rules::specs::Framing::flag_t))]
pub(crate) fn flag_t(head: &[u8]) -> bool
    requires { 0 < length head.now }
    ensures { result ≡ flag_t head.now }
{
    head[0] / 8 % 2 == 1
}

#[tactic(auto, unfolding(rules::specs::Framing::length_field))]
pub fn length_field(head: &[u8]) -> usize
    requires { 4 ≤ length head.now }
    ensures { Field head.now result }
{
    usize::from(u16::from_be_bytes([head[2], head[3]]))
}

// Where the elements begin.
#[tactic(auto, unfolding(rules::specs::Framing::header_length))]
pub fn start(head: &[u8]) -> usize
    requires { 0 < length head.now }
    ensures { Start head.now result }
{
    if flag_t(head) { 12 } else { 8 }
}

// What the rules say of the message type, if it is one of those listed.
pub(crate) fn seek(typ: u8) -> Option<&'static Handled>
    ensures { Sought typ result }
{
    HANDLED.iter().find(|h| h.typ == typ)
}

// The level of a message's body.
#[tactic(auto, using(crate::proofs::Messages::has_body), unfolding(rules::specs::Taking::body_level, rules::specs::Framing::message_type))]
pub fn body(head: &[u8]) -> u8
    requires { Listed head.now }
    ensures { Body head.now result }
{
    match seek(head[1]) {
        Some(h) => h.body,
        None => unreachable!(),
    }
}

// The length of the header of messages of a type, if the type is listed.
#[tactic(auto, using(crate::proofs::Messages::no_octet))]
pub fn header_of(typ: u32) -> Option<usize>
    ensures { HeaderOf typ result }
{
    let typ = u8::try_from(typ).ok()?;
    let h = seek(typ)?;
    Some(if h.teid { 12 } else { 8 })
}

// Is a message of a type that is listed sent on this kind?
#[tactic(auto, using(crate::proofs::Messages::listed_octet, crate::proofs::Messages::by_kind))]
pub fn sent_on(kind: u32, typ: u32) -> bool
    requires { Known kind typ }
    ensures { result ≡ among kind (message_of book typ).kinds }
{
    seek(typ as u8).is_some_and(|h| h.is_sent_on(kind))
}

// Checks 1 to 8, with 21 after 7, in order, of a message of `n` octets that begins with `head`.
#[tactic(auto, using(crate::proofs::Messages::by_kind), unfolding(rules::specs::Verdicts::first, rules::specs::Verdicts::check, rules::specs::Framing::message_type))]
pub fn opening(kind: u32, head: &[u8], n: usize) -> Result<(), Refusal>
    requires { Opens head.now n }
    ensures { told result ≡ first (opening_checks book kind head.now n) }
{
    if !known(kind) {
        return Err(Refusal::Kind);
    }
    if n == 0 || 4096 < n {
        return Err(Refusal::Size);
    }
    if version(head) != 2 {
        return Err(Refusal::Version);
    }
    if n < start(head) {
        return Err(Refusal::Header);
    }
    if flag_p(head) {
        return Err(Refusal::Piggybacked);
    }
    if length_field(head) + 4 != n {
        return Err(Refusal::Length);
    }
    let Some(h) = seek(head[1]) else {
        return Err(Refusal::MessageType);
    };
    if !h.is_sent_on(kind) {
        return Err(Refusal::OtherKind);
    }
    if flag_t(head) != h.teid {
        return Err(Refusal::Teid);
    }
    Ok(())
}
