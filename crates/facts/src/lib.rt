// What the rules say of a type number. The least value length is a decision over ranges of the number; groups and the cover are a table with four
// types an octet, the first in the lowest bits: 0 nothing, 1 covered whole, 2 covered but for the first octet, 3 a group.
#![tactic(auto)]

ghost use Rattle.std.specs.Prelude.{◌≡◌};
ghost use Rattle.rules.specs.Types.{least_of};
ghost use Rattle.facts.specs.Facts.{facts, Figure, Takes, below79, between, above95, least_by, number_of, mark_in, group_in, open_in};

static FACTS: [u8; 64] = [
    4, // 1
    0, 0, 0, 0, 0, 0, 0, 0, 0, 0, 0, 0, 0, 0, 0, 0, 0, 80, // 74, 75
    145, // 76, 78, 79
    0, 32, // 86
    0, 12, // 93
    0, 64, // 103
    85, // 104 to 107
    13, // 108, 109
    0, 0, 0, 0, 0, 0, 0, 0, 0, 0, 0, 0, 0, 0, 0, 0, 0, 3, // 180
    0, 0, 0, 0, 0, 0, 0, 0, 0, 0, 0, 0, 0, 0, 0, 0, 0, 64, // 255
];

pub fn table() -> &'static [u8; 64]
    ensures { result.now ≡ facts }
{
    &FACTS
}

// What the table has of a type.
#[derive(Clone, Copy)]
pub(crate) enum Entry {
    Nothing,
    Whole, // covered whole
    Rest, // covered but for the first octet
    Group,
}

// What a part takes if it is there.
pub(crate) fn part(there: bool, size: usize) -> usize
    ensures { Takes there size result }
{
    if there { size } else { 0 }
}

// F-TEID: an IPv4 and an IPv6 address.
#[tactic(auto, using(crate::proofs::Facts::sum_87))]
pub(crate) fn of_87(first: u8) -> usize
    ensures { Figure (least_of 87 first) result }
{
    5 + part(first / 128 % 2 == 1, 4) + part(first / 64 % 2 == 1, 16)
}

// PDN Address Allocation: IPv4, IPv6 or both.
#[tactic(auto, using(crate::proofs::Facts::sum_79))]
pub(crate) fn of_79(first: u8) -> usize
    ensures { Figure (least_of 79 first) result }
{
    let low = first % 8;
    1 + part(low == 1, 4) + part(low == 2, 17) + part(low == 3, 21)
}

// User Location: CGI, SAI, RAI, then TAI, ECGI, LAI.
#[tactic(auto, using(crate::proofs::Facts::sum_86))]
pub(crate) fn of_86(first: u8) -> usize
    ensures { Figure (least_of 86 first) result }
{
    let old = part(first % 2 == 1, 7) + part(first / 2 % 2 == 1, 7) + part(first / 4 % 2 == 1, 7);
    1 + old
        + part(first / 8 % 2 == 1, 5)
        + part(first / 16 % 2 == 1, 7)
        + part(first / 32 % 2 == 1, 5)
}

// Types 0 to 78.
#[tactic(auto, unfolding(crate::specs::Facts::below79))]
pub(crate) fn below_79(typ: u8) -> usize
    ensures { Figure (below79 typ) result }
{
    match typ {
        72 => 8,
        2 => 2,
        74 => 4,
        _ => 1,
    }
}

// Types 80 to 95 that no first octet tells of.
#[tactic(auto, unfolding(crate::specs::Facts::between))]
pub(crate) fn between(typ: u8) -> usize
    ensures { Figure (between typ) result }
{
    match typ {
        93 => 0,
        80 => 22,
        81 => 21,
        83 => 3,
        94 => 4,
        95 => 2,
        _ => 1,
    }
}

// Types 96 to 255.
#[tactic(auto, unfolding(crate::specs::Facts::above95))]
pub(crate) fn above_95(typ: u8) -> usize
    ensures { Figure (above95 typ) result }
{
    match typ {
        109 | 180 => 0,
        170 | 183 => 4,
        114 | 255 => 2,
        _ => 1,
    }
}

// The least length of a value of the type whose first octet is `first`.
#[tactic(auto, unfolding(crate::specs::Facts::by_range, crate::specs::Facts::least_by))]
pub fn least(typ: u8, first: u8) -> usize
    ensures { Figure (least_by typ first) result }
{
    match typ {
        79 => of_79(first),
        86 => of_86(first),
        87 => of_87(first),
        0..=78 => below_79(typ),
        80..=95 => between(typ),
        _ => above_95(typ),
    }
}

// A type's mark in the table.
#[tactic(auto, unfolding(crate::specs::Facts::mark_at, crate::specs::Facts::mark_in))]
pub(crate) fn mark(facts: &[u8; 64], typ: u8) -> Entry
    ensures { number_of result ≡ mark_in facts.now typ }
{
    let four = facts[usize::from(typ / 4)];
    match (four >> (2 * (typ % 4))) % 4 {
        0 => Entry::Nothing,
        1 => Entry::Whole,
        2 => Entry::Rest,
        _ => Entry::Group,
    }
}

// Is the type a group? The table is lent, since this says it of any table.
#[tactic(auto, unfolding(crate::specs::Facts::group_in))]
pub fn group(facts: &[u8; 64], typ: u8) -> bool
    ensures { result ≡ group_in facts.now typ }
{
    matches!(mark(facts, typ), Entry::Group)
}

// How many leading octets of a value of `len` octets are left open: none if it is set aside. A standing is a row's sixth number, and may be any.
#[tactic(auto, unfolding(crate::specs::Facts::open_in))]
pub fn open_octets(facts: &[u8; 64], typ: u8, stand: u16, len: usize) -> usize
    ensures { result ≡ open_in facts.now typ stand len }
{
    if stand == 1 || stand == 2 {
        return 0;
    }
    match mark(facts, typ) {
        Entry::Whole => 0,
        // 79 and 86 keep their first octet, where they are kept or short.
        Entry::Rest if stand < 4 => len.min(1),
        _ => len,
    }
}
