// A level's lines, each a number: which of them lists a pair, and what a line says.
ghost use Rattle.std.specs.Prelude.{◌≡◌, ◌<◌, ◌/◌, ◌%◌, length};
ghost use Rattle.std.specs.List.{position};
ghost use Rattle.rules.specs.Listings.{any_instance, book, listing};
ghost use Rattle.listings.specs.Data.{entries_of, key_of, must_in, many_in, on_of_entry, skip_in, limited_in, lists_in};
ghost use Rattle.taking.specs.Lent.{Small, InnerIn};

use crate::Inside;

// The lines of a level.
pub fn of_level(level: u8) -> &'static [u32]
    requires { level < length book.levels }
    ensures { result.now ≡ entries_of (listing book level) }
{
    let numbers = listings::numbers();
    let level = usize::from(level);
    let from = numbers[level] as usize;
    let end = numbers[level + 1] as usize;
    &numbers[from..end]
}

pub(crate) fn type_of(line: u32) -> u32
    ensures { result ≡ line / 32 % 256 }
{
    line / 32 % 256
}

pub(crate) fn inst_of(line: u32) -> u32
    ensures { result ≡ line % 32 }
{
    line % 32
}

pub(crate) fn must(line: u32) -> bool
    ensures { result ≡ must_in line }
{
    line / 8192 % 2 == 1
}

pub(crate) fn many(line: u32) -> bool
    ensures { result ≡ many_in line }
{
    line / 16384 % 2 == 1
}

// Is it listed on this kind? A kind is a number, since C lends any.
#[tactic(auto, unfolding(listings::specs::Data::on_of_entry))]
pub(crate) fn on(kind: u32, line: u32) -> bool
    ensures { result ≡ on_of_entry kind line }
{
    match kind {
        1 => line / 32768 % 2 == 1,
        2 => line / 65536 % 2 == 1,
        3 => line / 131072 % 2 == 1,
        _ => line / 262144 % 2 == 1,
    }
}

// How many lines after it are passed over in a search of the mandatory ones.
pub(crate) fn skip(line: u32) -> usize
    ensures { Small result (skip_in line) }
{
    (line / 524288 % 32) as usize
}

// Has what its inside holds limits?
pub(crate) fn limited(line: u32) -> bool
    ensures { result ≡ limited_in line }
{
    line / 2147483648 % 2 == 1
}

// The inside, if its pair is a group's.
pub(crate) fn inside(line: u32) -> Option<Inside>
    ensures { InnerIn line result }
{
    match (line / 16777216 % 128) as u8 {
        0 => None,
        level => Some(Inside {
            level,
            limited: limited(line),
        }),
    }
}

// Does the line list the pair on this kind, by its own instance or by every one? Most lines are passed over by their type.
#[tactic(auto, using(crate::proofs::Keys::lists_split))]
pub(crate) fn lists(kind: u32, typ: u8, inst: u8, line: u32) -> bool
    requires { inst < any_instance }
    ensures { result ≡ lists_in kind (key_of typ inst) (key_of typ any_instance) line }
{
    let listed = inst_of(line);
    type_of(line) == u32::from(typ) && (listed == u32::from(inst) || listed == 16) && on(kind, line)
}

// The first line that lists the pair on this kind.
pub(crate) fn find(kind: u32, lines: &[u32], typ: u8, inst: u8) -> Option<usize>
    requires { inst < any_instance }
    ensures { result ≡ position (λ x. lists_in kind (key_of typ inst) (key_of typ any_instance) x) lines.now }
{
    lines.iter().position(|&line| lists(kind, typ, inst, line))
}
