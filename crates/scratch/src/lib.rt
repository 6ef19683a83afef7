// What a message is read into, room for few rows or for all, and which of them to try first; and what one is held in.
#![tactic(auto)]

ghost use Rattle.std.specs.Prelude.{◌≡◌, ◌+◌, ◌<◌, length};
ghost use Rattle.scratch.specs.Guessing.{Two, crowded};

// The numbers of a scratch for 64 rows, which most messages do not fill, and of one for the rows of any message. The language sets them to 0, which is
// what the small one saves.
pub const FEW: usize = 384;

pub const ALL: usize = 6132;

// A table with room for 1,022 rows.
pub const TABLE: usize = 6138;

// The octets that a message is held in: room for one that has 64 rows at most, and for any.
pub const SLIP: usize = 264;

pub const PAGE: usize = 4096;

// Two octets as a number, high octet first.
pub fn two(message: &[u8], at: usize) -> usize
    requires { at + 1 < length message.now }
    ensures { Two message.now at result }
{
    usize::from(u16::from_be_bytes([message[at], message[at + 1]]))
}

// Does a message look as if it had more than 64 rows? A caller who guesses by it need not read most messages twice.
pub fn crowded(message: &[u8]) -> bool
    ensures { result ≡ crowded message.now }
{
    if message.len() <= SLIP {
        return false;
    }
    let mut at = heading::start(message);
    for _ in 0..8usize {
        if message.len() < at + 4 {
            return false;
        }
        at = at + 4 + two(message, at + 1);
    }
    8 * at < message.len()
}
