// The header of the message, and where its elements begin.
ghost use Rattle.std.specs.Prelude.{◌≡◌, ◌≤◌};
ghost use Rattle.pieces.specs.Coded.{entry_by, body_by, head_after, in_header_by};
ghost use Rattle.pieces.specs.Agreements.{Enters};

use crate::{CLOSED, Going, IDLE, Open, Pieces, level};

// A body that begins, before its levels are looked at.
#[tactic(auto, unfolding(crate::specs::Coded::entry_by, crate::specs::Coded::idle_by))]
pub(crate) fn entry(head: &[u8; 4], n: usize) -> Going
    requires { Enters head.now n }
    ensures { result ≡ entry_by head.now }
{
    let at = heading::start(head);
    let outer = Open {
        level: heading::body(head),
        left: n - at,
        ..CLOSED
    };
    Going {
        depth: 1,
        levels: [outer, CLOSED, CLOSED],
        place: at,
        ..IDLE
    }
}

// The elements begin, if the message will pass checks 1 to 8 with the length that its header says.
#[tactic(auto, using(crate::proofs::Begun::body_out, crate::proofs::Begun::body_in, crate::proofs::Begun::passes, crate::proofs::Begun::entering, crate::proofs::Bodies::entry_sized))]
pub(crate) fn body(kind: u32, head: &[u8; 4]) -> Going
    ensures { result ≡ body_by kind head.now }
{
    let n = heading::length_field(head) + 4;
    match heading::opening(kind, head, n) {
        Ok(()) => level::settle(kind, entry(head, n)),
        Err(_) => IDLE,
    }
}

// One more octet of the header.
#[tactic(auto, unfolding(crate::specs::Coded::head_after))]
pub(crate) fn head_on(head: [u8; 4], n: usize, x: u8) -> [u8; 4]
    ensures { result ≡ head_after head n x }
{
    let mut next = head;
    if n < 4 {
        next[n] = x;
    }
    next
}

#[tactic(auto, unfolding(crate::specs::Coded::in_header_by))]
pub(crate) fn in_header(p: Pieces, x: u8) -> Pieces
    requires { p.count ≤ 4097 }
    ensures { result ≡ in_header_by p x }
{
    let count = p.count + 1;
    let head = head_on(p.head, p.count, x);
    if count != heading::start(&head) {
        return Pieces { count, head, ..p };
    }
    let going = body(p.kind, &head);
    Pieces {
        count,
        head,
        going,
        ..p
    }
}
