// As many octets of a part at once as can be: what is only counted or passed over goes by a jump, and a header that stands in the part is gathered whole.
ghost use Rattle.std.specs.Prelude.{◌≡◌, ◌≤◌};
ghost use Rattle.pieces.specs.Coded.{count_by, with_going};
ghost use Rattle.pieces.specs.Agreements.{Idles, Passing, Strode, Striding, StrodeAll};

use crate::{Going, Pieces, Stride, message, step};

// The rows so far.
pub fn rows(p: Pieces) -> usize
    ensures { result ≡ p.going.counts.rows }
{
    p.going.counts.rows
}

// The next octets of the elements, at least one.
#[tactic(auto, using(crate::proofs::Strides::strode_pass, crate::proofs::Strides::strode_four, crate::proofs::Strides::ready_four, crate::proofs::Strides::four_have, crate::proofs::Strides::four_sized), unfolding(crate::specs::Coded::pass_by, crate::specs::Coded::gather_four))]
pub(crate) fn walk(kind: u32, w: Going, part: &[u8]) -> Stride<Going>
    requires { Passing kind w part.now }
    ensures { Strode kind w part.now result }
{
    if 0 < w.pass {
        let n = w.pass.min(part.len());
        return Stride {
            state: Going {
                pass: w.pass - n,
                ..w
            },
            taken: n,
            row: None,
        };
    }
    match part {
        [a, b, c, d, rest @ ..] if w.have == 0 => {
            let whole = Going {
                have: 4,
                some: [*a, *b, *c, *d],
                ..w
            };
            let s = step::headed(kind, whole, rest);
            Stride {
                taken: 4 + s.taken,
                ..s
            }
        }
        _ => step::one(kind, w, part),
    }
}

// How many of `n` octets are only counted: the header's after the fourth, but for its last; and all where nothing is walked.
pub(crate) fn idles(p: Pieces, n: usize) -> usize
    ensures { Idles p n result }
{
    let start = heading::start(&p.head);
    let w = p.going;
    if p.count < start {
        if p.count < 4 {
            0
        } else {
            n.min(start - 1 - p.count)
        }
    } else if w.stopped || w.pass == 0 && w.depth == 0 {
        n
    } else {
        0
    }
}

// So many octets more; past 4,096 the count stays at the first number that is too large.
#[tactic(auto, unfolding(crate::specs::Coded::count_by))]
pub(crate) fn count_on(count: usize, n: usize) -> usize
    requires { count ≤ 4097 }
    ensures { result ≡ count_by count n }
{
    count.saturating_add(n).min(4097)
}

// The state with so many octets counted more, and what is held of the elements.
pub(crate) fn counted(p: Pieces, n: usize, going: Going) -> Pieces
    requires { p.count ≤ 4097 }
    ensures { result ≡ with_going p (count_by p.count n) p.head going }
{
    Pieces {
        count: count_on(p.count, n),
        going,
        ..p
    }
}

// The next octets of a message, at least one.
#[tactic(auto, using(crate::proofs::Feeds::all_idle_is, crate::proofs::Feeds::all_head_is, crate::proofs::Feeds::all_walk_is))]
pub fn next(p: Pieces, part: &[u8]) -> Stride<Pieces>
    requires { Striding p part.now }
    ensures { StrodeAll p part.now result }
{
    let n = idles(p, part.len());
    if 0 < n {
        return Stride {
            state: counted(p, n, p.going),
            taken: n,
            row: None,
        };
    }
    if p.count < heading::start(&p.head) {
        return Stride {
            state: message::in_header(p, part[0]),
            taken: 1,
            row: None,
        };
    }
    let s = walk(p.kind, p.going, part);
    Stride {
        state: counted(p, s.taken, s.state),
        taken: s.taken,
        row: s.row,
    }
}
