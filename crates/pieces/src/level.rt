// The open levels: closing those with nothing left, and what an element leaves of the innermost.
ghost use Rattle.std.specs.Prelude.{◌≡◌, ◌+◌, ◌≤◌, ◌<◌, Some};
ghost use Rattle.taking.specs.Lent.{level_of};
ghost use Rattle.pieces.specs.Coded.{closed_by, close_top, check_top, settle_top, head_by, into, placed_by};
ghost use Rattle.pieces.specs.Fits.{Sized};
ghost use Rattle.pieces.specs.Agreements.{Within, Placing};
ghost use Rattle.rules.specs.Framing.{value_length};

use crate::{Going, Open};
use rules::Head;
use taking::{Counts, Inside};

// The counts at the end of the innermost level, or those before its group if it held too much.
pub(crate) fn closed(kind: u32, w: Going) -> Counts
    requires { Within kind w }
    ensures { result ≡ closed_by kind w }
{
    if w.limited && 10 < w.apns {
        return w.back;
    }
    let f = w.levels[w.depth - 1];
    let lines = taking::line::of_level(f.level);
    taking::level::close_level(kind, f.level, lines, &f.marks, f.home, w.counts)
}

// The innermost level is closed if it has nothing left; the one around it is not watched.
#[tactic(auto, unfolding(crate::specs::Coded::close_top, crate::specs::Coded::with_depth))]
pub(crate) fn close_top(kind: u32, w: Going) -> Going
    requires { Sized kind w }
    ensures { result ≡ close_top kind w }
{
    if w.depth == 0 || w.levels[w.depth - 1].left != 0 {
        return w;
    }
    Going {
        depth: w.depth - 1,
        counts: closed(kind, w),
        limited: false,
        apns: 0,
        back: Counts::default(),
        ..w
    }
}

// A level with 1 to 3 octets left is cut.
#[tactic(auto, unfolding(crate::specs::Coded::check_top, crate::specs::Coded::with_have, crate::specs::Coded::stop))]
pub(crate) fn check_top(w: Going) -> Going
    requires { w.depth ≤ 3 }
    ensures { result ≡ check_top w }
{
    if w.depth == 0 {
        return Going { have: 0, ..w };
    }
    if w.levels[w.depth - 1].left < 4 {
        return Going { stopped: true, ..w };
    }
    w
}

// As many levels may be closed as may be open.
#[tactic(auto, using(crate::proofs::Fits::close_sized), unfolding(crate::specs::Coded::settle_top, crate::specs::Coded::close_tops))]
pub(crate) fn settle(kind: u32, w: Going) -> Going
    requires { Sized kind w }
    ensures { result ≡ settle_top kind w }
{
    let once = close_top(kind, w);
    let twice = close_top(kind, once);
    let thrice = close_top(kind, twice);
    check_top(thrice)
}

// The value's length, by a header.
pub(crate) fn value_length(some: &[u8; 4]) -> usize
    ensures { result ≡ value_length some.now }
{
    usize::from(u16::from_be_bytes([some[1], some[2]]))
}

// The head of the element whose header is gathered.
pub(crate) fn head_of(some: &[u8; 4], first: u8) -> Head
    ensures { result ≡ head_by some.now first }
{
    Head {
        whole: true,
        typ: some[0],
        inst: some[3] % 16,
        len: value_length(some),
        first,
    }
}

// Into a group: its level is open, and the first value octet, if it has come, is the first that is gathered there.
#[tactic(auto, unfolding(crate::specs::Coded::into))]
pub(crate) fn into(
    w: Going,
    on: Open,
    inside: Inside,
    len: usize,
    first: u8,
    came: usize,
    counts: Counts,
) -> Going
    requires { (Placing w (Some inside) len came) × (w.depth < 3) }
    ensures { result ≡ into w on inside.level len first came counts }
{
    let mut levels = w.levels;
    levels[w.depth - 1] = on;
    levels[w.depth] = Open {
        level: inside.level,
        marks: [0; 32],
        parent: counts.rows,
        home: w.place,
        left: len,
    };
    let [_, high, low, inst] = w.some;
    Going {
        stopped: false,
        depth: w.depth + 1,
        levels,
        place: w.place + 4,
        have: came,
        some: [first, high, low, inst],
        pass: 0,
        counts,
        ..w
    }
}

// Beyond an element, `came` octets of whose value have come; or into it, if it is entered and there is room for one level more.
#[tactic(auto, unfolding(crate::specs::Coded::beyond))]
pub(crate) fn place(
    w: Going,
    on: Open,
    enters: Option<Inside>,
    len: usize,
    first: u8,
    came: usize,
    counts: Counts,
) -> Going
    requires { Placing w enters len came }
    ensures { result ≡ placed_by w on (level_of enters) len first came counts }
{
    match enters {
        Some(inside) if w.depth < 3 => into(w, on, inside, len, first, came, counts),
        _ => {
            let mut levels = w.levels;
            levels[w.depth - 1] = on;
            Going {
                stopped: false,
                levels,
                place: w.place + 4 + len,
                have: 0,
                pass: len - came,
                counts,
                ..w
            }
        }
    }
}
