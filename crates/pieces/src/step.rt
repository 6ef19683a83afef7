// One element: its header is gathered, and once it is whole and the first value octet is there the element is taken. Its row is handed to whoever has the table.
ghost use Rattle.std.specs.Prelude.{◌≡◌, ◌≤◌};
ghost use Rattle.taking.specs.Lent.{level_of, limited_of};
ghost use Rattle.pieces.specs.Coded.{watched_by, joined_by, gather_by};
ghost use Rattle.pieces.specs.Agreements.{Watching, Adds, Taking, Takes, Heading, Strode, HeadStrode, Stepping};

use crate::{Going, Open, Stride, level};
use taking::element::take_one;
use taking::{Counts, Inside, Tally};

// What is watched after an element: one that is entered, by its limits; another may be an APN.
#[tactic(auto, unfolding(crate::specs::Coded::watched_by, crate::specs::Coded::with_watch))]
pub(crate) fn watch(w: Going, enters: Option<Inside>, n: usize, counts: Counts) -> Going
    requires { Watching w enters n }
    ensures { result ≡ watched_by w (level_of enters) (limited_of enters) n counts }
{
    match enters {
        None => Going {
            apns: w.apns + n,
            ..w
        },
        Some(inside) => Going {
            limited: inside.limited,
            apns: 0,
            back: Counts {
                kept: w.counts.kept,
                ..counts
            },
            ..w
        },
    }
}

// The counts with those of one element that was counted by itself.
pub(crate) fn joined(c: Counts, e: Counts) -> Counts
    requires { Adds c e }
    ensures { result ≡ joined_by c e }
{
    Counts {
        rows: c.rows + e.rows,
        kept: c.kept + e.kept,
        ..e
    }
}

// One element is taken at the innermost level, `came` octets of its value in this stride: 1 if the first of them, `first`, has come, or 0. It is counted by
// itself, so that its row is the first of six numbers, and then with the others.
pub(crate) fn take(kind: u32, w: Going, first: u8, came: usize) -> Stride<Going>
    requires { Taking kind w came }
    ensures { Takes kind w first came result }
{
    let h = level::head_of(&w.some, first);
    let f = w.levels[w.depth - 1];
    let lines = taking::line::of_level(f.level);
    let mut marks = f.marks;
    let mut row = [0; 6];
    let mut alone = Tally {
        counts: Counts {
            rows: 0,
            kept: 0,
            ..w.counts
        },
        rows: &mut row,
    };
    let enters = take_one(
        kind,
        f.level,
        lines,
        h,
        &[],
        w.place,
        f.parent,
        &mut marks,
        &mut alone,
    );
    let counts = joined(w.counts, alone.counts);
    let on = Open {
        marks,
        left: f.left - (4 + h.len),
        ..f
    };
    let n = taking::frames::apns(h.typ, h.inst);
    let seen = watch(w, enters, n, counts);
    let next = level::place(seen, on, enters, h.len, first, came, counts);
    Stride {
        state: level::settle(kind, next),
        taken: came,
        row: Some(row),
    }
}

// An octet of a header is gathered.
#[tactic(auto, unfolding(crate::specs::Coded::gather_by))]
pub(crate) fn gather(w: Going, x: u8) -> Going
    requires { w.have ≤ 3 }
    ensures { result ≡ gather_by w x }
{
    let mut some = w.some;
    some[w.have] = x;
    Going {
        have: w.have + 1,
        some,
        ..w
    }
}

// A header is whole: an element that is too long is cut, an empty one is taken, and so is another if the first value octet stands in `rest`; if not, it waits.
#[tactic(auto, using(crate::proofs::Headed::strode_cut, crate::proofs::Headed::strode_empty, crate::proofs::Headed::strode_waits, crate::proofs::Headed::strode_first), unfolding(crate::specs::Coded::stop))]
pub(crate) fn headed(kind: u32, w: Going, rest: &[u8]) -> Stride<Going>
    requires { Heading kind w }
    ensures { HeadStrode kind w rest.now result }
{
    let len = level::value_length(&w.some);
    if w.levels[w.depth - 1].left < 4 + len {
        return Stride {
            state: Going { stopped: true, ..w },
            taken: 0,
            row: None,
        };
    }
    match rest {
        _ if len == 0 => take(kind, w, 0, 0),
        [first, ..] => take(kind, w, *first, 1),
        [] => Stride {
            state: w,
            taken: 0,
            row: None,
        },
    }
}

// One octet, or two where it makes a header whole.
#[tactic(auto, using(crate::proofs::Headed::one_few, crate::proofs::Headed::one_three, crate::proofs::Headed::one_four, crate::proofs::Headed::ready_gather, crate::proofs::Headed::have_gather))]
pub(crate) fn one(kind: u32, w: Going, part: &[u8]) -> Stride<Going>
    requires { Stepping kind w part.now }
    ensures { Strode kind w part.now result }
{
    match w.have {
        0..=2 => Stride {
            state: gather(w, part[0]),
            taken: 1,
            row: None,
        },
        3 => {
            let s = headed(kind, gather(w, part[0]), &part[1..]);
            Stride {
                taken: 1 + s.taken,
                ..s
            }
        }
        _ => take(kind, w, part[0], 1),
    }
}
