// What a caller hands in may be anything at all: a state is taken if its numbers are such that the sums and the marks hold. Those that a start leads to are.
ghost use Rattle.std.specs.Prelude.{◌≡◌, ◌≤◌, true, cond, eqb};
ghost use Rattle.rules.specs.Types.{among};
ghost use Rattle.rules.specs.Listings.{book};
ghost use Rattle.pieces.specs.Answers.{slot_fits, slots_fit, back_fits, waits, walk_fits};
ghost use Rattle.pieces.specs.Agreements.{Readied};

use crate::{Going, Open, Pieces, level};
use taking::Counts;

// A level that a start over one table can have opened.
#[tactic(auto, using(listings::proofs::Levels::depth), unfolding(crate::specs::Answers::slot_fits))]
pub(crate) fn fits_level(f: Open) -> bool
    ensures { result ≡ slot_fits f }
{
    f.level < 19 && f.parent <= 4096 && f.home <= 4096 && f.left <= 4096
}

// Each level fits, and from a place on they have no more octets left than a message may have.
#[tactic(auto, using(crate::proofs::Waiting::slot_left, crate::proofs::Waiting::all_fit, crate::proofs::Waiting::level_unfit, crate::proofs::Waiting::too_far, crate::proofs::Waiting::fits_on))]
pub(crate) fn fits_levels(levels: &[Open; 3], place: usize) -> bool
    requires { place ≤ 4096 }
    ensures { result ≡ slots_fit place levels.now }
{
    let mut at = place;
    for f in levels {
        if !fits_level(*f) {
            return false;
        }
        at += f.left;
        if 4096 < at {
            return false;
        }
    }
    true
}

// A header that is gathered whole is of an element that lies in its level and is not empty.
#[tactic(auto, unfolding(crate::specs::Answers::waits))]
pub(crate) fn waiting(w: Going) -> bool
    requires { w.depth ≤ 3 }
    ensures { result ≡ waits w }
{
    if w.stopped || w.depth == 0 || w.have != 4 {
        return true;
    }
    let len = level::value_length(&w.some);
    len != 0 && 4 + len <= w.levels[w.depth - 1].left
}

// No level is open on a kind that there is not.
pub(crate) fn fits_kind(kind: u32, depth: usize) -> bool
    ensures { result ≡ cond (eqb depth 0) true (among kind book.kinds) }
{
    depth == 0 || heading::known(kind)
}

// The counts to go back to are some of those there are, and the APNs have a row each.
#[tactic(auto, unfolding(crate::specs::Answers::back_fits))]
pub(crate) fn fits_back(back: Counts, rows: usize, apns: usize) -> bool
    ensures { result ≡ back_fits back rows apns }
{
    back.rows <= rows && apns <= rows - back.rows && back.kept <= back.rows
}

// Numbers that a start over one table can have come to: what the sums and the marks need.
#[tactic(auto, unfolding(crate::specs::Answers::walk_fits))]
pub(crate) fn fits(kind: u32, w: Going) -> bool
    ensures { result ≡ walk_fits kind w }
{
    w.place <= 4096
        && fits_levels(&w.levels, w.place)
        && w.depth <= 3
        && w.have <= 4
        && w.counts.rows <= w.place
        && w.counts.kept <= w.counts.rows
        && fits_back(w.back, w.counts.rows, w.apns)
        && fits_kind(kind, w.depth)
        && waiting(w)
}

// May a part or an end be taken with a table of so many numbers?
#[tactic(auto, using(crate::proofs::Tests::test_fits), unfolding(crate::specs::Answers::takes))]
pub fn ready(p: Pieces, room: usize) -> bool
    ensures { Readied p room result }
{
    !p.ended && p.room == room && p.count <= 4097 && fits(p.kind, p.going)
}
