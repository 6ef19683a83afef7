// The rows of a lent table, which is made of numbers, or of octets, two to a number.
ghost use Rattle.std.specs.Prelude.{◌≡◌, ◌-◌, ◌≤◌, List, ℕ};
ghost use Rattle.rules.specs.Octets.{numbers_in};
ghost use Rattle.pieces.specs.Drafts.{blanks, stand_void, back_to};
ghost use Rattle.pieces.specs.Coded.{row_laid, row_if, feed_all_by};
ghost use Rattle.pieces.specs.Agreements.{FitsAll, GaveAll};

use crate::{Pieces, pace};

// What a table is made of.
pub trait Cell {
    ghost numbers: { List Self → List ℕ };

    // Row number n, counted from 0, has these six numbers, if there is room for it.
    fn put_row(rows: &mut [Self], n: usize, row: [u16; 6])
        requires { n ≤ 4096 }
        ensures { numbers rows.new ≡ row_laid (numbers rows.old) n row };

    // Row number m, counted from 1, is that of a void group.
    fn stand_void(rows: &mut [Self], m: usize)
        requires { m ≤ 4097 }
        ensures { numbers rows.new ≡ stand_void (numbers rows.old) m };
}

impl Cell for u16 {
    ghost numbers = { λ xs. xs };

    fn put_row(rows: &mut [u16], n: usize, row: [u16; 6]) {
        taking::element::put_row(rows, n, row[0], row[1], row[2], row[3], row[4], row[5]);
    }

    #[tactic(auto, using(crate::proofs::Alone::stand_out), unfolding(crate::specs::Drafts::stand_void))]
    fn stand_void(rows: &mut [u16], m: usize) {
        if m != 0 && 6 * m - 1 < rows.len() {
            rows[6 * m - 1] = 4;
        }
    }
}

impl Cell for u8 {
    ghost numbers = { numbers_in };

    #[tactic(auto, using(crate::proofs::Octets::row_there, crate::proofs::Octets::row_out))]
    fn put_row(rows: &mut [u8], n: usize, row: [u16; 6]) {
        let at = 12 * n;
        if at + 12 <= rows.len() {
            // one by one: an array of twelve octets would have to be filled so too
            octets::put(rows, at, row[0]);
            octets::put(rows, at + 2, row[1]);
            octets::put(rows, at + 4, row[2]);
            octets::put(rows, at + 6, row[3]);
            octets::put(rows, at + 8, row[4]);
            octets::put(rows, at + 10, row[5]);
        }
    }

    #[tactic(auto, using(crate::proofs::Octets::void_none, crate::proofs::Octets::void_out, crate::proofs::Octets::void_there))]
    fn stand_void(rows: &mut [u8], m: usize) {
        if m != 0 && 12 * m <= rows.len() {
            octets::put(rows, 12 * m - 2, 4);
        }
    }
}

// Rows m to e, without the last, are zero again.
#[tactic(auto, using(crate::proofs::Alone::blank_next, crate::proofs::Alone::blank_none))]
pub(crate) fn blank<C: Cell>(rows: &mut [C], m: usize, e: usize)
    requires { e ≤ 4097 }
    ensures { C.numbers rows.new ≡ blanks (C.numbers rows.old) m (e - m) }
{
    for j in (m..e).rev() {
        C::put_row(rows, j, [0; 6]);
    }
}

// Where e rows were made and only m there are, the others go back, and the last that stays is void.
#[tactic(auto, unfolding(crate::specs::Drafts::back_to, crate::specs::Drafts::voided))]
pub(crate) fn take_back<C: Cell>(rows: &mut [C], m: usize, e: usize)
    requires { e ≤ 4097 }
    ensures { C.numbers rows.new ≡ back_to m e (C.numbers rows.old) }
{
    if m < e {
        blank(rows, m, e);
        C::stand_void(rows, m);
    }
}

// A row's six numbers, if there is a row; then m rows there are.
pub(crate) fn write_row<C: Cell>(rows: &mut [C], n: usize, row: Option<[u16; 6]>, m: usize)
    requires { n ≤ 4096 }
    ensures { C.numbers rows.new ≡ row_if (C.numbers rows.old) n row m }
{
    if let Some(row) = row {
        C::put_row(rows, n, row);
        take_back(rows, m, n + 1);
    }
}

// The octets of a part: a stride takes as many as it can, so that no `for` goes over them.
#[tactic(auto, using(crate::proofs::Feeds::row_low, crate::proofs::Feeds::feeds_end))]
pub fn feed<C: Cell>(p: Pieces, part: &[u8], rows: &mut [C]) -> Pieces
    requires { FitsAll p }
    ensures { GaveAll result (C.numbers rows.new) (feed_all_by p part.now (C.numbers rows.old)) }
{
    let mut p = p;
    let mut rest = part;
    while !rest.is_empty() {
        let n = pace::rows(p);
        let s = pace::next(p, rest);
        write_row(rows, n, s.row, pace::rows(s.state));
        p = s.state;
        rest = &rest[s.taken..];
    }
    p
}
