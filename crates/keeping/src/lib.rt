// A state of the pieces form as octets that a caller keeps: each part of it at a place of its own, numbers high octet first.
#![tactic(auto)]

ghost use Rattle.std.specs.Prelude.{◌≡◌, [], ◌∷◌, ◌+◌, ◌≤◌, length};
ghost use Rattle.std.proofs.lemmas.List.Edits.{sets};
ghost use Rattle.keeping.specs.Kept.{state_size, flag_of, four_of, eight_of, run, number_at, open_octets, start_octets, counts_octets, walk_octets, watch_octets, open_at, counts_at, walk_in, fields_in, kept_in, state_in};

use pieces::{Going, Open, Pieces};
use taking::Counts;

// How many octets a state has.
pub const SIZE: usize = 306;

// ---- a state into octets: each place is a figure of the format, by which it is read again

fn put<const N: usize>(octets: &[u8; N], at: usize, out: &mut [u8])
    requires { at + N ≤ length out.old }
    ensures { out.new ≡ sets out.old at (run N octets.now 0) }
{
    out[at..at + N].copy_from_slice(octets);
}

#[tactic(auto, using(crate::proofs::Storing::eight_bytes), unfolding(crate::specs::Kept::run))]
fn put_number(v: usize, at: usize, out: &mut [u8])
    requires { at + 8 ≤ length out.old }
    ensures { out.new ≡ sets out.old at (eight_of v) }
{
    put(&v.to_be_bytes(), at, out);
}

#[tactic(auto, using(crate::proofs::Storing::four_bytes), unfolding(crate::specs::Kept::run))]
fn put_kind(kind: u32, at: usize, out: &mut [u8])
    requires { at + 4 ≤ length out.old }
    ensures { out.new ≡ sets out.old at (four_of kind) }
{
    put(&kind.to_be_bytes(), at, out);
}

fn put_flag(b: bool, at: usize, out: &mut [u8])
    requires { at + 1 ≤ length out.old }
    ensures { out.new ≡ sets out.old at (flag_of b ∷ []) }
{
    out[at] = u8::from(b);
}

#[tactic(auto, using(crate::proofs::Storing::open_set))]
fn put_open(o: Open, at: usize, out: &mut [u8])
    requires { at + 57 ≤ length out.old }
    ensures { out.new ≡ sets out.old at (open_octets o) }
{
    out[at] = o.level;
    put(&o.marks, at + 1, out);
    put_number(o.parent, at + 33, out);
    put_number(o.home, at + 41, out);
    put_number(o.left, at + 49, out);
}

// Kind, room, ended, count, head.
#[tactic(auto, using(crate::proofs::Storing::start_set))]
fn put_start(p: Pieces, out: &mut [u8])
    requires { state_size ≤ length out.old }
    ensures { out.new ≡ sets out.old 0 (start_octets p) }
{
    put_kind(p.kind, 0, out);
    put_number(p.room, 4, out);
    put_flag(p.ended, 12, out);
    put_number(p.count, 13, out);
    put(&p.head, 21, out);
}

#[tactic(auto, using(crate::proofs::Storing::counts_set))]
fn put_counts(c: Counts, at: usize, out: &mut [u8])
    requires { at + 32 ≤ length out.old }
    ensures { out.new ≡ sets out.old at (counts_octets c) }
{
    put_number(c.rows, at, out);
    put_number(c.kept, at + 8, out);
    put_number(c.short, at + 16, out);
    put_number(c.gap, at + 24, out);
}

// Stopped, depth, place, have, some, pass, and the counts.
#[tactic(auto, using(crate::proofs::Storing::walk_set))]
fn put_walk(w: Going, out: &mut [u8])
    requires { state_size ≤ length out.old }
    ensures { out.new ≡ sets out.old 25 (walk_octets w) }
{
    put_flag(w.stopped, 25, out);
    put_number(w.depth, 26, out);
    put_number(w.place, 34, out);
    put_number(w.have, 42, out);
    put(&w.some, 50, out);
    put_number(w.pass, 54, out);
    put_counts(w.counts, 62, out);
}

// Limited, the APNs so far, and the counts to go back to.
#[tactic(auto, using(crate::proofs::Storing::watch_set))]
fn put_watch(w: Going, out: &mut [u8])
    requires { state_size ≤ length out.old }
    ensures { out.new ≡ sets out.old 94 (watch_octets w) }
{
    put_flag(w.limited, 94, out);
    put_number(w.apns, 95, out);
    put_counts(w.back, 103, out);
}

// A buffer that is too short is left alone.
#[tactic(auto, using(crate::proofs::Storing::unkept, crate::proofs::Storing::state_kept))]
pub fn keep(p: Pieces, state: &mut [u8])
    ensures { state.new ≡ kept_in p state.old }
{
    if state.len() < SIZE {
        return;
    }
    let [outer, inner, innermost] = p.going.levels;
    put_start(p, state);
    put_walk(p.going, state);
    put_watch(p.going, state);
    put_open(outer, 135, state);
    put_open(inner, 192, state);
    put_open(innermost, 249, state);
}

// ---- octets into a state

fn octets_at<const N: usize>(s: &[u8], at: usize) -> [u8; N]
    requires { at + N ≤ length s.now }
    ensures { result ≡ run N s.now at }
{
    let mut octets = [0; N];
    octets.copy_from_slice(&s[at..at + N]);
    octets
}

#[tactic(auto, using(crate::proofs::Loading::eight_read))]
fn number_at(s: &[u8], at: usize) -> usize
    requires { at + 8 ≤ length s.now }
    ensures { result ≡ number_at s.now at }
{
    usize::from_be_bytes(octets_at(s, at))
}

#[tactic(auto, unfolding(crate::specs::Kept::open_at))]
fn open_at(s: &[u8], at: usize) -> Open
    requires { at + 57 ≤ length s.now }
    ensures { result ≡ open_at s.now at }
{
    Open {
        level: s[at],
        marks: octets_at(s, at + 1),
        parent: number_at(s, at + 33),
        home: number_at(s, at + 41),
        left: number_at(s, at + 49),
    }
}

#[tactic(auto, unfolding(crate::specs::Kept::counts_at))]
fn counts_at(s: &[u8], at: usize) -> Counts
    requires { at + 32 ≤ length s.now }
    ensures { result ≡ counts_at s.now at }
{
    Counts {
        rows: number_at(s, at),
        kept: number_at(s, at + 8),
        short: number_at(s, at + 16),
        gap: number_at(s, at + 24),
    }
}

#[tactic(auto, unfolding(crate::specs::Kept::walk_in, crate::specs::Kept::opens_at))]
fn walk_in(s: &[u8]) -> Going
    requires { state_size ≤ length s.now }
    ensures { result ≡ walk_in s.now }
{
    let outer = open_at(s, 135);
    let inner = open_at(s, 192);
    let innermost = open_at(s, 249);
    Going {
        stopped: s[25] != 0,
        depth: number_at(s, 26),
        levels: [outer, inner, innermost],
        place: number_at(s, 34),
        have: number_at(s, 42),
        some: octets_at(s, 50),
        pass: number_at(s, 54),
        counts: counts_at(s, 62),
        limited: s[94] != 0,
        apns: number_at(s, 95),
        back: counts_at(s, 103),
    }
}

#[tactic(auto, using(crate::proofs::Loading::four_read), unfolding(crate::specs::Kept::fields_in))]
fn fields_in(s: &[u8]) -> Pieces
    requires { state_size ≤ length s.now }
    ensures { result ≡ fields_in s.now }
{
    Pieces {
        kind: u32::from_be_bytes(octets_at(s, 0)),
        room: number_at(s, 4),
        ended: s[12] != 0,
        count: number_at(s, 13),
        head: octets_at(s, 21),
        going: walk_in(s),
    }
}

// A buffer that is too short is read as zeros.
#[tactic(auto, unfolding(crate::specs::Kept::state_in))]
pub fn kept(state: &[u8]) -> Pieces
    ensures { result ≡ state_in state.now }
{
    if state.len() < SIZE {
        return fields_in(&[0; SIZE]);
    }
    fields_in(state)
}
