// The one call: the verdict on a message, its table and its masked copy, all from one reading of one string of octets.
#![tactic(auto)]

ghost use Rattle.std.specs.Prelude.{◌≡◌, cond, ◌*◌, ◌≤◌, [], ◌∷◌, ltb, length, is_err};
ghost use Rattle.rules.specs.Sizes.{largest_message, row_numbers};
ghost use Rattle.rules.specs.Table.{laid};
ghost use Rattle.rules.specs.Verdicts.{refuses, first};
ghost use Rattle.rules.specs.Answers.{Decided, Called};
ghost use Rattle.answers.specs.Refusals.{outcome};
ghost use Rattle.masking.specs.Clearing.{cleared_rows, Masks};
ghost use Rattle.calling.specs.Calling.{lent_on, turned, Settles, Settled};

use answers::Refusal;
use rules::{Decision, Reading, Verdict};

pub mod stored;

// What leaves all as it was lent: 1 to 9, then 13, then 10.
#[tactic(auto, unfolding(crate::specs::Calling::lent_on, rules::specs::Verdicts::first, rules::specs::Verdicts::check))]
fn early(r: Reading, size: usize, octets: usize, room: usize) -> Result<(), Verdict>
    requires { r.rows ≤ largest_message }
    ensures value { outcome result ≡ lent_on r size octets room }
    ensures refuses { is_err result ≡ refuses (lent_on r size octets room) }
{
    answers::check(r.refusal)?;
    if octets < size {
        return Err(Refusal::Copy.into());
    }
    if room < 6 + 6 * r.rows {
        return Err(Refusal::Table.into());
    }
    Ok(())
}

// What lets the copy be written, and no table: 11, then 12.
#[tactic(auto, unfolding(rules::specs::Verdicts::first))]
fn late(r: Reading) -> Result<(), Verdict>
    ensures value { outcome result ≡ first (r.short ∷ r.lack ∷ []) }
    ensures refuses { is_err result ≡ refuses (first (r.short ∷ r.lack ∷ [])) }
{
    answers::check(r.short)?;
    answers::check(r.lack)
}

// The masked copy, by a scratch that holds all rows; by any other nothing is written.
fn copy_out(rows: &[u16], count: usize, message: &[u8], copy: &mut [u8])
    requires { (count ≤ largest_message) × (row_numbers * count ≤ length rows.now → Masks rows.now message.now count (length copy.old)) }
    ensures { copy.new ≡ cond (ltb (length rows.now) (row_numbers * count)) copy.old (cleared_rows rows.now message.now count (laid message.now copy.old)) }
{
    if 6 * count <= rows.len() {
        masking::write_copy(rows, count, message, copy);
    }
}

// A verdict, with the counts of its reading.
fn turn(v: Verdict, r: Reading) -> Decision
    ensures { result ≡ turned v r }
{
    Decision {
        verdict: v,
        rows: r.rows,
        kept: r.kept,
        typ: 0,
        kind: 0,
    }
}

// The call for a table of `room` numbers, but for that table: its rows go to `rows`, as many as there is room for, and the copy is written only if all
// have room there.
pub fn decide(kind: u32, message: &[u8], rows: &mut [u16], room: usize, copy: &mut [u8]) -> Decision
    ensures { Decided kind message.now rows.old room copy.old result rows.new copy.new }
{
    let r = reading::read(kind, message, rows);
    if let Err(v) = early(r, message.len(), copy.len(), room) {
        return turn(v, r);
    }
    copy_out(rows, r.rows, message, copy);
    if let Err(v) = late(r) {
        return turn(v, r);
    }
    Decision {
        typ: u16::from(message[1]),
        kind: kind as u16,
        ..turn(answers::accept(), r)
    }
}

// On acceptance, the table from a scratch that holds its rows. `stored::store` is the same for octets: a trait over both would be longer than the two.
fn settle(d: Decision, rows: &[u16], table: &mut [u16]) -> Verdict
    requires { Settles d rows.now table.old }
    ensures { Settled d rows.now table.old result table.new }
{
    // five numbers are what C is told
    if d.verdict.code == 0 {
        judging::write_table(rows, d.rows, d.kept, d.typ, d.kind, table);
    }
    d.verdict
}

// The verdict on a message. The table is written on acceptance alone, and the copy where 11 or 12 refuse, too.
pub fn judge_copy(kind: u32, message: &[u8], table: &mut [u16], copy: &mut [u8]) -> Verdict
    ensures { Called kind message.now table.old copy.old result table.new copy.new }
{
    let mut all = [0; scratch::ALL];
    let d = decide(kind, message, &mut all, table.len(), copy);
    settle(d, &all, table)
}
