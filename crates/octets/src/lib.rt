// Numbers stored as octets, two octets a number, high octet first.
#![tactic(auto)]

ghost use Rattle.std.specs.Prelude.{◌≡◌, [], ◌∷◌, ◌++◌, ◌+◌, ◌*◌, ◌<◌, ◌≤◌, length, drop};
ghost use Rattle.rules.specs.Sizes.{largest_message, used};
ghost use Rattle.rules.specs.Table.{laid};
ghost use Rattle.rules.specs.Octets.{octets_of, five_laid, answer_laid};
ghost use Rattle.octets.specs.Stored.{put2, table_stored};

use rules::Verdict;

// One number, at a place.
pub fn put(out: &mut [u8], at: usize, v: u16)
    requires { at + 1 < length out.old }
    ensures { out.new ≡ put2 out.old at v }
{
    out[at..at + 2].copy_from_slice(&v.to_be_bytes());
}

// Numbers one after another, from the start on.
fn put_all(numbers: &[u16], out: &mut [u8])
    requires { 2 * length numbers.now ≤ length out.old }
    ensures { out.new ≡ laid (octets_of numbers.now) out.old }
{
    for (i, number) in numbers.iter().enumerate() {
        put(out, 2 * i, *number);
    }
}

// The five numbers of a verdict. A buffer under 10 octets is not written.
#[tactic(auto, unfolding(rules::specs::Octets::five_laid))]
pub fn put_five(v: Verdict, five: &mut [u8])
    ensures { five.new ≡ five_laid v five.old }
{
    if five.len() < 10 {
        return;
    }
    put_all(&[v.code, v.cause, v.place, v.typ, v.inst], five);
}

// The five numbers, and the length of what is written. A buffer under 12 octets is not written.
#[tactic(auto, unfolding(rules::specs::Octets::answer_laid))]
pub fn put_answer(v: Verdict, length: u16, answer: &mut [u8])
    ensures { answer.new ≡ answer_laid v length answer.old }
{
    if answer.len() < 12 {
        return;
    }
    put_all(&[v.code, v.cause, v.place, v.typ, v.inst, length], answer);
}

// A table's header: rows, kept rows, place of the first row, numbers used, message type, kind.
#[tactic(auto, unfolding(rules::specs::Table::laid, rules::specs::Octets::octets_of))]
pub fn put_header(n: usize, kept: usize, typ: u16, kind: u16, table: &mut [u8])
    requires { (n ≤ largest_message) × (kept ≤ n) × (12 ≤ length table.old) }
    ensures { table.new ≡ octets_of (n ∷ kept ∷ 6 ∷ used n ∷ typ ∷ kind ∷ []) ++ drop 12 table.old }
{
    put_all(&judging::header(n, kept, typ, kind), table);
}

// As `judging::write_table` writes numbers; a trait over both kinds of table would say no more than the two calls that each makes.
// The table of the first `n` rows of `rows`, six numbers each, of a message type and a kind. Nothing is written if it does not fit.
#[tactic(auto, unfolding(crate::specs::Stored::table_stored, crate::specs::Stored::misfit))]
pub fn put_table(rows: &[u16], n: usize, kept: usize, typ: u16, kind: u16, table: &mut [u8])
    ensures { table.new ≡ table_stored rows.now n kept typ kind table.old }
{
    if 1022 < n || n < kept || rows.len() < 6 * n || table.len() < 2 * (6 + 6 * n) {
        return;
    }
    put_header(n, kept, typ, kind, table);
    put_all(&rows[..6 * n], &mut table[12..]);
}
