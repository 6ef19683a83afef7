// What is made of a reading: the verdict by checks 1 to 12 for a table of some room, and the table.
#![tactic(auto)]

ghost use Rattle.std.specs.Prelude.{◌≡◌, [], ◌∷◌, ◌++◌, ◌≤◌, length, drop};
ghost use Rattle.rules.specs.Sizes.{largest_message, used};
ghost use Rattle.rules.specs.Table.{numbers_by, laid};
ghost use Rattle.answers.specs.Refusals.{outcome};
ghost use Rattle.judging.specs.Judging.{given, Writable};

use answers::Refusal;
use rules::{Reading, Verdict};

// Checks 1 to 12 on a reading, in their order, for a table of `room` numbers.
#[tactic(auto, unfolding(crate::specs::Judging::given, rules::specs::Verdicts::first, rules::specs::Verdicts::check))]
fn checked(r: Reading, room: usize) -> Result<(), Verdict>
    requires { r.rows ≤ largest_message }
    ensures { outcome result ≡ given r room }
{
    answers::check(r.refusal)?;
    if room < 6 + 6 * r.rows {
        return Err(Refusal::Table.into());
    }
    answers::check(r.short)?;
    answers::check(r.lack)
}

// The verdict on a reading, for a table of `room` numbers.
pub fn verdict_on(r: Reading, room: usize) -> Verdict
    requires { r.rows ≤ largest_message }
    ensures { result ≡ given r room }
{
    answers::verdict_on(checked(r, room))
}

// A table's header: rows, kept rows, place of the first row, numbers used, message type, kind.
pub fn header(n: usize, kept: usize, typ: u16, kind: u16) -> [u16; 6]
    requires { (n ≤ largest_message) × (kept ≤ n) }
    ensures { result ≡ n ∷ kept ∷ 6 ∷ used n ∷ typ ∷ kind ∷ [] }
{
    [n as u16, kept as u16, 6, (6 + 6 * n) as u16, typ, kind]
}

// The header at the start of a table.
pub fn write_header(n: usize, kept: usize, typ: u16, kind: u16, table: &mut [u16])
    requires { (n ≤ largest_message) × (kept ≤ n) × (6 ≤ length table.old) }
    ensures { table.new ≡ (n ∷ kept ∷ 6 ∷ used n ∷ typ ∷ kind ∷ []) ++ drop 6 table.old }
{
    table[..6].copy_from_slice(&header(n, kept, typ, kind));
}

// Header and rows. The four numbers are four parameters, as `octets::put_table` answers of any four.
pub fn write_table(rows: &[u16], n: usize, kept: usize, typ: u16, kind: u16, table: &mut [u16])
    requires { Writable n kept rows.now table.old }
    ensures { table.new ≡ laid (numbers_by n kept typ kind rows.now) table.old }
{
    write_header(n, kept, typ, kind, table);
    let end = 6 + 6 * n;
    table[6..end].copy_from_slice(&rows[..6 * n]);
}
