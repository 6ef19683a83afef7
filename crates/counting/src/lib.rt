// How many rows a message has, before a table is lent for them.
#![tactic(auto)]

ghost use Rattle.std.specs.Prelude.{◌≡◌, is_err};
ghost use Rattle.rules.specs.Verdicts.{refuses};
ghost use Rattle.rules.specs.Answers.{Counted};
ghost use Rattle.answers.specs.Refusals.{count_of};

use rules::Verdict;

// The one reading, lent room for no row: it counts on all the same. 11 and 12 stop no count, and are not told.
pub fn count(kind: u32, message: &[u8]) -> Result<usize, Verdict>
    ensures counted { Counted kind message.now (count_of result) }
    ensures refuses { is_err result ≡ refuses (count_of result).verdict }
{
    let r = reading::read(kind, message, &mut []);
    answers::check(r.refusal)?;
    Ok(r.rows)
}
