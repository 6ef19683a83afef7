// The cleaned copy of a message, to forward: without the rows set aside, at all levels, and with the lengths of groups and header put right.
#![tactic(auto)]

ghost use Rattle.std.specs.Prelude.{◌≡◌, is_err};
ghost use Rattle.rules.specs.Verdicts.{refuses};
ghost use Rattle.rules.specs.Answers.{Cleans};
ghost use Rattle.answers.specs.Refusals.{sent_of};
ghost use Rattle.cleaning.specs.Cleaning.{front_octets, Fronted, Held, Copied, Settles, Settled};

use answers::Refusal;
use emitting::{Fourth, Rows};
use rules::{Reading, Verdict};

// The header as it was received, with the length of a message of `n` octets.
pub(crate) fn put_front(message: &[u8], start: usize, n: usize, out: &mut [u8])
    requires { Fronted start n message.now out.old }
    ensures { out.new ≡ front_octets message.now start n out.old }
{
    copying::put_octets(&message[..start], &mut out[..start]);
    let [high, low] = ((n - 4) as u16).to_be_bytes();
    out[2] = high;
    out[3] = low;
}

// The copy by the rows of a message, if there is room for it.
#[tactic(auto, using(answers::proofs::Refusing::named_refuses))]
pub(crate) fn put_copy(
    rows: &Rows<&[u16]>,
    message: &[u8],
    out: &mut [u8],
) -> Result<usize, Verdict>
    requires { Held rows.now.count rows.now.numbers.now message.now }
    ensures sent { Copied rows.now.count rows.now.numbers.now message.now out.old (sent_of result) out.new }
    ensures refuses { is_err result ≡ refuses (sent_of result).verdict }
{
    let at = heading::start(message);
    let n = at + rows.size();
    if out.len() < n {
        return Err(Refusal::Copy.into());
    }
    put_front(message, at, n, out);
    rows.put(message, Fourth::Received, out, at);
    Ok(n)
}

// The cleaned copy by a reading, and a scratch that holds its rows.
pub(crate) fn settle(
    r: Reading,
    scratch: &[u16],
    message: &[u8],
    out: &mut [u8],
) -> Result<usize, Verdict>
    requires { Settles r scratch.now message.now }
    ensures sent { Settled r scratch.now message.now out.old (sent_of result) out.new }
    ensures refuses { is_err result ≡ refuses (sent_of result).verdict }
{
    let late = answers::first_of(r.short, r.lack);
    answers::check(answers::first_of(r.refusal, late))?;
    let rows = Rows {
        numbers: scratch,
        count: r.rows,
    };
    put_copy(&rows, message, out)
}

// The cleaned copy, with room for the rows of any message. It is not one function with `clean` for any size of scratch, as that would have to answer that
// its scratch was too small, which this one never is.
pub(crate) fn clean_all(kind: u32, message: &[u8], out: &mut [u8]) -> Result<usize, Verdict>
    ensures sent { Cleans kind message.now out.old (sent_of result) out.new }
    ensures refuses { is_err result ≡ refuses (sent_of result).verdict }
{
    let mut all = [0; scratch::ALL];
    let r = reading::read(kind, message, &mut all);
    settle(r, &all, message, out)
}

// The length of the cleaned copy, which stands at the start of `out`, or what refuses it; a refusal writes nothing.
pub fn clean(kind: u32, message: &[u8], out: &mut [u8]) -> Result<usize, Verdict>
    ensures sent { Cleans kind message.now out.old (sent_of result) out.new }
    ensures refuses { is_err result ≡ refuses (sent_of result).verdict }
{
    if scratch::crowded(message) {
        return clean_all(kind, message, out);
    }
    let mut few = [0; scratch::FEW];
    let r = reading::read(kind, message, &mut few);
    if 64 < r.rows {
        return clean_all(kind, message, out);
    }
    settle(r, &few, message, out)
}
