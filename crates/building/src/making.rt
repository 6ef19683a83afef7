// The message that is made: on a page first, and in the room once it is known to be accepted with every row kept.
ghost use Rattle.std.specs.Prelude.{◌≡◌, ◌≤◌, is_err, length};
ghost use Rattle.rules.specs.Verdicts.{refuses};
ghost use Rattle.rules.specs.Listings.{book};
ghost use Rattle.rules.specs.Emitting.{accepted_whole};
ghost use Rattle.answers.specs.Refusals.{sent_of};
ghost use Rattle.building.specs.Making.{By, Makes, Made, sixteen};

use crate::header::Header;
use answers::Refusal;
use emitting::{Fourth, Numbers, Rows};
use rules::Verdict;

// Is it accepted, with every row kept? The counts say so, whatever room there is for rows. A reading says what refuses in verdicts, with a code of 0 where
// nothing does.
pub(crate) fn whole(kind: u32, message: &[u8]) -> bool
    ensures { result ≡ accepted_whole book kind message.now }
{
    let r = reading::read(kind, message, &mut []);
    let v = answers::first_of(r.refusal, answers::first_of(r.short, r.lack));
    v.code == 0 && r.kept == r.rows
}

// The message goes to the room, if it is right.
#[tactic(auto, using(answers::proofs::Refusing::named_refuses), unfolding(rules::specs::Verdicts::check, rules::specs::Table::laid))]
pub(crate) fn send(kind: u32, message: &[u8], room: &mut [u8]) -> Result<usize, Verdict>
    requires { length message.now ≤ length room.old }
    ensures sent { By (sixteen kind message.now) (length message.now) message.now room.old (sent_of result) room.new }
    ensures refuses { is_err result ≡ refuses (sent_of result).verdict }
{
    if !whole(kind, message) {
        return Err(Refusal::Misread.into());
    }
    let n = message.len();
    room[..n].copy_from_slice(message);
    Ok(n)
}

// The message of these rows, if it is not too long.
#[tactic(auto, using(answers::proofs::Refusing::named_refuses))]
pub(crate) fn make<T: Numbers>(
    kind: u32,
    header: Header,
    rows: &Rows<T>,
    values: &[u8],
    room: &mut [u8],
) -> Result<usize, Verdict>
    requires { Makes (T.numbers rows.now.numbers) rows.now.count values.now }
    ensures sent { Made kind header.typ header.teid header.sequence (T.numbers rows.now.numbers) rows.now.count values.now room.old (sent_of result) room.new }
    ensures refuses { is_err result ≡ refuses (sent_of result).verdict }
{
    let at = header.size();
    let n = at + rows.size();
    if 4096 < n || room.len() < n {
        return Err(Refusal::Room.into());
    }
    let mut draft = [0; scratch::PAGE];
    header.write(n, &mut draft);
    rows.put(values, Fourth::Instance, &mut draft, at);
    send(kind, &draft[..n], room)
}
