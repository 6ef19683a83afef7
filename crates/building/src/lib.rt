// The builder: a message from a TEID, a sequence number, a table and a buffer of values. The table is tested first, then the message
// is made on a page of its own, and what the reading says of it decides whether it goes to the room.
#![tactic(auto)]

ghost use Rattle.std.specs.Prelude.{◌≡◌, is_err};
ghost use Rattle.rules.specs.Verdicts.{refuses};
ghost use Rattle.rules.specs.Answers.{Builds};
ghost use Rattle.answers.specs.Refusals.{sent_of};
ghost use Rattle.building.specs.Making.{Early};

use answers::Refusal;
use emitting::{Numbers, Rows};
use header::Header;
use rules::Verdict;

mod header;
mod making;

// The checks before the message is made, 1, 7, 21 and 14, and its header.
#[tactic(auto, using(rules::proofs::Reasons::some_holds, heading::proofs::Messages::listed_octet), unfolding(rules::specs::Verdicts::first, rules::specs::Verdicts::check))]
pub(crate) fn early<T: Numbers>(
    kind: u32,
    typ: u32,
    teid: u32,
    sequence: u32,
    table: T,
    values: &[u8],
) -> Result<Header, Refusal>
    ensures { Early kind typ teid sequence (T.numbers table) values.now result }
{
    if !heading::known(kind) {
        return Err(Refusal::Kind);
    }
    let Some(at) = heading::header_of(typ) else {
        return Err(Refusal::MessageType);
    };
    if !heading::sent_on(kind, typ) {
        return Err(Refusal::OtherKind);
    }
    if !given::right(sequence, table, values) {
        return Err(Refusal::Given);
    }
    Ok(Header {
        typ: typ as u8,
        teid: (at == 12).then_some(teid),
        sequence,
    })
}

// The length of the message, which stands at the start of the room, or what refuses it; a refusal writes nothing. The table says its kind and type.
#[tactic(auto, using(answers::proofs::Refusing::named_refuses))]
pub fn build<T: Numbers>(
    teid: u32,
    sequence: u32,
    table: T,
    values: &[u8],
    room: &mut [u8],
) -> Result<usize, Verdict>
    ensures sent { Builds teid sequence (T.numbers table) values.now room.old (sent_of result) room.new }
    ensures refuses { is_err result ≡ refuses (sent_of result).verdict }
{
    if table.len() < 6 {
        return Err(Refusal::Given.into());
    }
    let kind = u32::from(table.at(5));
    let typ = u32::from(table.at(4));
    let header = early(kind, typ, teid, sequence, table, values)?;
    let count = usize::from(table.at(0));
    // Each of these rows takes four octets or more, so that the sizes of so many need not be summed.
    if 1022 < count {
        return Err(Refusal::Room.into());
    }
    let rows = Rows {
        numbers: table.after(6),
        count,
    };
    making::make(kind, header, &rows, values, room)
}
