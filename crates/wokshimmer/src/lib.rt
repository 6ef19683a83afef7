// The exports to C: numbers go as octets, and the code is the result.
#![tactic(auto)]

ghost use Rattle.std.specs.Prelude.{◌≡◌, ◌≤◌};
ghost use Rattle.rules.specs.Octets.{answer_laid};
ghost use Rattle.rules.specs.Answers.{CalledOctets, CleanedOctets, BuiltOctets, CountedOctets};
ghost use Rattle.answers.specs.Refusals.{sent_of};

use emitting::Octets;
use rules::Verdict;

// The verdict's code; its five numbers go to `five`, on acceptance the table to `table`, and the masked copy to `copy`, where 11 or 12 refuse, too.
#[unsafe(no_mangle)]
pub extern "C" fn wok_judge_copy(
    kind: u32,
    message: &[u8],
    table: &mut [u8],
    copy: &mut [u8],
    five: &mut [u8],
) -> u16
    ensures { CalledOctets kind message.now table.old copy.old five.old result table.new copy.new five.new }
{
    let verdict = calling::stored::judge_copy(kind, message, table, copy);
    octets::put_five(verdict, five);
    verdict.code
}

// The code of what is answered where a message is written, or its rows counted; its five numbers and how many octets or rows go to `answer`.
fn tell(sent: Result<usize, Verdict>, answer: &mut [u8]) -> u16
    requires { (sent_of sent).length ≤ 65535 }
    ensures code { result ≡ (sent_of sent).verdict.code }
    ensures told { answer.new ≡ answer_laid (sent_of sent).verdict (sent_of sent).length answer.old }
{
    let (v, n) = match sent {
        Ok(n) => (answers::accept(), n),
        Err(v) => (v, 0),
    };
    octets::put_answer(v, n as u16, answer);
    v.code
}

// The verdict's code; its five numbers and the length of the cleaned copy go to `answer`, and if nothing refuses the copy to `clean`.
#[unsafe(no_mangle)]
pub extern "C" fn wok_clean(kind: u32, message: &[u8], clean: &mut [u8], answer: &mut [u8]) -> u16
    ensures { CleanedOctets kind message.now clean.old answer.old result clean.new answer.new }
{
    let copied = cleaning::clean(kind, message, clean);
    tell(copied, answer)
}

// The verdict's code; its five numbers and the length of the message go to `answer`, and if nothing refuses the message to `room`. The table is lent as
// octets, two a number, and says kind and message type.
#[unsafe(no_mangle)]
pub extern "C" fn wok_build(
    teid: u32,
    sequence: u32,
    table: &[u8],
    values: &[u8],
    room: &mut [u8],
    answer: &mut [u8],
) -> u16
    ensures { BuiltOctets teid sequence table.now values.now room.old answer.old result room.new answer.new }
{
    let made = building::build(teid, sequence, Octets(table), values, room);
    tell(made, answer)
}

// The verdict's code; its five numbers and the rows go to `answer`. Nothing is lent for rows: a table of 6 numbers and 6 for each of them is long enough.
#[unsafe(no_mangle)]
pub extern "C" fn wok_rows(kind: u32, message: &[u8], answer: &mut [u8]) -> u16
    ensures { CountedOctets kind message.now answer.old result answer.new }
{
    tell(counting::count(kind, message), answer)
}
