// The page on a message that 1 to 9 refuse: a title, and what is wrong with its figures; and its octets for a viewer with the right.
#![tactic(auto)]

ghost use Rattle.std.specs.Prelude.{◌≡◌, cond, ◌+◌, ◌*◌, ltb};
ghost use Rattle.wording.specs.Sheets.{Writes};
ghost use Rattle.refusing.specs.Refused.{refused_run, title_number, refused_page};

use columns::View;
use phrases::runs::{get_or, narrow};
use phrases::sections::Section;
use phrases::sentences::Words;
use rules::Verdict;
use wording::Sheet;

mod dumps;
mod levels;

// The length that two octets give the message, 0 if it has more than 16 bits.
fn claim(high: u8, low: u8) -> u16
    ensures { result ≡ cond (ltb 65535 (high * 256 + low + 4)) 0 (high * 256 + low + 4) }
{
    u16::from_be_bytes([high, low]).checked_add(4).unwrap_or(0)
}

// The numbers that are said of a refusal, by place, as slots ask for them. A `u32` has no `From` to a `usize`.
fn run(kind: u32, message: &[u8], v: Verdict, reason: u16) -> [u16; 14]
    ensures { result ≡ refused_run kind message.now v reason }
{
    let first = get_or(message, 0, 0);
    let (header, flag, other) = if first / 8 % 2 == 1 {
        (12, 1, 0)
    } else {
        (8, 0, 1)
    };
    [
        narrow(kind as usize),
        narrow(message.len()),
        u16::from(get_or(message, 1, 0)),
        v.code,
        v.cause,
        v.place,
        v.typ,
        v.inst,
        u16::from(first / 32),
        header,
        claim(get_or(message, 2, 0), get_or(message, 3, 0)),
        flag,
        other,
        reason,
    ]
}

// 1 to 4 say nothing of the message's type. A text's number, by the verdict's.
fn title_number(v: Verdict) -> u16
    ensures { result ≡ title_number v }
{
    if v.code < 5 { 0 } else { 1 }
}

// The page, for a verdict on a message.
pub fn refused_page(names: &[u8], view: View, v: Verdict, message: &[u8], sheet: &mut Sheet)
    ensures { Writes (refused_page names.now view v message.now) sheet.old sheet.new }
{
    let reason = levels::reason(view.kind, message, v);
    let words = Words {
        names,
        run: &run(view.kind, message, v, reason),
    };
    words.say(Section::Pages, title_number(v), sheet);
    words.say(Section::Verdicts, v.code, sheet);
    if view.right {
        dumps::dump(message, sheet);
    }
}
