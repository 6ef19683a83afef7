// What stands over the rows: title, the numbers of the header, the verdict, and the heads of the columns.
#![tactic(auto)]

ghost use Rattle.std.specs.Prelude.{◌≡◌};
ghost use Rattle.rules.specs.Framing.{octet, flag_t};
ghost use Rattle.wording.specs.Sheets.{Writes};
ghost use Rattle.titles.specs.Titles.{top_run, header_line, title_text};

use phrases::runs::{get_or, narrow};
use phrases::sections::Section;
use phrases::sentences::Words;
use rules::Verdict;
use wording::Sheet;

fn octet(copy: &[u8], n: usize) -> u8
    ensures { result ≡ octet copy.now n }
{
    get_or(copy, n, 0)
}

// The numbers that are said. A `u32` has no `From` to a `usize`.
fn run(kind: u32, v: Verdict, table: &[u16], copy: &[u8]) -> [u16; 10]
    ensures { result ≡ top_run kind v table.now copy.now }
{
    [
        narrow(kind as usize),
        narrow(copy.len()),
        u16::from(octet(copy, 1)),
        v.code,
        v.cause,
        v.place,
        v.typ,
        v.inst,
        get_or(table, 0, 0),
        get_or(table, 1, 0),
    ]
}

fn has_teid(copy: &[u8]) -> bool
    ensures { result ≡ flag_t copy.now }
{
    octet(copy, 0) / 8 % 2 == 1
}

// TEID and sequence number, or the sequence number alone.
fn header(words: &Words, copy: &[u8], sheet: &mut Sheet)
    ensures { Writes (header_line words.now.names.now words.now.run.now copy.now) sheet.old sheet.new }
{
    if has_teid(copy) {
        words.say(Section::Headers, 0, sheet);
        sheet.hexes(&[
            octet(copy, 4),
            octet(copy, 5),
            octet(copy, 6),
            octet(copy, 7),
        ]);
        words.say(Section::Headers, 1, sheet);
        sheet.hexes(&[octet(copy, 8), octet(copy, 9), octet(copy, 10)]);
        sheet.put(b'\n');
    } else {
        words.say(Section::Headers, 2, sheet);
        sheet.hexes(&[octet(copy, 4), octet(copy, 5), octet(copy, 6)]);
        sheet.put(b'\n');
    }
}

// What stands over the rows of a table.
pub fn title(names: &[u8], kind: u32, v: Verdict, table: &[u16], copy: &[u8], sheet: &mut Sheet)
    ensures { Writes (title_text names.now kind v table.now copy.now) sheet.old sheet.new }
{
    let words = Words {
        names,
        run: &run(kind, v, table, copy),
    };
    words.say(Section::Pages, 1, sheet);
    header(&words, copy, sheet);
    words.say(Section::Verdicts, v.code, sheet);
    words.say(Section::Pages, 2, sheet);
}
