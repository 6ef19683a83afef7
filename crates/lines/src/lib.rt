// What the judge program writes: a line for a refusal, or a line of counts and a line a row.
#![tactic(auto)]

ghost use Rattle.std.specs.Prelude.{◌++◌, ◌*◌, ◌≤◌, ◌<◌, length};
ghost use Rattle.rules.specs.Listings.{book};
ghost use Rattle.rules.specs.Program.{blanked, line, text_of, input_kind, input_message, Written};
ghost use Rattle.wording.specs.Sheets.{Writes};
ghost use Rattle.lines.specs.Lines.{lines_from, Lists, list_text};

use wording::Sheet;

// A blank before each number, and a newline.
fn blanked(numbers: &[u16], sheet: &mut Sheet)
    ensures { Writes (blanked numbers.now) sheet.old sheet.new }
{
    for &n in numbers {
        sheet.next_number(n);
    }
    sheet.put(b'\n');
}

// A word and numbers.
fn said(word: &[u8], numbers: &[u16], sheet: &mut Sheet)
    ensures { Writes (word.now ++ blanked numbers.now) sheet.old sheet.new }
{
    sheet.copy(word);
    blanked(numbers, sheet);
}

// The numbers of a row.
fn row_line(row: &[u16], sheet: &mut Sheet)
    requires { 0 < length row.now }
    ensures { Writes (line row.now) sheet.old sheet.new }
{
    sheet.number(row[0]);
    blanked(&row[1..], sheet);
}

// A line for each of the first `count` rows. By their place: chunks of six would have to be told where to end first.
fn row_lines(rows: &[u16], count: usize, sheet: &mut Sheet)
    requires { 6 * count ≤ length rows.now }
    ensures { Writes (lines_from rows.now 0 count) sheet.old sheet.new }
{
    for n in 0..count {
        row_line(&rows[6 * n..6 * n + 6], sheet);
    }
}

// The text on an accepted message, by its table.
fn listed(table: &[u16], sheet: &mut Sheet)
    requires { Lists table.now }
    ensures { Writes (list_text table.now) sheet.old sheet.new }
{
    let count = table[0];
    let kept = table[1];
    said(b"accept", &[count, kept], sheet);
    row_lines(&table[6..], usize::from(count), sheet);
}

// The text on a message.
fn report(kind: u32, message: &[u8], sheet: &mut Sheet)
    ensures { Writes (text_of book kind message.now) sheet.old sheet.new }
{
    let mut table = [0; scratch::TABLE];
    let mut copy = [0; scratch::PAGE];
    let v = calling::judge_copy(kind, message, &mut table, &mut copy);
    // five numbers are what C is told, and what is written
    if v.code != 0 {
        said(b"refuse", &[v.code, v.cause, v.place, v.typ, v.inst], sheet);
    } else {
        listed(&table, sheet);
    }
}

// Of an input the first octet is the kind, and up to 4,097 more are the message.
fn answer(input: &[u8], sheet: &mut Sheet)
    ensures { Writes (text_of book (input_kind input.now) (input_message input.now)) sheet.old sheet.new }
{
    match input {
        [] => report(0, input, sheet),
        [kind, message @ ..] => {
            report(u32::from(*kind), &message[..message.len().min(4097)], sheet)
        }
    }
}

// The text on an input; answers how many octets of it are in the buffer.
pub fn text(input: &[u8], out: &mut [u8]) -> usize
    ensures { Written input.now out.old result out.new }
{
    let mut sheet = Sheet::new(out, 0);
    answer(input, &mut sheet);
    sheet.at()
}
