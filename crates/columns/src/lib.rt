// The table in lines, one a row, with the values that the viewer may see and the row marked that a refusal names.
#![tactic(auto)]

ghost use Rattle.std.specs.Prelude.{◌≡◌};
ghost use Rattle.rules.specs.Values.{cell};
ghost use Rattle.lookup.specs.Lent.{HasRow, Asked};
ghost use Rattle.wording.specs.Sheets.{Writes};
ghost use Rattle.columns.specs.Rows.{row_run, marked, line_of, lines_of, Counted};

use phrases::runs::{get_or, narrow};
use phrases::sections::Section;
use phrases::sentences::Words;
use rules::Verdict;
use wording::Sheet;

pub mod values;

// Who looks at a message, and how: on which kind, with the right to see subscribers or without it, with values whole or cut.
#[derive(Clone, Copy)]
pub struct View {
    pub kind: u32,
    pub right: bool,
    pub full: bool,
}

// Number `j` of a row. Rows are flat numbers, as `lookup::rows` takes them.
fn cell(table: &[u16], row: usize, j: usize) -> u16
    requires { Asked table.now row j }
    ensures { result ≡ cell table.now row j }
{
    get_or(table, 6 + 6 * row + j, 0)
}

// The numbers that are said of a row, which is shown as one more.
fn row_run(table: &[u16], row: usize) -> [u16; 7]
    requires { HasRow table.now row }
    ensures { result ≡ row_run table.now row }
{
    [
        narrow(row + 1),
        cell(table, row, 0),
        cell(table, row, 1),
        cell(table, row, 2),
        cell(table, row, 3),
        cell(table, row, 4),
        cell(table, row, 5),
    ]
}

// The verdict's code where it names the element whose value is at `place`, else 0: a text's number, as `Rows.marked` has it.
fn marked(v: Verdict, place: u16) -> u16
    ensures { result ≡ marked v place }
{
    if usize::from(place) == usize::from(v.place) + 4 {
        v.code
    } else {
        0
    }
}

// What the lines are made from: a table of the elements' names, who looks, the verdict on the message, its table, the message, and its
// masked copy.
#[derive(Clone, Copy)]
pub struct Listing<'a> {
    pub names: &'a [u8],
    pub view: View,
    pub verdict: Verdict,
    pub table: &'a [u16],
    pub message: &'a [u8],
    pub copy: &'a [u8],
}

impl Listing<'_> {
    // A line for each row of the table.
    pub fn lines(&self, sheet: &mut Sheet)
        ensures { Writes (lines_of self.now) sheet.old sheet.new }
    {
        let count = lookup::rows(self.view.kind, self.message, self.table);
        for row in 0..count {
            self.line(count, row, sheet);
        }
    }

    // The line of a row of the table, which has `count` rows; its value is what the desk's lookup answers.
    fn line(&self, count: usize, row: usize, sheet: &mut Sheet)
        requires { Counted self.now.view.kind self.now.message.now self.now.table.now count row }
        ensures { Writes (line_of self.now row) sheet.old sheet.new }
    {
        let run = row_run(self.table, row);
        let [_, parent, typ, _, place, _, stand] = run;
        let part = lookup::desk_part(
            count,
            row,
            self.view.right,
            self.message,
            self.copy,
            self.table,
        );
        let words = Words {
            names: self.names,
            run: &run,
        };
        words.say(Section::Rows, parent, sheet);
        values::ending(&words, self.view, typ, stand, part, sheet);
        words.say(Section::Marks, marked(self.verdict, place), sheet);
        sheet.put(b'\n');
    }
}
