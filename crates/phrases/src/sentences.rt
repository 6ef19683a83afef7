// A text with its slots filled, of a run of numbers and with a table of the elements' names.
ghost use Rattle.std.specs.Prelude.{◌≡◌};
ghost use Rattle.wording.specs.Sheets.{Writes};
ghost use Rattle.phrases.specs.Sections.{number_of};
ghost use Rattle.phrases.specs.Table.{messages, text_for};
ghost use Rattle.phrases.specs.Laid.{what_of, section_of};
ghost use Rattle.phrases.specs.Sentences.{worded, slot_text, piece_text, said};

use crate::finding::text;
use crate::names::element;
use crate::runs::get_or;
use crate::sections::Section;
use crate::table;
use wording::Sheet;

// What a slot says of its number: itself, itself unless it is 0, the name of its element, or its text in a section.
#[derive(Clone, Copy)]
pub(crate) enum Said {
    Itself,
    UnlessZero,
    Element,
    Text(Section),
}

// What sentences are filled with: a table of the elements' names, and the numbers that are said.
#[derive(Clone, Copy)]
pub struct Words<'a> {
    pub names: &'a [u8],
    pub run: &'a [u16],
}

impl Words<'_> {
    // The text that a section has for a number, with its slots filled.
    pub fn say(&self, section: Section, number: u16, sheet: &mut Sheet)
        ensures { Writes (said self.now.names.now self.now.run.now (number_of section) number) sheet.old sheet.new }
    {
        self.say_of(section.number(), number, sheet);
    }

    // The same of a section by its number, which may be any; where there is none of that number, nothing is said.
    pub fn say_of(&self, section: u8, number: u16, sheet: &mut Sheet)
        ensures { Writes (said self.now.names.now self.now.run.now section number) sheet.old sheet.new }
    {
        for &octet in text(section, number) {
            self.piece(octet, sheet);
        }
    }

    // An octet under 128 is itself.
    fn piece(&self, octet: u8, sheet: &mut Sheet)
        ensures { Writes (piece_text self.now.names.now self.now.run.now octet) sheet.old sheet.new }
    {
        match octet {
            0..=127 => sheet.put(octet),
            _ => self.slot(octet - 128, sheet),
        }
    }

    fn slot(&self, slot: u8, sheet: &mut Sheet)
        ensures { Writes (slot_text self.now.names.now self.now.run.now slot) sheet.old sheet.new }
    {
        let (said, index, width) = get_or(table::slots(), usize::from(slot), (Said::Itself, 0, 0));
        let n = get_or(self.run, usize::from(index), 0);
        self.word(said, n, usize::from(width), sheet);
    }

    fn word(&self, said: Said, n: u16, width: usize, sheet: &mut Sheet)
        ensures { Writes (worded self.now.names.now (what_of said) width (section_of said) n) sheet.old sheet.new }
    {
        match said {
            Said::Itself => sheet.right(n, width),
            Said::UnlessZero => {
                if n != 0 {
                    sheet.number(n);
                }
            }
            Said::Element => sheet.left(element(self.names, n), width),
            Said::Text(section) => sheet.left(text(section.number(), n), width),
        }
    }
}

// A message's name by its type.
pub fn message_name(typ: u16, sheet: &mut Sheet)
    ensures { Writes (text_for messages typ) sheet.old sheet.new }
{
    sheet.copy(text(Section::Messages.number(), typ));
}
