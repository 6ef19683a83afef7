// What a viewer sees of a value: its octets, or as many as the rules leave open and that the rest is covered.
ghost use Rattle.std.specs.Prelude.{◌≡◌, ◌++◌, ◌≤◌, length, take};
ghost use Rattle.wording.specs.Sheets.{Writes};
ghost use Rattle.wording.specs.Pieces.{hexes};
ghost use Rattle.phrases.specs.Table.{covers};
ghost use Rattle.phrases.specs.Sentences.{said, narrow};
ghost use Rattle.columns.specs.Values.{type_octet, entered, seen_octets, octets_text, value_text, ending};

use crate::View;
use phrases::runs::narrow;
use phrases::sections::Section;
use phrases::sentences::Words;
use wording::Sheet;

// A type from 256 on is like 0, which is no group and not covered.
fn type_octet(typ: u16) -> u8
    ensures { result ≡ type_octet typ }
{
    u8::try_from(typ).unwrap_or(0)
}

// A kept group has no value of its own to show, since its inner rows have it. A standing is a row's sixth number, and may be any.
pub fn entered(typ: u16, stand: u16) -> bool
    ensures { result ≡ entered typ stand }
{
    stand == 0 && facts::group(facts::table(), type_octet(typ))
}

// How many leading octets of a value are seen: those that the masked copy shows, or all.
fn seen_octets(right: bool, typ: u16, stand: u16, len: usize) -> usize
    ensures { result ≡ seen_octets right typ stand len }
{
    if right {
        len
    } else {
        facts::open_octets(facts::table(), type_octet(typ), stand, len)
    }
}

// The octets in hex, 32 at most, so that a row stays one line, or all.
fn octets(full: bool, part: &[u8], sheet: &mut Sheet)
    ensures { Writes (octets_text full part.now) sheet.old sheet.new }
{
    if !full && 32 < part.len() {
        sheet.hexes(&part[..32]);
        sheet.copy(b"..");
    } else {
        sheet.hexes(part);
    }
}

// The octets that are seen, and that the rest is covered.
fn covered(words: &Words, n: usize, part: &[u8], sheet: &mut Sheet)
    requires { n ≤ length part.now }
    ensures { Writes (hexes (take n part.now) ++ said words.now.names.now words.now.run.now covers (narrow n)) sheet.old sheet.new }
{
    sheet.hexes(&part[..n]);
    words.say(Section::Covers, narrow(n), sheet);
}

fn value(words: &Words, full: bool, n: usize, part: &[u8], sheet: &mut Sheet)
    requires { n ≤ length part.now }
    ensures { Writes (value_text words.now.names.now words.now.run.now full n part.now) sheet.old sheet.new }
{
    if n == part.len() {
        octets(full, part, sheet);
    } else {
        covered(words, n, part, sheet);
    }
}

// The standing, in a column if more follows: why a void group is set aside, of which no octet is shown, or the value.
pub(crate) fn ending(
    words: &Words,
    view: View,
    typ: u16,
    stand: u16,
    part: &[u8],
    sheet: &mut Sheet,
)
    ensures { Writes (ending words.now.names.now words.now.run.now view typ stand part.now) sheet.old sheet.new }
{
    if stand == 4 {
        words.say(Section::Endings, 1, sheet);
        words.say(Section::Voids, stand, sheet);
    } else if entered(typ, stand) || part.is_empty() {
        words.say(Section::Endings, 0, sheet);
    } else {
        let n = seen_octets(view.right, typ, stand, part.len());
        words.say(Section::Endings, 1, sheet);
        value(words, view.full, n, part, sheet);
    }
}
