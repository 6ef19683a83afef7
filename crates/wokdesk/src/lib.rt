// The desk's page for programs in other languages, with the names of Table 8.1-1; and names alone.
#![tactic(auto)]

ghost use Rattle.wording.specs.Sheets.{Writes};
ghost use Rattle.wokdesk.specs.Pages.{Paged, name_for, Called};

use columns::View;
use phrases::names::element;
use phrases::sentences::message_name;
use wording::Sheet;

mod names;

// How many octets of the page are in the buffer. A viewer whose right is 1 sees subscribers, and one whose full is 1 values whole.
#[unsafe(no_mangle)]
pub extern "C" fn wok_show(kind: u32, right: u8, full: u8, message: &[u8], page: &mut [u8]) -> usize
    ensures { Paged kind right full message.now page.old result page.new }
{
    let view = View {
        kind,
        right: right == 1,
        full: full == 1,
    };
    showing::page(names::names(), view, message, page)
}

// The name of an element for 0, of a message for 1, and none for anything else: C asks by number.
fn put_name(what: u8, number: u8, sheet: &mut Sheet)
    ensures { Writes (name_for what number) sheet.old sheet.new }
{
    let number = u16::from(number);
    match what {
        0 => sheet.copy(element(names::names(), number)),
        1 => message_name(number, sheet),
        _ => {}
    }
}

// How many octets of a name are in the buffer.
#[unsafe(no_mangle)]
pub extern "C" fn wok_name(what: u8, number: u8, name: &mut [u8]) -> usize
    ensures { Called what number name.old result name.new }
{
    let mut sheet = Sheet::new(name, 0);
    put_name(what, number, &mut sheet);
    sheet.at()
}
