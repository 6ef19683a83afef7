// The desk's page on a message, with the values that the viewer may see.
#![tactic(auto)]

ghost use Rattle.std.specs.Prelude.{◌≡◌};
ghost use Rattle.rules.specs.Sizes.{most_rows, used};
ghost use Rattle.rules.specs.Types.{among};
ghost use Rattle.verdicts.specs.Conditions.{copying_numbers};
ghost use Rattle.scratch.specs.Zeros.{Zeros};
ghost use Rattle.wording.specs.Puts.{Puts};
ghost use Rattle.wording.specs.Sheets.{Writes};
ghost use Rattle.showing.specs.Showing.{copy_room, page_of, page_on, read_page_of, Listed};

use columns::{Listing, View};
use phrases::runs::{get_or, narrow};
use rules::Verdict;
use wording::Sheet;

// The verdict on a message, its rows in a table, whether 11 or 12 refuse it or not, and its masked copy. A `u32` has no `From` to a `usize`.
fn list(kind: u32, message: &[u8], table: &mut [u16], copy: &mut [u8]) -> Verdict
    requires { Zeros (used most_rows) table.old × (copy.old ≡ copy_room message.now) }
    ensures { Listed kind message.now result table.new copy.new }
{
    let d = calling::decide(kind, message, &mut table[6..], 6138, copy);
    let typ = u16::from(get_or(message, 1, 0));
    let k = narrow(kind as usize);
    judging::write_header(d.rows, d.kept, typ, k, table);
    d.verdict
}

// Is it a verdict with which a copy is made? By its number, as the rules say it.
fn copies(v: Verdict) -> bool
    ensures { result ≡ among v.code copying_numbers }
{
    matches!(v.code, 0 | 11 | 12)
}

// The page on a message that 1 to 9 pass.
fn read_page(listing: &Listing, sheet: &mut Sheet)
    ensures { Writes (read_page_of listing.now) sheet.old sheet.new }
{
    titles::title(
        listing.names,
        listing.view.kind,
        listing.verdict,
        listing.table,
        listing.copy,
        sheet,
    );
    listing.lines(sheet);
}

// The page on a message, by way of a copy as long as it is.
fn copied_page(names: &[u8], view: View, message: &[u8], copy: &mut [u8], sheet: &mut Sheet)
    requires { copy.old ≡ copy_room message.now }
    ensures { Writes (page_of names.now view message.now) sheet.old sheet.new }
{
    let mut table = [0; scratch::TABLE];
    let verdict = list(view.kind, message, &mut table, copy);
    if copies(verdict) {
        let listing = Listing {
            names,
            view,
            verdict,
            table: &table,
            message,
            copy,
        };
        read_page(&listing, sheet);
    } else {
        refusing::refused_page(names, view, verdict, message, sheet);
    }
}

// The page on a message, of which 4,097 octets are enough to see that it is too long.
fn put_page(names: &[u8], view: View, message: &[u8], sheet: &mut Sheet)
    ensures { Writes (page_on names.now view message.now) sheet.old sheet.new }
{
    let message = &message[..message.len().min(4097)];
    let mut room = [0; 4097];
    copied_page(names, view, message, &mut room[..message.len()], sheet);
}

// How many octets of the page are in the buffer.
pub fn page(names: &[u8], view: View, message: &[u8], out: &mut [u8]) -> usize
    ensures { Puts (page_on names.now view message.now) 0 out.old result out.new }
{
    let mut sheet = Sheet::new(out, 0);
    put_page(names, view, message, &mut sheet);
    sheet.at()
}
