// The end of a level: which of its mandatory pairs none was kept of.
ghost use Rattle.std.specs.Prelude.{◌≡◌, not, ◌&&◌, eqb};
ghost use Rattle.rules.specs.Listings.{book};
ghost use Rattle.listings.specs.Data.{must_in, on_of_entry};
ghost use Rattle.taking.specs.Lacks.{lack_of};
ghost use Rattle.taking.specs.Held.{closed, Closes};

use crate::{Counts, element, line};

// Is a line mandatory and listed on this kind, with none of its pair kept?
pub(crate) fn line_lacks(kind: u32, line: u32, mark: u8) -> bool
    ensures { result ≡ must_in line && on_of_entry kind line && not (eqb mark 2) }
{
    line::must(line) && line::on(kind, line) && mark != 2
}

// The first mandatory line of a level, in listing order, of which none was kept; `home` is the level's place. Each line says how many after it
// are passed over, so that no `for` goes over them. 0 is none, as in the counts.
pub(crate) fn lacking(kind: u32, level: u8, lines: &[u32], seen: &[u8; 32], home: usize) -> usize
    requires { Closes kind level lines.now home }
    ensures { result ≡ lack_of book kind level seen.now home }
{
    let mut n = 0;
    while n < lines.len() {
        let line = lines[n];
        if line_lacks(kind, line, seen[n]) {
            return element::fault_at(home, line::type_of(line) as u8, line::inst_of(line) as u8);
        }
        n += 1 + line::skip(line);
    }
    0
}

// The counts at the end of a level.
#[tactic(auto, unfolding(crate::specs::Held::closed))]
pub fn close_level(
    kind: u32,
    level: u8,
    lines: &[u32],
    seen: &[u8; 32],
    home: usize,
    counts: Counts,
) -> Counts
    requires { Closes kind level lines.now home }
    ensures { result ≡ closed counts (lack_of book kind level seen.now home) }
{
    Counts {
        gap: standings::lesser_of(counts.gap, lacking(kind, level, lines, seen, home)),
        ..counts
    }
}
