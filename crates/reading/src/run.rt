// A run of elements and the inside of a group call each other. Siblings go by a loop, so the calls are as deep as the listings.
ghost use Rattle.std.specs.Prelude.{◌+◌, length};
ghost use Rattle.rules.specs.Standing.{fresh};
ghost use Rattle.taking.specs.Held.{tallied};
ghost use Rattle.reading.specs.Scan.{scan, scan_in, Fine, Enters, Ran};

use answers::Refusal;
use taking::{Tally, element, level, line};

// The elements of a part that begins at `base`, at the level `level` whose place is `home`. Each element says where the next begins, so that no `for` goes over them.
#[cycle(enter_group_read_run)]
pub(crate) fn read_run(
    kind: u32,
    level: u8,
    part: &[u8],
    home: usize,
    base: usize,
    parent: usize,
    tally: &mut Tally,
) -> Result<(), Refusal>
    requires { Fine kind level home parent base (length part.now) tally.old.counts }
    ensures { Ran result tally.old tally.new (base + length part.now)
        (scan kind level fresh parent home base part.now (tallied tally.old)) }
{
    let lines = line::of_level(level);
    let mut seen = [0u8; 32];
    let mut at = 0;
    while at < part.len() {
        let place = base + at;
        let Some(h) = element::look(part, at) else {
            return Err(Refusal::Cut {
                place: place as u16,
            });
        };
        let value = at + 4;
        let next = value + h.len;
        let own = &part[value..next];
        let enters = element::take_one(kind, level, lines, h, own, place, parent, &mut seen, tally);
        if let Some(inside) = enters {
            enter_group(kind, inside.level, own, place, tally)?;
        }
        at = next;
    }
    tally.counts = level::close_level(kind, level, lines, &seen, home, tally.counts);
    Ok(())
}

// The inside of the kept group whose first octet is at `home`: a run like any other.
#[cycle(enter_group_read_run)]
pub(crate) fn enter_group(
    kind: u32,
    inner: u8,
    group: &[u8],
    home: usize,
    tally: &mut Tally,
) -> Result<(), Refusal>
    requires { Enters kind inner home (length group.now) tally.old.counts }
    ensures { Ran result tally.old tally.new (home + 4 + length group.now)
        (scan_in kind inner home group.now (tallied tally.old)) }
{
    read_run(kind, inner, group, home, home + 4, tally.counts.rows, tally)
}
