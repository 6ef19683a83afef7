// One element: its head, its row, its marks, and what is counted of it.
ghost use Rattle.std.specs.Prelude.{◌≡◌, ◌+◌, ◌≤◌, [], length};
ghost use Rattle.rules.specs.Frames.{element, frames_of};
ghost use Rattle.rules.specs.Standing.{is_short};
ghost use Rattle.taking.specs.Lacks.{fault};
ghost use Rattle.taking.specs.Held.{short_of, put_numbers, Adds, Added, LookedAt, Takes, Tallied};

use crate::{Inside, Tally, frames, line};
use rules::Head;

// The element at `at`, if a whole one stands there: its `whole` says so once more, as the rules' heads have it.
pub fn look(part: &[u8], at: usize) -> Option<Head>
    requires { at ≤ length part.now }
    ensures { LookedAt part.now at result }
{
    let [typ, high, low, inst, value @ ..] = &part[at..] else {
        return None;
    };
    let len = usize::from(u16::from_be_bytes([*high, *low]));
    if value.len() < len {
        return None;
    }
    Some(Head {
        whole: true,
        typ: *typ,
        inst: *inst % 16,
        len,
        first: if len == 0 { 0 } else { value[0] },
    })
}

// Is the value below its least length?
#[tactic(auto, using(facts::proofs::Facts::least_is), unfolding(rules::specs::Standing::is_short))]
pub(crate) fn is_short(h: Head) -> bool
    ensures { result ≡ is_short (element h []) }
{
    h.len < facts::least(h.typ, h.first)
}

// A place with a pair as one number, which grows with the place.
#[tactic(auto, unfolding(crate::specs::Lacks::fault))]
pub(crate) fn fault_at(place: usize, typ: u8, inst: u8) -> usize
    requires { place ≤ 4096 }
    ensures { result ≡ fault place typ inst }
{
    1 + place * 4096 + usize::from(typ) * 16 + usize::from(inst)
}

#[tactic(auto, unfolding(crate::specs::Held::short_of))]
pub(crate) fn first_short(f: usize, must: bool, stand: u8, place: usize, typ: u8, inst: u8) -> usize
    requires { place ≤ 4096 }
    ensures { result ≡ short_of f must stand place typ inst }
{
    standings::first_fault(f, must, stand, fault_at(place, typ, inst))
}

// Six numbers at a row, if there is room for it: one by one, as the contract names each, which those of an array would not be.
#[tactic(auto, unfolding(crate::specs::Held::put_numbers))]
pub fn put_row(
    rows: &mut [u16],
    row: usize,
    parent: u16,
    typ: u16,
    inst: u16,
    place: u16,
    len: u16,
    stand: u16,
)
    requires { row ≤ 4096 }
    ensures { rows.new ≡ put_numbers rows.old row parent typ inst place len stand }
{
    let at = 6 * row;
    if at + 6 <= rows.len() {
        rows[at] = parent;
        rows[at + 1] = typ;
        rows[at + 2] = inst;
        rows[at + 3] = place;
        rows[at + 4] = len;
        rows[at + 5] = stand;
    }
}

impl<'a> Tally<'a> {
    // The row of an element, which is counted; `short` is the first mandatory short one by now.
    #[tactic(auto, unfolding(crate::specs::Held::counted))]
    pub(crate) fn add(&mut self, h: Head, place: usize, parent: usize, stand: u8, short: usize)
        requires { Adds self.old.counts place parent h.len }
        ensures { Added self.old self.new h place parent stand short }
    {
        put_row(
            self.rows,
            self.counts.rows,
            parent as u16,
            u16::from(h.typ),
            u16::from(h.inst),
            (place + 4) as u16,
            h.len as u16,
            u16::from(stand),
        );
        self.counts.rows += 1;
        self.counts.kept += usize::from(stand == 0);
        self.counts.short = short;
    }
}

// An element is judged and marked at its level, its row is written, and it is counted; answers the inside to enter, if it is kept and a group. A pair
// that is not listed touches no mark. Where the octets of its value are still to come, the value is lent as empty, and no limit is passed yet.
pub fn take_one(
    kind: u32,
    level: u8,
    lines: &[u32],
    h: Head,
    value: &[u8],
    place: usize,
    parent: usize,
    seen: &mut [u8; 32],
    tally: &mut Tally,
) -> Option<Inside>
    requires { Takes kind level lines.now h (length value.now) place parent tally.old.counts }
    ensures { Tallied result seen.new tally.new kind level seen.old parent place (element h (frames_of value.now)) tally.old }
{
    let Some(n) = line::find(kind, lines, h.typ, h.inst) else {
        tally.add(h, place, parent, 1, tally.counts.short);
        return None;
    };
    let line = lines[n];
    let short = is_short(h);
    let over = frames::is_over(line, value);
    let stand = standings::listed_standing(line::many(line), seen[n], short, over);
    seen[n] = standings::mark_after(seen[n], stand);
    if stand == 0 {
        tally.add(h, place, parent, 0, tally.counts.short);
        return line::inside(line);
    }
    let first = first_short(
        tally.counts.short,
        line::must(line),
        stand,
        place,
        h.typ,
        h.inst,
    );
    tally.add(h, place, parent, stand, first);
    None
}
