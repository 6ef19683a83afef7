// The standing of an element whose pair is listed, the mark that it leaves, and which of two faults comes first. Standings, marks and faults are numbers
// and no enums, since the callers' rows and states hold them, and a function answers of every number, one that is no standing too.
#![tactic(auto)]

ghost use Rattle.std.specs.Prelude.{◌≡◌, cond, not, ◌&&◌, eqb};
ghost use Rattle.rules.specs.Standing.{mark_after};
ghost use Rattle.standings.specs.Faults.{first_fault, lesser};

// A repeat where its pair may stand once and has stood, short or not; else by its size, and by what it holds.
pub fn listed_standing(many: bool, mark: u8, short: bool, over: bool) -> u8
    ensures { result ≡ cond (not many && not (eqb mark 0)) 2 (cond short 3 (cond over 4 0)) }
{
    if !many && mark != 0 {
        2
    } else if short {
        3
    } else if over {
        4
    } else {
        0
    }
}

#[tactic(auto, unfolding(rules::specs::Standing::mark_after))]
pub fn mark_after(old: u8, stand: u8) -> u8
    ensures { result ≡ mark_after old stand }
{
    if stand == 0 || stand == 4 || old == 2 {
        2
    } else {
        1
    }
}

// The first mandatory short element: `now`, of an element that stands so, if none came before. 0 is none.
pub fn first_fault(before: usize, must: bool, stand: u8, now: usize) -> usize
    ensures { result ≡ first_fault before must stand now }
{
    if before == 0 && must && stand == 3 {
        now
    } else {
        before
    }
}

// The lesser of two, 0 being none.
#[tactic(auto, unfolding(crate::specs::Faults::lesser))]
pub fn lesser_of(f: usize, l: usize) -> usize
    ensures { result ≡ lesser f l }
{
    match (f, l) {
        (f, 0) => f,
        (0, l) => l,
        (f, l) => f.min(l),
    }
}
