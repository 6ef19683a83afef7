// What one element does at its level, and what a level's end finds: the rules that the reading of a message follows below its header,
// whatever way its octets come. These are no entry points: a function here may ask for what its callers show.
#![tactic(auto)]

pub mod element;
pub mod frames;
pub mod level;
pub mod line;

// What is counted as elements are taken: rows, kept rows, the first mandatory short element and the first level that lacks a pair, each a
// place with a pair as one number, or 0 for none: four numbers, since a C caller keeps them as octets of a state.
#[derive(Clone, Copy, Default)]
pub struct Counts {
    pub rows: usize,
    pub kept: usize,
    pub short: usize,
    pub gap: usize,
}

// The inside of a kept group: its level, and whether what it holds has limits.
#[derive(Clone, Copy)]
pub struct Inside {
    pub level: u8,
    pub limited: bool,
}

// What is made of the elements as they are taken: the counts, and the lent table that their rows go into.
#[derive(Drop)]
pub struct Tally<'a> {
    pub counts: Counts,
    pub rows: &'a mut [u16],
}
