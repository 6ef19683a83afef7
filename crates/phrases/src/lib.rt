// What a number stands for, in words: elements' names, and sentences of numbers. The texts are data, in one table.
#![tactic(auto)]

mod finding;
pub mod names;
pub mod runs;
pub mod sections;
pub mod sentences;
mod table;
