//! The tested patterns of a log: ranges of patterns, with a mark for each pattern that one holds.
#![tactic(auto)]

mod tested;

pub use tested::TestedRanges;
