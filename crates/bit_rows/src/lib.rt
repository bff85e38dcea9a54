//! Rows of 512 lanes, each set or not: whole rows at once, and rows that are written one lane at a time.
#![tactic(auto)]

mod row;
mod words;

pub use row::Row;
pub use words::LaneWords;
