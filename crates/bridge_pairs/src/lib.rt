//! Reads lists of pairs of neighbouring nets.
#![tactic(auto)]

mod fields;
mod named_pairs;
mod ranks;
mod reached_rows;
mod reading;
mod records;
mod start_places;
mod sweep;

pub use reading::{read_pairs, read_pairs_named};
