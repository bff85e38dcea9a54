//! Patterns that one location explains: failing patterns whose fails one single fault predicts exactly.
#![tactic(auto)]

mod chain_observer;
mod counts;
mod die_suspects;
mod die_trials;
mod ends;
mod failing;
mod fits;
mod kept_fits;
mod laws;
mod narrowing;
mod observer;
mod shares;
mod slat;
mod straight;
mod text;
mod views;
mod whole;
mod whole_block;

pub use laws::{bad_moves, fits_by_sum, fits_is_candidate};
pub use pattern_fits::LaneCounter;
pub use slat::{Slat, SlatCount};
pub use text::{pattern_text, slat_text};
pub use views::{slat_counts, slat_places, whole_slat};
pub use whole::WholeSlat;
