//! Which patterns of a block a fault fits: the lanes in which no bit is against what a fault shows,
//! the faults that fit in a lane, and a number in each of 512 lanes.
#![tactic(auto)]

mod clear;
mod fit;
mod lane_counter;
mod places;

pub use clear::clear_lanes;
pub use fit::Fit;
pub use lane_counter::LaneCounter;
pub use places::{count_with, places_with};
