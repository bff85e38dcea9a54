//! Rows of 512 values, 0, 1 or X in each lane: what gates and bridges make of two of them. And the lanes of a block whose
//! patterns are of a kind.
#![tactic(auto)]

mod bridges;
mod kinds;
mod packed;

pub use bit_rows::Row;
pub use bridges::flipped_lanes;
pub use kinds::{kind_lanes, lanes_from};
pub use packed::Packed;
