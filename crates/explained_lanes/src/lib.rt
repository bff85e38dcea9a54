//! In which lanes of a block of 512 patterns a fault explains a failing bit: by its net or its pin, from which the bit can be
//! reached, or by its place in a chain. From where the bits can be reached is given as a trace.
#![tactic(auto)]

mod explain;
mod net_rows;
mod trace;

pub use explain::{explaining_lanes, is_explained, pin_of};
pub use net_rows::NetRows;
pub use trace::Trace;
