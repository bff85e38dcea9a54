//! The rows of the second frame of patterns that capture twice, made of those of the first, and the lanes in which a net
//! changes from the one to the other.
#![tactic(auto)]

mod launches;
mod laws;
mod second;

pub use launches::launched_lanes;
pub use laws::second_frame;
pub use second::second_rows;
