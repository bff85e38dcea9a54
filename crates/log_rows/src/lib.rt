//! The Failing and the Passing lanes of points in a block of 512 patterns, read off the joined logs: what tells the suspects,
//! what counts and what a report's head says of its bits.
#![tactic(auto)]

mod point_row;
mod point_rows;
mod side;
mod sides;

pub use point_row::PointRow;
pub use point_rows::{rows_of_places, rows_of_points};
pub use side::Side;
pub use sides::{side_rows, side_word};
