//! Expected values, made of what places show in blocks of 512 patterns.
#![tactic(auto)]

mod expected;
mod point_rows;
mod response_rows;

pub use expected::expected_of;
pub use point_rows::{PointRows, expected_at_points, point_in_block};
pub use response_rows::ResponseRows;
