//! The bits of a point in a block that count.
use bit_rows::Row;

/// The bits of a point in a block of 512 patterns: the lanes that are Failing, and those that are Passing.
#[derive(Clone, Copy)]
pub struct PointRow {
    pub failing: Row,
    pub passing: Row,
}
