//! Counts of the patterns that one fault explains.
use scan_model::Rows;

/// A pattern that some fault fits, and how many do.
#[derive(Clone, Copy)]
pub struct SlatCount {
    pub pattern: u32,
    pub faults: u32,
}

/// How many patterns are failing, and those of them that some fault fits, in rising order.
#[derive(Drop)]
pub struct Slat {
    pub failing: u32,
    pub rows: Rows<SlatCount>,
}
