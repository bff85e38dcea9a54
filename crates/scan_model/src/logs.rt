//! What logs say: bits, ranges, groups, classes and counts.

use crate::rows::Rows;

/// A pattern at a point.
#[derive(Clone, Copy, PartialEq, Eq)]
pub struct Bit {
    pub pattern: u32,
    pub point: u32,
}

/// Tested patterns, from the first to the last.
#[derive(Clone, Copy, PartialEq, Eq)]
pub struct Range {
    pub first: u32,
    pub last: u32,
}

/// Whose bits a log lists: those of a test's points, or those of the points that a compactor leaves.
#[derive(Clone, Copy, PartialEq, Eq)]
pub enum LogForm {
    FailLog,
    CompactLog,
}

/// The version of a log's form.
#[derive(Clone, Copy, PartialEq, Eq)]
pub enum LogVersion {
    First,
    Second,
}

/// The points that a tester can cut on their own: the outputs, or the cells of the chain at a place.
#[derive(Clone, Copy, PartialEq, Eq)]
pub enum CutGroup {
    Outputs,
    Chain(u32),
}

/// What a fail log says: the ranges of tested patterns, whether the log was cut short, the failing bits in bit order, and
/// for each group that the tester cut on its own the points of the group in rising order.
#[derive(Drop)]
pub struct LogFacts {
    pub ranges: Rows<Range>,
    pub truncated: bool,
    pub fails: Rows<Bit>,
    pub cuts: Rows<Rows<u32>>,
}

/// What the logs of a die say together of a bit.
#[derive(Clone, Copy, PartialEq, Eq)]
pub enum BitClass {
    Conflict,
    Masked,
    Failing,
    Passing,
    Uncounted,
}

/// How the predictions of a fault match the logs.
#[derive(Clone, Copy, PartialEq, Eq)]
pub struct Counts {
    pub tfsf: u64,
    pub tfsp: u64,
    pub tpsf: u64,
}

/// A fault's place with its counts.
#[derive(Clone, Copy, PartialEq, Eq)]
pub struct Scored {
    pub place: u32,
    pub counts: Counts,
}
