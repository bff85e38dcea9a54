//! What tracing the failing bits of a block back leaves.

use crate::net_rows::NetRows;
use lane_rows::Row;
use scan_model::Rows;

/// From where the failing bits of a block can be reached.
#[derive(Drop)]
pub struct Trace {
    /// By point: the lanes whose bit fails.
    pub fails: Rows<Row>,
    /// By net: the captured lanes in which the net reaches a failing bit.
    pub reach: NetRows,
    /// By net: the captured lanes in which the net's own cell fails.
    pub cells: NetRows,
    /// By chain: the first position from which on a fault explains a failing bit on its way out.
    pub firsts: Rows<Option<u32>>,
    /// By chain: the last position whose cell reaches a failing bit, or 0.
    pub lasts: Rows<usize>,
}
