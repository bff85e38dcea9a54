//! Fault-free rows, with what is read off the circuit once.

use lane_rows::{GoodRows, Groups, Wiring};
use place_sets::PlaceSet;

/// The fault-free values of all patterns, under whatever drives inputs and flops, and what is read off the circuit once:
/// which gates wait for a net, which points observe it, and which nets are observed at all.
#[derive(Drop)]
pub struct PackedGood {
    pub(crate) rows: GoodRows,
    pub(crate) wiring: Wiring,
    pub(crate) observed: Vec<u32>,
    pub(crate) points: Groups,
    pub(crate) observing: PlaceSet,
}

/// What is read off the circuit of a test alone, whatever its rows are.
#[derive(Drop)]
pub(crate) struct CircuitLinks {
    pub wiring: Wiring,
    pub observed: Vec<u32>,
    pub points: Groups,
    pub observing: PlaceSet,
}
