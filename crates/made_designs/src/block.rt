//! What a block has.

pub const INPUTS: u32 = 10;

pub const CELLS: u32 = 5;

pub const GATES: u32 = 100;
