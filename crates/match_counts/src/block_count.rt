//! Two sums over a block.
/// What a fault explains and mispredicts in one block: how many Failing bits, and how many Passing bits, it predicts to fail.
#[derive(Clone, Copy)]
pub struct BlockCount {
    pub tfsf: u32,
    pub tpsf: u32,
}
