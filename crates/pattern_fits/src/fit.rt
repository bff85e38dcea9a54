//! A fault and the patterns of a block that it fits.
use bit_rows::Row;

/// The place of a fault, and the lanes of a block that it fits.
#[derive(Clone, Copy)]
pub struct Fit {
    pub place: u32,
    pub lanes: Row,
}
