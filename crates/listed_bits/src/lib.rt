//! The failing bits that a log lists: how far they reach, which ends they leave to a group that was cut, and their bits in tables.
#![tactic(auto)]

mod ends;
mod fails;
mod reach;

pub use ends::{cut_groups, set_ends};
pub use fails::{copy_bits, set_listed};
pub use reach::{Reach, reach_of};
