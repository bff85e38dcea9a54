//! Spreading a change through a circuit, 512 patterns at a time, and the fails that each fault predicts.
#![tactic(auto)]

mod cell_fails;
mod chains;
mod changed_rows;
mod fails;
mod flips;
mod force;
mod good;
mod laws;
mod made;
mod masks;
mod overlay;
mod scratch;
mod threads;

pub use fails::{is_pin_at, is_pin_of, stuck_at};
pub use good::PackedGood;
pub use laws::{fails_of_flips, more_definite};
pub use masks::{gate_of_pin, net_of_pin};
pub use overlay::Overlay;
pub use scratch::Scratch;
