//! What single faults are and do: the faults that a pair of neighbouring nets has, what a fault forces, and what a fail is.
#![tactic(auto)]

mod effect;
mod fails;
mod pair_faults;
mod values;

pub use effect::Effect;
pub use fails::is_fail;
pub use pair_faults::{faults_of_pair, faults_per_pair};
pub use values::{bridge_value, stuck_value};
