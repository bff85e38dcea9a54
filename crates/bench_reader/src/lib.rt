//! Reads ISCAS'89 `.bench` netlists.
#![tactic(auto)]

mod first_round;
mod reading;
mod second_round;

pub use reading::{NamedCircuit, read_netlist, read_netlist_named};
