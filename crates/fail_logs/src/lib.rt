//! Reads fail logs.
#![tactic(auto)]

mod bits;
mod frame;
mod good_fail;
mod groups;
mod line;
mod log_draft;
mod number;
mod plain;
mod reading;
mod rules;
mod tables;
mod target;

pub use frame::Frame;
pub use reading::{read_framed, read_log};
pub use tables::{cell_places, chain_names};
