//! Reads one line of an ISCAS'89 `.bench` netlist.
#![tactic(auto)]

mod driver;
mod line;
mod name_bytes;
mod parts;

pub use driver::takes_one;
pub use line::Kind;
