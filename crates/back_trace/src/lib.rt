//! Which faults can explain a failing bit, traced back from the failing bits over the fault-free values.
#![tactic(auto)]

mod both;
mod chains;
mod keys;
mod marks;
mod reach;
mod tracing;

pub use both::mark_both;
pub use tracing::{marked_places, suspects, suspects_over};
