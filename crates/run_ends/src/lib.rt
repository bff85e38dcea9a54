//! How a run ends: its last bytes are written, and its exit status says how that and all before it went.
#![tactic(auto)]

mod ending;
mod written;

pub use ending::Ending;
pub use written::{end_with, finish};
