//! The final reply to a request: the request is answered over a seat, and its reply sent over a link.
#![tactic(auto)]

mod ends;
mod responding;
mod sending;

pub use ends::{SessionEnd, TurnEnd};
pub use responding::{Site, respond};
pub use sending::{send_no_memory, send_refusal};
