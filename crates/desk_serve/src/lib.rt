//! The command `serve`: workers that answer the connections of one port over one desk, from the store's opening to its
//! end.
#![tactic(auto)]

mod doors;
mod lines;
mod room;
mod serving;
mod sessions;
mod workers;

pub use lines::ended;
pub use run_ends::Ending;
pub use serving::{ServiceOrder, serve};
