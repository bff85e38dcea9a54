//! Work in threads: a crew that shares numbered pieces, and two jobs apart.
#![tactic(auto)]

mod apart;
mod crew;
mod sizes;

pub use apart::{join_apart, spread};
pub use crew::made_in_crew;
pub use sizes::piece_size;
