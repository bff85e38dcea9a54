//! Deeds in a database file: a keeper and a cabinet over `sqlite`. They meet their traits and tell nothing of what the file holds.
#![tactic(auto)]

mod cabinet;
mod form;
mod keeper;
mod reading;
mod statements;
mod tables;
mod writing;

pub use cabinet::SqliteCabinet;
pub use keeper::SqliteKeeper;
