//! The top call of the program, over words, a shelf of files, a sink of bytes, a street and a cabinet.
#![tactic(auto)]

mod top;
mod words;

pub use run_ends::finish;
pub use top::run;
