//! The list of all modelled faults, the place of each in it, and their texts.
#![tactic(auto)]

mod branches;
mod bridges;
mod cells;
mod places;
mod stems;
mod texts;
mod words;

pub use branches::branch_count;
pub use bridges::bridge_count;
pub use places::{fault_at, place_of, universe, universe_len};
pub use single_faults::{faults_of_pair, faults_per_pair};
pub use stems::stem_count;
pub use texts::{fault_text, push_branch_site, push_fault, push_stem_site};
pub use words::{chain_name, net_name, push_number, push_word};
