//! Joins the logs of a die: the class of each bit over all of them, in any order and with repeats.
#![tactic(auto)]

mod coverage;
mod joined;

pub use joined::Joined;
pub use scan_model::BitClass;
