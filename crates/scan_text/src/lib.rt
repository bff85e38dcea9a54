//! Reads scan texts and pattern texts.
#![tactic(auto)]

mod chain;
mod chains;
mod pattern;
mod patterns;
mod scan;

pub use pattern::Frame;
pub use patterns::{read_framed_patterns, read_patterns};
pub use scan::{read_scan, read_scan_named};
