//! Reports of dies and their explained patterns that are kept, so that a page or a sign-off of a revision that was asked for
//! before costs no report, and a pattern of it no count.
#![tactic(auto)]

mod cache;
mod findings;
mod key;

pub use cache::ReportCache;
pub use diagnosis::WholeReport;
