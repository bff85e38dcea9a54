//! Ranking of candidates, and the report of a die.
#![tactic(auto)]

mod fails;
mod names;
mod ranking;
mod report;
mod summary;
mod tally;
mod text;

pub use fails::{fails_text, fails_text_over};
pub use names::{push_place, push_point, push_point_words};
pub use ranking::{rank, rank_by_numbers, rank_in_threads};
pub use report::{PastEnd, Report};
pub use report_lines::ReportNames;
pub use summary::summary_text;
pub use tally::{Tally, tally_bits};
pub use text::{Head, make_text, make_text_of};
