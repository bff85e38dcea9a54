//! The lines of a report, each from its words, and a text in the making with the ends of its lines.
#![tactic(auto)]

mod draft;
mod lines;
mod names;
mod pieces;

pub use draft::{Draft, draft_with_room, end_line, new_draft};
pub use lines::{bit_line, bit_lines, candidate_lines, name_line, number_line};
pub use names::ReportNames;
pub use pieces::{CANDIDATE_BYTES, candidate_lines_in_pieces};
