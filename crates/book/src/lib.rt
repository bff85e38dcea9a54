//! The book of a desk: its designs, the logs and sign-offs of their dies, and the one list of deeds that they come from.
#![tactic(auto)]

mod ahead;
mod answers;
mod book;
mod dies;
mod looks;
mod opening;
mod recording;
mod row;
mod state;

pub use answers::{LookFault, PutFault};
pub use book::Book;
pub use diagnosis::{
    BundleFault, CheckedView, Design, Diagnosis, DieView, Put, ReadLog, Section, Sections,
    bundle_text, check_report, design_of, design_with, log_of, make_diagnosis, make_report,
    read_bundle,
};
pub use die_entries::Sign;
pub use opening::{StartFault, UnopenedBook};
pub use state::{made_design_deed, made_log_deed};
