//! The diagnosis of a die: a design that was read from its texts, logs that were read for it, the die with its logs, and what is
//! made of them.
#![tactic(auto)]

mod case;
mod case_logs;
mod checked;
mod design;
mod diagnosed;
mod log;
mod logs;
mod put;
mod rows;
mod section;
mod simulation;
mod source;
mod texts;
mod view;
mod whole;

pub use case::{Case, case_diagnosis, case_report};
pub use case_logs::{CaseLogs, report_of_logs};
pub use checked::{CheckedView, check_report, make_diagnosis, make_report};
pub use design::{Design, design_of, design_with, read_bundle};
pub use design_bundle::{Sections, bundle_text};
pub use diagnosed::{Diagnosis, joined_of};
pub use log::{ReadLog, log_of, log_over};
pub use put::Put;
pub use rows::DesignRows;
pub use section::{BundleFault, DesignText, Section};
pub use simulation::{Simulation, simulated_in_threads};
pub use source::TextSource;
pub use texts::{ReadDesign, parts_of, read_from};
pub use view::DieView;
pub use whole::WholeReport;
