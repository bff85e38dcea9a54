//! The bundle of a design: its profile and its four texts in one text.
#![tactic(auto)]

mod bundle;

pub use bundle::{Sections, bundle_text, split};
