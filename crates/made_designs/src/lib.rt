//! Designs that are made of blocks: the generator of their four texts, and the text of `demo` over one of them.
#![tactic(auto)]

mod block;
mod demo;
mod design;
mod draws;
mod names;
mod netlist;
mod pairs;
mod patterns;
mod scan;

pub use demo::{Demo, demo_text};
pub use design::{MadeDesign, made_design};
pub use draws::Draws;
