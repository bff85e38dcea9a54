//! Two-frame patterns and transition faults.
#![tactic(auto)]

mod counts;
mod expected;
mod fails;
mod frame_good;
mod frame_observer;
mod laws;
mod names;
mod reach;
mod reader;
mod suspects;
mod text;

pub use counts::{counts_over, frame_counts};
pub use expected::{expected_over, frame_expected};
pub use fails::slow_len;
pub use frame_good::{FrameGood, FrameScratch};
pub use frame_rows::second_frame;
pub use laws::{only_transitions, slow_operands, slow_pins, slow_stems};
pub use reader::read_two_frame;
pub use text::frame_text;
