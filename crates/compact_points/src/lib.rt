//! The channels and compact points of an XOR compactor downstream of the chains of a test, and what the points show without a fault.
#![tactic(auto)]

mod compactor;
mod expected;

pub use compactor::{Channel, Compact};
pub use expected::{chain_length, compact_expected, compact_expected_over, shown_in_block};
