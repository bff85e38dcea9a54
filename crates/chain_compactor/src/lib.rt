//! An XOR compactor downstream of the chains of a test: the channels of a text, their logs, and what a tester sees through them.
#![tactic(auto)]

mod block_parts;
mod changes;
mod channels;
mod counting;
mod counts;
mod due;
mod in_order;
mod laws;
mod logs;
mod named;
mod names;
mod observer;
mod reading;
mod showing;
mod shown_changes;
mod tables;
mod text;
mod tracing;

pub use compact_points::{Channel, Compact, compact_expected, compact_expected_over};
pub use counting::compact_counts;
pub use laws::{compact_flips, upstream_fails};
pub use logs::read_compact_log;
pub use reading::read_channels;
pub use text::compact_text;
