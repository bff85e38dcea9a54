//! The types of scan diagnosis, and the definitions that every contract above cites.
#![tactic(auto)]

mod bits;
mod branches;
mod bridge;
mod circuit;
mod cones;
mod digest;
mod evaluation;
mod expected;
mod fault;
mod logs;
mod masks;
mod observed;
mod pair_index;
mod parts;
mod rows;
pub mod rules;
mod steps;
mod test_order;
mod values;

pub use bits::{bit, set_bit, set_bits, write_bit};
pub use bridge::Joins;
pub use circuit::{Circuit, Driver, GateKind, MakeFault, Net, Pin, PinPlace};
pub use digest::Digest;
pub use expected::Expected;
pub use fault::{BridgeKind, CellKind, Fault, Profile, Stuck};
pub use logs::{Bit, BitClass, Counts, CutGroup, LogFacts, LogForm, LogVersion, Range, Scored};
pub use masks::{mark_patterns, pattern_mask};
pub use pair_index::{PairPlace, nets_number};
pub use parts::{Chain, Pair, Pairs, Parts, Pattern, PatternKind, Point};
pub use rows::{Name, NoMemory, Rows};
pub use steps::Steps;
pub use values::{Tri, tri_and, tri_not, tri_or, tri_xor};
