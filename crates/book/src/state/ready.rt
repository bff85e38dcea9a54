//! Changes for which all memory was taken: their deeds are made, and there is room for what they add.
use desk_outside::Deed;
use diagnosis::{Design, ReadLog};
use die_entries::Sign;
use std::sync::Arc;

/// A design that may be added.
#[derive(Drop)]
pub struct ReadyDesign {
    pub deed: Deed,
    pub(super) design: Arc<Design>,
}

/// A log that may be added to the die at a place.
#[derive(Drop)]
pub struct ReadyLog {
    pub deed: Deed,
    pub(super) place: usize,
    pub(super) log: Arc<ReadLog>,
}

/// A sign-off that may be added to the die at a place.
#[derive(Drop)]
pub struct ReadySign {
    pub deed: Deed,
    pub(super) place: usize,
    pub(super) sign: Sign,
}
