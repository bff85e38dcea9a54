//! A suspect with its place.
use scan_model::Fault;

/// A suspect's place and fault.
#[derive(Clone, Copy)]
pub struct Suspect {
    pub place: u32,
    pub fault: Fault,
}
