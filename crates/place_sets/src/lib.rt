//! Sets of places as words of 64 bits, in which a look for the next member passes by 64 empty words at once.
#![tactic(auto)]

mod place_set;

pub use place_set::PlaceSet;
