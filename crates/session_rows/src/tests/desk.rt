//! What the seats of a desk are told, one after the other.
mod calls;
mod runs;
