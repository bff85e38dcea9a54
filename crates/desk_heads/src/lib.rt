//! Requests as their bytes come (RFC 9112): the bytes that wait, the heads at their front, and the reads that fill them up to a whole
//! head or body.
#![tactic(auto)]

mod head;
mod incoming;

pub use head::method::Method;
pub use head::{Head, HeadFault, HeadSeen};
pub use incoming::inbox::Inbox;
pub use incoming::{BodyRead, HeadRead, read_head, read_to};
