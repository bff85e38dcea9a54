//! What is asked of the logs and sign-offs of one die: an entry that comes again, the die with some of its logs, and the digest
//! of its report at a revision.
#![tactic(auto)]

mod ahead;
mod digests;
mod entries;
mod sign;
mod views;

pub use ahead::{Foreseen, foresee, processors, view_up_to};
pub use digests::{digest_at, is_same_digest};
pub use entries::{put_sign, put_text};
pub use sign::Sign;
pub use views::view_of;
