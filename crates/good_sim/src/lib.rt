//! Plain simulation: the response of a fault in one pattern, and the expected values of all patterns.
#![tactic(auto)]

mod chains;
mod evaluate;
mod expected;
mod force;
mod observe;
mod response;
mod source;

pub use expected::expected_all;
pub use response::plain_response;
pub use single_faults::is_fail;
