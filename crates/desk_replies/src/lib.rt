//! Replies (RFC 9112): their statuses, heads and bodies, and the responses to what a book refuses.
#![tactic(auto)]

mod bodies;
mod methods;
mod reply;
mod response;
mod short;
mod status;

pub use bodies::{
    Entry, Refusal, TextKind, design_body, design_head, digest_differs_body, full_body, log_body,
    name_taken_body, sign_off_body, sign_off_line, text_fault_body, unknown_fault_body,
    unknown_line_body, unknown_pattern_body, unknown_revision_body, unknown_sign_body,
};
pub use methods::Methods;
pub use reply::{Reply, interim, keeper_fault, no_memory};
pub use response::{AnswerFault, Body, Response, put_response, refused_look};
pub use short::ShortText;
pub use status::Status;
