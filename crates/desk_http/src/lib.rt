//! The desk over HTTP: the sessions of connections over a seat, and the names of what they are made of.
#![tactic(auto)]

mod sessions;

pub use desk_answers::{BodyFault, Request, Resource, Routes, SeatAt, answer, sign_body};
pub use desk_heads::{
    BodyRead, Head, HeadFault, HeadRead, HeadSeen, Inbox, Method, read_head, read_to,
};
pub use desk_replies::{
    AnswerFault, Body, Methods, Refusal, Reply, Response, ShortText, Status, TextKind, design_body,
    design_head, digest_differs_body, full_body, interim, keeper_fault, log_body, name_taken_body,
    no_memory, sign_off_body, sign_off_line, text_fault_body, unknown_fault_body,
    unknown_line_body, unknown_pattern_body, unknown_revision_body, unknown_sign_body,
};
pub use final_replies::SessionEnd;
pub use report_cache::ReportCache;
pub use sessions::desk_session::{serve_door, session};
pub use sessions::requests::{SessionNote, session_at};
pub use sessions::serve::{Served, serve_door_at};
