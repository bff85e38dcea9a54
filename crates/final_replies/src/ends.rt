//! How a session and a turn of it end.
ghost use Rattle.std.specs.Prelude.{◌≡◌, Some, None};

/// How a session ended.
#[derive(Clone, Copy, PartialEq, Eq)]
pub enum SessionEnd {
    /// A reply that closes was sent.
    Closed,
    /// The input ended between messages.
    Ended,
    /// The input ended within a message.
    Cut,
    /// The connection failed, and its count of faults rose.
    LinkFault,
    /// There was no memory to begin with: nothing was read or sent.
    NoMemory,
}

/// How a turn ended: the mark of its final reply, where its sending began, and how the session ended, if it did.
#[derive(Clone, Copy)]
pub struct TurnEnd {
    pub mark: Option<u64>,
    pub end: Option<SessionEnd>,
}

impl TurnEnd {
    /// With no final reply.
    pub fn silent(end: SessionEnd) -> TurnEnd
        ensures mark { result.mark ≡ None }
        ensures end { result.end ≡ Some end }
    {
        TurnEnd {
            mark: None,
            end: Some(end),
        }
    }
}
