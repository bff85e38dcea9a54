//! Heads of requests.

pub(crate) mod checks;
pub(crate) mod fields;
pub(crate) mod head_end;
pub(crate) mod method;
pub(crate) mod values;

use crate::head::method::Method;
use httparse::spans::Span;

/// Why a head is refused before a route is looked for.
#[derive(Clone, Copy, PartialEq, Eq)]
pub enum HeadFault {
    /// It isn't the head of a request, a Content-Length isn't digits alone or differs from another, or the target isn't `/` followed by
    /// letters, digits, `_`, `-`, `.` and `/`.
    BadRequest,
    /// The method is PUT or POST, and there is no Content-Length.
    LengthRequired,
    /// The Content-Length is above 16,777,216.
    TooLarge,
    /// The first 8,192 bytes hold no end of a head.
    HeadTooLarge,
    /// A Transfer-Encoding field is there.
    TransferEncoding,
}

/// A head that asks for something: how long it is, and what it asks for.
#[derive(Clone, Copy, PartialEq, Eq)]
pub struct Head {
    /// The number of its bytes, with its empty line: the body begins there.
    pub length: usize,
    pub method: Method,
    /// Where in the bytes the target stands.
    pub target: Span,
    /// The number of bytes of the body, at most 16,777,216.
    pub body: usize,
    /// Whether the body is sent only after an interim reply, `100 Continue`.
    pub awaits: bool,
    /// Whether the connection closes after the reply.
    pub closes: bool,
}

/// What stands at the front of bytes.
#[derive(Clone, Copy, PartialEq, Eq)]
pub enum HeadSeen {
    /// No whole head yet.
    Unended,
    /// A head that is refused.
    Refused(HeadFault),
    /// A head that asks for something.
    Whole(Head),
}
