//! Which heads are refused, and what the others ask for.
ghost use Rattle.std.specs.Prelude.{◌≡◌, ◌≤◌, ◌==◌, ◌||◌, ◌&&◌, ℕ, List, [], length, codes, nat_lt, Option, None, IfSome, IfNone};
ghost use Rattle.std.specs.List.{list_any};
ghost use Rattle.std.specs.Str.{str_eq_ignore_ascii_case};
ghost use Rattle.httparse.specs.Grammar.{RequestHead, ReadsRequest};
ghost use Rattle.httparse.specs.Spans.{IsRequestAt, IsRequestWithin};
ghost use Rattle.desk_heads.specs.Heads.{Reads, judged, checked, has_body, is_head, names_close, head_limit, HasNoEndWithin};
ghost use Rattle.desk_heads.specs.Fields.{named, content_lengths};
ghost use Rattle.desk_heads.specs.SeenHeads.{Judges, Sees};

use crate::head::fields::{CONTENT_LENGTH, Fields, TRANSFER_ENCODING};
use crate::head::head_end::head_length_past;
use crate::head::method::Method;
use crate::head::values::{is_target, method_of};
use crate::head::{Head, HeadFault, HeadSeen};
use httparse::Status;
use httparse::spans::{HeaderSpan, RequestSpans, parse_request};

/// The longest head, in bytes.
pub(crate) const HEAD_LIMIT: usize = 8192;

/// Room for the fields of a head: each has three bytes or more, so the longest head has fewer.
pub(crate) const FIELD_ROOM: usize = 2731;

// Where the parts stand, if the text is the head of a request to its last byte.
fn read_head(text: &[u8], room: &mut [HeaderSpan]) -> Option<RequestSpans>
    requires short { length text.now ≤ head_limit }
    requires room { FIELD_ROOM ≤ length room.old }
    ensures read { IfSome result (λ spans. (h : RequestHead) × ReadsRequest text.now h [] × IsRequestAt text.now room.new spans h) }
    ensures within { IfSome result (IsRequestWithin text.now room.new) }
    ensures whole { IfSome result (λ spans. spans.len ≡ length text.now) }
    ensures refused { IfNone result (Reads text.now None) }
{
    match parse_request(text, room) {
        Ok(Status::Complete(spans)) => {
            if spans.len == text.len() {
                Some(spans)
            } else {
                None
            }
        }
        Ok(Status::Partial) => None,
        Err(_) => None,
    }
}

fn has_body(method: Method) -> bool
    ensures { result ≡ has_body method }
{
    matches!(method, Method::Put | Method::Post)
}

// Whether a head with this method and these fields lacks the length of its body.
fn lacks_length(fields: &Fields<'_>, method: Method) -> bool
    ensures { result ≡ (has_body method && (length (content_lengths fields.now) == 0)) }
{
    has_body(method) && !fields.has(CONTENT_LENGTH)
}

// Whether an interim reply is awaited before the body (RFC 9110, section 10.1.1).
fn awaits(fields: &Fields<'_>, minor: u8) -> bool
    ensures { result ≡ (minor == 1 && list_any (λ value. str_eq_ignore_ascii_case value (codes "100-continue")) (named (codes "Expect") fields.now) && nat_lt 0 (length (content_lengths fields.now))) }
{
    minor == 1 && fields.expects_interim() && fields.has(CONTENT_LENGTH)
}

// Whether the connection closes after the reply.
fn closes(fields: &Fields<'_>, minor: u8, method: Method) -> bool
    ensures { result ≡ (minor == 0 || list_any names_close (named (codes "Connection") fields.now) || is_head method) }
{
    minor == 0 || fields.has_close() || matches!(method, Method::Head)
}

// The first check that refuses the head with these parts, or what it asks for.
fn checked(text: &[u8], spans: RequestSpans, room: &[HeaderSpan]) -> Result<Head, HeadFault>
    requires within { IsRequestWithin text.now room.now spans }
    requires whole { spans.len ≡ length text.now }
    ensures { (h : RequestHead) → IsRequestAt text.now room.now spans h → Judges text.now (checked h) result }
{
    let fields = Fields::of(text, &room[..spans.headers]);
    let method = method_of(spans.method.of(text));
    if fields.has(TRANSFER_ENCODING) {
        return Err(HeadFault::TransferEncoding);
    }
    if !fields.has_right_lengths() {
        return Err(HeadFault::BadRequest);
    }
    if !is_target(spans.path.of(text)) {
        return Err(HeadFault::BadRequest);
    }
    let Some(body) = fields.body_length() else {
        return Err(HeadFault::TooLarge);
    };
    if lacks_length(&fields, method) {
        return Err(HeadFault::LengthRequired);
    }
    Ok(Head {
        length: spans.len,
        method,
        target: spans.path,
        body,
        awaits: awaits(&fields, spans.version),
        closes: closes(&fields, spans.version, method),
    })
}

// The text of a head, up to and with its empty line, judged.
fn judged(text: &[u8], room: &mut [HeaderSpan]) -> Result<Head, HeadFault>
    requires short { length text.now ≤ head_limit }
    requires room { FIELD_ROOM ≤ length room.old }
    ensures { (read : Option RequestHead) × Reads text.now read × Judges text.now (judged read) result }
{
    match read_head(text, room) {
        Some(spans) => checked(text, spans, room),
        None => Err(HeadFault::BadRequest),
    }
}

/// What stands at the front of the bytes, of which the first `sought` hold no end of a head.
pub(crate) fn seen(bytes: &[u8], sought: usize, room: &mut [HeaderSpan]) -> HeadSeen
    requires sought { HasNoEndWithin sought bytes.now }
    requires room { FIELD_ROOM ≤ length room.old }
    ensures { Sees bytes.now result }
{
    let front = &bytes[..HEAD_LIMIT.min(bytes.len())];
    let Some(length) = head_length_past(front, sought) else {
        return if bytes.len() < HEAD_LIMIT {
            HeadSeen::Unended
        } else {
            HeadSeen::Refused(HeadFault::HeadTooLarge)
        };
    };
    match judged(&bytes[..length], room) {
        Ok(head) => HeadSeen::Whole(head),
        Err(fault) => HeadSeen::Refused(fault),
    }
}
