//! Replies.
ghost use Rattle.std.specs.Prelude.{◌≡◌, ◌+◌, ◌≤◌, ◌++◌, true, length, codes};
ghost use Rattle.desk_replies.specs.declared.status.Status.TheVariants as status;
ghost use Rattle.desk_replies.specs.Replies.{status_line, length_line, allow_line, connection_line, reply_head, reply_text, interim_text};

use crate::methods::Methods;
use crate::short::ShortText;
use crate::status::Status;

/// A final reply (RFC 9112, section 4), but for the bytes of its body.
#[derive(Clone, Copy)]
pub struct Reply {
    pub status: Status,
    /// The methods of the route, in a reply that refuses any other.
    pub methods: Option<Methods>,
    /// Whether no other reply follows.
    pub closes: bool,
    /// How many bytes the body has.
    pub length: usize,
}

// Adds the line of the status, of 46 bytes at most.
fn add_status(text: &mut ShortText, status: Status)
    requires { length text.old + 46 ≤ 256 }
    ensures line { text.new ≡ text.old ++ status_line status }
    ensures grown { length text.new ≤ length text.old + 46 }
{
    text.add(b"HTTP/1.1 ");
    text.add(status.code().as_str().as_bytes());
    text.add(b" ");
    text.add(status.phrase().as_bytes());
    text.add(b"\r\n");
}

// Adds the line of the length of the body, of 38 bytes at most.
fn add_length(text: &mut ShortText, size: usize)
    requires { length text.old + 38 ≤ 256 }
    ensures line { text.new ≡ text.old ++ length_line size }
    ensures grown { length text.new ≤ length text.old + 38 }
{
    text.add(b"Content-Length: ");
    text.add_number(size as u64);
    text.add(b"\r\n");
}

// Adds the line of the methods, where they are given, of 17 bytes at most.
fn add_allow(text: &mut ShortText, allow: Option<Methods>)
    requires { length text.old + 17 ≤ 256 }
    ensures line { text.new ≡ text.old ++ allow_line allow }
    ensures grown { length text.new ≤ length text.old + 17 }
{
    let Some(methods) = allow else {
        return;
    };
    text.add(b"Allow: ");
    text.add(methods.text().as_bytes());
    text.add(b"\r\n");
}

// Adds the line of a reply that closes.
fn add_connection(text: &mut ShortText, closes: bool)
    requires { length text.old + 19 ≤ 256 }
    ensures line { text.new ≡ text.old ++ connection_line closes }
    ensures grown { length text.new ≤ length text.old + 19 }
{
    if closes {
        text.add(b"Connection: close\r\n");
    }
}

impl Reply {
    /// The bytes before the body, with no memory taken.
    pub fn head(&self) -> ShortText
        ensures { result ≡ reply_head self.now.status self.now.methods self.now.closes self.now.length }
    {
        let mut text = ShortText::new();
        add_status(&mut text, self.status);
        text.add(b"Content-Type: text/plain\r\n");
        add_length(&mut text, self.length);
        add_allow(&mut text, self.methods);
        add_connection(&mut text, self.closes);
        text.add(b"\r\n");
        text
    }
}

/// The reply 503, with no memory taken.
pub fn keeper_fault(closes: bool) -> &'static [u8]
    ensures { result.now ≡ reply_text status.KeeperFault None closes (codes "keeper fault\n") }
{
    if closes {
        b"HTTP/1.1 503 Service Unavailable\r\nContent-Type: text/plain\r\nContent-Length: 13\r\nConnection: close\r\n\r\nkeeper fault\n"
    } else {
        b"HTTP/1.1 503 Service Unavailable\r\nContent-Type: text/plain\r\nContent-Length: 13\r\n\r\nkeeper fault\n"
    }
}

/// The reply 507, which closes, with no memory taken.
pub fn no_memory() -> &'static [u8]
    ensures { result.now ≡ reply_text status.NoMemory None true (codes "memory\n") }
{
    b"HTTP/1.1 507 Insufficient Storage\r\nContent-Type: text/plain\r\nContent-Length: 7\r\nConnection: close\r\n\r\nmemory\n"
}

/// The interim reply 100, which asks for the body.
pub fn interim() -> &'static [u8]
    ensures { result.now ≡ interim_text }
{
    b"HTTP/1.1 100 Continue\r\n\r\n"
}
