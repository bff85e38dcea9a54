//! Reading a message from a connection, its head and then its body (RFC 9112, sections 2.2 and 8).

pub(crate) mod inbox;

ghost use Rattle.std.specs.Prelude.{◌≡◌, ◌≢◌, ◌+◌, ◌<◌, ◌≤◌, ℕ, List, ◌++◌, length, Err, OnOk, OnErr};
ghost use Rattle.std.specs.Io.KnownBytes.{prepend_known, IsAtEnd};
ghost use Rattle.desk_heads.specs.declared.incoming.BodyRead.{BodyRead};
ghost use Rattle.desk_heads.specs.declared.incoming.HeadRead.{HeadRead};
ghost use Rattle.desk_heads.specs.declared.incoming.ReadStop.{ReadStop};
ghost use Rattle.desk_heads.specs.InboxReads.{Grows, Loses, HasHead, EndsInPiece, HeadReads, BodyReads};
ghost use Rattle.desk_outside.specs.Faults.{Rose};

use crate::head::{Head, HeadFault, HeadSeen};
use crate::incoming::inbox::Inbox;
use desk_outside::{Link, LinkRead};
use scan_model::NoMemory;

/// How reading up to the end of a head ended.
#[derive(Clone, Copy, PartialEq, Eq)]
pub enum HeadRead {
    /// A head that is refused stands at the front.
    Refused(HeadFault),
    /// A whole head that asks for something stands at the front.
    Whole(Head),
    /// Nothing is left, and no whole head came.
    End,
    /// The connection failed, and its count of faults rose.
    LinkFault,
    /// There is no memory for the bytes of the last read, which are lost.
    NoMemory,
}

/// How reading up to the end of a body ended.
#[derive(Clone, Copy, PartialEq, Eq)]
pub enum BodyRead {
    /// All its bytes are there.
    Whole,
    /// Nothing is left, and some of its bytes didn't come.
    End,
    /// The connection failed, and its count of faults rose.
    LinkFault,
    /// There is no memory for the bytes of the last read, which are lost.
    NoMemory,
}

// Why a read brought no bytes.
#[derive(Clone, Copy, PartialEq, Eq)]
enum ReadStop {
    End,
    LinkFault,
    NoMemory,
}

// Reads once, into the piece, and adds what came to the inbox: one byte or more.
fn read_some<L: Link>(inbox: &mut Inbox, link: &mut L, piece: &mut [u8]) -> Result<(), ReadStop>
    requires { 0 < length piece.old }
    ensures comes { result ≢ Err ReadStop.NoMemory →
        prepend_known inbox.old (L.left link.old) ≡ prepend_known inbox.new (L.left link.new) }
    ensures lost { result ≡ Err ReadStop.NoMemory → Loses inbox.old (L.left link.old) inbox.new (L.left link.new) }
    ensures grows { OnOk result ((more : List ℕ) × (inbox.new ≡ inbox.old ++ more) ×
        (0 < length more) × (length more ≤ length piece.old)) }
    ensures same { OnErr result (inbox.new ≡ inbox.old) }
    ensures end { result ≡ Err ReadStop.End → IsAtEnd (L.left link.new) }
    ensures sent { L.sent link.new ≡ L.sent link.old }
    ensures later { L.faults link.old ≤ L.faults link.new }
    ensures failed { result ≡ Err ReadStop.LinkFault → Rose (L.faults link.old) (L.faults link.new) }
{
    match link.read(piece) {
        LinkRead::Got(count) => match inbox.add(&piece[..count]) {
            Ok(()) => Ok(()),
            Err(NoMemory) => Err(ReadStop::NoMemory),
        },
        LinkRead::End => Err(ReadStop::End),
        LinkRead::Failed => Err(ReadStop::LinkFault),
    }
}

/// Reads from the link, piece by piece, until a whole head, or one that is refused, stands at the front of the inbox.
/// Where one stands there already, the link isn't touched. What was in the inbox stays, whatever the answer.
pub fn read_head<L: Link>(inbox: &mut Inbox, link: &mut L, piece: &mut [u8]) -> HeadRead
    requires piece { 0 < length piece.old }
    ensures comes { result ≢ HeadRead.NoMemory →
        prepend_known inbox.old (L.left link.old) ≡ prepend_known inbox.new (L.left link.new) }
    ensures lost { result ≡ HeadRead.NoMemory → Loses inbox.old (L.left link.old) inbox.new (L.left link.new) }
    ensures grows { Grows inbox.old inbox.new }
    ensures head { HeadReads inbox.new (L.left link.new) result }

    // Nothing is read once a head is there.
    ensures there { HasHead inbox.old → link.new ≡ link.old }
    ensures needed { length inbox.old < length inbox.new → EndsInPiece (length piece.old) inbox.old inbox.new }

    ensures sent { L.sent link.new ≡ L.sent link.old }
    ensures later { L.faults link.old ≤ L.faults link.new }
    ensures failed { result ≡ HeadRead.LinkFault → Rose (L.faults link.old) (L.faults link.new) }
{
    loop {
        match inbox.head() {
            HeadSeen::Refused(fault) => return HeadRead::Refused(fault),
            HeadSeen::Whole(head) => return HeadRead::Whole(head),
            HeadSeen::Unended => {}
        }
        match read_some(inbox, link, piece) {
            Ok(()) => {}
            Err(ReadStop::End) => return HeadRead::End,
            Err(ReadStop::LinkFault) => return HeadRead::LinkFault,
            Err(ReadStop::NoMemory) => return HeadRead::NoMemory,
        }
    }
}

/// Reads from the link, piece by piece, until the inbox holds so many bytes: those of a head and its body.
/// Where they are there already, the link isn't touched. What was in the inbox stays, whatever the answer.
pub fn read_to<L: Link>(inbox: &mut Inbox, link: &mut L, piece: &mut [u8], count: usize) -> BodyRead
    requires piece { 0 < length piece.old }
    ensures comes { result ≢ BodyRead.NoMemory →
        prepend_known inbox.old (L.left link.old) ≡ prepend_known inbox.new (L.left link.new) }
    ensures lost { result ≡ BodyRead.NoMemory → Loses inbox.old (L.left link.old) inbox.new (L.left link.new) }
    ensures grows { Grows inbox.old inbox.new }
    ensures body { BodyReads count inbox.new (L.left link.new) result }

    // Nothing is read once they are there.
    ensures there { count ≤ length inbox.old → link.new ≡ link.old }
    ensures needed { length inbox.old < length inbox.new → length inbox.new < count + length piece.old }

    ensures sent { L.sent link.new ≡ L.sent link.old }
    ensures later { L.faults link.old ≤ L.faults link.new }
    ensures failed { result ≡ BodyRead.LinkFault → Rose (L.faults link.old) (L.faults link.new) }
{
    while inbox.bytes().len() < count {
        match read_some(inbox, link, piece) {
            Ok(()) => {}
            Err(ReadStop::End) => return BodyRead::End,
            Err(ReadStop::LinkFault) => return BodyRead::LinkFault,
            Err(ReadStop::NoMemory) => return BodyRead::NoMemory,
        }
    }
    BodyRead::Whole
}
