//! A connection: bytes that are read, and bytes that are sent.
ghost use Rattle.std.specs.Prelude.{◌≡◌, ◌≤◌, ◌<◌, ℕ, List, Option, IfOk, OnOk, OnErr, length, take};
ghost use Rattle.std.specs.Io.KnownBytes.{append_known};
ghost use Rattle.desk_outside.specs.declared.link.LinkRead.{LinkRead};
ghost use Rattle.desk_outside.specs.Bytes.{AddsPart};
ghost use Rattle.desk_outside.specs.Faults.{Rose};
ghost use Rattle.desk_outside.specs.LinkReads.{HasRoomFor, Takes};

use crate::calls::Failed;

/// How a read of a connection ended.
#[derive(Clone, Copy, PartialEq, Eq)]
pub enum LinkRead {
    /// That many bytes were read.
    Got(usize),
    /// Nothing is left.
    End,
    /// The connection failed, and its count of faults rose.
    Failed,
}

/// A connection. A call that fails leaves what was sent and what is left as they were.
pub trait Link: Drop {
    /// The bytes that are left to read, where the link tells them.
    ghost left: { Self → Option (List ℕ) };

    /// The bytes that were sent, where the link tells them.
    ghost sent: { Self → Option (List ℕ) };

    /// How often it has failed. The count never falls, and stays at 2^64 - 1 once it is there.
    ghost faults: { Self → ℕ };

    /// Reads bytes to the front of `into`, and answers how many: one or more where there is room. The end comes only
    /// where nothing is left.
    fn read(&mut self, into: &mut [u8]) -> LinkRead
        ensures within { HasRoomFor result into.new }
        ensures taken { Takes (left self.old) (left self.new) result into.new }
        ensures sent { sent self.new ≡ sent self.old }
        ensures later { faults self.old ≤ faults self.new }
        ensures failed { result ≡ LinkRead.Failed → Rose (faults self.old) (faults self.new) };

    /// Sends bytes from the front of `bytes`, and answers how many: one or more where there are any.
    fn write(&mut self, bytes: &[u8]) -> Result<usize, Failed>
        ensures within { IfOk result (λ n. n ≤ length bytes.now) }
        ensures some { 0 < length bytes.now → IfOk result (λ n. 0 < n) }
        ensures added { IfOk result (λ n. sent self.new ≡ append_known (sent self.old) (take n bytes.now)) }
        ensures same { OnErr result (sent self.new ≡ sent self.old) }
        ensures left { left self.new ≡ left self.old }
        ensures later { faults self.old ≤ faults self.new }
        ensures failed { OnErr result (Rose (faults self.old) (faults self.new)) };
}

/// Sends all the bytes. Where the connection fails, some from the front may have been sent.
pub fn send_all<L: Link>(link: &mut L, bytes: &[u8]) -> Result<(), Failed>
    ensures all { OnOk result (L.sent link.new ≡ append_known (L.sent link.old) bytes.now) }
    ensures part { OnErr result (AddsPart (L.sent link.old) (L.sent link.new) bytes.now) }
    ensures left { L.left link.new ≡ L.left link.old }
    ensures later { L.faults link.old ≤ L.faults link.new }
    ensures failed { OnErr result (Rose (L.faults link.old) (L.faults link.new)) }
{
    let mut rest = bytes;
    while !rest.is_empty() {
        let taken = link.write(rest)?;
        rest = &rest[taken..];
    }
    Ok(())
}
