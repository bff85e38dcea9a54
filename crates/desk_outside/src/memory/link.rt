//! Connections in memory.
ghost use Rattle.std.specs.Prelude.{◌≡◌, ◌≤◌, ◌<◌, ◌↔◌, ◌==◌, ℕ, List, Option, Some, None, [], IfOk, IsOk, OnOk, OnErr, IsTrue, false, not, length, take, min};
ghost use Rattle.std.specs.Io.KnownBytes.{append_known};
ghost use Rattle.desk_outside.specs.declared.link.LinkRead.{LinkRead};
ghost use Rattle.desk_outside.specs.Faults.{Rose};
ghost use Rattle.desk_outside.specs.LinkMemory.{unread, link_left, link_sent, link_calls, sure_left};
ghost use Rattle.desk_outside.specs.LinkReads.{HasRoomFor, Takes};
ghost use Rattle.desk_outside.specs.Schedule.{fresh_calls, fails_next, after_call, after_failure};

use super::unread::UnreadBytes;
use crate::calls::{Calls, Failed};
use crate::door::LinkHome;
use crate::link::{Link, LinkRead};
use scan_model::{NoMemory, Rows};
use std::alloc::Global;

/// A connection in memory. The calls of `read` and `write` that are listed fail, and so does a write for which there is
/// no memory.
#[derive(Drop)]
pub struct MemLink {
    left: UnreadBytes,
    sent: Rows<u8>,
    calls: Calls,
}

impl MemLink {
    ghost use Rattle.desk_outside.specs.LinkMemory.{link_left, link_sent, link_calls};

    /// A link with these bytes left to read, of which no call is listed.
    pub fn make(alloc: Global, left: Rows<u8>) -> Result<MemLink, NoMemory>
        ensures ok { IsOk result }
        ensures left { IfOk result (λ l. link_left l ≡ left) }
        ensures sent { IfOk result (λ l. link_sent l ≡ []) }
        ensures calls { IfOk result (λ l. link_calls l ≡ fresh_calls []) }
    {
        Ok(MemLink {
            left: UnreadBytes::new(left),
            sent: Rows::new(alloc),
            calls: Calls::sure(alloc),
        })
    }

    /// A link with these bytes left to read, whose calls with these numbers fail, counted from 1.
    pub fn make_failing(
        alloc: Global,
        left: Rows<u8>,
        calls: Rows<u64>,
    ) -> Result<MemLink, NoMemory>
        ensures ok { IsOk result }
        ensures left { IfOk result (λ l. link_left l ≡ left) }
        ensures sent { IfOk result (λ l. link_sent l ≡ []) }
        ensures calls { IfOk result (λ l. link_calls l ≡ fresh_calls calls) }
    {
        Ok(MemLink {
            left: UnreadBytes::new(left),
            sent: Rows::new(alloc),
            calls: Calls::failing(calls),
        })
    }

    /// All bytes that were sent so far.
    pub fn sent(&self) -> &[u8]
        ensures { result.now ≡ link_sent self.now }
    {
        self.sent.as_slice()
    }
}

impl MemLink {
    ghost use Rattle.desk_outside.specs.LinkMemory.{link_left, link_sent, link_calls, IsEmptyLink};

    // A link with nothing left, of which no call is listed.
    pub(crate) fn empty(alloc: Global) -> MemLink
        ensures { IsEmptyLink result }
    {
        MemLink {
            left: UnreadBytes::new(Rows::new(alloc)),
            sent: Rows::new(alloc),
            calls: Calls::sure(alloc),
        }
    }

    // A copy of the bytes that are left.
    pub(crate) fn copy_left(&self, alloc: Global) -> Result<Rows<u8>, NoMemory>
        ensures { IfOk result (λ bytes. bytes ≡ link_left self.now) }
    {
        Rows::copy_of(alloc, self.left.as_slice())
    }

    // The bytes that were sent, and whether the link has failed.
    pub(crate) fn into_home(self) -> LinkHome
        ensures sent { result.sent ≡ link_sent self }
        ensures failed { result.failed ≡ not ((link_calls self).faults == 0) }
    {
        let MemLink { sent, calls, .. } = self;
        LinkHome {
            sent,
            failed: calls.faults != 0,
        }
    }
}

impl Link for MemLink {
    ghost use Rattle.desk_outside.specs.LinkMemory.{link_left, link_sent, link_calls};

    ghost left = { λ l. Some (link_left l) };

    ghost sent = { λ l. Some (link_sent l) };

    ghost faults = { λ l. (link_calls l).faults };

    fn read(&mut self, into: &mut [u8]) -> LinkRead
        ensures within { HasRoomFor result into.new }
        ensures taken { Takes (Some (link_left self.old)) (Some (link_left self.new)) result into.new }
        ensures sent { Some (link_sent self.new) ≡ Some (link_sent self.old) }
        ensures later { (link_calls self.old).faults ≤ (link_calls self.new).faults }
        ensures failed { result ≡ LinkRead.Failed → Rose (link_calls self.old).faults (link_calls self.new).faults }

        // It reads all that has room, and it fails, and its count rises, in the calls that are listed and in no other.
        ensures all { (n : ℕ) → result ≡ LinkRead.Got n → n ≡ min (length (link_left self.old)) (length into.new) }
        ensures listed { (result ≡ LinkRead.Failed) ↔ IsTrue (fails_next (link_calls self.old)) }
        ensures counted { link_calls self.new ≡ after_call (link_calls self.old) }
    {
        if self.calls.fails() {
            return LinkRead::Failed;
        }
        self.left.read(into)
    }

    fn write(&mut self, bytes: &[u8]) -> Result<usize, Failed>
        ensures within { IfOk result (λ n. n ≤ length bytes.now) }
        ensures some { 0 < length bytes.now → IfOk result (λ n. 0 < n) }
        ensures added { IfOk result (λ n. Some (link_sent self.new) ≡ append_known (Some (link_sent self.old)) (take n bytes.now)) }
        ensures same { OnErr result (Some (link_sent self.new) ≡ Some (link_sent self.old)) }
        ensures left { Some (link_left self.new) ≡ Some (link_left self.old) }
        ensures later { (link_calls self.old).faults ≤ (link_calls self.new).faults }
        ensures failed { OnErr result (Rose (link_calls self.old).faults (link_calls self.new).faults) }

        // It sends all, and its count rises in a call that is listed, or that finds no memory, and in no other.
        ensures all { IfOk result (λ n. n ≡ length bytes.now) }
        ensures listed { OnOk result (fails_next (link_calls self.old) ≡ false) }
        ensures counted { OnOk result (link_calls self.new ≡ after_call (link_calls self.old)) }
        ensures refused { OnErr result (link_calls self.new ≡ after_failure (link_calls self.old)) }
    {
        if self.calls.fails() {
            return Err(Failed);
        }
        match self.sent.append(bytes) {
            Ok(()) => Ok(bytes.len()),
            Err(NoMemory) => {
                self.calls.fault();
                Err(Failed)
            }
        }
    }
}

/// A connection in memory that keeps no bytes that are sent. No call fails.
#[derive(Drop)]
pub struct SureLink {
    left: UnreadBytes,
}

impl SureLink {
    ghost use Rattle.desk_outside.specs.LinkMemory.{sure_left};

    /// A link with these bytes left to read, which tells nothing of what is sent.
    pub fn make(_alloc: Global, left: Rows<u8>) -> Result<SureLink, NoMemory>
        ensures ok { IsOk result }
        ensures left { IfOk result (λ l. sure_left l ≡ left) }
    {
        Ok(SureLink {
            left: UnreadBytes::new(left),
        })
    }
}

impl Link for SureLink {
    ghost use Rattle.desk_outside.specs.LinkMemory.{sure_left};

    ghost left = { λ l. Some (sure_left l) };

    ghost sent = { λ _. None };

    ghost faults = { λ _. 0 };

    fn read(&mut self, into: &mut [u8]) -> LinkRead {
        self.left.read(into)
    }

    fn write(&mut self, bytes: &[u8]) -> Result<usize, Failed> {
        Ok(bytes.len())
    }
}
