//! Bytes in memory that are read from the front.
ghost use Rattle.std.specs.Prelude.{◌≡◌, ◌≢◌, ◌≤◌, ℕ, Some, length, take, min};
ghost use Rattle.desk_outside.specs.declared.link.LinkRead.{LinkRead};
ghost use Rattle.desk_outside.specs.LinkReads.{HasRoomFor, Takes};

use crate::link::LinkRead;
use scan_model::Rows;

// Bytes, those before `at` already read.
#[derive(Drop)]
pub struct UnreadBytes {
    bytes: Rows<u8>,
    at: usize,
    ghost in_range: { at ≤ length bytes },
}

impl UnreadBytes {
    ghost use Rattle.desk_outside.specs.LinkMemory.{unread};

    /// Bytes of which none is read.
    pub fn new(bytes: Rows<u8>) -> Self
        ensures { unread result ≡ bytes }
    {
        UnreadBytes { bytes, at: 0 }
    }

    /// The bytes that are left.
    pub fn as_slice(&self) -> &[u8]
        ensures { result.now ≡ unread self.now }
    {
        &self.bytes.as_slice()[self.at..]
    }

    /// Reads as a link does that has these bytes left: as many as have room.
    pub fn read(&mut self, into: &mut [u8]) -> LinkRead
        ensures within { HasRoomFor result into.new }
        ensures taken { Takes (Some (unread self.old)) (Some (unread self.new)) result into.new }
        ensures all { (n : ℕ) → result ≡ LinkRead.Got n → n ≡ min (length (unread self.old)) (length into.new) }
        ensures sure { result ≢ LinkRead.Failed }
    {
        let rest = &self.bytes.as_slice()[self.at..];
        if rest.is_empty() {
            return LinkRead::End;
        }
        let count = copy_front(rest, into);
        self.at += count;
        LinkRead::Got(count)
    }
}

// Copies bytes to the front, as many as there are and have room.
fn copy_front(from: &[u8], into: &mut [u8]) -> usize
    ensures count { result ≡ min (length from.now) (length into.old) }
    ensures room { length into.new ≡ length into.old }
    ensures bytes { take result into.new ≡ take result from.now }
{
    let count = from.len().min(into.len());
    into[..count].copy_from_slice(&from[..count]);
    count
}
