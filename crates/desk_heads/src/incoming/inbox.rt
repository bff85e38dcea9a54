//! What came over a connection.
ghost use Rattle.std.specs.Prelude.{◌≡◌, ◌≤◌, [], ◌++◌, length, drop, IfOk, OnOk, OnErr};

use crate::head::HeadSeen;
use crate::head::checks::{FIELD_ROOM, seen};
use httparse::spans::{EMPTY_HEADER_SPAN, HeaderSpan};
use scan_model::NoMemory;
use std::alloc::Global;
use std::marker::Model;

/// The bytes that came and aren't used yet, in how many of them the end of a head was sought in vain, and the room for the fields of
/// a head: contracts see the bytes.
#[derive(Drop)]
pub struct Inbox {
    bytes: Vec<u8>,
    sought: usize,
    room: Vec<HeaderSpan>,
}

impl Model for Inbox {
    ghost use Rattle.std.specs.Prelude.{ℕ, List, ◌≤◌, vec_len};
    ghost use Rattle.desk_heads.specs.Heads.{HasNoEndWithin};
    ghost use Rattle.desk_heads.specs.declared.head.checks.TheConstants.{FIELD_ROOM};

    ghost Value = { List ℕ };

    ghost view = { λ i. i.bytes.items };

    ghost invariant = { λ i. HasNoEndWithin i.sought i.bytes.items × (FIELD_ROOM ≤ vec_len i.room) };
}

impl Inbox {
    ghost use Rattle.desk_heads.specs.SeenHeads.{Sees};

    /// An empty one.
    pub fn make(alloc: Global) -> Result<Inbox, NoMemory>
        ensures { IfOk result (λ inbox. inbox ≡ []) }
    {
        Ok(Inbox {
            bytes: Vec::new(alloc),
            sought: 0,
            room: vec![in alloc; EMPTY_HEADER_SPAN; FIELD_ROOM]?,
        })
    }

    /// Adds a piece that came. An error changes nothing.
    pub fn add(&mut self, piece: &[u8]) -> Result<(), NoMemory>
        ensures ok { OnOk result (self.new ≡ self.old ++ piece.now) }
        ensures err { OnErr result (self.new ≡ self.old) }
    {
        self.bytes.extend_from_slice(piece)?;
        Ok(())
    }

    /// The bytes.
    pub fn bytes(&self) -> &[u8]
        ensures { result.now ≡ self.now }
    {
        &self.bytes
    }

    /// What stands at their front.
    pub fn head(&mut self) -> HeadSeen
        ensures sees { Sees self.old result }
        ensures same { self.new ≡ self.old }
    {
        let found = seen(&self.bytes, self.sought, &mut self.room);
        if let HeadSeen::Unended = found {
            self.sought = self.bytes.len();
        }
        found
    }

    /// Takes so many bytes off the front.
    pub fn use_up(&mut self, count: usize)
        requires { count ≤ length self.old }
        ensures { self.new ≡ drop count self.old }
    {
        self.sought = 0;
        // Mostly one request stands there alone, and a long body isn't moved before it goes.
        if count == self.bytes.len() {
            self.bytes.clear();
        } else {
            self.bytes.drain(..count);
        }
    }
}
