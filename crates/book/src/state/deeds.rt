//! The list of deeds, for contracts alone.
ghost use Rattle.std.specs.Prelude.{◌≡◌, ◌<◌, ◌∷◌, ◌++◌, [], length, OnOk};

use desk_outside::Deed;
use scan_model::NoMemory;
use std::alloc::Global;
use std::marker::Model;
use std::snapshot::Snapshot;

/// Deeds of which no byte is kept, but their number. Contracts also see for how many more there is room.
#[derive(Drop)]
pub(super) struct Deeds {
    list: Vec<Snapshot<Deed>>,
}

impl Model for Deeds {
    ghost use Rattle.std.specs.Prelude.{◌-◌, map, vec_len, vec_capacity};
    ghost use Rattle.book.specs.State.{DeedsFacts};

    ghost Value = { DeedsFacts };

    ghost view = { λ d. record { list = map (λ deed. deed.value) d.list.items; room = vec_capacity d.list - vec_len d.list } };
}

impl Deeds {
    pub(super) fn new(alloc: Global) -> Deeds
        ensures { result.list ≡ [] }
    {
        Deeds {
            list: Vec::new(alloc),
        }
    }

    pub(super) fn len(&self) -> usize
        ensures { result ≡ length self.now.list }
    {
        self.list.len()
    }

    /// Makes room for one more.
    pub(super) fn reserve(&mut self) -> Result<(), NoMemory>
        ensures list { self.new.list ≡ self.old.list }
        ensures room { OnOk result (0 < self.new.room) }
    {
        Ok(self.list.reserve(1)?)
    }

    /// Adds a deed.
    pub(super) fn add(&mut self, deed: &Deed)
        requires { 0 < self.old.room }
        ensures { self.new.list ≡ self.old.list ++ deed.now ∷ [] }
    {
        self.list.push_reserved(Snapshot::of(deed));
    }
}
