//! The designs of a book, found by their names.
ghost use Rattle.std.specs.Prelude.{◌≡◌, ◌<◌, ◌+◌, ◌^◌, ◌∷◌, ◌++◌, ℕ, List, [], length, Some, None, false, position, OnOk, IfOk, IfSome, vec_len, vec_capacity, slice_get};
ghost use Rattle.std.specs.Str.{bytes_eq};
ghost use Rattle.std.specs.Arc.{arc_value};
ghost use Rattle.book.specs.Places.{place_of};

use super::places::note;
use diagnosis::Design;
use scan_model::NoMemory;
use std::alloc::Global;
use std::collections::BTreeMap;
use std::marker::Model;
use std::snapshot::Snapshot;
use std::sync::Arc;

/// Designs of different names, in the order of their deeds. Contracts also see the design that may be added.
#[derive(Drop)]
pub(super) struct Designs {
    alloc: Global,
    list: Vec<Arc<Design>>,
    // Also has notes of designs whose deeds failed: a place is believed only where the name stands.
    places: BTreeMap<Vec<u8>, usize>,
    // For contracts alone: the design whose place at the end is noted and has room.
    next: Option<Snapshot<Arc<Design>>>,
}

impl Model for Designs {
    ghost use Rattle.die_entries.specs.Entries.{arc_values};
    ghost use Rattle.std.specs.Arc.{arc_value};
    ghost use Rattle.std.specs.Option.{option_map};
    ghost use Rattle.book.specs.Places.{DesignsFacts, AreIndexed};

    ghost Value = { DesignsFacts };

    ghost view = { λ d. record { list = arc_values d.list.items; next = option_map (λ s. arc_value s.value) d.next } };

    ghost invariant = { λ d. AreIndexed d.places d.list (option_map (λ s. arc_value s.value) d.next) };
}

// Notes the place of one more design, makes room for it, and makes the reference that will stand there.
fn ready(
    alloc: Global,
    list: &mut Vec<Arc<Design>>,
    places: &mut BTreeMap<Vec<u8>, usize>,
    design: &Arc<Design>,
) -> Result<Arc<Design>, NoMemory>
    ensures items { list.new.items ≡ list.old.items }
    ensures room { OnOk result (vec_len list.new < vec_capacity list.new) }
    ensures noted { OnOk result (place_of places.new (arc_value design.now).name ≡ Some (length list.old.items)) }
    ensures others { (name : List ℕ) → bytes_eq (arc_value design.now).name name ≡ false → place_of places.new name ≡ place_of places.old name }
    ensures same { IfOk result (λ kept. arc_value kept ≡ arc_value design.now) }
{
    note(alloc, places, design.name(), list.len())?;
    list.reserve(1)?;
    Ok(Arc::try_clone(design)?)
}

impl Designs {
    pub(super) fn new(alloc: Global) -> Designs
        ensures { result.list ≡ [] }
    {
        Designs {
            alloc,
            list: Vec::new(alloc),
            places: BTreeMap::new(alloc),
            next: None,
        }
    }

    pub(super) fn len(&self) -> usize
        ensures { result ≡ length self.now.list }
    {
        self.list.len()
    }

    /// The place of the design of that name.
    pub(super) fn place(&self, name: &[u8]) -> Option<usize>
        ensures value { result ≡ position (λ d. bytes_eq d.name name.now) self.now.list }
        ensures within { IfSome result (λ i. i < length self.now.list) }
        ensures fit { IfSome result (λ i. i + 1 < 2 ^ 64) }
    {
        let place = self.places.get(name).copied()?;
        let design = self.list.get(place)?;
        if design.name() == name {
            Some(place)
        } else {
            None
        }
    }

    /// The design at a place.
    pub(super) fn at(&self, place: usize) -> &Arc<Design>
        requires { place < length self.now.list }
        ensures { slice_get self.now.list place ≡ Some (arc_value result.now) }
    {
        &self.list[place]
    }

    /// Notes the place of one more design, makes room for it, and makes the reference that will stand there.
    pub(super) fn ready(&mut self, design: &Arc<Design>) -> Result<Arc<Design>, NoMemory>
        requires { position (λ d. bytes_eq d.name (arc_value design.now).name) self.old.list ≡ None }
        ensures list { self.new.list ≡ self.old.list }
        ensures next { OnOk result (self.new.next ≡ Some (arc_value design.now)) }
        ensures same { IfOk result (λ kept. arc_value kept ≡ arc_value design.now) }
    {
        self.next = None;
        let kept = ready(self.alloc, &mut self.list, &mut self.places, design)?;
        self.next = Some(Snapshot::of(&kept));
        Ok(kept)
    }

    /// Adds the design for which all is ready.
    pub(super) fn add(&mut self, design: Arc<Design>)
        requires next { self.old.next ≡ Some (arc_value design) }
        requires new { position (λ d. bytes_eq d.name (arc_value design).name) self.old.list ≡ None }
        ensures { self.new.list ≡ self.old.list ++ arc_value design ∷ [] }
    {
        self.next = None;
        self.list.push_reserved(design);
    }
}
