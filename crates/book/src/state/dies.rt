//! The dies of a book, found by their names.
ghost use Rattle.std.specs.Prelude.{◌≡◌, ◌<◌, ◌∷◌, ◌++◌, ℕ, List, [], length, true, Some, position, None, IfOk, OnOk, OnErr, slice_get, slice_set};
ghost use Rattle.std.specs.Arc.{arc_value};
ghost use Rattle.scan_model.specs.Words.{is_tag};
ghost use Rattle.book.specs.Dies.{AreSameDies, DieFacts, bare_die, die_key, is_die, kept_logs, kept_signs, with_log, with_sign};

use super::die::Die;
use super::places::note;
use diagnosis::ReadLog;
use die_entries::Sign;
use scan_model::NoMemory;
use std::alloc::Global;
use std::collections::BTreeMap;
use std::marker::Model;
use std::sync::Arc;

/// Different dies. One without logs was made for a log whose deed failed.
#[derive(Drop)]
pub(super) struct Dies {
    alloc: Global,
    list: Vec<Die>,
    // A place is believed only where the names stand.
    places: BTreeMap<Vec<u8>, usize>,
}

impl Model for Dies {
    ghost use Rattle.std.specs.Prelude.{List};
    ghost use Rattle.book.specs.Dies.{DieFacts, AreNotedDies};

    ghost Value = { List DieFacts };

    ghost view = { λ d. d.list.items };

    ghost invariant = { λ d. AreNotedDies d.places d.list.items };
}

// The key of a die.
fn joined(alloc: Global, design: &[u8], die: &[u8]) -> Result<Vec<u8>, NoMemory>
    ensures { IfOk result (λ key. key.items ≡ die_key design.now die.now) }
{
    let mut key = Vec::from_slice(alloc, design)?;
    key.push(b'/')?;
    key.extend_from_slice(die)?;
    Ok(key)
}

impl Dies {
    pub(super) fn new(alloc: Global) -> Dies
        ensures { result ≡ [] }
    {
        Dies {
            alloc,
            list: Vec::new(alloc),
            places: BTreeMap::new(alloc),
        }
    }

    // The place of the die of these names, whose key is given.
    fn place(&self, key: &[u8], design: &[u8], die: &[u8]) -> Option<usize>
        requires { key.now ≡ die_key design.now die.now }
        ensures { result ≡ position (is_die design.now die.now) self.now }
    {
        let place = self.places.get(key).copied()?;
        let kept = self.list.get(place)?;
        if kept.is(design, die) {
            Some(place)
        } else {
            None
        }
    }

    /// The place of the die of these names.
    pub(super) fn find(&self, design: &[u8], die: &[u8]) -> Result<Option<usize>, NoMemory>
        ensures { IfOk result (λ place. place ≡ position (is_die design.now die.now) self.now) }
    {
        let key = joined(self.alloc, design, die)?;
        Ok(self.place(&key, design, die))
    }

    /// The die at a place.
    pub(super) fn at(&self, place: usize) -> &Die
        requires { place < length self.now }
        ensures { slice_get self.now place ≡ Some result.now }
    {
        &self.list[place]
    }

    // Adds a die without logs.
    fn push(&mut self, key: &[u8], design: &[u8], die: &[u8]) -> Result<(), NoMemory>
        requires key { key.now ≡ die_key design.now die.now }
        requires tag { is_tag design.now ≡ true }
        requires fresh { position (is_die design.now die.now) self.old ≡ None }
        ensures ok { OnOk result (self.new ≡ self.old ++ bare_die design.now die.now ∷ []) }
        ensures err { OnErr result (self.new ≡ self.old) }
    {
        let bare = Die::bare(self.alloc, design, die)?;
        self.list.reserve(1)?;
        note(self.alloc, &mut self.places, key, self.list.len())?;
        self.list.push_reserved(bare);
        Ok(())
    }

    /// The place of the die of these names, which is made where it isn't there.
    pub(super) fn find_or_make(&mut self, design: &[u8], die: &[u8]) -> Result<usize, NoMemory>
        requires { is_tag design.now ≡ true }
        ensures place { IfOk result (λ place. position (is_die design.now die.now) self.new ≡ Some place) }
        ensures logs { (d x : List ℕ) → kept_logs self.new d x ≡ kept_logs self.old d x }
        ensures signs { (d x : List ℕ) → kept_signs self.new d x ≡ kept_signs self.old d x }
    {
        let key = joined(self.alloc, design, die)?;
        if let Some(place) = self.place(&key, design, die) {
            return Ok(place);
        }
        let place = self.list.len();
        self.push(&key, design, die)?;
        Ok(place)
    }

    /// Makes room for one more log of the die at a place.
    pub(super) fn reserve_log(&mut self, place: usize) -> Result<(), NoMemory>
        requires { place < length self.old }
        ensures same { AreSameDies self.old self.new }
        ensures room { OnOk result ((k : DieFacts) → slice_get self.new place ≡ Some k → 0 < k.log_room) }
    {
        self.list[place].reserve_log()
    }

    /// Makes room for one more sign-off of the die at a place.
    pub(super) fn reserve_sign(&mut self, place: usize) -> Result<(), NoMemory>
        requires { place < length self.old }
        ensures same { AreSameDies self.old self.new }
        ensures room { OnOk result ((k : DieFacts) → slice_get self.new place ≡ Some k → 0 < k.sign_room) }
    {
        self.list[place].reserve_sign()
    }

    /// Adds a log to the die at a place.
    pub(super) fn add_log(&mut self, place: usize, log: Arc<ReadLog>)
        requires within { place < length self.old }
        requires room { (k : DieFacts) → slice_get self.old place ≡ Some k → 0 < k.log_room }
        ensures { (k : DieFacts) → slice_get self.old place ≡ Some k → self.new ≡ slice_set self.old place (with_log k (arc_value log)) }
    {
        self.list[place].add_log(log);
    }

    /// Adds a sign-off to the die at a place.
    pub(super) fn add_sign(&mut self, place: usize, sign: Sign)
        requires within { place < length self.old }
        requires room { (k : DieFacts) → slice_get self.old place ≡ Some k → 0 < k.sign_room }
        ensures { (k : DieFacts) → slice_get self.old place ≡ Some k → self.new ≡ slice_set self.old place (with_sign k sign) }
    {
        self.list[place].add_sign(sign);
    }
}
