//! Names in their order, found by a hash map.

ghost use Rattle.std.specs.Prelude.{◌≡◌, ◌≢◌, ◌≤◌, ℕ, List, [], ◌∷◌, ◌++◌, length, take, position, unwrap_or, OnOk, OnErr, IfOk, Ok, true, false, not};
ghost use Rattle.std.specs.List.{list_any, position_or_len};
ghost use Rattle.std.specs.Str.{bytes_eq};
ghost use Rattle.scan_model.specs.ScanText.{net_names, stands_again};
ghost use Rattle.text_parts.specs.Views.{nows, before_repeat, Places};

use crate::key::Key;
use scan_model::Net;
use std::alloc::{AllocError, Global};
use std::collections::HashMap;
use std::marker::Model;

/// Names in the order in which they were added, with a quick look-up.
#[derive(Drop)]
pub struct Names<'a> {
    list: Vec<&'a [u8]>,
    places: HashMap<Key<'a>, usize>,
}

impl<'a> Model for Names<'a> {
    ghost use Rattle.std.specs.Prelude.{List, ℕ};

    ghost Value = { List (List ℕ) };

    ghost use Rattle.text_parts.specs.Views.{nows, Places};

    ghost view = { λ a. nows a.list.items };

    ghost invariant = { λ a. Places (nows a.list.items) a.places };
}

// The place of the first of the names that equals this one; where none does, it gets the next place.
#[inline(always)]
fn place_in<'a>(
    places: &mut HashMap<Key<'a>, usize>,
    name: &'a [u8],
    next: usize,
) -> Result<usize, AllocError>
    ensures place { (names : List (List ℕ)) → Places names places.old → length names ≡ next → IfOk result (λ place. place ≡ unwrap_or (position (bytes_eq name.now) names) (length names)) }
    ensures kept { (names : List (List ℕ)) → Places names places.old → length names ≡ next → IfOk result (λ place. place ≢ next → Places names places.new) }
    ensures added { (names : List (List ℕ)) → Places names places.old → length names ≡ next → OnOk result (Places (names ++ name.now ∷ []) places.new) }
    ensures same { (names : List (List ℕ)) → Places names places.old → OnErr result (Places names places.new) }
{
    let place = *places.entry(Key { bytes: name })?.or_insert(next);
    Ok(place)
}

impl<'a> Names<'a> {
    pub fn new(alloc: Global) -> Self
        ensures { result ≡ [] }
    {
        Names {
            list: Vec::new(alloc),
            places: HashMap::new(alloc),
        }
    }

    /// No names, with room for this many.
    pub fn with_room(alloc: Global, count: usize) -> Result<Self, AllocError>
        ensures { IfOk result (λ names. names ≡ []) }
    {
        Ok(Names {
            list: Vec::with_capacity(alloc, count)?,
            places: HashMap::with_capacity(alloc, count)?,
        })
    }

    /// The names of nets, in their order.
    pub fn of_nets(alloc: Global, nets: &'a [Net]) -> Result<Self, AllocError>
        ensures { IfOk result (λ names. names ≡ net_names nets.now) }
    {
        let mut names = Names::with_room(alloc, nets.len())?;
        for net in nets {
            names.add(net.name.as_slice())?;
        }
        Ok(names)
    }

    pub fn len(&self) -> usize
        ensures { result ≡ length self.now }
    {
        self.list.len()
    }

    /// The names in their order.
    pub fn as_slice(&self) -> &[&'a [u8]]
        ensures { nows result.now ≡ self.now }
    {
        &self.list
    }

    /// The place of the first name that equals the word.
    pub fn place(&self, word: &[u8]) -> Option<usize>
        ensures { result ≡ position (bytes_eq word.now) self.now }
    {
        self.places.get(&Key { bytes: word }).copied()
    }

    /// Whether a name equals the word.
    pub fn contains(&self, word: &[u8]) -> bool
        ensures { result ≡ list_any (bytes_eq word.now) self.now }
    {
        self.place(word).is_some()
    }

    /// The place of the first name that equals the word, or else the number of names.
    pub fn place_or_len(&self, word: &[u8]) -> usize
        ensures value { result ≡ position_or_len (bytes_eq word.now) self.now }
        ensures within { result ≤ length self.now }
    {
        self.place(word).unwrap_or(self.len())
    }

    /// Adds names at the end, up to the first that is there already, and answers whether there is none. Where memory
    /// runs out, some from the front were added.
    pub fn add_new(&mut self, names: &[&'a [u8]]) -> Result<bool, AllocError>
        ensures fresh { IfOk result (λ b. b ≡ not (stands_again self.old (nows names.now))) }
        ensures added { result ≡ Ok true → self.new ≡ self.old ++ nows names.now }
        ensures repeats { result ≡ Ok false → self.new ≡ self.old ++ before_repeat self.old (nows names.now) }
        ensures part { (k : ℕ) × (self.new ≡ self.old ++ nows (take k names.now)) }
    {
        for name in names {
            if !self.add_if_new(name)? {
                return Ok(false);
            }
        }
        Ok(true)
    }

    /// Adds a name at the end, unless it is there already, and answers whether it is new.
    #[inline(always)]
    pub fn add_if_new(&mut self, name: &'a [u8]) -> Result<bool, AllocError>
        ensures fresh { IfOk result (λ b. b ≡ not (list_any (bytes_eq name.now) self.old)) }
        ensures added { result ≡ Ok true → self.new ≡ self.old ++ name.now ∷ [] }
        ensures kept { result ≢ Ok true → self.new ≡ self.old }
    {
        self.list.reserve(1)?;
        let next = self.list.len();
        let place = place_in(&mut self.places, name, next)?;
        if place != next {
            return Ok(false);
        }
        self.list.push_reserved(name);
        Ok(true)
    }

    /// Adds a name at the end.
    pub fn add(&mut self, name: &'a [u8]) -> Result<(), AllocError>
        ensures ok { OnOk result (self.new ≡ self.old ++ name.now ∷ []) }
        ensures err { OnErr result (self.new ≡ self.old) }
    {
        self.list.reserve(1)?;
        let next = self.list.len();
        place_in(&mut self.places, name, next)?;
        self.list.push_reserved(name);
        Ok(())
    }
}
