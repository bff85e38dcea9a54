//! A set of places, and in which of its words it has members.
ghost use Rattle.std.specs.Prelude.{◌≡◌, ℕ, ◌+◌, ◌*◌, ◌/◌, ◌^◌, ◌<◌, ◌≤◌, false, length, slice_index_or, IfOk, ◌==◌, ◌&&◌, ◌||◌, not};
ghost use Rattle.place_sets.specs.Places.{bit_is_set, has_place, room, IsNextFrom, IsNextWithin, IsFilled};

use scan_model::NoMemory;
use std::alloc::Global;
use std::marker::Model;

/// A set of places, numbers from 0 up to a bound. Contracts see its words of 64 bits, by `has_place` and `room`. The places
/// of `filled` are the words with a member, so that a look for the next member passes by 64 empty words at once.
#[derive(Drop)]
pub struct PlaceSet {
    words: Vec<u64>,
    filled: Vec<u64>,
}

impl Model for PlaceSet {
    ghost use Rattle.std.specs.Prelude.{ℕ, List};

    ghost Value = { List ℕ };

    ghost use Rattle.place_sets.specs.Places.{IsFilled};

    ghost view = { λ s. s.words.items };

    ghost invariant = { λ s. IsFilled s.words.items s.filled.items };
}

/// The least bit from `low` on that a word has.
fn least_bit(word: u64, low: usize) -> Option<usize>
    requires { low < 64 }
    ensures { IsNextWithin (bit_is_set word) low 64 result }
{
    let rest = word & (u64::MAX << low);
    if rest == 0 {
        None
    } else {
        Some(rest.trailing_zeros() as usize)
    }
}

/// The least place of a word, from bit `low` on.
fn least_place(words: &[u64], word: usize, low: usize) -> Option<usize>
    requires words { length words.now ≤ 2 ^ 26 }
    requires word { word < length words.now }
    requires low { low < 64 }
    ensures { IsNextWithin (has_place words.now) (word * 64 + low) (word * 64 + 64) result }
{
    match least_bit(words[word], low) {
        Some(bit) => Some(word * 64 + bit),
        None => None,
    }
}

/// A word, which is empty past the last.
fn word_or_empty(words: &[u64], word: usize) -> u64
    ensures { result ≡ slice_index_or words.now word 0 }
{
    if word < words.len() { words[word] } else { 0 }
}

/// The least place of a word, from bit `low` on, that is a place of others too.
fn least_in_both(words: &[u64], others: &[u64], word: usize, low: usize) -> Option<usize>
    requires words { length words.now ≤ 2 ^ 26 }
    requires word { word < length words.now }
    requires low { low < 64 }
    ensures { IsNextWithin (λ k. has_place words.now k && has_place others.now k) (word * 64 + low) (word * 64 + 64) result }
{
    match least_bit(words[word] & word_or_empty(others, word), low) {
        Some(bit) => Some(word * 64 + bit),
        None => None,
    }
}

/// The least place in the words from one on that is a place of others too. No empty word is looked at.
fn next_both(words: &[u64], filled: &[u64], others: &[u64], from: usize) -> Option<usize>
    requires { IsFilled words.now filled.now }
    ensures { IsNextFrom (λ k. has_place words.now k && has_place others.now k) (64 * from) result }
{
    let mut past = from;
    while let Some(word) = next_in(filled, past) {
        if let Some(place) = least_in_both(words, others, word, 0) {
            return Some(place);
        }
        past = word + 1;
    }
    None
}

/// The least place of some words that is `from` or more, found word by word.
#[tactic(auto, using(crate::proofs::PlaceWords::no_place_past))]
fn next_in(words: &[u64], from: usize) -> Option<usize>
    requires { length words.now ≤ 2 ^ 26 }
    ensures { IsNextFrom (has_place words.now) from result }
{
    let first = from / 64;
    if first >= words.len() {
        return None;
    }
    if let Some(place) = least_place(words, first, from % 64) {
        return Some(place);
    }
    for word in first + 1..words.len() {
        if let Some(place) = least_place(words, word, 0) {
            return Some(place);
        }
    }
    None
}

/// Empties the words of a set. No empty one is looked at.
fn empty_words(words: &mut [u64], filled: &[u64])
    requires { IsFilled words.old filled.now }
    ensures empty { (k : ℕ) → slice_index_or words.new k 0 ≡ 0 }
    ensures len { length words.new ≡ length words.old }
{
    let mut from = 0;
    while let Some(word) = next_in(filled, from) {
        words[word] = 0;
        from = word + 1;
    }
}

impl PlaceSet {
    /// The empty set, with room for the places below `places`. The only error is want of memory.
    pub fn make(alloc: Global, places: usize) -> Result<PlaceSet, NoMemory>
        requires { places < 2 ^ 32 }
        ensures empty { IfOk result (λ s. (k : ℕ) → has_place s k ≡ false) }
        ensures room { IfOk result (λ s. places ≤ room s) }
    {
        let words = vec![in alloc; 0u64; places / 64 + 1]?;
        let filled = vec![in alloc; 0u64; places / 4096 + 1]?;
        Ok(PlaceSet { words, filled })
    }

    /// Puts a place in, whether or not it's there.
    pub fn insert(&mut self, place: usize)
        requires { place < room self.old }
        ensures places { (k : ℕ) → has_place self.new k ≡ ((k == place) || has_place self.old k) }
        ensures room { room self.new ≡ room self.old }
    {
        let word = place / 64;
        self.words[word] |= 1u64 << (place % 64);
        self.filled[word / 64] |= 1u64 << (word % 64);
    }

    /// Takes a place out, whether or not it's there.
    pub fn remove(&mut self, place: usize)
        requires { place < room self.old }
        ensures places { (k : ℕ) → has_place self.new k ≡ (not (k == place) && has_place self.old k) }
        ensures room { room self.new ≡ room self.old }
    {
        let word = place / 64;
        self.words[word] &= !(1u64 << (place % 64));
        let is_empty = self.words[word] == 0;
        if is_empty {
            self.filled[word / 64] &= !(1u64 << (word % 64));
        }
    }

    /// Takes all places out, 64 at once. No empty word is looked at.
    pub fn clear(&mut self)
        ensures places { (k : ℕ) → has_place self.new k ≡ false }
        ensures room { room self.new ≡ room self.old }
    {
        empty_words(&mut self.words, &self.filled);
        self.filled.fill(0);
    }

    /// The least member that is `from` or more, if any; `from` may lie past the room.
    pub fn next_from(&self, from: usize) -> Option<usize>
        ensures { IsNextFrom (has_place self.now) from result }
    {
        let first = from / 64;
        if first >= self.words.len() {
            return None;
        }
        if let Some(place) = least_place(&self.words, first, from % 64) {
            return Some(place);
        }
        self.next_word(first + 1)
    }

    /// The least place that is `from` or more and in both sets, if any. The sets may have room for different places.
    pub fn next_in_both(&self, other: &PlaceSet, from: usize) -> Option<usize>
        ensures { IsNextFrom (λ k. has_place self.now k && has_place other.now k) from result }
    {
        let first = from / 64;
        if first >= self.words.len() {
            return None;
        }
        if let Some(place) = least_in_both(&self.words, &other.words, first, from % 64) {
            return Some(place);
        }
        next_both(&self.words, &self.filled, &other.words, first + 1)
    }

    /// The least member in the words from one on. No empty word is looked at.
    fn next_word(&self, from: usize) -> Option<usize>
        ensures { IsNextFrom (has_place self.now) (64 * from) result }
    {
        match next_in(&self.filled, from) {
            Some(word) => Some(word * 64 + self.words[word].trailing_zeros() as usize),
            None => None,
        }
    }
}
