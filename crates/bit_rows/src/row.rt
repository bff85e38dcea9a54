//! A row of bits: 512 lanes, each set or not.
ghost use Rattle.std.specs.Prelude.{◌≡◌, ℕ, ◌+◌, ◌*◌, ◌/◌, ◌%◌, ◌<◌, ◌&&◌, ◌||◌, ◌==◌, true, false, not, if◌then◌else◌, length};
ghost use Rattle.std.specs.Prelude.{bit_and, bit_or, bit_xor};
ghost use Rattle.std.specs.Int.{bit_at};
ghost use Rattle.std.specs.Simd.Lanes.{zip2};
ghost use Rattle.bit_rows.specs.Lanes.{lane, differ, count_lanes};

use crate::words::LaneWords;
use std::marker::Model;
use std::simd::prelude::*;

/// 512 lanes, each set or not. Contracts see eight words of 64.
#[derive(Clone, Copy)]
pub struct Row {
    words: u64x8,
}

impl Model for Row {
    ghost use Rattle.std.specs.Prelude.{◌≡◌, ℕ, List, length};

    ghost Value = { List ℕ };

    ghost view = { λ r. r.words };

    ghost inverse = { λ v. record { words = v } };

    ghost invariant = { λ r. length r.words ≡ 8 };
}

impl Row {
    /// The row of eight words.
    pub fn of_words(words: [u64; 8]) -> Row
        ensures { result ≡ words }
    {
        Row {
            words: u64x8::from_array(words),
        }
    }

    /// The eight words of a row.
    pub fn to_words(self) -> [u64; 8]
        ensures words { result ≡ self }
        ensures len { length self ≡ 8 }
    {
        self.words.to_array()
    }

    /// One of the eight words.
    pub fn word(self, at: usize) -> u64
        requires { at < 8 }
        ensures { (i : ℕ) → i < 64 → (bit_at result i == 1) ≡ lane self (64 * at + i) }
    {
        self.to_words()[at]
    }

    /// The row with one of its eight words replaced.
    pub fn with_word(self, at: usize, word: u64) -> Row
        requires { at < 8 }
        ensures { (j : ℕ) → j < 512 → lane result j ≡ (if j / 64 == at then (bit_at word (j % 64) == 1) else lane self j) }
    {
        let mut words = self.to_words();
        words[at] = word;
        Row::of_words(words)
    }

    /// No lane.
    pub fn none() -> Row
        ensures { (j : ℕ) → j < 512 → lane result j ≡ false }
    {
        Row {
            words: u64x8::splat(0),
        }
    }

    /// Each lane.
    pub fn all() -> Row
        ensures { (j : ℕ) → j < 512 → lane result j ≡ true }
    {
        Row {
            words: u64x8::splat(u64::MAX),
        }
    }

    /// One lane alone.
    pub fn single(at: usize) -> Row
        requires { at < 512 }
        ensures { (j : ℕ) → j < 512 → lane result j ≡ (j == at) }
    {
        let mut lanes = LaneWords::none();
        lanes.put_lane(at, true);
        lanes.to_row()
    }

    /// Whether it has a lane.
    pub fn has(self, at: usize) -> bool
        requires { at < 512 }
        ensures { result ≡ lane self at }
    {
        is_set(self.word(at / 64), at % 64)
    }

    /// The lanes that both have.
    pub fn and(self, other: Row) -> Row
        ensures { (j : ℕ) → j < 512 → lane result j ≡ (lane self j && lane other j) }
    {
        Row {
            words: and_words(self.words, other.words),
        }
    }

    /// The lanes that one has or both.
    pub fn or(self, other: Row) -> Row
        ensures { (j : ℕ) → j < 512 → lane result j ≡ (lane self j || lane other j) }
    {
        Row {
            words: or_words(self.words, other.words),
        }
    }

    /// The lanes that one has and the other hasn't.
    pub fn xor(self, other: Row) -> Row
        ensures { (j : ℕ) → j < 512 → lane result j ≡ differ (lane self j) (lane other j) }
    {
        Row {
            words: xor_words(self.words, other.words),
        }
    }

    /// The lanes that it hasn't.
    pub fn not(self) -> Row
        ensures { (j : ℕ) → j < 512 → lane result j ≡ not (lane self j) }
    {
        self.xor(Row::all())
    }

    /// One row in some lanes, another in the rest.
    pub fn pick(lanes: Row, inside: Row, outside: Row) -> Row
        ensures { (j : ℕ) → j < 512 → lane result j ≡ (if lane lanes j then lane inside j else lane outside j) }
    {
        lanes.and(inside).or(lanes.not().and(outside))
    }

    /// Whether it has no lane.
    pub fn is_empty(self) -> bool
        ensures empty { result ≡ true → (j : ℕ) → j < 512 → lane self j ≡ false }
        ensures some { ((j : ℕ) → j < 512 → lane self j ≡ false) → result ≡ true }
    {
        are_zero(&self.to_words())
    }

    /// How many lanes it has.
    pub fn count(self) -> u32
        ensures { result ≡ count_lanes (lane self) }
    {
        let words = self.to_words();
        let mut count = 0;
        for k in 0..8 {
            count += words[k].count_ones();
        }
        count
    }

    /// How many lanes both have.
    pub fn count_both(self, other: Row) -> u32
        ensures { result ≡ count_lanes (λ j. lane self j && lane other j) }
    {
        self.and(other).count()
    }
}

fn is_set(word: u64, at: usize) -> bool
    requires { at < 64 }
    ensures { result ≡ (bit_at word at == 1) }
{
    (word >> at) & 1 == 1
}

fn and_words(a: u64x8, b: u64x8) -> u64x8
    ensures { result ≡ zip2 bit_and a b }
{
    a & b
}

fn or_words(a: u64x8, b: u64x8) -> u64x8
    ensures { result ≡ zip2 bit_or a b }
{
    a | b
}

fn xor_words(a: u64x8, b: u64x8) -> u64x8
    ensures { result ≡ zip2 bit_xor a b }
{
    a ^ b
}

/// Whether no bit is set.
fn are_zero(words: &[u64]) -> bool
    requires { length words.now ≡ 8 }
    ensures zero { result ≡ true → (j : ℕ) → lane words.now j ≡ false }
    ensures some { ((j : ℕ) → j < 512 → lane words.now j ≡ false) → result ≡ true }
{
    u64x8::from_slice(words).reduce_or() == 0
}
