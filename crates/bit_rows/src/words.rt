//! Rows that are written one lane at a time.
ghost use Rattle.std.specs.Prelude.{◌≡◌, ℕ, ◌<◌, ◌==◌, false, if◌then◌else◌};
ghost use Rattle.std.specs.Int.{bit_at};
ghost use Rattle.bit_rows.specs.Lanes.{lane};

use crate::row::Row;
use std::marker::Model;

/// Lanes that are written one at a time: a `Row` is a vector, and to change one lane of it is to write it whole. Contracts
/// see eight words of 64.
#[derive(Clone, Copy)]
pub struct LaneWords {
    words: [u64; 8],
}

impl Model for LaneWords {
    ghost use Rattle.std.specs.Prelude.{◌≡◌, ℕ, List, length};

    ghost Value = { List ℕ };

    ghost view = { λ r. r.words };

    ghost inverse = { λ v. record { words = v } };

    ghost invariant = { λ r. length r.words ≡ 8 };
}

impl LaneWords {
    /// No lane.
    pub fn none() -> LaneWords
        ensures { (j : ℕ) → j < 512 → lane result j ≡ false }
    {
        LaneWords { words: [0; 8] }
    }

    /// Sets one lane, or clears it.
    pub fn put_lane(&mut self, at: usize, is_set: bool)
        requires { at < 512 }
        ensures { (j : ℕ) → j < 512 → lane self.new j ≡ (if j == at then is_set else lane self.old j) }
    {
        let word = &mut self.words[at / 64];
        *word = with_bit(*word, at % 64, is_set);
    }

    pub fn to_row(self) -> Row
        ensures { result ≡ self }
    {
        Row::of_words(self.words)
    }
}

/// The word with one bit set, or cleared.
fn with_bit(word: u64, at: usize, is_set: bool) -> u64
    requires { at < 64 }
    ensures { (i : ℕ) → i < 64 → (bit_at result i == 1) ≡ (if i == at then is_set else (bit_at word i == 1)) }
{
    (word & !(1 << at)) | (u64::from(is_set) << at)
}
