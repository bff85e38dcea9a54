//! Values of 64 lanes, as one of the eight words of a row has them.
ghost use Rattle.std.specs.Prelude.{◌≡◌, ℕ, ◌<◌, ◌==◌, ◌/◌, ◌%◌, if◌then◌else◌};
ghost use Rattle.value_rows.specs.Planes.{held};
ghost use Rattle.lane_rows.specs.WordPlanes.{held_in};

use std::marker::Model;
use value_rows::Packed;

/// A value of each of 64 lanes. Contracts see the lanes that are 1 and those that are 0.
#[derive(Clone, Copy)]
pub(crate) struct ValueWord {
    ones: u64,
    zeros: u64,
}

impl Model for ValueWord {
    ghost use Rattle.lane_rows.specs.WordPlanes.{WordPlanes, word_planes, AreWordsApart};

    ghost Value = { WordPlanes };

    ghost view = { λ p. word_planes p.ones p.zeros };

    ghost inverse = { λ v. record { ones = v.ones; zeros = v.zeros } };

    ghost invariant = { λ p. AreWordsApart p.ones p.zeros };
}

impl ValueWord {
    ghost use Rattle.lane_rows.specs.WordPlanes.{word_planes, AreWordsApart};

    /// The values that two words stand for.
    pub(crate) fn of_words(ones: u64, zeros: u64) -> ValueWord
        requires { AreWordsApart ones zeros }
        ensures { result ≡ word_planes ones zeros }
    {
        ValueWord { ones, zeros }
    }

    /// The lanes that are 1.
    pub(crate) fn ones(self) -> u64
        ensures { result ≡ self.ones }
    {
        self.ones
    }

    /// The lanes that are 0.
    pub(crate) fn zeros(self) -> u64
        ensures zeros { result ≡ self.zeros }
        ensures apart { AreWordsApart self.ones self.zeros }
    {
        self.zeros
    }
}

/// The row with the values of one of its eight words replaced.
pub(crate) fn with_values(row: Packed, at: usize, word: ValueWord) -> Packed
    requires { at < 8 }
    ensures { (j : ℕ) → j < 512 → held result j ≡ (if j / 64 == at then held_in word (j % 64) else held row j) }
{
    let ones = row.ones().with_word(at, word.ones());
    let zeros = row.zeros().with_word(at, word.zeros());
    Packed::of_rows(ones, zeros)
}
