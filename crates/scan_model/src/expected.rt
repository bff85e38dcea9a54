//! The expected values of a test.

ghost use Rattle.std.specs.Prelude.{◌≡◌, ℕ, ◌+◌, ◌*◌, ◌/◌, ◌<◌, ◌^◌, ◌==◌, not, [], length, slice_index_or, All, IfOk};
ghost use Rattle.std.specs.Int.{bit_at};
ghost use Rattle.scan_model.specs.Values.{is_unknown};
ghost use Rattle.scan_model.specs.ChainShift.{value_at};
ghost use Rattle.scan_model.specs.BitTable.{table_rows};

use crate::bits::{value, write_rows};
use crate::logs::Bit;
use crate::rows::{NoMemory, Rows};
use crate::values::Tri;
use std::alloc::Global;
use std::marker::Model;

/// The expected values, 64 patterns in a word. Contracts see a row for each pattern.
#[derive(Drop)]
pub struct Expected {
    patterns: u32,
    points: u32,
    known: Rows<u64>,
    ones: Rows<u64>,
}

impl Model for Expected {
    ghost use Rattle.std.specs.Prelude.{◌≡◌, ◌+◌, ◌*◌, ◌/◌, List, length};
    ghost use Rattle.scan_model.specs.declared.values.Tri.{Tri};
    ghost use Rattle.scan_model.specs.BitTable.{table_rows};

    ghost Value = { List (List Tri) };

    ghost view = { λ e. table_rows e.known e.ones e.patterns e.points };

    ghost invariant = { λ e. (length e.known ≡ (e.patterns + 63) / 64 * e.points) × (length e.ones ≡ (e.patterns + 63) / 64 * e.points) };
}

impl Expected {
    /// Expected values from rows of them.
    pub fn of_rows(alloc: Global, points: u32, rows: &Rows<Rows<Tri>>) -> Result<Expected, NoMemory>
        requires few { length rows.now < 2 ^ 32 }
        requires whole { All (λ row. length row ≡ points) rows.now }
        ensures { IfOk result (λ e. e ≡ rows.now) }
    {
        let words = ((rows.len() + 63) / 64) * points as usize;
        let mut known = vec![in alloc; 0u64; words]?;
        let mut ones = vec![in alloc; 0u64; words]?;
        write_rows(&mut known, &mut ones, points as usize, rows.as_slice());
        Ok(Expected::of_words(
            rows.len() as u32,
            points,
            Rows::from_vec(known),
            Rows::from_vec(ones),
        ))
    }

    /// Expected values from words of 64 patterns of a point, word by word: in which of them the value is known, and in which
    /// it is 1. The bits past the last pattern say nothing.
    pub fn of_words(patterns: u32, points: u32, known: Rows<u64>, ones: Rows<u64>) -> Expected
        requires known { length known ≡ (patterns + 63) / 64 * points }
        requires ones { length ones ≡ (patterns + 63) / 64 * points }
        ensures { result ≡ table_rows known ones patterns points }
    {
        Expected {
            patterns,
            points,
            known,
            ones,
        }
    }

    /// The known values of a point in 64 patterns: bit j is 1 where pattern 64 * word + j is expected to have 0 or 1. The
    /// bits past the last pattern say nothing.
    pub fn known_word(&self, word: u32, point: u32) -> u64
        requires word { 64 * word < length self.now }
        requires point { point < length (slice_index_or self.now (64 * word) []) }
        ensures { (j : ℕ) → j < 64 → 64 * word + j < length self.now
            → (bit_at result j == 1) ≡ not (is_unknown (value_at (slice_index_or self.now (64 * word + j) []) point)) }
    {
        self.known.as_slice()[word as usize * self.points as usize + point as usize]
    }

    /// The value at a bit.
    pub fn get(&self, at: &Bit) -> Tri
        requires pattern { at.now.pattern < length self.now }
        requires point { at.now.point < length (slice_index_or self.now at.now.pattern []) }
        ensures { result ≡ value_at (slice_index_or self.now at.now.pattern []) at.now.point }
    {
        let known = self.known.as_slice();
        let ones = self.ones.as_slice();
        value(
            known,
            ones,
            self.points as usize,
            at.pattern as usize,
            at.point as usize,
        )
    }
}
