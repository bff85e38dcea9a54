//! The rows that expected values are made of.
ghost use Rattle.std.specs.Prelude.{◌≡◌, ℕ, ◌*◌, ◌<◌, List, [], length, slice_index_or};
ghost use Rattle.scan_model.specs.declared.values.Tri.{Tri};
ghost use Rattle.scan_model.specs.ChainShift.{value_at};
ghost use Rattle.lane_rows.specs.Planes.{held};
ghost use Rattle.lane_rows.specs.GoodRows.{pattern_of};

use lane_rows::Packed;

/// The responses of places in the patterns of a test, 512 patterns at a time.
pub trait ResponseRows {
    ghost use Rattle.std.specs.Prelude.{ℕ, List};
    ghost use Rattle.scan_model.specs.declared.values.Tri.{Tri};

    /// A row for each pattern, with a value for each place.
    ghost table: { Self → List (List Tri) };

    ghost places: { Self → ℕ };

    /// What it reads belongs together.
    ghost ready: { Self → Type 0 };

    /// What a place shows in the patterns of a block.
    fn row(&self, block: usize, place: u32) -> Packed
        requires ready { ready self.now }
        requires block { 512 * block < length (table self.now) }
        requires place { place < places self.now }
        ensures { (j : ℕ) → j < 512 → pattern_of block j < length (table self.now) → held result j ≡ value_at (slice_index_or (table self.now) (pattern_of block j) []) place };
}
