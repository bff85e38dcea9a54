//! The lanes in which no bit is against what a fault shows.
ghost use Rattle.std.specs.Prelude.{◌≡◌, ℕ, ◌+◌, ◌^◌, ◌<◌, ◌≤◌, ◌&&◌, ◌==◌, IfOk};
ghost use Rattle.bit_rows.specs.Lanes.{lane};
ghost use Rattle.pattern_fits.specs.LaneNumbers.{value, rows_with};

use crate::lane_counter::LaneCounter;
use bit_rows::Row;
use scan_model::NoMemory;
use std::alloc::Global;

/// The lanes in which each Failing bit is shown and no Passing bit is, by the number of Failing
/// bits in each lane, and rows of those bits of either kind that are shown.
pub fn clear_lanes(
    alloc: Global,
    totals: &LaneCounter,
    failing: &[Row],
    passing: &[Row],
) -> Result<Row, NoMemory>
    requires failing { (j : ℕ) → j < 512 → rows_with failing.now j ≤ value totals.now j }
    requires passing { (j : ℕ) → j < 512 → value totals.now j + rows_with passing.now j < 2 ^ 24 }
    ensures { IfOk result (λ lanes. (j : ℕ) → j < 512 → lane lanes j ≡ ((rows_with failing.now j == value totals.now j) && (rows_with passing.now j == 0))) }
{
    let mut against = LaneCounter::make(alloc)?;
    against.set(totals);
    against.sub_rows(failing);
    against.add_rows(passing);
    Ok(against.zeros())
}
