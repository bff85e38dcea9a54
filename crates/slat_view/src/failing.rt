//! The failing patterns of a block.
ghost use Rattle.std.specs.Prelude.{◌≡◌, ℕ, ◌<◌, ◌≤◌, length, IfOk};
ghost use Rattle.lane_rows.specs.Lanes.{lane};
ghost use Rattle.fault_effects.specs.FaultModel.{no_places};
ghost use Rattle.slat_view.specs.Trials.{any_failing, AreBad};

use lane_rows::Row;
use log_rows::PointRow;
use pattern_fits::LaneCounter;
use scan_model::NoMemory;
use std::alloc::Global;

/// The lanes in which some point is Failing.
pub(crate) fn failing_lanes(rows: &[PointRow]) -> Row
    ensures { (j : ℕ) → j < 512 → lane result j ≡ any_failing rows.now j }
{
    let mut lanes = Row::none();
    for k in 0..rows.len() {
        lanes = lanes.or(rows[k].failing);
    }
    lanes
}

/// How many points are Failing, in each lane.
pub(crate) fn failing_counts(alloc: Global, rows: &[PointRow]) -> Result<LaneCounter, NoMemory>
    requires { length rows.now ≤ 131072 }
    ensures { IfOk result (λ counter. AreBad rows.now counter no_places) }
{
    let mut counter = LaneCounter::make(alloc)?;
    for k in 0..rows.len() {
        counter.add(rows[k].failing);
    }
    Ok(counter)
}
