//! The observer of the patterns that faults fit, over the points of a block.
ghost use Rattle.std.specs.Prelude.{◌≡◌, ℕ, ◌<◌, IfOk};
ghost use Rattle.lane_rows.specs.Lanes.{lane};
ghost use Rattle.fault_effects.specs.FaultModel.{Table, no_places};
ghost use Rattle.match_counts.specs.Tables.{HasTable};
ghost use Rattle.slat_view.specs.Trials.{any_failing, AreBad, AreClear};

use lane_rows::Row;
use match_counts::{FlipRows, PointCounts};
use pattern_fits::{LaneCounter, clear_lanes};
use scan_model::NoMemory;
use std::alloc::Global;

/// Says which patterns of a block a fault fits. `totals` counts the Failing bits of each pattern, `failing` has the patterns
/// with one.
#[derive(Drop)]
pub(crate) struct Fits<'a> {
    pub alloc: Global,
    pub points: PointCounts<'a>,
    pub totals: LaneCounter,
    pub failing: Row,
    ghost totals_right: { AreBad points.rows.now totals no_places },
    ghost failing_right: { (j : ℕ) → j < 512 → lane failing j ≡ any_failing points.rows.now j },
}

/// Where a flip shows, and the lanes in which no bit is against it.
#[derive(Drop)]
pub(crate) struct FitFlip {
    pub shown: FlipRows,
    pub clear: Row,
}

impl Fits<'_> {
    /// The lanes in which no bit is against what a flip shows.
    pub(crate) fn clear_lanes(&self, shown: &FlipRows) -> Result<Row, NoMemory>
        requires { (c : Table) × HasTable self.now.points.rows.now shown.now c }
        ensures { IfOk result (λ lanes. (c : Table) → HasTable self.now.points.rows.now shown.now c → AreClear self.now.points.rows.now lanes c) }
    {
        let _ = self.points.parts.points();
        clear_lanes(self.alloc, &self.totals, &shown.failing, &shown.passing)
    }
}
