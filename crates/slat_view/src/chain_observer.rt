//! Faults of shift paths over the points of a block: how many bits of each pattern are against one, kept point by point.
ghost use Rattle.std.specs.Prelude.{◌≡◌, ℕ, ◌<◌, ◌&&◌, ◌||◌, not};
ghost use Rattle.lane_rows.specs.Lanes.{lane};

use crate::fits::Fits;
use fault_effects::ChainObserver;
use lane_rows::Row;
use log_rows::PointRow;
use packed_sim::Scratch;
use pattern_fits::LaneCounter;
use scan_model::{CellKind, NoMemory};
use std::alloc::Global;

/// The lanes in which a bit is against a fault that fails in some lanes.
fn against(point: &PointRow, fails: Row) -> Row
    ensures { (j : ℕ) → j < 512 → lane result j ≡ ((lane point.now.failing j && not (lane fails j)) || (lane point.now.passing j && lane fails j)) }
{
    point.failing.and(fails.not()).or(point.passing.and(fails))
}

impl ChainObserver for Fits<'_> {
    ghost use Rattle.std.specs.Prelude.{[], ◌∷◌, length};
    ghost use Rattle.scan_model.specs.ScanTest.{points_of};
    ghost use Rattle.match_counts.specs.SameTables.{one_there, one_all};
    ghost use Rattle.slat_view.specs.Trials.{AreBad};
    ghost use Rattle.slat_view.specs.SameTables.{bad_same};

    type Sum = LaneCounter;

    ghost good = { λ o. o.points.good.now };

    ghost sums = { λ o counter c. AreBad o.points.rows.now counter c };

    ghost seeing = { λ o k. k ∷ [] };

    ghost same_sum = { λ o counter c d agree is. bad_same o.points.parts.now o.points.rows.now c d o.points.rows_len agree counter is };

    ghost seen_there = { λ o k lt. one_there (length (points_of o.points.parts.now)) k lt };

    ghost seen_all = { λ o k q lt q_lt sees. one_all k q sees };

    fn places(&self) -> usize {
        self.points.places()
    }

    fn place_seeing(&self, point: u32, nth: u32) -> Option<u32> {
        self.points.place_seeing(point, nth)
    }

    fn row(&self, scratch: &Scratch, cell: (u32, u32), kind: CellKind, place: u32) -> Row {
        self.points.row(scratch, cell, kind, place)
    }

    fn new_sum(&self, alloc: Global) -> Result<LaneCounter, NoMemory> {
        let mut counter = LaneCounter::make(alloc)?;
        counter.set(&self.totals);
        Ok(counter)
    }

    fn change(&self, sum: &mut LaneCounter, place: u32, old: Row, new: Row) {
        let _ = self.points.parts.points();
        let point = &self.points.rows[place as usize];
        let before = against(point, old);
        let after = against(point, new);
        sum.sub(before.and(after.not()));
        sum.add(after.and(before.not()));
    }

    fn total(&self, sum: &LaneCounter) -> Row {
        sum.zeros().and(self.failing)
    }
}
