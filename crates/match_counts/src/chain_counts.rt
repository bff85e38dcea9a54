//! Faults of shift paths over the points of a block: two sums, kept point by point.
ghost use Rattle.std.specs.Prelude.{◌≡◌, ◌<◌, ◌&&◌};
ghost use Rattle.log_rows.specs.declared.side.Side.{Side};
ghost use Rattle.lane_rows.specs.Lanes.{lane, count_lanes};
ghost use Rattle.match_counts.specs.Flips.{count_on, row_on};
ghost use Rattle.match_counts.specs.PlaceCounts.{IsSmall};

use crate::block_count::BlockCount;
use crate::place_counts::PlaceCounts;
use crate::point_counts::PointCounts;
use fault_effects::ChainObserver;
use lane_rows::Row;
use log_rows::PointRow;
use packed_sim::Scratch;
use scan_model::{CellKind, NoMemory};
use std::alloc::Global;

/// How many lanes of each side of a point a row has.
pub fn count_row(point: &PointRow, row: Row) -> BlockCount
    ensures small { IsSmall result }
    ensures count { (side : Side) → count_on side result ≡ count_lanes (λ j. lane row j && lane (row_on side point.now) j) }
{
    BlockCount {
        tfsf: row.count_both(point.failing),
        tpsf: row.count_both(point.passing),
    }
}

impl ChainObserver for PointCounts<'_> {
    ghost use Rattle.std.specs.Prelude.{[], ◌∷◌, length};
    ghost use Rattle.scan_model.specs.ScanTest.{points_of};
    ghost use Rattle.match_counts.specs.PlaceCounts.{ArePlaceCounts};
    ghost use Rattle.match_counts.specs.SameTables.{counts_same, one_there, one_all};

    type Sum = PlaceCounts;

    ghost good = { λ o. o.good.now };

    ghost sums = { λ o counts c. ArePlaceCounts o.rows.now counts c };

    ghost seeing = { λ o k. k ∷ [] };

    ghost same_sum = { λ o counts c d agree is. counts_same (length (points_of o.parts.now)) o.rows.now c d o.rows_len agree counts is };

    ghost seen_there = { λ o k lt. one_there (length (points_of o.parts.now)) k lt };

    ghost seen_all = { λ o k q lt q_lt sees. one_all k q sees };

    fn places(&self) -> usize {
        self.rows.len()
    }

    fn place_seeing(&self, point: u32, nth: u32) -> Option<u32> {
        if nth == 0 { Some(point) } else { None }
    }

    fn row(&self, scratch: &Scratch, cell: (u32, u32), kind: CellKind, place: u32) -> Row {
        self.good.predicted_row(self.parts, scratch, self.block, cell, kind, place as usize)
    }

    fn new_sum(&self, alloc: Global) -> Result<PlaceCounts, NoMemory> {
        let _ = self.parts.points();
        PlaceCounts::make(alloc, self.rows.len())
    }

    fn change(&self, sum: &mut PlaceCounts, place: u32, _old: Row, new: Row) {
        let count = count_row(&self.rows[place as usize], new);
        sum.put(place as usize, count);
    }

    fn total(&self, sum: &PlaceCounts) -> BlockCount {
        sum.sum()
    }
}
