//! The rows of lanes in which a flip shows at Failing and at Passing bits, and what a mask has of them.
ghost use Rattle.std.specs.Prelude.{◌≡◌, ℕ, ◌+◌, ◌^◌, ◌<◌, ◌&&◌, Bool, All, [], length, sum_by, OnOk};
ghost use Rattle.lane_rows.specs.Lanes.{lane, count_lanes};
ghost use Rattle.packed_sim.specs.PackedParts.{IsBuiltFor, IsScratchIn, points_of_net};
ghost use Rattle.log_rows.specs.declared.side.Side.{Side};
ghost use Rattle.match_counts.specs.declared.block_count.BlockCount.{BlockCount};
ghost use Rattle.log_rows.specs.declared.side.Side.TheVariants as side;
ghost use Rattle.match_counts.specs.Flips.{tallied, row_on, point_row_at, list_on, caught_lane, IsShown, AreFew, count_on};

use crate::block_count::BlockCount;
use crate::flip_rows::FlipRows;
use crate::lane_tally::tally;
use crate::point_counts::PointCounts;
use lane_rows::Row;
use log_rows::PointRow;
use packed_sim::Scratch;
use scan_model::NoMemory;
use std::alloc::Global;

/// Adds a row, if it has a lane.
fn push_some(rows: &mut Vec<Row>, row: Row) -> Result<(), NoMemory>
    ensures { OnOk result ((m : ℕ → Bool) → tallied rows.new.items m ≡ tallied rows.old.items m + count_lanes (λ j. lane row j && m j)) }
{
    if !row.is_empty() {
        rows.push(row)?;
    }
    Ok(())
}

impl FlipRows {
    /// Room for a flip, with nothing kept.
    pub fn new(alloc: Global) -> FlipRows
        ensures failing { result.failing.items ≡ [] }
        ensures passing { result.passing.items ≡ [] }
    {
        FlipRows {
            failing: Vec::new(alloc),
            passing: Vec::new(alloc),
        }
    }

    /// Adds what shows at one place, given the lanes in which it differs. The only error is want of memory.
    pub fn add_point(&mut self, row: &PointRow, caught: Row) -> Result<(), NoMemory>
        ensures { OnOk result ((side : Side) (m : ℕ → Bool) → tallied (list_on side self.new) m
            ≡ tallied (list_on side self.old) m + count_lanes (λ j. (lane caught j && lane (row_on side row.now) j) && m j)) }
    {
        push_some(&mut self.failing, caught.and(row.failing))?;
        push_some(&mut self.passing, caught.and(row.passing))?;
        Ok(())
    }

    /// Adds what shows at the points of a net.
    fn add_points(&mut self, rows: &[PointRow], points: &[u32], caught: Row) -> Result<(), NoMemory>
        requires { All (λ k. k < length rows.now) points.now }
        ensures { OnOk result ((side : Side) (m : ℕ → Bool) → tallied (list_on side self.new) m
            ≡ tallied (list_on side self.old) m + sum_by (λ k. count_lanes (λ j. (lane caught j && lane (row_on side (point_row_at rows.now k)) j) && m j)) points.now) }
    {
        for point in points {
            self.add_point(&rows[*point as usize], caught)?;
        }
        Ok(())
    }

    /// Adds what a scratch shows at the points of a net. Most nets have none.
    fn add_net(
        &mut self,
        counts: &PointCounts<'_>,
        scratch: &Scratch,
        net: u32,
    ) -> Result<(), NoMemory>
        requires built { IsBuiltFor counts.now.parts.now counts.now.good.now }
        requires scratch { IsScratchIn counts.now.good.now scratch.now }
        requires net { net < length counts.now.parts.now.netlist.nets }
        ensures { OnOk result ((side : Side) (m : ℕ → Bool) → tallied (list_on side self.new) m
            ≡ tallied (list_on side self.old) m + sum_by (λ k. count_lanes (λ j. caught_lane counts.now.parts.now counts.now.good.now scratch.now counts.now.block counts.now.rows.now side k j && m j)) (points_of_net counts.now.parts.now net)) }
    {
        let _ = counts.parts.points();
        let points = counts.good.points_of_net(counts.parts, net);
        if points.is_empty() {
            return Ok(());
        }
        let capture = counts.good.blocks()[counts.block].capture;
        let caught = counts
            .good
            .difference(counts.parts, scratch, counts.block, net)
            .and(capture);
        self.add_points(counts.rows, points, caught)?;
        Ok(())
    }

    /// Takes what a scratch shows at all points, in place of what was here.
    pub(crate) fn gather(
        &mut self,
        counts: &PointCounts<'_>,
        scratch: &Scratch,
    ) -> Result<(), NoMemory>
        requires built { IsBuiltFor counts.now.parts.now counts.now.good.now }
        requires scratch { IsScratchIn counts.now.good.now scratch.now }
        ensures { OnOk result (IsShown counts.now.parts.now counts.now.good.now scratch.now counts.now.block counts.now.rows.now self.new) }
    {
        let _ = counts.parts.points();
        self.failing.clear();
        self.passing.clear();
        let nets = scratch.nets();
        for net in nets {
            self.add_net(counts, scratch, *net)?;
        }
        Ok(())
    }

    /// What a mask has of them.
    pub fn count_in(&self, mask: Row) -> BlockCount
        requires { AreFew self.now }
        ensures count { result ≡ record { tfsf = tallied (list_on side.Failing self.now) (lane mask); tpsf = tallied (list_on side.Passing self.now) (lane mask) } }
        ensures few { (side : Side) → count_on side result < 2 ^ 31 }
    {
        BlockCount {
            tfsf: tally(&self.failing, mask),
            tpsf: tally(&self.passing, mask),
        }
    }
}
