//! The observer of the second frame: flips over the points of a block, and what transition faults come to.
ghost use Rattle.std.specs.Prelude.{◌≡◌, ℕ, ◌<◌, true, length};
ghost use Rattle.scan_model.specs.declared.fault.Fault.TheVariants as fault;
ghost use Rattle.scan_model.specs.Netlist.{pin_at};
ghost use Rattle.lane_rows.specs.Lanes.{lane};
ghost use Rattle.lane_rows.specs.GoodRows.{pattern_of};
ghost use Rattle.packed_sim.specs.PackedParts.{captures, IsScratchOf};
ghost use Rattle.fault_effects.specs.FaultModel.{straight_in};
ghost use Rattle.match_counts.specs.Tables.{IsCount};
ghost use Rattle.frame_rows.specs.Frames.{net_changes};
ghost use Rattle.two_frame.specs.FrameRows.{IsFrameGood};
ghost use Rattle.two_frame.specs.FrameModel.{frame_model};

use crate::frame_good::FrameGood;
use fault_effects::Observer;
use lane_rows::Row;
use match_counts::{BlockCount, FlipRows, PointCounts};
use packed_sim::{Scratch, net_of_pin};
use scan_model::{Fault, NoMemory, Steps, Stuck};
use std::alloc::Global;
use std::sync::ledger::Ledger;

/// Counts how many Failing bits of a block a transition fault explains, and how many Passing bits it mispredicts: over the
/// points of the second frame, in the lanes of the launch.
#[derive(Drop)]
pub(crate) struct FrameCounts<'a> {
    pub(crate) points: PointCounts<'a>,
    pub(crate) frames: &'a FrameGood,
    ghost second: { points.good.now ≡ frames.now.second },
}

impl FrameCounts<'_> {
    /// The lanes in which the net that a pin reads makes a transition.
    fn pin_launched(&self, pin: u32, value: Stuck) -> Row
        requires frames { IsFrameGood self.now.points.parts.now self.now.frames.now }
        requires pin { pin < length self.now.points.parts.now.netlist.pins }
        ensures { (j : ℕ) → j < 512 → captures self.now.points.parts.now (pattern_of self.now.points.block j) ≡ true
            → lane result j ≡ net_changes self.now.points.parts.now value (pattern_of self.now.points.block j) (pin_at self.now.points.parts.now.netlist pin).net }
    {
        let PointCounts { parts, block, .. } = self.points;
        let net = net_of_pin(parts.circuit(), pin);
        self.frames.launched(parts, block, net, value)
    }
}

impl Observer for FrameCounts<'_> {
    ghost use Rattle.std.specs.Prelude.{length};
    ghost use Rattle.scan_model.specs.ScanTest.{points_of};
    ghost use Rattle.packed_sim.specs.PackedParts.{IsScratchOf};
    ghost use Rattle.match_counts.specs.Tables.{HasTable, IsCount};
    ghost use Rattle.match_counts.specs.SameTables.{count_same};
    ghost use Rattle.two_frame.specs.FrameRows.{IsFrameGood};
    ghost use Rattle.two_frame.specs.FrameModel.{frame_model};

    type Flip = FlipRows;

    type Part = BlockCount;

    ghost test = { λ o. o.points.parts.now };

    ghost model = { λ o. frame_model o.points.parts.now };

    ghost block = { λ o. o.points.block };

    ghost ready = { λ o. IsFrameGood o.points.parts.now o.frames.now };

    ghost clean = { λ o s. IsScratchOf o.frames.now.second s };

    ghost holds = { λ o shown c. HasTable o.points.rows.now shown c };

    ghost means = { λ o count c. IsCount o.points.rows.now count c };

    ghost same = { λ o count c d agree is. count_same (length (points_of o.points.parts.now)) o.points.rows.now c d o.points.rows_len agree count is };

    fn new_flip(&self, alloc: Global) -> FlipRows {
        self.points.new_flip(alloc)
    }

    fn flip<L: Ledger>(
        &self,
        scratch: &mut Scratch,
        net: u32,
        into: &mut FlipRows,
        steps: &mut Steps<L>,
    ) -> Result<(), NoMemory> {
        self.points.show(scratch, net, into, steps)
    }

    fn mask(&self, fault: &Fault, net: u32) -> Row {
        let points = &self.points;
        let _ = points.parts.circuit().order();
        match *fault {
            Fault::Stem { value, .. } => {
                self.frames.launched(points.parts, points.block, net, value)
            }
            Fault::Branch { pin, value } => {
                let flips = points
                    .good
                    .branch_mask(points.parts, points.block, pin, value);
                self.pin_launched(pin, value).and(flips)
            }
            Fault::Bridge { .. } => Row::none(),
            Fault::Cell { .. } => unreachable!(),
        }
    }

    fn downstream(&self, pin: u32) -> Row {
        self.points.flips_behind(pin)
    }

    fn straight(&self, pin: u32, value: Stuck) -> Result<BlockCount, NoMemory> {
        let capture = self.points.good.blocks()[self.points.block].capture;
        let launched = self.pin_launched(pin, value);
        Ok(self.points.count_pin(pin, launched.and(capture)))
    }

    fn part(&self, flip: &FlipRows, lanes: Row) -> BlockCount {
        self.points.part(flip, lanes)
    }

    fn both(&self, first: BlockCount, second: BlockCount) -> BlockCount {
        self.points.both(first, second)
    }
}
