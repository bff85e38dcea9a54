//! Flips over the points of a block, and what faults come to: two sums.
ghost use Rattle.std.specs.Prelude.{◌≡◌, ℕ, ◌+◌, ◌<◌};
ghost use Rattle.scan_model.specs.declared.fault.Fault.TheVariants as fault;
ghost use Rattle.packed_sim.specs.PackedParts.{IsScratchOf};
ghost use Rattle.fault_effects.specs.FaultModel.{point_model, straight_in};
ghost use Rattle.match_counts.specs.Tables.{IsCount};

use crate::block_count::BlockCount;
use crate::flip_rows::FlipRows;
use crate::point_counts::PointCounts;
use fault_effects::Observer;
use lane_rows::Row;
use packed_sim::{Scratch, net_of_pin};
use scan_model::{Fault, NoMemory, Steps, Stuck};
use std::alloc::Global;
use std::sync::ledger::Ledger;

impl Observer for PointCounts<'_> {
    ghost use Rattle.std.specs.Prelude.{length};
    ghost use Rattle.scan_model.specs.ScanTest.{points_of};
    ghost use Rattle.packed_sim.specs.PackedParts.{BelongsTo, IsScratchOf};
    ghost use Rattle.fault_effects.specs.FaultModel.{point_model};
    ghost use Rattle.match_counts.specs.Tables.{HasTable, IsCount};
    ghost use Rattle.match_counts.specs.SameTables.{count_same};

    type Flip = FlipRows;

    type Part = BlockCount;

    ghost test = { λ o. o.parts.now };

    ghost model = { λ o. point_model o.parts.now };

    ghost block = { λ o. o.block };

    ghost ready = { λ o. BelongsTo o.parts.now o.good.now };

    ghost clean = { λ o s. IsScratchOf o.good.now s };

    ghost holds = { λ o shown c. HasTable o.rows.now shown c };

    ghost means = { λ o count c. IsCount o.rows.now count c };

    ghost same = { λ o count c d agree is. count_same (length (points_of o.parts.now)) o.rows.now c d o.rows_len agree count is };

    fn new_flip(&self, alloc: Global) -> FlipRows {
        FlipRows::new(alloc)
    }

    fn flip<L: Ledger>(
        &self,
        scratch: &mut Scratch,
        net: u32,
        into: &mut FlipRows,
        steps: &mut Steps<L>,
    ) -> Result<(), NoMemory> {
        self.show(scratch, net, into, steps)
    }

    fn mask(&self, fault: &Fault, net: u32) -> Row {
        let _ = self.parts.circuit();
        match *fault {
            Fault::Stem { value, .. } => {
                self.good.stuck_mask(self.parts, self.block, net, value)
            }
            Fault::Branch { pin, value } => {
                self.good.branch_mask(self.parts, self.block, pin, value)
            }
            Fault::Bridge { a, b, kind } => {
                self.good
                    .bridge_mask(self.parts, self.block, (a, b), kind, net)
            }
            Fault::Cell { .. } => unreachable!(),
        }
    }

    fn downstream(&self, pin: u32) -> Row {
        self.flips_behind(pin)
    }

    fn straight(&self, pin: u32, value: Stuck) -> Result<BlockCount, NoMemory> {
        let net = net_of_pin(self.parts.circuit(), pin);
        let stuck = self.good.stuck_mask(self.parts, self.block, net, value);
        let capture = self.good.blocks()[self.block].capture;
        Ok(self.count_pin(pin, stuck.and(capture)))
    }

    fn part(&self, flip: &FlipRows, lanes: Row) -> BlockCount {
        let _ = self.parts.points();
        flip.count_in(lanes)
    }

    fn both(&self, first: BlockCount, second: BlockCount) -> BlockCount {
        let _ = self.parts.points();
        BlockCount {
            tfsf: first.tfsf + second.tfsf,
            tpsf: first.tpsf + second.tpsf,
        }
    }
}
