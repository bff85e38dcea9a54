//! Flips over the points of a block, and what faults come to: the patterns that they fit.
ghost use Rattle.std.specs.Prelude.{◌≡◌, ℕ, ◌<◌};

use crate::fits::{FitFlip, Fits};
use crate::straight::shown_straight;
use fault_effects::Observer;
use lane_rows::Row;
use match_counts::FlipRows;
use packed_sim::Scratch;
use scan_model::{Fault, NoMemory, Steps, Stuck};
use std::alloc::Global;
use std::sync::ledger::Ledger;

impl Observer for Fits<'_> {
    ghost use Rattle.packed_sim.specs.PackedParts.{BelongsTo, IsScratchOf};
    ghost use Rattle.fault_effects.specs.FaultModel.{point_model};
    ghost use Rattle.match_counts.specs.Tables.{HasTable};
    ghost use Rattle.slat_view.specs.Trials.{AreClear, AreFitting};
    ghost use Rattle.slat_view.specs.SameTables.{fitting_same};

    type Flip = FitFlip;

    type Part = Row;

    ghost test = { λ o. o.points.parts.now };

    ghost model = { λ o. point_model o.points.parts.now };

    ghost block = { λ o. o.points.block };

    ghost ready = { λ o. BelongsTo o.points.parts.now o.points.good.now };

    ghost clean = { λ o s. IsScratchOf o.points.good.now s };

    ghost holds = { λ o flip c. AreClear o.points.rows.now flip.clear c };

    ghost means = { λ o lanes c. AreFitting o.points.rows.now lanes c };

    ghost same = { λ o lanes c d agree is. fitting_same o.points.parts.now o.points.rows.now c d o.points.rows_len agree lanes is };

    fn new_flip(&self, alloc: Global) -> FitFlip {
        FitFlip {
            shown: FlipRows::new(alloc),
            clear: self.failing.not(),
        }
    }

    fn flip<L: Ledger>(
        &self,
        scratch: &mut Scratch,
        net: u32,
        into: &mut FitFlip,
        steps: &mut Steps<L>,
    ) -> Result<(), NoMemory> {
        self.points.flip(scratch, net, &mut into.shown, steps)?;
        into.clear = self.clear_lanes(&into.shown)?;
        Ok(())
    }

    fn mask(&self, fault: &Fault, net: u32) -> Row {
        self.points.mask(fault, net)
    }

    fn downstream(&self, pin: u32) -> Row {
        self.points.downstream(pin)
    }

    fn straight(&self, pin: u32, value: Stuck) -> Result<Row, NoMemory> {
        let shown = shown_straight(self.alloc, &self.points, pin, value)?;
        let clear = self.clear_lanes(&shown)?;
        Ok(clear.and(self.failing))
    }

    fn part(&self, flip: &FitFlip, lanes: Row) -> Row {
        flip.clear.and(lanes).and(self.failing)
    }

    fn both(&self, first: Row, second: Row) -> Row {
        first.or(second)
    }
}
