//! The observer of two sums, over the points of a block.
ghost use Rattle.std.specs.Prelude.{◌≡◌, ℕ, ◌<◌, true, length, OnOk};
ghost use Rattle.scan_model.specs.ScanTest.{points_of};
ghost use Rattle.lane_rows.specs.Lanes.{lane};
ghost use Rattle.lane_rows.specs.GoodRows.{pattern_of};
ghost use Rattle.lane_rows.specs.Stimuli.{Stimuli, AreRowsOf};
ghost use Rattle.packed_sim.specs.PackedParts.{IsBuiltFor, IsScratchOf};
ghost use Rattle.fault_effects.specs.PinFlips.{pin_flips_from};
ghost use Rattle.fault_effects.specs.Readers.{IsPinOf};
ghost use Rattle.match_counts.specs.Tables.{HasTable, shown_under};

use crate::flip_rows::FlipRows;
use lane_rows::Row;
use log_rows::PointRow;
use packed_sim::{PackedGood, Scratch};
use scan_model::{NoMemory, Parts, Steps};
use std::sync::ledger::Ledger;

/// Counts how many Failing bits of a block a fault explains, and how many Passing bits it mispredicts.
#[derive(Drop)]
pub struct PointCounts<'a> {
    pub parts: &'a Parts,
    pub good: &'a PackedGood,
    pub block: usize,
    pub rows: &'a [PointRow],
    ghost block_within: { block < length good.now.rows },
    ghost rows_len: { length rows.now ≡ length (points_of parts.now) },
}

impl PointCounts<'_> {
    /// Flips a net in all lanes, keeps where that shows, and leaves the scratch as it was. The rows of values may be those
    /// of any stimuli. The only error is want of memory.
    pub fn show<L: Ledger>(
        &self,
        scratch: &mut Scratch,
        net: u32,
        into: &mut FlipRows,
        steps: &mut Steps<L>,
    ) -> Result<(), NoMemory>
        requires built { IsBuiltFor self.now.parts.now self.now.good.now }
        requires scratch { IsScratchOf self.now.good.now scratch.old }
        requires net { net < length self.now.parts.now.netlist.nets }
        ensures scratch { IsScratchOf self.now.good.now scratch.new }
        ensures flip { OnOk result ((σ : Stimuli) → AreRowsOf self.now.parts.now.netlist σ self.now.good.now.rows → HasTable self.now.rows.now into.new (shown_under self.now.parts.now σ self.now.block net)) }
    {
        self.good
            .flip(self.parts, scratch, self.block, net, Row::all(), steps);
        let gathered = into.gather(self, scratch);
        self.good.clear(scratch);
        gathered?;
        Ok(())
    }

    /// The lanes in which a flip of a pin flips the gate that reads through it, over rows of any stimuli.
    pub fn flips_behind(&self, pin: u32) -> Row
        requires built { IsBuiltFor self.now.parts.now self.now.good.now }
        requires pin { pin < length self.now.parts.now.netlist.pins }
        ensures { (σ : Stimuli) → AreRowsOf self.now.parts.now.netlist σ self.now.good.now.rows → (g j : ℕ) → IsPinOf self.now.parts.now pin g → j < 512 → σ.captures (pattern_of self.now.block j) ≡ true
            → lane result j ≡ pin_flips_from self.now.parts.now.netlist (σ.source (pattern_of self.now.block j)) pin g }
    {
        self.good.pin_mask(self.parts, self.block, pin)
    }
}
