//! Flips and faults of shift paths over the compact points of a block, and what faults come to: two sums.

ghost use Rattle.std.specs.Prelude.{◌≡◌, ◌<◌, length, OnOk};
ghost use Rattle.packed_sim.specs.PackedParts.{BelongsTo, IsScratchIn};
ghost use Rattle.fault_effects.specs.FaultModel.{shown_in};
ghost use Rattle.match_counts.specs.Tables.{HasTable};
ghost use Rattle.chain_compactor.specs.CompactModel.{compact_model};
ghost use Rattle.chain_compactor.specs.ShownFlips.{ShowsFlip};

use crate::counts::CompactCounts;
use crate::shown_changes::{CellChanges, FlipChanges, PinChanges};
use fault_effects::{ChainObserver, Observer};
use lane_rows::Row;
use match_counts::{BlockCount, FlipRows, PlaceCounts, count_row};
use packed_sim::{Scratch, net_of_pin};
use scan_model::{CellKind, Fault, NoMemory, Steps, Stuck};
use std::alloc::Global;
use std::sync::ledger::Ledger;

impl CompactCounts<'_> {
    /// Takes where a flip shows that a scratch has, in place of what was here. The only error is want of memory.
    fn gather(&self, scratch: &Scratch, net: u32, into: &mut FlipRows) -> Result<(), NoMemory>
        requires flip { ShowsFlip self.now.parts.now self.now.good.now self.now.block net scratch.now }
        ensures { OnOk result (HasTable self.now.rows.now into.new (shown_in (compact_model self.now.parts.now self.now.compact.now) self.now.block net)) }
    {
        let _ = self.parts.chains();
        let due = self.due_places(scratch.nets())?;
        let flip = FlipChanges {
            parts: self.parts,
            good: self.good,
            block: self.block,
            net,
            scratch,
        };
        let capture = self.good.blocks()[self.block].capture;
        self.show_places(&flip, capture, &due, into)?;
        Ok(())
    }
}

impl Observer for CompactCounts<'_> {
    ghost use Rattle.std.specs.Prelude.{length};
    ghost use Rattle.packed_sim.specs.PackedParts.{BelongsTo, IsScratchOf};
    ghost use Rattle.match_counts.specs.Tables.{HasTable, IsCount};
    ghost use Rattle.match_counts.specs.SameTables.{count_same};
    ghost use Rattle.chain_compactor.specs.CompactModel.{compact_model};

    type Flip = FlipRows;

    type Part = BlockCount;

    ghost test = { λ o. o.parts.now };

    ghost model = { λ o. compact_model o.parts.now o.compact.now };

    ghost block = { λ o. o.block };

    ghost ready = { λ o. BelongsTo o.parts.now o.good.now };

    ghost clean = { λ o s. IsScratchOf o.good.now s };

    ghost holds = { λ o shown c. HasTable o.rows.now shown c };

    ghost means = { λ o count c. IsCount o.rows.now count c };

    ghost same = { λ o count c d agree is. count_same (length o.compact.now.points) o.rows.now c d o.rows_len agree count is };

    fn new_flip(&self, alloc: Global) -> FlipRows {
        FlipRows::new(alloc)
    }

    fn flip<L: Ledger>(
        &self,
        scratch: &mut Scratch,
        net: u32,
        into: &mut FlipRows,
        steps: &mut Steps<L>,
    ) -> Result<(), NoMemory> {
        self.good
            .flip(self.parts, scratch, self.block, net, Row::all(), steps);
        let gathered = self.gather(scratch, net, into);
        self.good.clear(scratch);
        gathered
    }

    fn mask(&self, fault: &Fault, net: u32) -> Row {
        let _ = self.parts.circuit();
        match *fault {
            Fault::Stem { value, .. } => {
                self.good.stuck_mask(self.parts, self.block, net, value)
            }
            Fault::Branch { pin, value } => {
                self.good.branch_mask(self.parts, self.block, pin, value)
            }
            Fault::Bridge { a, b, kind } => {
                self.good
                    .bridge_mask(self.parts, self.block, (a, b), kind, net)
            }
            Fault::Cell { .. } => unreachable!(),
        }
    }

    fn downstream(&self, pin: u32) -> Row {
        let zero = self
            .good
            .branch_mask(self.parts, self.block, pin, Stuck::Zero);
        let one = self
            .good
            .branch_mask(self.parts, self.block, pin, Stuck::One);
        zero.or(one)
    }

    fn straight(&self, pin: u32, value: Stuck) -> Result<BlockCount, NoMemory> {
        let _ = self.compact.points();
        let net = net_of_pin(self.parts.circuit(), pin);
        let due = self.due_places(&[net])?;
        let stuck = PinChanges {
            parts: self.parts,
            good: self.good,
            block: self.block,
            pin,
            value,
        };
        let capture = self.good.blocks()[self.block].capture;
        let mut shown = FlipRows::new(self.alloc);
        self.show_places(&stuck, capture, &due, &mut shown)?;
        Ok(shown.count_in(Row::all()))
    }

    fn part(&self, flip: &FlipRows, lanes: Row) -> BlockCount {
        let _ = self.compact.points();
        flip.count_in(lanes)
    }

    fn both(&self, first: BlockCount, second: BlockCount) -> BlockCount {
        let _ = self.compact.points();
        BlockCount {
            tfsf: first.tfsf + second.tfsf,
            tpsf: first.tpsf + second.tpsf,
        }
    }
}

impl ChainObserver for CompactCounts<'_> {
    ghost use Rattle.std.specs.Prelude.{length};
    ghost use Rattle.std.proofs.Common.{eqb-true};
    ghost use Rattle.std.proofs.lemmas.Map.Views.{Contains-from_any};
    ghost use Rattle.scan_model.specs.ScanTest.{point_at};
    ghost use Rattle.match_counts.specs.PlaceCounts.{ArePlaceCounts};
    ghost use Rattle.match_counts.specs.SameTables.{counts_same};
    ghost use Rattle.chain_compactor.specs.ObservationPoints.{seeing};

    type Sum = PlaceCounts;

    ghost good = { λ o. o.good.now };

    ghost sums = { λ o counts c. ArePlaceCounts o.rows.now counts c };

    ghost seeing = { λ o k. seeing o.parts.now o.compact.now (point_at o.parts.now k) };

    ghost same_sum = { λ o counts c d agree is. counts_same (length o.compact.now.points) o.rows.now c d o.rows_len agree counts is };

    ghost seen_there = { λ o k lt. o.seen_within k lt };

    ghost seen_all = { λ o k q lt q_lt sees. Contains-from_any eqb-true q (seeing o.parts.now o.compact.now (point_at o.parts.now k)) sees };

    fn places(&self) -> usize {
        self.rows.len()
    }

    fn place_seeing(&self, point: u32, nth: u32) -> Option<u32> {
        self.tables
            .place_seeing(self.parts, self.compact, point, nth)
    }

    fn row(&self, scratch: &Scratch, cell: (u32, u32), kind: CellKind, place: u32) -> Row {
        let _ = self.parts.chains();
        let changes = CellChanges {
            parts: self.parts,
            good: self.good,
            block: self.block,
            cell,
            kind,
            scratch,
        };
        let there = self.good.patterns(self.parts, self.block);
        self.differing_row(&changes, there, place)
    }

    fn new_sum(&self, alloc: Global) -> Result<PlaceCounts, NoMemory> {
        PlaceCounts::make(alloc, self.rows.len())
    }

    fn change(&self, sum: &mut PlaceCounts, place: u32, _old: Row, new: Row) {
        let count = count_row(&self.rows[place as usize], new);
        sum.put(place as usize, count);
    }

    fn total(&self, sum: &PlaceCounts) -> BlockCount {
        sum.sum()
    }
}
