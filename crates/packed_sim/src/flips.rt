//! Nets forced or flipped in some lanes of a block, with what follows in their cones.
ghost use Rattle.std.specs.Prelude.{◌≡◌, ℕ, ◌+◌, ◌<◌, ◌≤◌, [], ◌∷◌, ◌&&◌, ◌↔◌, true, Contains, IsTrue, MatchOption, nat_eq, length, slice_index_or};
ghost use Rattle.std.specs.List.{IsDistinct};
ghost use Rattle.scan_model.specs.Values.{are_opposite, tri_xor};
ghost use Rattle.scan_model.specs.ScanTest.{points_of};
ghost use Rattle.scan_model.specs.NetValue.{values_of, source_of};
ghost use Rattle.scan_model.specs.Force.{force, force_taken};
ghost use Rattle.scan_model.specs.Masks.{flipped, flip_shows_from, flip_shows};
ghost use Rattle.scan_model.proofs.counting.OneSite.{force_two};
ghost use Rattle.lane_rows.specs.Lanes.{lane};
ghost use Rattle.lane_rows.specs.Planes.{held};
ghost use Rattle.lane_rows.specs.GoodRows.{pattern_of};
ghost use Rattle.lane_rows.specs.Stimuli.{Stimuli, AreRowsOf};
ghost use Rattle.packed_sim.specs.Rows.{no_row};
ghost use Rattle.packed_sim.specs.Propagation.{AreApart, lane_now};
ghost use Rattle.packed_sim.specs.PackedParts.{IsBuiltFor, BelongsTo, IsScratchIn, IsScratchOf, block_at, good_at, now_at, observed_at, captures, has_own_row, gates_downstream};

use crate::good::PackedGood;
use crate::scratch::Scratch;
use lane_rows::{Packed, Row};
use scan_model::{BridgeKind, Parts, Steps};
use std::sync::ledger::Ledger;

impl Scratch {
    /// The nets that have rows of their own, each once.
    pub fn nets(&self) -> &[u32]
        ensures all { (n : ℕ) → Contains result.now n ↔ IsTrue (has_own_row self.now n) }
        ensures differ { IsDistinct nat_eq result.now }
    {
        self.overlay.nets()
    }

    /// The lanes in which a net has the opposite of its row in the block.
    fn opposite(&self, good: &[Packed], net: u32) -> Row
        requires good { length good.now ≡ length self.now.overlay }
        requires net { net < length self.now.overlay }
        ensures { (j : ℕ) → j < 512 → lane result j ≡ are_opposite (held (slice_index_or good.now net no_row) j) (lane_now self.now.overlay good.now j net) }
    {
        good[net as usize].opposite(self.overlay.row(good, net))
    }
}

impl PackedGood {
    /// The fault-free rows of a block.
    pub(crate) fn values(&self, block: usize) -> &[Packed]
        requires { block < length self.now.rows }
        ensures { result.now ≡ (block_at self.now block).values }
    {
        self.rows.blocks()[block].values.as_slice()
    }

    /// The lanes of a block whose patterns capture.
    pub(crate) fn capture(&self, block: usize) -> Row
        requires { block < length self.now.rows }
        ensures { result ≡ (block_at self.now block).capture }
    {
        self.rows.blocks()[block].capture
    }

    /// Forces a net to a row of values, in a clean scratch.
    pub(crate) fn force_net<L: Ledger>(
        &self,
        parts: &Parts,
        scratch: &mut Scratch,
        block: usize,
        net: u32,
        row: Packed,
        steps: &mut Steps<L>,
    )
        requires built { IsBuiltFor parts.now self.now }
        requires scratch { IsScratchOf self.now scratch.old }
        requires block { block < length self.now.rows }
        requires net { net < length parts.now.netlist.nets }
        ensures scratch { IsScratchIn self.now scratch.new }
        ensures values { (σ : Stimuli) → AreRowsOf parts.now.netlist σ self.now.rows → (k j : ℕ) → k < length (points_of parts.now) → j < 512 → σ.captures (pattern_of block j) ≡ true
            → now_at self.now scratch.new block j (observed_at parts.now k) ≡ values_of parts.now.netlist (σ.source (pattern_of block j)) (force net (held row j)) (observed_at parts.now k) }
        ensures steps { steps.new ≤ steps.old + length (gates_downstream parts.now (net ∷ [])) }
    {
        let good = self.values(block);
        scratch.force(parts.circuit(), &self.wiring, good, net, row, steps);
    }

    /// Forces two nets to one row of values, in a clean scratch. Neither leads to the other.
    pub(crate) fn force_nets<L: Ledger>(
        &self,
        parts: &Parts,
        scratch: &mut Scratch,
        block: usize,
        nets: (u32, u32),
        row: Packed,
        steps: &mut Steps<L>,
    )
        requires good { BelongsTo parts.now self.now }
        requires scratch { IsScratchOf self.now scratch.old }
        requires block { block < length self.now.rows }
        requires first { nets.0 < length parts.now.netlist.nets }
        requires second { nets.1 < length parts.now.netlist.nets }
        requires apart { AreApart parts.now.netlist (nets.0 ∷ nets.1 ∷ []) }
        ensures scratch { IsScratchIn self.now scratch.new }
        ensures values { (k j : ℕ) → k < length (points_of parts.now) → j < 512 → captures parts.now (pattern_of block j) ≡ true
            → now_at self.now scratch.new block j (observed_at parts.now k) ≡ values_of parts.now.netlist (source_of parts.now None (pattern_of block j)) (force_two nets.0 nets.1 (held row j)) (observed_at parts.now k) }
        ensures steps { steps.new ≤ steps.old + length (gates_downstream parts.now (nets.0 ∷ nets.1 ∷ [])) }
    {
        let good = self.values(block);
        scratch.force_pair(parts.circuit(), &self.wiring, good, nets, row, steps);
    }

    /// Forces those nets of a bridge that take its values, in a clean scratch. Neither leads to the
    /// other.
    pub(crate) fn force_bridge<L: Ledger>(
        &self,
        parts: &Parts,
        scratch: &mut Scratch,
        block: usize,
        bridge: (u32, u32, BridgeKind),
        row: Packed,
        steps: &mut Steps<L>,
    )
        requires good { BelongsTo parts.now self.now }
        requires scratch { IsScratchOf self.now scratch.old }
        requires block { block < length self.now.rows }
        requires first { bridge.0 < length parts.now.netlist.nets }
        requires second { bridge.1 < length parts.now.netlist.nets }
        requires apart { AreApart parts.now.netlist (bridge.0 ∷ bridge.1 ∷ []) }
        ensures scratch { IsScratchIn self.now scratch.new }
        ensures values { (k j : ℕ) → k < length (points_of parts.now) → j < 512 → captures parts.now (pattern_of block j) ≡ true
            → now_at self.now scratch.new block j (observed_at parts.now k) ≡ values_of parts.now.netlist (source_of parts.now None (pattern_of block j)) (force_taken bridge.2 bridge.0 bridge.1 (held row j)) (observed_at parts.now k) }
        ensures steps { steps.new ≤ steps.old + length (gates_downstream parts.now (bridge.0 ∷ bridge.1 ∷ [])) }
    {
        let (a, b, kind) = bridge;
        if kind.takes(true, false) {
            self.force_nets(parts, scratch, block, (a, b), row, steps);
        } else {
            self.force_net(parts, scratch, block, b, row, steps);
        }
    }

    /// Flips a net in some lanes, in a clean scratch, and evaluates again what changes and leads to a point. Where the net
    /// is X nothing changes. The rows may be those of any stimuli.
    pub fn flip<L: Ledger>(
        &self,
        parts: &Parts,
        scratch: &mut Scratch,
        block: usize,
        net: u32,
        lanes: Row,
        steps: &mut Steps<L>,
    )
        requires built { IsBuiltFor parts.now self.now }
        requires scratch { IsScratchOf self.now scratch.old }
        requires block { block < length self.now.rows }
        requires net { net < length parts.now.netlist.nets }
        ensures scratch { IsScratchIn self.now scratch.new }
        ensures shows_from { (σ : Stimuli) → AreRowsOf parts.now.netlist σ self.now.rows → (k j : ℕ) → k < length (points_of parts.now) → j < 512 → σ.captures (pattern_of block j) ≡ true
            → are_opposite (good_at self.now block j (observed_at parts.now k)) (now_at self.now scratch.new block j (observed_at parts.now k)) ≡ (lane lanes j && flip_shows_from parts.now.netlist (σ.source (pattern_of block j)) net (observed_at parts.now k)) }
        ensures shows { BelongsTo parts.now self.now → (k j : ℕ) → k < length (points_of parts.now) → j < 512 → captures parts.now (pattern_of block j) ≡ true
            → are_opposite (good_at self.now block j (observed_at parts.now k)) (now_at self.now scratch.new block j (observed_at parts.now k)) ≡ (lane lanes j && flip_shows parts.now (pattern_of block j) net k) }
        ensures values { BelongsTo parts.now self.now → (k j : ℕ) → k < length (points_of parts.now) → j < 512 → captures parts.now (pattern_of block j) ≡ true → lane lanes j ≡ true
            → now_at self.now scratch.new block j (observed_at parts.now k) ≡ flipped parts.now (pattern_of block j) net (observed_at parts.now k) }
        ensures steps { steps.new ≤ steps.old + length (gates_downstream parts.now (net ∷ [])) }
    {
        let _ = parts.circuit();
        let row = self.row_of(parts, block, net);
        let flipped = Packed::pick(lanes, row.not(), row);
        self.force_net(parts, scratch, block, net, flipped, steps);
    }

    /// The fault-free row of a net.
    pub(crate) fn row_of(&self, parts: &Parts, block: usize, net: u32) -> Packed
        requires built { IsBuiltFor parts.now self.now }
        requires block { block < length self.now.rows }
        requires net { net < length parts.now.netlist.nets }
        ensures { (j : ℕ) → j < 512 → held result j ≡ good_at self.now block j net }
    {
        let _ = parts;
        self.values(block)[net as usize]
    }

    /// The fault-free row of a net, lent where it lies.
    pub(crate) fn lent_row(&self, parts: &Parts, block: usize, net: u32) -> &Packed
        requires built { IsBuiltFor parts.now self.now }
        requires block { block < length self.now.rows }
        requires net { net < length parts.now.netlist.nets }
        ensures { (j : ℕ) → j < 512 → held result.now j ≡ good_at self.now block j net }
    {
        let _ = parts;
        &self.values(block)[net as usize]
    }

    /// The lanes in which a net now has the opposite of its fault-free value.
    pub fn difference(&self, parts: &Parts, scratch: &Scratch, block: usize, net: u32) -> Row
        requires built { IsBuiltFor parts.now self.now }
        requires scratch { IsScratchIn self.now scratch.now }
        requires block { block < length self.now.rows }
        requires net { net < length parts.now.netlist.nets }
        ensures { (j : ℕ) → j < 512 → lane result j ≡ are_opposite (good_at self.now block j net) (now_at self.now scratch.now block j net) }
    {
        let _ = parts;
        scratch.opposite(self.values(block), net)
    }

    /// The XOR of the fault-free row of a net and the one that it has now, if it has one of its own.
    pub fn change(&self, parts: &Parts, scratch: &Scratch, block: usize, net: u32) -> Option<Packed>
        requires built { IsBuiltFor parts.now self.now }
        requires scratch { IsScratchIn self.now scratch.now }
        requires block { block < length self.now.rows }
        requires net { net < length parts.now.netlist.nets }
        ensures { MatchOption result ((j : ℕ) → now_at self.now scratch.now block j net ≡ good_at self.now block j net)
            (λ row. (j : ℕ) → j < 512 → held row j ≡ tri_xor (good_at self.now block j net) (now_at self.now scratch.now block j net)) }
    {
        match scratch.overlay.own(net) {
            Some(now) => {
                let good = self.row_of(parts, block, net);
                Some(good.xor(now))
            }
            None => None,
        }
    }

    /// Takes all changes out.
    pub fn clear(&self, scratch: &mut Scratch)
        requires { IsScratchIn self.now scratch.old }
        ensures { IsScratchOf self.now scratch.new }
    {
        scratch.clear();
    }
}
