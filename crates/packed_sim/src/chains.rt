//! Chains in the patterns of a block: what a cell is loaded with, captures and unloads under a fault of the shift path.
ghost use Rattle.std.specs.Prelude.{◌≡◌, ℕ, ◌+◌, ◌-◌, ◌<◌, ◌≤◌, Some, drop, length, if◌then◌else◌};
ghost use Rattle.scan_model.specs.declared.fault.Fault.TheVariants as fault;
ghost use Rattle.scan_model.specs.declared.parts.Point.TheVariants as point;
ghost use Rattle.scan_model.specs.ScanTest.{IsFlop, chain_at};
ghost use Rattle.scan_model.specs.Netlist.{driver_of};
ghost use Rattle.scan_model.specs.ChainShift.{passed, unload_passes};
ghost use Rattle.scan_model.specs.Loads.{load, cell};
ghost use Rattle.scan_model.specs.Response.{observed};
ghost use Rattle.scan_model.specs.Suspect.{observed_net};
ghost use Rattle.scan_model.specs.declared.values.Tri.TheVariants.{Unknown};
ghost use Rattle.lane_rows.specs.Lanes.{lane};
ghost use Rattle.lane_rows.specs.Planes.{held};
ghost use Rattle.lane_rows.specs.GoodRows.{pattern_of};
ghost use Rattle.place_sets.specs.Places.{room};
ghost use Rattle.packed_sim.specs.Propagation.{HasMoved, IsWithin, is_downstream};
ghost use Rattle.packed_sim.specs.PackedParts.{IsBuiltFor, BelongsTo, IsScratchIn, IsScratchOf, block_at, good_at, now_at, gates_downstream};
ghost use Rattle.packed_sim.specs.ChainLoads.{IsOpenLoad, IsLoaded, passed_value};

use crate::good::PackedGood;
use crate::scratch::Scratch;
use lane_rows::Packed;
use scan_model::{CellKind, Parts, Steps, Tri};
use std::sync::ledger::Ledger;

/// What a value is after it has passed the fault, with that of the position above.
fn passed_by(kind: CellKind, here: Packed, next: Packed) -> Packed
    ensures { (j : ℕ) → j < 512 → held result j ≡ passed_value kind (held here j) (held next j) }
{
    match kind {
        CellKind::Stuck0 => Packed::all(Tri::Zero),
        CellKind::Stuck1 => Packed::all(Tri::One),
        CellKind::SlowRise => here.and(next),
        CellKind::SlowFall => here.or(next),
    }
}

/// How many cells a chain has.
fn chain_len(parts: &Parts, chain: u32) -> usize
    requires { chain < length parts.now.chains }
    ensures { result ≡ length (chain_at parts.now chain).cells }
{
    parts.chains().as_slice()[chain as usize].cells.len()
}

/// The position after one of a chain, which may be past its end.
fn next_position(parts: &Parts, chain: u32, pos: usize) -> usize
    requires chain { chain < length parts.now.chains }
    requires pos { pos < length (chain_at parts.now chain).cells }
    ensures { result ≡ pos + 1 }
{
    let len = chain_len(parts, chain);
    if pos < len { pos + 1 } else { len }
}

fn listed_cell(parts: &Parts, chain: u32, pos: usize) -> u32
    requires chain { chain < length parts.now.chains }
    requires pos { pos < length (chain_at parts.now chain).cells }
    ensures { result ≡ cell parts.now chain pos }
{
    parts.chains().as_slice()[chain as usize].cells.as_slice()[pos]
}

/// The net of a cell.
pub(crate) fn cell_at(parts: &Parts, chain: u32, pos: usize) -> u32
    requires chain { chain < length parts.now.chains }
    requires pos { pos < length (chain_at parts.now chain).cells }
    ensures value { result ≡ cell parts.now chain pos }
    ensures in_range { result < length parts.now.netlist.nets }
    ensures flop { IsFlop (driver_of parts.now.netlist result) }
{
    let _ = parts.chains();
    let net = listed_cell(parts, chain, pos);
    net
}

/// Whether the value of a position passes the fault on its way out.
fn passes_out(kind: CellKind, pos: u32, at: u32) -> bool
    ensures { result ≡ unload_passes kind pos at }
{
    match kind {
        CellKind::Stuck0 | CellKind::Stuck1 => at <= pos,
        CellKind::SlowRise | CellKind::SlowFall => at < pos,
    }
}

impl PackedGood {
    /// What a position of a chain is loaded with, without a fault; X past the chain's end.
    fn load_row(&self, parts: &Parts, block: usize, chain: u32, pos: usize) -> Packed
        requires good { BelongsTo parts.now self.now }
        requires block { block < length self.now.rows }
        requires chain { chain < length parts.now.chains }
        ensures within { pos < length (chain_at parts.now chain).cells → (j : ℕ) → j < 512 → held result j ≡ good_at self.now block j (cell parts.now chain pos) }
        ensures past { length (chain_at parts.now chain).cells ≤ pos → (j : ℕ) → j < 512 → held result j ≡ Unknown }
    {
        let len = chain_len(parts, chain);
        if pos < len {
            let net = cell_at(parts, chain, pos);
            self.row_of(parts, block, net)
        } else {
            Packed::all(Tri::Unknown)
        }
    }

    /// What a position downstream of the fault is loaded with.
    fn passed_row(
        &self,
        parts: &Parts,
        block: usize,
        chain: u32,
        kind: CellKind,
        pos: usize,
    ) -> Packed
        requires good { BelongsTo parts.now self.now }
        requires block { block < length self.now.rows }
        requires chain { chain < length parts.now.chains }
        requires pos { pos < length (chain_at parts.now chain).cells }
        ensures { (j : ℕ) → j < 512 → pattern_of block j < length parts.now.patterns → held result j ≡ passed kind (load parts.now (pattern_of block j) chain) pos }
    {
        let _ = parts.chains();
        let above = next_position(parts, chain, pos);
        let here = self.load_row(parts, block, chain, pos);
        let next = self.load_row(parts, block, chain, above);
        passed_by(kind, here, next)
    }
}

impl PackedGood {
    /// Gives one cell more what the fault loads, from the position above the fault down.
    fn load_cell(
        &self,
        parts: &Parts,
        scratch: &mut Scratch,
        block: usize,
        chain: u32,
        kind: CellKind,
        at: usize,
    )
        requires good { BelongsTo parts.now self.now }
        requires block { block < length self.now.rows }
        requires chain { chain < length parts.now.chains }
        requires above { 1 ≤ at }
        requires within { at < length (chain_at parts.now chain).cells }
        requires opened { IsOpenLoad parts.now self.now block chain at kind scratch.old }
        ensures opened { IsOpenLoad parts.now self.now block chain (at - 1) kind scratch.new }
        ensures within { (pos : ℕ) → pos < at → IsWithin self.now.wiring.order.items (is_downstream parts.now.netlist (drop (pos + 1) (chain_at parts.now chain).cells)) scratch.old
            → IsWithin self.now.wiring.order.items (is_downstream parts.now.netlist (drop (pos + 1) (chain_at parts.now chain).cells)) scratch.new }
        ensures room { room scratch.new.waiting ≡ room scratch.old.waiting }
        ensures moved { HasMoved (block_at self.now block).values scratch.old scratch.new }
    {
        let _ = parts.chains();
        let net = cell_at(parts, chain, at);
        let row = self.passed_row(parts, block, chain, kind, at);
        scratch.set(&self.wiring, net, row);
    }

    /// Loads a chain as under a fault after a position, in a clean scratch.
    pub fn load<L: Ledger>(
        &self,
        parts: &Parts,
        scratch: &mut Scratch,
        block: usize,
        fault_cell: (u32, u32),
        kind: CellKind,
        steps: &mut Steps<L>,
    )
        requires good { BelongsTo parts.now self.now }
        requires scratch { IsScratchOf self.now scratch.old }
        requires block { block < length self.now.rows }
        requires chain { fault_cell.0 < length parts.now.chains }
        requires pos { fault_cell.1 < length (chain_at parts.now fault_cell.0).cells }
        ensures loaded { IsLoaded parts.now self.now block fault_cell.0 fault_cell.1 kind scratch.new }
        ensures steps { steps.new ≤ steps.old + length (gates_downstream parts.now (drop (fault_cell.1 + 1) (chain_at parts.now fault_cell.0).cells)) }
    {
        let _ = parts.chains();
        let mut at = chain_len(parts, fault_cell.0) - 1;
        while at > fault_cell.1 as usize {
            self.load_cell(parts, scratch, block, fault_cell.0, kind, at);
            at -= 1;
        }
        let circuit = parts.circuit();
        let good = self.values(block);
        scratch.settle(circuit, &self.wiring, good, steps);
    }

    /// From the fault after position `fault_cell.1` + 1 to that after `fault_cell.1`: one cell is loaded otherwise.
    pub fn load_more<L: Ledger>(
        &self,
        parts: &Parts,
        scratch: &mut Scratch,
        block: usize,
        fault_cell: (u32, u32),
        kind: CellKind,
        steps: &mut Steps<L>,
    )
        requires good { BelongsTo parts.now self.now }
        requires block { block < length self.now.rows }
        requires chain { fault_cell.0 < length parts.now.chains }
        requires pos { fault_cell.1 + 1 < length (chain_at parts.now fault_cell.0).cells }
        requires loaded { IsLoaded parts.now self.now block fault_cell.0 (fault_cell.1 + 1) kind scratch.old }
        ensures loaded { IsLoaded parts.now self.now block fault_cell.0 fault_cell.1 kind scratch.new }
        ensures moved { HasMoved (block_at self.now block).values scratch.old scratch.new }
    {
        let _ = parts.chains();
        self.load_cell(
            parts,
            scratch,
            block,
            fault_cell.0,
            kind,
            fault_cell.1 as usize + 1,
        );
        let circuit = parts.circuit();
        let good = self.values(block);
        scratch.settle(circuit, &self.wiring, good, steps);
    }

    /// What a chain holds at a position before it is unloaded; X past its end.
    fn held_row(
        &self,
        parts: &Parts,
        scratch: &Scratch,
        block: usize,
        chain: u32,
        at: usize,
    ) -> Packed
        requires good { BelongsTo parts.now self.now }
        requires scratch { IsScratchIn self.now scratch.now }
        requires block { block < length self.now.rows }
        requires chain { chain < length parts.now.chains }
        ensures past { length (chain_at parts.now chain).cells ≤ at → (j : ℕ) → j < 512 → held result j ≡ Unknown }
        ensures here { at < length (chain_at parts.now chain).cells → (j : ℕ) → j < 512 → held result j ≡ (if lane (block_at self.now block).capture j
            then now_at self.now scratch.now block j (observed_net parts.now (point.Cell chain at)) else now_at self.now scratch.now block j (cell parts.now chain at)) }
    {
        let len = chain_len(parts, chain);
        if at < len {
            self.cell_row(parts, scratch, block, chain, at)
        } else {
            Packed::all(Tri::Unknown)
        }
    }

    /// What a cell holds before it is unloaded: what it captured where the pattern captures, else its load.
    fn cell_row(
        &self,
        parts: &Parts,
        scratch: &Scratch,
        block: usize,
        chain: u32,
        at: usize,
    ) -> Packed
        requires good { BelongsTo parts.now self.now }
        requires scratch { IsScratchIn self.now scratch.now }
        requires block { block < length self.now.rows }
        requires chain { chain < length parts.now.chains }
        requires at { at < length (chain_at parts.now chain).cells }
        ensures { (j : ℕ) → j < 512 → held result j ≡ (if lane (block_at self.now block).capture j
            then now_at self.now scratch.now block j (observed_net parts.now (point.Cell chain at)) else now_at self.now scratch.now block j (cell parts.now chain at)) }
    {
        let net = cell_at(parts, chain, at);
        let data = parts.circuit().data_net(net);
        let captured = self.row_now(parts, scratch, block, data);
        let loaded = self.row_now(parts, scratch, block, net);
        let capture = self.capture(block);
        Packed::pick(capture, captured, loaded)
    }

    /// The row that a net has now.
    pub fn row_now(&self, parts: &Parts, scratch: &Scratch, block: usize, net: u32) -> Packed
        requires built { IsBuiltFor parts.now self.now }
        requires scratch { IsScratchIn self.now scratch.now }
        requires block { block < length self.now.rows }
        requires net { net < length parts.now.netlist.nets }
        ensures { (j : ℕ) → j < 512 → held result j ≡ now_at self.now scratch.now block j net }
    {
        let _ = parts;
        scratch.overlay.row(self.values(block), net)
    }

    /// What a position of a loaded chain shows under the fault, in each pattern.
    pub fn shown(
        &self,
        parts: &Parts,
        scratch: &Scratch,
        block: usize,
        fault_cell: (u32, u32),
        kind: CellKind,
        at: u32,
    ) -> Packed
        requires good { BelongsTo parts.now self.now }
        requires block { block < length self.now.rows }
        requires chain { fault_cell.0 < length parts.now.chains }
        requires loaded { IsLoaded parts.now self.now block fault_cell.0 fault_cell.1 kind scratch.now }
        requires at { at < length (chain_at parts.now fault_cell.0).cells }
        ensures { (j : ℕ) → j < 512 → pattern_of block j < length parts.now.patterns → held result j ≡ observed parts.now (Some (fault.Cell fault_cell.0 fault_cell.1 kind)) (pattern_of block j) (point.Cell fault_cell.0 at) }
    {
        let _ = parts.chains();
        let here = self.held_row(parts, scratch, block, fault_cell.0, at as usize);
        let next = self.held_row(parts, scratch, block, fault_cell.0, at as usize + 1);
        let passes = passes_out(kind, fault_cell.1, at);
        let passed = passed_by(kind, here, next);
        if passes { passed } else { here }
    }
}
