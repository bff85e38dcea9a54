//! Marks on the faults that explain a failing bit of a block, kind by kind.
ghost use Rattle.std.specs.Prelude.{◌≡◌, ℕ, ◌+◌, ◌*◌, ◌<◌, ◌^◌, true, length};
ghost use Rattle.scan_model.specs.Universe as listed;
ghost use Rattle.back_trace.specs.SuspectMarks.{IsPlaceBelow, IsUnreached, IsTraced, StandAt, MarksOn};

use explained_lanes::{Trace, is_explained, pin_of};
use fault_universe::{bridge_count, faults_of_pair, faults_per_pair};
use lane_rows::Block;
use scan_model::{CellKind, Fault, Pair, Parts, PinPlace, Stuck};

/// Marks those of some faults that explain a failing bit of the block. They stand in the list of all faults from a place on.
fn mark_each(
    marks: &mut [bool],
    first: usize,
    faults: &[Fault],
    parts: &Parts,
    block: &Block,
    trace: &Trace,
)
    requires traced { IsTraced parts.now block.now trace.now }
    requires faults { StandAt parts.now first faults.now }
    requires marks { length marks.old ≡ length (listed.universe parts.now) }
    ensures { MarksOn parts.now block.now trace.now first (first + length faults.now) marks.old marks.new }
{
    for k in 0..faults.len() {
        let place = first + k;
        if !marks[place] {
            marks[place] = is_explained(parts, block, trace, faults[k]);
        }
    }
}

/// Marks the faults of a stem.
fn mark_stem(
    marks: &mut [bool],
    first: usize,
    net: u32,
    parts: &Parts,
    block: &Block,
    trace: &Trace,
)
    requires traced { IsTraced parts.now block.now trace.now }
    requires net { net < length parts.now.netlist.nets }
    requires faults { StandAt parts.now first (listed.stem_faults net) }
    requires marks { length marks.old ≡ length (listed.universe parts.now) }
    ensures { MarksOn parts.now block.now trace.now first (first + 2) marks.old marks.new }
{
    if trace.reach.is_empty_at(net as usize) {
        return;
    }
    let faults = [
        Fault::Stem {
            net,
            value: Stuck::Zero,
        },
        Fault::Stem {
            net,
            value: Stuck::One,
        },
    ];
    mark_each(marks, first, &faults, parts, block, trace);
}

/// Marks the stem faults.
fn mark_stems(marks: &mut [bool], parts: &Parts, block: &Block, trace: &Trace)
    requires traced { IsTraced parts.now block.now trace.now }
    requires marks { length marks.old ≡ length (listed.universe parts.now) }
    ensures { MarksOn parts.now block.now trace.now 0 (length (listed.stems parts.now)) marks.old marks.new }
{
    for net in 0..parts.circuit().nets().len() {
        mark_stem(marks, 2 * net, net as u32, parts, block, trace);
    }
}

/// Whether it is clear at once that a pin at a place reaches no failing bit.
fn is_unreached(trace: &Trace, place: PinPlace) -> bool
    requires lengths { length trace.now.cells ≡ length trace.now.reach }
    requires place { IsPlaceBelow (length trace.now.reach) place }
    ensures { result ≡ true → IsUnreached trace.now place }
{
    match place {
        PinPlace::Operand { net, .. } => {
            trace.reach.is_empty_at(net as usize) && trace.cells.is_empty_at(net as usize)
        }
        PinPlace::Output { .. } => false,
    }
}

/// Marks the faults of a pin.
fn mark_branch(
    marks: &mut [bool],
    first: usize,
    pin: u32,
    parts: &Parts,
    block: &Block,
    trace: &Trace,
)
    requires traced { IsTraced parts.now block.now trace.now }
    requires pin { pin < length parts.now.netlist.pins }
    requires faults { StandAt parts.now first (listed.branch_faults pin) }
    requires marks { length marks.old ≡ length (listed.universe parts.now) }
    ensures { MarksOn parts.now block.now trace.now first (first + 2) marks.old marks.new }
{
    let seen = pin_of(parts, pin);
    if is_unreached(trace, seen.place) {
        return;
    }
    let faults = [
        Fault::Branch {
            pin,
            value: Stuck::Zero,
        },
        Fault::Branch {
            pin,
            value: Stuck::One,
        },
    ];
    mark_each(marks, first, &faults, parts, block, trace);
}

/// Marks the branch faults.
fn mark_branches(marks: &mut [bool], first: usize, parts: &Parts, block: &Block, trace: &Trace)
    requires traced { IsTraced parts.now block.now trace.now }
    requires first { first ≡ length (listed.stems parts.now) }
    requires marks { length marks.old ≡ length (listed.universe parts.now) }
    ensures { MarksOn parts.now block.now trace.now first (first + length (listed.branches parts.now)) marks.old marks.new }
{
    let pins = parts.circuit().branch_pins().as_slice();
    for i in 0..pins.len() {
        mark_branch(marks, first + 2 * i, pins[i], parts, block, trace);
    }
}

/// Marks the faults of a pair of neighbouring nets.
fn mark_pair(
    marks: &mut [bool],
    first: usize,
    pair: &Pair,
    parts: &Parts,
    block: &Block,
    trace: &Trace,
)
    requires traced { IsTraced parts.now block.now trace.now }
    requires nets { (pair.now.a < length parts.now.netlist.nets) × (pair.now.b < length parts.now.netlist.nets) }
    requires faults { StandAt parts.now first (listed.bridge_faults parts.now.profile pair.now) }
    requires marks { length marks.old ≡ length (listed.universe parts.now) }
    ensures { MarksOn parts.now block.now trace.now first (first + listed.bridges_per_pair parts.now.profile) marks.old marks.new }
{
    if trace.reach.is_empty_at(pair.a as usize) && trace.reach.is_empty_at(pair.b as usize) {
        return;
    }
    let all = faults_of_pair(pair);
    let count = faults_per_pair(parts.profile());
    let faults = &all[..count as usize];
    mark_each(marks, first, faults, parts, block, trace);
}

/// Marks the bridge faults.
fn mark_bridges(marks: &mut [bool], first: usize, parts: &Parts, block: &Block, trace: &Trace)
    requires traced { IsTraced parts.now block.now trace.now }
    requires first { first ≡ length (listed.stems parts.now) + length (listed.branches parts.now) }
    requires marks { length marks.old ≡ length (listed.universe parts.now) }
    ensures { MarksOn parts.now block.now trace.now first (first + length (listed.bridges parts.now)) marks.old marks.new }
{
    let pairs = parts.pairs().kept.as_slice();
    let count = faults_per_pair(parts.profile());
    for i in 0..pairs.len() {
        mark_pair(
            marks,
            first + count as usize * i,
            &pairs[i],
            parts,
            block,
            trace,
        );
    }
}

/// Marks the faults after a cell.
fn mark_cell(
    marks: &mut [bool],
    first: usize,
    chain: u32,
    pos: u32,
    parts: &Parts,
    block: &Block,
    trace: &Trace,
)
    requires traced { IsTraced parts.now block.now trace.now }
    requires faults { StandAt parts.now first (listed.cell_faults chain pos) }
    requires marks { length marks.old ≡ length (listed.universe parts.now) }
    ensures { MarksOn parts.now block.now trace.now first (first + 4) marks.old marks.new }
{
    let faults = [
        Fault::Cell {
            chain,
            pos,
            kind: CellKind::Stuck0,
        },
        Fault::Cell {
            chain,
            pos,
            kind: CellKind::Stuck1,
        },
        Fault::Cell {
            chain,
            pos,
            kind: CellKind::SlowRise,
        },
        Fault::Cell {
            chain,
            pos,
            kind: CellKind::SlowFall,
        },
    ];
    mark_each(marks, first, &faults, parts, block, trace);
}

/// Marks the faults after the cells of a chain.
fn mark_chain(
    marks: &mut [bool],
    first: usize,
    chain: u32,
    count: usize,
    parts: &Parts,
    block: &Block,
    trace: &Trace,
)
    requires traced { IsTraced parts.now block.now trace.now }
    requires count { count < 2 ^ 32 }
    requires faults { (i : ℕ) → i < count → StandAt parts.now (first + 4 * i) (listed.cell_faults chain i) }
    requires marks { length marks.old ≡ length (listed.universe parts.now) }
    ensures { MarksOn parts.now block.now trace.now first (first + 4 * count) marks.old marks.new }
{
    for pos in 0..count {
        mark_cell(
            marks,
            first + 4 * pos,
            chain,
            pos as u32,
            parts,
            block,
            trace,
        );
    }
}

/// Marks the cell faults.
fn mark_cells(marks: &mut [bool], first: usize, parts: &Parts, block: &Block, trace: &Trace)
    requires traced { IsTraced parts.now block.now trace.now }
    requires first { first ≡ length (listed.stems parts.now) + length (listed.branches parts.now) + length (listed.bridges parts.now) }
    requires marks { length marks.old ≡ length (listed.universe parts.now) }
    ensures { MarksOn parts.now block.now trace.now first (length (listed.universe parts.now)) marks.old marks.new }
{
    let chains = parts.chains().as_slice();
    let mut place = first;
    for h in 0..chains.len() {
        let count = chains[h].cells.len();
        mark_chain(marks, place, h as u32, count, parts, block, trace);
        place += 4 * count;
    }
}

/// Marks the faults that explain a failing bit of the block.
pub(crate) fn mark_explained(marks: &mut [bool], parts: &Parts, block: &Block, trace: &Trace)
    requires traced { IsTraced parts.now block.now trace.now }
    requires marks { length marks.old ≡ length (listed.universe parts.now) }
    ensures { MarksOn parts.now block.now trace.now 0 (length (listed.universe parts.now)) marks.old marks.new }
{
    let nets = parts.circuit().nets().len();
    let pins = parts.circuit().branch_pins().len();
    let stems = 2 * nets;
    let branches = 2 * pins;
    let bridges = bridge_count(parts) as usize;
    mark_stems(marks, parts, block, trace);
    mark_branches(marks, stems, parts, block, trace);
    mark_bridges(marks, stems + branches, parts, block, trace);
    mark_cells(marks, stems + branches + bridges, parts, block, trace);
}
