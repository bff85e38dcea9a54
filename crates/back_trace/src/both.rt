//! Marks of the faults that in one pattern of a block can explain a bit of each of two kinds.
ghost use Rattle.std.specs.Prelude.{◌≡◌, ℕ, ◌<◌, true, length, slice_index_or, OnOk};
ghost use Rattle.scan_model.specs.ScanTest.{HasSite, points_of};
ghost use Rattle.scan_model.specs.Suspect as definition;
ghost use Rattle.scan_model.specs.Universe as listed;
ghost use Rattle.lane_rows.specs.GoodRows.{AreBlockRows};
ghost use Rattle.explained_lanes.specs.Fails.{IsWithin};
ghost use Rattle.back_trace.specs.Keys.{AreKeys, observes};
ghost use Rattle.back_trace.specs.SuspectMarks.{no_fault, IsTraced};
ghost use Rattle.back_trace.specs.CommonPatterns as both;
ghost use Rattle.back_trace.specs.CommonPatterns.{AreBothMarked};

use crate::keys::{cell_keys, observed_keys};
use crate::tracing::trace_back;
use explained_lanes::{Trace, explaining_lanes};
use fault_universe::{fault_at, universe_len};
use lane_rows::{Block, Row};
use scan_model::{Fault, NoMemory, Parts, Rows};
use std::alloc::Global;

/// Whether the fault explains a bit of each of two traces, in one lane if it is a fault of the logic.
fn explains_both(parts: &Parts, block: &Block, ones: &Trace, others: &Trace, fault: Fault) -> bool
    requires ones { IsTraced parts.now block.now ones.now }
    requires others { IsTraced parts.now block.now others.now }
    requires site { HasSite parts.now fault }
    ensures { (b : ℕ) → AreBlockRows parts.now b block.now → IsWithin parts.now b ones.now.fails → IsWithin parts.now b others.now.fails
        → (j : ℕ) → j < 512 → both.explains_both parts.now fault b ones.now.fails others.now.fails j ≡ true → result ≡ true }
{
    let lanes = explaining_lanes(parts, block, ones, fault);
    if lanes.is_empty() {
        return false;
    }
    let more = explaining_lanes(parts, block, others, fault);
    !lanes.and(more).is_empty()
}

/// Whether the fault at a place explains a bit of each of two traces, in one lane if it is a fault of the logic.
fn explains_both_at(parts: &Parts, block: &Block, ones: &Trace, others: &Trace, place: u32) -> bool
    requires ones { IsTraced parts.now block.now ones.now }
    requires others { IsTraced parts.now block.now others.now }
    requires place { place < length (listed.universe parts.now) }
    ensures { (b : ℕ) → AreBlockRows parts.now b block.now → IsWithin parts.now b ones.now.fails → IsWithin parts.now b others.now.fails
        → (j : ℕ) → j < 512 → both.explains_both parts.now (slice_index_or (listed.universe parts.now) place no_fault) b ones.now.fails others.now.fails j ≡ true → result ≡ true }
{
    match fault_at(parts, place) {
        Some(fault) => explains_both(parts, block, ones, others, fault),
        None => unreachable!(),
    }
}

/// Marks all faults that explain a bit of each of two traces.
fn mark_traced(marks: &mut [bool], parts: &Parts, block: &Block, ones: &Trace, others: &Trace)
    requires ones { IsTraced parts.now block.now ones.now }
    requires others { IsTraced parts.now block.now others.now }
    requires marks { length marks.old ≡ length (listed.universe parts.now) }
    ensures { (b : ℕ) → AreBlockRows parts.now b block.now → IsWithin parts.now b ones.now.fails → IsWithin parts.now b others.now.fails
        → AreBothMarked parts.now b ones.now.fails others.now.fails (length (listed.universe parts.now)) marks.old marks.new }
{
    for place in 0..marks.len() {
        if !marks[place] {
            marks[place] = explains_both_at(parts, block, ones, others, place as u32);
        }
    }
}

/// Marks the faults that in one pattern of a block can explain a bit of each of two kinds, by the net that each point observes
/// and the net of each cell.
fn mark_by_keys(
    alloc: Global,
    parts: &Parts,
    block: &Block,
    ones: Rows<Row>,
    others: Rows<Row>,
    observed: &[Option<u32>],
    own: &[Option<u32>],
    marks: &mut [bool],
) -> Result<(), NoMemory>
    requires ones { length ones ≡ length (points_of parts.now) }
    requires others { length others ≡ length (points_of parts.now) }
    requires observed { AreKeys parts.now (observes parts.now) (length (points_of parts.now)) observed.now }
    requires own { AreKeys parts.now (definition.is_cell parts.now) (length (points_of parts.now)) own.now }
    requires values { length block.now.values ≡ length parts.now.netlist.nets }
    requires marks { length marks.old ≡ length (listed.universe parts.now) }
    ensures { OnOk result ((b : ℕ) → AreBlockRows parts.now b block.now → IsWithin parts.now b ones → IsWithin parts.now b others
        → AreBothMarked parts.now b ones others (length (listed.universe parts.now)) marks.old marks.new) }
{
    let _ = parts.circuit();
    let _ = universe_len(parts);
    let ones = trace_back(alloc, parts, block, ones, observed, own)?;
    let others = trace_back(alloc, parts, block, others, observed, own)?;
    mark_traced(marks, parts, block, &ones, &others);
    drop(others);
    drop(ones);
    Ok(())
}

/// Marks the faults that in one pattern of a block can explain a bit of each of two kinds, which are given as a row of
/// lanes for each point. The only error is want of memory.
pub fn mark_both(
    alloc: Global,
    parts: &Parts,
    block: &Block,
    ones: Rows<Row>,
    others: Rows<Row>,
    marks: &mut [bool],
) -> Result<(), NoMemory>
    requires ones { length ones ≡ length (points_of parts.now) }
    requires others { length others ≡ length (points_of parts.now) }
    requires values { length block.now.values ≡ length parts.now.netlist.nets }
    requires marks { length marks.old ≡ length (listed.universe parts.now) }
    ensures { OnOk result ((b : ℕ) → AreBlockRows parts.now b block.now → IsWithin parts.now b ones → IsWithin parts.now b others
        → AreBothMarked parts.now b ones others (length (listed.universe parts.now)) marks.old marks.new) }
{
    let observed = observed_keys(alloc, parts)?;
    let own = cell_keys(alloc, parts)?;
    mark_by_keys(alloc, parts, block, ones, others, &observed, &own, marks)
}
