//! The suspects of a log: the faults that can explain one of its failing bits.
ghost use Rattle.std.specs.Prelude.{◌≡◌, ℕ, ◌<◌, List, length, filter, Some, slice_get, Contains, IfOk, OnOk};
ghost use Rattle.std.specs.List.{range_with_len};
ghost use Rattle.scan_model.specs.declared.fault.Fault.{Fault};
ghost use Rattle.scan_model.specs.declared.logs.LogFacts.{LogFacts};
ghost use Rattle.scan_model.specs.Marks.{is_marked};
ghost use Rattle.scan_model.specs.ScanTest.{points_of};
ghost use Rattle.scan_model.specs.Response.{expected_rows};
ghost use Rattle.scan_model.specs.Universe as listed;
ghost use Rattle.scan_model.specs.MatchCounts.{counts_of};
ghost use Rattle.scan_model.specs.Suspect as definition;
ghost use Rattle.log_join.specs.Joining.{StandsFor, IsJoinedOf};
ghost use Rattle.lane_rows.specs.GoodRows.{AreBlockRows, AreGoodRows};
ghost use Rattle.explained_lanes.specs.Fails.{IsWithin};
ghost use Rattle.back_trace.specs.Keys.{AreKeys, observes};
ghost use Rattle.explained_lanes.specs.Traces.{IsTraceOf};
ghost use Rattle.back_trace.specs.SuspectMarks.{AreMarked};

use crate::chains::{firsts, lasts};
use crate::keys::{cell_keys, observed_keys};
use crate::marks::mark_explained;
use crate::reach::{gathered, spread_back};
use explained_lanes::Trace;
use fault_universe::universe_len;
use lane_rows::{Block, GoodRows, Row};
use log_join::Joined;
use log_rows::{Side, side_rows};
use scan_model::{Expected, NoMemory, Parts, Rows};
use std::alloc::Global;

/// Traces the failing bits of a block back.
pub(crate) fn trace_back(
    alloc: Global,
    parts: &Parts,
    block: &Block,
    fails: Rows<Row>,
    observed: &[Option<u32>],
    own: &[Option<u32>],
) -> Result<Trace, NoMemory>
    requires fails { length fails ≡ length (points_of parts.now) }
    requires observed { AreKeys parts.now (observes parts.now) (length (points_of parts.now)) observed.now }
    requires own { AreKeys parts.now (definition.is_cell parts.now) (length (points_of parts.now)) own.now }
    ensures trace { IfOk result (IsTraceOf parts.now block.now.capture block.now.shift) }
    ensures fails { IfOk result (λ trace. trace.fails ≡ fails) }
{
    let nets = parts.circuit().nets().len();
    let points = fails.as_slice();
    let mut reach = gathered(alloc, nets, points, observed, block.capture)?;
    spread_back(parts.circuit(), &mut reach)?;
    let cells = gathered(alloc, nets, points, own, block.capture)?;
    let firsts = firsts(alloc, parts, points, block.shift)?;
    let lasts = lasts(alloc, parts, &reach)?;
    Ok(Trace {
        fails,
        reach,
        cells,
        firsts,
        lasts,
    })
}

/// Traces the failing bits of a block back, and marks the faults that explain one of them.
fn mark_block(
    alloc: Global,
    parts: &Parts,
    block: &Block,
    fails: Rows<Row>,
    observed: &[Option<u32>],
    own: &[Option<u32>],
    marks: &mut [bool],
) -> Result<(), NoMemory>
    requires fails { length fails ≡ length (points_of parts.now) }
    requires observed { AreKeys parts.now (observes parts.now) (length (points_of parts.now)) observed.now }
    requires own { AreKeys parts.now (definition.is_cell parts.now) (length (points_of parts.now)) own.now }
    requires values { length block.now.values ≡ length parts.now.netlist.nets }
    requires marks { length marks.old ≡ length (listed.universe parts.now) }
    requires few { length (listed.universe parts.now) < 4294967296 }
    ensures { OnOk result ((b : ℕ) → AreBlockRows parts.now b block.now → IsWithin parts.now b fails → AreMarked parts.now b fails (listed.universe parts.now) (length (listed.universe parts.now)) marks.old marks.new) }
{
    let _ = parts.circuit();
    let trace = trace_back(alloc, parts, block, fails, observed, own)?;
    mark_explained(marks, parts, block, &trace);
    Ok(())
}

/// The numbers of the marks that are set, in rising order.
pub fn marked_places(alloc: Global, marks: &[bool]) -> Result<Rows<u32>, NoMemory>
    requires { length marks.now < 4294967296 }
    ensures { IfOk result (λ places. places ≡ filter (is_marked marks.now) (range_with_len 0 (length marks.now))) }
{
    let mut places = Rows::new(alloc);
    for place in 0..marks.len() {
        if marks[place] {
            places.push(place as u32)?;
        }
    }
    Ok(places)
}

/// The places of the faults that can explain a failing bit, in rising order, judged over fault-free rows that were made
/// before. The time is in proportion to the design, for each 512 patterns.
pub fn suspects_over(
    alloc: Global,
    parts: &Parts,
    good: &GoodRows,
    expected: &Expected,
    joined: &Joined,
) -> Result<Rows<u32>, NoMemory>
    requires good { AreGoodRows parts.now good.now }
    requires expected { expected.now ≡ expected_rows parts.now }
    requires joined { IsJoinedOf (length parts.now.patterns) (length (points_of parts.now)) joined.now }
    ensures suspects { (logs : List LogFacts) → StandsFor logs joined.now → IfOk result (λ places. places ≡ definition.suspects parts.now logs) }
    ensures outside { (logs : List LogFacts) → StandsFor logs joined.now
        → IfOk result (λ places. (k : ℕ) (f : Fault) → slice_get (listed.universe parts.now) k ≡ Some f → ¬ (Contains places k) → (counts_of parts.now logs f).tfsf ≡ 0) }
{
    let _order = parts.circuit().order();
    let observed = observed_keys(alloc, parts)?;
    let own = cell_keys(alloc, parts)?;
    let mut marks = vec![in alloc; false; universe_len(parts) as usize]?;
    let blocks = good.blocks();
    for b in 0..blocks.len() {
        let fails = side_rows(alloc, joined, expected, Side::Failing, b as u32)?;
        mark_block(alloc, parts, &blocks[b], fails, &observed, &own, &mut marks)?;
    }
    marked_places(alloc, &marks)
}

/// The places of the faults that can explain a failing bit, in rising order: of the logic, where a flipped site reaches one
/// in a pattern that captures; of a chain, by where its bits fail and what its cells reach. The only error is want of memory.
pub fn suspects(
    alloc: Global,
    parts: &Parts,
    expected: &Expected,
    joined: &Joined,
) -> Result<Rows<u32>, NoMemory>
    requires expected { expected.now ≡ expected_rows parts.now }
    requires joined { IsJoinedOf (length parts.now.patterns) (length (points_of parts.now)) joined.now }
    ensures suspects { (logs : List LogFacts) → StandsFor logs joined.now → IfOk result (λ places. places ≡ definition.suspects parts.now logs) }
    ensures outside { (logs : List LogFacts) → StandsFor logs joined.now
        → IfOk result (λ places. (k : ℕ) (f : Fault) → slice_get (listed.universe parts.now) k ≡ Some f → ¬ (Contains places k) → (counts_of parts.now logs f).tfsf ≡ 0) }
{
    let good = GoodRows::make(alloc, parts)?;
    suspects_over(alloc, parts, &good, expected, joined)
}
