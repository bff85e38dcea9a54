//! The faults that can explain the first and the last Failing bit of some pattern: no other fits one.
ghost use Rattle.std.specs.Prelude.{◌≡◌, ◌≤◌, ◌<◌, ◌^◌, List, All, length, IfOk, OnOk};
ghost use Rattle.scan_model.specs.declared.logs.LogFacts.{LogFacts};
ghost use Rattle.scan_model.specs.ScanTest.{points_of};
ghost use Rattle.scan_model.specs.Response.{expected_rows};
ghost use Rattle.scan_model.specs.Universe.{universe};
ghost use Rattle.log_join.specs.Joining.{StandsFor, IsJoinedOf};
ghost use Rattle.lane_rows.specs.GoodRows.{AreBlockRows, AreGoodRows};
ghost use Rattle.slat_view.specs.FitMarks.{AreFitsMarked};
ghost use Rattle.slat_view.specs.Tests.{HaveAllFits};

use crate::ends::{first_failing, last_failing};
use crate::failing::failing_lanes;
use back_trace::{mark_both, marked_places};
use fault_universe::universe_len;
use lane_rows::{Block, GoodRows};
use log_join::Joined;
use log_rows::rows_of_points;
use scan_model::{Expected, NoMemory, Parts, Rows};
use std::alloc::Global;

/// Marks the faults that can explain both ends of a pattern of a block.
fn mark_block(
    alloc: Global,
    parts: &Parts,
    expected: &Expected,
    joined: &Joined,
    block: &Block,
    at: u32,
    marks: &mut [bool],
) -> Result<(), NoMemory>
    requires expected { expected.now ≡ expected_rows parts.now }
    requires joined { IsJoinedOf (length parts.now.patterns) (length (points_of parts.now)) joined.now }
    requires at { at < 2 ^ 16 }
    requires block { AreBlockRows parts.now at block.now }
    requires marks { length marks.old ≡ length (universe parts.now) }
    ensures { OnOk result ((logs : List LogFacts) → StandsFor logs joined.now → AreFitsMarked parts.now logs at marks.old marks.new) }
{
    let _order = parts.circuit().order();
    let rows = rows_of_points(alloc, parts, joined, expected, at)?;
    let points = rows.as_slice();
    if failing_lanes(points).is_empty() {
        return Ok(());
    }
    let firsts = first_failing(alloc, points)?;
    let lasts = last_failing(alloc, points)?;
    mark_both(alloc, parts, block, firsts, lasts, marks)?;
    Ok(())
}

/// The places of these faults, in rising order: all that fit any pattern are among them.
pub(crate) fn narrowed_places(
    alloc: Global,
    parts: &Parts,
    good: &GoodRows,
    expected: &Expected,
    joined: &Joined,
) -> Result<Rows<u32>, NoMemory>
    requires good { AreGoodRows parts.now good.now }
    requires expected { expected.now ≡ expected_rows parts.now }
    requires joined { IsJoinedOf (length parts.now.patterns) (length (points_of parts.now)) joined.now }
    ensures few { IfOk result (λ places. length places ≤ length (universe parts.now)) }
    ensures below { IfOk result (All (λ p. p < length (universe parts.now))) }
    ensures fits { (logs : List LogFacts) → StandsFor logs joined.now → IfOk result (HaveAllFits parts.now logs) }
{
    let _patterns = parts.patterns();
    let mut marks = vec![in alloc; false; universe_len(parts) as usize]?;
    let blocks = good.blocks();
    for b in 0..blocks.len() {
        mark_block(
            alloc, parts, expected, joined, &blocks[b], b as u32, &mut marks,
        )?;
    }
    marked_places(alloc, &marks)
}
