//! The counts of the transition faults, block by block.
ghost use Rattle.std.specs.Prelude.{◌≡◌, ◌+◌, ◌<◌, List, All, length, IfOk};
ghost use Rattle.scan_model.specs.declared.logs.LogFacts.{LogFacts};
ghost use Rattle.scan_model.specs.ScanTest.{points_of};
ghost use Rattle.log_join.specs.Joining.{StandsFor, IsJoinedOf};
ghost use Rattle.scan_model.specs.Coverage.{bits_of};
ghost use Rattle.fault_effects.specs.Owners.{IsSuspectOf, AreOwners};
ghost use Rattle.match_counts.specs.Totals.{AreTotals};
ghost use Rattle.two_frame.specs.TwoFrame.{transitions, frame_rows, frame_class, frame_fails, frame_candidates};
ghost use Rattle.two_frame.specs.FrameRows.{IsFrameGood, AllCapture};

use crate::frame_good::FrameGood;
use crate::frame_observer::FrameCounts;
use crate::reach::reaching_nets;
use crate::suspects::reaching_suspects;
use fault_effects::{BlockWork, Suspect, logic_parts, owned_nets, owners_of, reads_of};
use lane_rows::Groups;
use log_join::Joined;
use log_rows::rows_of_places;
use match_counts::{BlockTotals, PointCounts, list_candidates};
use scan_model::{Expected, NoMemory, Parts, Rows, Scored};
use std::alloc::Global;

/// Adds up, block by block, what the suspects explain and mispredict.
fn count_blocks(
    alloc: Global,
    parts: &Parts,
    good: &FrameGood,
    expected: &Expected,
    joined: &Joined,
    suspects: &[Suspect],
    owners: &Groups,
) -> Result<BlockTotals, NoMemory>
    requires good { IsFrameGood parts.now good.now }
    requires expected { expected.now ≡ frame_rows parts.now }
    requires captures { AllCapture parts.now }
    requires joined { IsJoinedOf (length parts.now.patterns) (length (points_of parts.now)) joined.now }
    requires suspects { All (IsSuspectOf parts.now) suspects.now }
    requires transitions { All (λ s. s.place < length (transitions parts.now)) suspects.now }
    requires count { length owners.now ≡ length parts.now.netlist.nets + 2 }
    requires owners { AreOwners parts.now suspects.now owners.now }
    ensures len { IfOk result (λ counts. length counts.totals ≡ length suspects.now) }
    ensures totals { (logs : List LogFacts) → StandsFor logs joined.now → IfOk result (AreTotals (bits_of parts.now) (frame_class parts.now logs) (frame_fails parts.now) suspects.now) }
{
    let _ = parts.points();
    let _ = parts.circuit().order();
    let reads = reads_of(alloc, parts)?;
    let nets = owned_nets(alloc, parts, &reads, owners)?;
    let mut totals = BlockTotals::make(alloc, suspects.len())?;
    for block in 0..good.second.blocks().len() {
        let rows = rows_of_places(alloc, joined, expected, block as u32)?;
        let points = PointCounts {
            parts,
            good: &good.second,
            block,
            rows: rows.as_slice(),
        };
        let observer = FrameCounts {
            points,
            frames: good,
        };
        let work = BlockWork {
            parts,
            good: &good.second,
            block,
            observer: &observer,
            reads: &reads,
            suspects,
            owners,
        };
        let shares = logic_parts(alloc, &work, &nets)?;
        totals.add_block(rows.as_slice(), shares.as_slice());
    }
    Ok(totals)
}

/// The transition faults that explain at least one failing bit of the second frame, with their counts, in the order of
/// their places, from values of both frames that were made before. Those that lead to a failing bit are counted, 512
/// patterns at a time, in one thread.
pub fn counts_over(
    alloc: Global,
    parts: &Parts,
    good: &FrameGood,
    expected: &Expected,
    joined: &Joined,
) -> Result<Rows<Scored>, NoMemory>
    requires good { IsFrameGood parts.now good.now }
    requires expected { expected.now ≡ frame_rows parts.now }
    requires captures { AllCapture parts.now }
    requires joined { IsJoinedOf (length parts.now.patterns) (length (points_of parts.now)) joined.now }
    ensures { (logs : List LogFacts) → StandsFor logs joined.now → IfOk result (λ rows. rows ≡ frame_candidates parts.now logs) }
{
    let _ = parts.circuit().order();
    let marks = reaching_nets(alloc, parts, good, expected, joined)?;
    let suspects = reaching_suspects(alloc, parts, &marks)?;
    let owners = owners_of(alloc, parts, suspects.as_slice())?;
    let totals = count_blocks(
        alloc,
        parts,
        good,
        expected,
        joined,
        suspects.as_slice(),
        &owners,
    )?;
    list_candidates(alloc, suspects.as_slice(), &totals)
}

/// The transition faults that explain at least one failing bit of the second frame, with their counts, in the order of
/// their places. The only error is want of memory.
pub fn frame_counts(
    alloc: Global,
    parts: &Parts,
    expected: &Expected,
    joined: &Joined,
) -> Result<Rows<Scored>, NoMemory>
    requires expected { expected.now ≡ frame_rows parts.now }
    requires captures { AllCapture parts.now }
    requires joined { IsJoinedOf (length parts.now.patterns) (length (points_of parts.now)) joined.now }
    ensures { (logs : List LogFacts) → StandsFor logs joined.now → IfOk result (λ rows. rows ≡ frame_candidates parts.now logs) }
{
    let good = FrameGood::make(alloc, parts)?;
    counts_over(alloc, parts, &good, expected, joined)
}
