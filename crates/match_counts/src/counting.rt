//! Counts of the suspects, block by block.
ghost use Rattle.std.specs.Prelude.{◌≡◌, ◌+◌, List, All, length, IfOk};
ghost use Rattle.scan_model.specs.declared.logs.LogFacts.{LogFacts};
ghost use Rattle.scan_model.specs.ScanTest.{points_of};
ghost use Rattle.scan_model.specs.Response.{expected_rows};
ghost use Rattle.log_join.specs.Joining.{StandsFor, IsJoinedOf};
ghost use Rattle.packed_sim.specs.PackedParts.{BelongsTo};
ghost use Rattle.fault_effects.specs.Owners.{IsSuspectOf, AreOwners};
ghost use Rattle.match_counts.specs.Totals.{AreTestTotals};

use crate::block_piece::block_shares;
use crate::block_totals::BlockTotals;
use crate::point_counts::PointCounts;
use fault_effects::{BlockWork, Suspect, owned_nets, reads_of};
use lane_rows::Groups;
use log_join::Joined;
use log_rows::rows_of_points;
use packed_sim::PackedGood;
use scan_model::{Expected, NoMemory, Parts};
use std::alloc::Global;
use std::thread::Threads;

/// Adds up, block by block, what the suspects explain and mispredict.
pub(crate) fn count_blocks<R: Threads + Sync>(
    rt: &R,
    alloc: Global,
    parts: &Parts,
    good: &PackedGood,
    expected: &Expected,
    joined: &Joined,
    suspects: &[Suspect],
    owners: &Groups,
) -> Result<BlockTotals, NoMemory>
    requires good { BelongsTo parts.now good.now }
    requires expected { expected.now ≡ expected_rows parts.now }
    requires joined { IsJoinedOf (length parts.now.patterns) (length (points_of parts.now)) joined.now }
    requires suspects { All (IsSuspectOf parts.now) suspects.now }
    requires count { length owners.now ≡ length parts.now.netlist.nets + 2 }
    requires owners { AreOwners parts.now suspects.now owners.now }
    ensures len { IfOk result (λ totals. length totals.totals ≡ length suspects.now) }
    ensures whole { (logs : List LogFacts) → StandsFor logs joined.now → IfOk result (AreTestTotals parts.now logs suspects.now) }
{
    let _ = parts.points();
    let _ = parts.circuit().order();
    let reads = reads_of(alloc, parts)?;
    let nets = owned_nets(alloc, parts, &reads, owners)?;
    let mut totals = BlockTotals::make(alloc, suspects.len())?;
    for block in 0..good.blocks().len() {
        let rows = rows_of_points(alloc, parts, joined, expected, block as u32)?;
        let observer = PointCounts {
            parts,
            good,
            block,
            rows: rows.as_slice(),
        };
        let work = BlockWork {
            parts,
            good,
            block,
            observer: &observer,
            reads: &reads,
            suspects,
            owners,
        };
        let pieces = block_shares(rt, alloc, &work, &nets)?;
        totals.add_pieces(rows.as_slice(), &pieces);
    }
    Ok(totals)
}
