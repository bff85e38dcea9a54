//! The shares of all suspects in a block.
ghost use Rattle.std.specs.Prelude.{ℕ, ◌+◌, ◌<◌, [], All, Contains, length, IfOk};
ghost use Rattle.std.specs.List.{flat_map};
ghost use Rattle.fault_effects.specs.Owners.{suspect_at};
ghost use Rattle.fault_effects.specs.Owners as owning;
ghost use Rattle.match_counts.specs.PointCounts.{IsSoundCount, IsChainCount, CountShares};
ghost use Rattle.match_counts.specs.WorkPieces.{AreItems, IsServedIn};

use crate::block_count::BlockCount;
use crate::piece::{Piece, cut};
use crate::pieces::shares_of_pieces;
use crate::point_counts::PointCounts;
use fault_effects::{BlockWork, Share, WorkKind};
use scan_model::{NoMemory, Rows};
use std::alloc::Global;
use std::thread::Threads;

/// All lists of work of a block, in pieces.
fn block_pieces<'a, R: Threads>(
    rt: &R,
    alloc: Global,
    work: &BlockWork<'a, PointCounts<'a>>,
    nets: &'a [u32],
) -> Result<Vec<Piece<'a>>, NoMemory>
    requires owners { owning.AreOwners work.now.parts.now work.now.suspects.now work.now.owners.now }
    requires nets { All (λ n. n < length work.now.parts.now.netlist.nets) nets.now }
    requires all { (i : ℕ) → i < length work.now.suspects.now → owning.owner work.now.parts.now (suspect_at work.now.suspects.now i).fault < length work.now.parts.now.netlist.nets → Contains nets.now (owning.owner work.now.parts.now (suspect_at work.now.suspects.now i).fault) }
    ensures items { IfOk result (λ pieces. AreItems work.now.parts.now work.now.suspects.now pieces.items) }
    ensures served { IfOk result (λ pieces. (i : ℕ) → i < length work.now.suspects.now → owning.owner work.now.parts.now (suspect_at work.now.suspects.now i).fault < length work.now.parts.now.netlist.nets + 2
        → IsServedIn work.now.parts.now work.now.suspects.now pieces.items i) }
{
    let count = work.parts.circuit().nets().len() as u32;
    let mut pieces = Vec::new(alloc);
    let cells = work.owners.group(count + 1);
    cut(rt, WorkKind::Cells, cells, &mut pieces)?;
    cut(rt, WorkKind::Nets, nets, &mut pieces)?;
    let pins = work.owners.group(count);
    cut(rt, WorkKind::Pins, pins, &mut pieces)?;
    Ok(pieces)
}

/// The shares of all suspects in a block, in as many lists as the work has pieces.
pub(crate) fn block_shares<R: Threads + Sync>(
    rt: &R,
    alloc: Global,
    work: &BlockWork<'_, PointCounts<'_>>,
    nets: &[u32],
) -> Result<Vec<Rows<Share<BlockCount>>>, NoMemory>
    requires work { IsSoundCount work.now }
    requires chains { IsChainCount work.now }
    requires nets { All (λ n. n < length work.now.parts.now.netlist.nets) nets.now }
    requires all { (i : ℕ) → i < length work.now.suspects.now → owning.owner work.now.parts.now (suspect_at work.now.suspects.now i).fault < length work.now.parts.now.netlist.nets → Contains nets.now (owning.owner work.now.parts.now (suspect_at work.now.suspects.now i).fault) }
    ensures { IfOk result (λ all. CountShares work.now (λ i. owning.owner work.now.parts.now (suspect_at work.now.suspects.now i).fault < length work.now.parts.now.netlist.nets + 2) [] (flat_map (λ shares. shares) all.items)) }
{
    let pieces = block_pieces(rt, alloc, work, nets)?;
    shares_of_pieces(rt, alloc, work, &pieces)
}
