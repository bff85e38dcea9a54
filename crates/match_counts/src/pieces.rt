//! Pieces of a block's work, done at the same time.
ghost use Rattle.std.specs.Prelude.{◌<◌, [], length, slice_index_or, IfOk};
ghost use Rattle.std.specs.List.{flat_map};
ghost use Rattle.fault_effects.specs.Pieces.{IsServed};
ghost use Rattle.match_counts.specs.PointCounts.{IsSoundCount, IsChainCount, CountShares};
ghost use Rattle.match_counts.specs.declared.piece.Piece.{Piece};
ghost use Rattle.match_counts.specs.WorkPieces.{AreItems, IsServedIn};

use crate::block_count::BlockCount;
use crate::piece::{Piece, least_size};
use crate::point_counts::PointCounts;
use fault_effects::{BlockWork, Share, piece_shares};
use rayon::current_num_threads;
use scan_model::{NoMemory, Rows};
use std::alloc::Global;
use std::thread::Threads;
use work_crew::made_in_crew;

/// How many threads share some pieces: one, where none is worth a thread of its own.
fn crew_size<R: Threads>(rt: &R, pieces: &[Piece<'_>]) -> usize {
    let worth = pieces
        .iter()
        .any(|piece| least_size(piece.kind) <= piece.items.len());
    if worth { current_num_threads(rt) } else { 1 }
}

/// The shares of each piece.
pub(crate) fn shares_of_pieces<R: Threads + Sync>(
    rt: &R,
    alloc: Global,
    work: &BlockWork<'_, PointCounts<'_>>,
    pieces: &[Piece<'_>],
) -> Result<Vec<Rows<Share<BlockCount>>>, NoMemory>
    requires work { IsSoundCount work.now }
    requires chains { IsChainCount work.now }
    requires items { AreItems work.now.parts.now work.now.suspects.now pieces.now }
    ensures { IfOk result (λ all. CountShares work.now (IsServedIn work.now.parts.now work.now.suspects.now pieces.now) [] (flat_map (λ shares. shares) all.items)) }
{
    let make = move |number: usize| -> Result<Rows<Share<BlockCount>>, NoMemory>
        requires { IsSoundCount work.now × IsChainCount work.now × AreItems work.now.parts.now work.now.suspects.now pieces.now × (number < length pieces.now) }
        ensures { (d : Piece) → IfOk result (CountShares work.entry.now (IsServed work.entry.now.parts.now work.entry.now.suspects.now (slice_index_or pieces.entry.now number d).kind (slice_index_or pieces.entry.now number d).items.now) []) }
    {
        let piece = pieces[number];
        piece_shares(alloc, work, piece.kind, piece.items)
    };
    made_in_crew(rt, alloc, crew_size(rt, pieces), pieces.len(), &make)
}
