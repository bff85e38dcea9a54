//! The shares of all suspects in a block.
ghost use Rattle.std.specs.Prelude.{◌≡◌, ℕ, ◌+◌, ◌<◌, ◌++◌, [], All, Contains, length, OnOk, IfOk};
ghost use Rattle.std.specs.List.{flat_map};
ghost use Rattle.fault_effects.specs.declared.work_kind.WorkKind.TheVariants as kinds;
ghost use Rattle.fault_effects.specs.Owners.{owner, suspect_at};
ghost use Rattle.fault_effects.specs.Pieces.{IsItem, IsServed};
ghost use Rattle.slat_view.specs.FitWork.{IsSoundFit, IsChainFit, FitShares};

use crate::fits::Fits;
use fault_effects::{BlockWork, Share, cell_piece, logic_parts};
use lane_rows::Row;
use rayon::current_num_threads;
use rayon::prelude::*;
use scan_model::{NoMemory, Rows};
use std::alloc::Global;
use std::thread::Threads;

/// How few cells are worth a thread of their own.
const LEAST_CELLS: usize = 64;

/// How many cells a piece has, two pieces for each processor.
fn piece_size<R: Threads>(rt: &R, cells: usize) -> usize
    ensures { 0 < result }
{
    let pieces = current_num_threads(rt).saturating_mul(2);
    cells.div_ceil(pieces).max(LEAST_CELLS)
}

/// The shares of the suspects that are cells of chains, in pieces that are done at the same time.
fn cell_pieces<R: Threads + Sync>(
    rt: &R,
    alloc: Global,
    work: &BlockWork<'_, Fits<'_>>,
    cells: &[u32],
    size: usize,
) -> Result<Vec<Rows<Share<Row>>>, NoMemory>
    requires work { IsSoundFit work.now }
    requires chains { IsChainFit work.now }
    requires cells { All (IsItem work.now.parts.now work.now.suspects.now kinds.Cells) cells.now }
    requires size { 0 < size }
    ensures { IfOk result (λ all. FitShares work.now (IsServed work.now.parts.now work.now.suspects.now kinds.Cells cells.now) [] (flat_map (λ shares. shares) all.items)) }
{
    let all = cells
        .par_chunks(size)
        .with_min_len(1)
        .map(
            |part: &[u32]| -> Result<Rows<Share<Row>>, NoMemory>
                requires { IsSoundFit work.now × IsChainFit work.now × All (IsItem work.now.parts.now work.now.suspects.now kinds.Cells) part.now }
                ensures { IfOk result (FitShares work.entry.now (IsServed work.entry.now.parts.now work.entry.now.suspects.now kinds.Cells part.entry.now) []) }
            { cell_piece(alloc, work, part) },
        )
        .collect::<Result<Vec<_>, NoMemory>>(rt, alloc);
    match all {
        Ok(Ok(pieces)) => Ok(pieces),
        Ok(Err(refused)) => Err(refused),
        Err(_) => Err(NoMemory),
    }
}

/// Puts shares behind others.
fn append(shares: &mut Rows<Share<Row>>, piece: &[Share<Row>]) -> Result<(), NoMemory>
    ensures { OnOk result (shares.new ≡ shares.old ++ piece.now) }
{
    for share in piece {
        shares.push(*share)?;
    }
    Ok(())
}

fn append_all(shares: &mut Rows<Share<Row>>, pieces: &[Rows<Share<Row>>]) -> Result<(), NoMemory>
    ensures { OnOk result (shares.new ≡ shares.old ++ flat_map (λ piece. piece) pieces.now) }
{
    for piece in pieces {
        append(shares, piece.as_slice())?;
    }
    Ok(())
}

/// The shares of all suspects in a block, given the nets that own a suspect. The only error is want of memory.
pub(crate) fn block_parts<R: Threads + Sync>(
    rt: &R,
    alloc: Global,
    work: &BlockWork<'_, Fits<'_>>,
    nets: &[u32],
) -> Result<Rows<Share<Row>>, NoMemory>
    requires work { IsSoundFit work.now }
    requires chains { IsChainFit work.now }
    requires nets { All (λ n. n < length work.now.parts.now.netlist.nets) nets.now }
    requires all { (i : ℕ) → i < length work.now.suspects.now → owner work.now.parts.now (suspect_at work.now.suspects.now i).fault < length work.now.parts.now.netlist.nets → Contains nets.now (owner work.now.parts.now (suspect_at work.now.suspects.now i).fault) }
    ensures { IfOk result (FitShares work.now (λ i. owner work.now.parts.now (suspect_at work.now.suspects.now i).fault < length work.now.parts.now.netlist.nets + 2) []) }
{
    let count = work.parts.circuit().nets().len() as u32;
    let group = work.owners.group(count + 1);
    let mut shares = logic_parts(alloc, work, nets)?;
    let size = piece_size(rt, group.len());
    let cells = cell_pieces(rt, alloc, work, group, size)?;
    append_all(&mut shares, &cells)?;
    Ok(shares)
}
