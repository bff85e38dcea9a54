//! What faults of shift paths come to in a block: for each kind a walk goes down each chain once.
ghost use Rattle.std.specs.Prelude.{◌≡◌, ◌+◌, ◌<◌, [], All, length, IfOk, OnOk};
ghost use Rattle.packed_sim.specs.PackedParts.{IsScratchIn};
ghost use Rattle.fault_effects.specs.declared.work_kind.WorkKind.TheVariants as kinds;
ghost use Rattle.fault_effects.specs.Owners.{IsOwned, suspect_at};
ghost use Rattle.fault_effects.specs.Shares.{Shares, IsAmong};
ghost use Rattle.fault_effects.specs.Pieces.{IsItem, IsServed};
ghost use Rattle.fault_effects.specs.Walks.{IsWalk, IsOfKind};
ghost use Rattle.fault_effects.specs.SoundWork.{IsSound};
ghost use Rattle.fault_effects.specs.ChainWork.{IsChainWork};

use crate::block_work::BlockWork;
use crate::notes::{Notes, no_notes};
use crate::observer::ChainObserver;
use crate::share::Share;
use crate::walk::reach;
use packed_sim::Scratch;
use scan_model::{CellKind, Fault, NoMemory, Rows, Steps};
use std::alloc::Global;
use std::marker::Brand;
use std::sync::ledger::{Blank, Ledger};

/// Adds the share of a suspect if its fault is of this kind, and says where the walk stands then.
fn share_cell<O: ChainObserver, L: Ledger>(
    work: &BlockWork<'_, O>,
    scratch: &mut Scratch,
    item: u32,
    kind: CellKind,
    at: Option<(u32, u32)>,
    notes: &mut Notes<O::Sum>,
    shares: &mut Rows<Share<O::Part>>,
    steps: &mut Steps<L>,
) -> Result<Option<(u32, u32)>, NoMemory>
    requires work { IsSound O.test O.model O.block O.clean O.ready work.now }
    requires chains { IsChainWork O.test O.good O.block O.model O.ready work.now }
    requires item { IsOwned work.now.parts.now work.now.suspects.now (length work.now.parts.now.netlist.nets + 1) item }
    requires walk { IsWalk work.now.parts.now work.now.good.now (O.model work.now.observer.now) (O.sums work.now.observer.now) work.now.block kind scratch.old notes.old at }
    ensures scratch { IsScratchIn work.now.good.now scratch.new }
    ensures walk { IfOk result (IsWalk work.now.parts.now work.now.good.now (O.model work.now.observer.now) (O.sums work.now.observer.now) work.now.block kind scratch.new notes.new) }
    ensures shares { OnOk result (Shares (O.means work.now.observer.now) (O.model work.now.observer.now) (O.block work.now.observer.now) work.now.suspects.now (λ i. (i ≡ item) × IsOfKind kind (suspect_at work.now.suspects.now i).fault) shares.old shares.new) }
{
    let _ = work.parts.chains();
    let suspect = work.suspects[item as usize];
    let Fault::Cell {
        chain,
        pos,
        kind: own,
    } = suspect.fault
    else {
        unreachable!()
    };
    if own != kind {
        return Ok(at);
    }
    reach(work, scratch, at, (chain, pos), kind, notes, steps)?;
    shares.push(Share {
        suspect: item,
        part: work.observer.total(&notes.sum),
    })?;
    Ok(Some((chain, pos)))
}

/// Adds the shares of the suspects of one kind. They come in the order of their places, so from the last one on a walk
/// goes down each chain once.
fn share_kind<O: ChainObserver, L: Ledger>(
    work: &BlockWork<'_, O>,
    scratch: &mut Scratch,
    group: &[u32],
    kind: CellKind,
    notes: &mut Notes<O::Sum>,
    shares: &mut Rows<Share<O::Part>>,
    steps: &mut Steps<L>,
) -> Result<(), NoMemory>
    requires work { IsSound O.test O.model O.block O.clean O.ready work.now }
    requires chains { IsChainWork O.test O.good O.block O.model O.ready work.now }
    requires scratch { IsScratchIn work.now.good.now scratch.old }
    requires group { All (IsOwned work.now.parts.now work.now.suspects.now (length work.now.parts.now.netlist.nets + 1)) group.now }
    ensures scratch { IsScratchIn work.now.good.now scratch.new }
    ensures shares { OnOk result (Shares (O.means work.now.observer.now) (O.model work.now.observer.now) (O.block work.now.observer.now) work.now.suspects.now (λ i. IsAmong group.now (length group.now) i × IsOfKind kind (suspect_at work.now.suspects.now i).fault) shares.old shares.new) }
{
    let mut at = None;
    let mut left = group.len();
    while left > 0 {
        left -= 1;
        at = share_cell(work, scratch, group[left], kind, at, notes, shares, steps)?;
    }
    Ok(())
}

/// Adds the shares of the suspects of all four kinds.
fn share_kinds<O: ChainObserver, L: Ledger>(
    work: &BlockWork<'_, O>,
    scratch: &mut Scratch,
    group: &[u32],
    notes: &mut Notes<O::Sum>,
    shares: &mut Rows<Share<O::Part>>,
    steps: &mut Steps<L>,
) -> Result<(), NoMemory>
    requires work { IsSound O.test O.model O.block O.clean O.ready work.now }
    requires chains { IsChainWork O.test O.good O.block O.model O.ready work.now }
    requires scratch { IsScratchIn work.now.good.now scratch.old }
    requires group { All (IsOwned work.now.parts.now work.now.suspects.now (length work.now.parts.now.netlist.nets + 1)) group.now }
    ensures scratch { IsScratchIn work.now.good.now scratch.new }
    ensures shares { OnOk result (Shares (O.means work.now.observer.now) (O.model work.now.observer.now) (O.block work.now.observer.now) work.now.suspects.now (IsAmong group.now (length group.now)) shares.old shares.new) }
{
    let _ = work.parts.chains();
    share_kind(work, scratch, group, CellKind::Stuck0, notes, shares, steps)?;
    share_kind(work, scratch, group, CellKind::Stuck1, notes, shares, steps)?;
    share_kind(
        work,
        scratch,
        group,
        CellKind::SlowRise,
        notes,
        shares,
        steps,
    )?;
    share_kind(
        work,
        scratch,
        group,
        CellKind::SlowFall,
        notes,
        shares,
        steps,
    )?;
    Ok(())
}

/// Adds the shares of the suspects of all four kinds, with notes of its own.
fn share_cells<O: ChainObserver, L: Ledger>(
    alloc: Global,
    work: &BlockWork<'_, O>,
    scratch: &mut Scratch,
    group: &[u32],
    shares: &mut Rows<Share<O::Part>>,
    steps: &mut Steps<L>,
) -> Result<(), NoMemory>
    requires work { IsSound O.test O.model O.block O.clean O.ready work.now }
    requires chains { IsChainWork O.test O.good O.block O.model O.ready work.now }
    requires scratch { IsScratchIn work.now.good.now scratch.old }
    requires group { All (IsOwned work.now.parts.now work.now.suspects.now (length work.now.parts.now.netlist.nets + 1)) group.now }
    ensures { OnOk result (Shares (O.means work.now.observer.now) (O.model work.now.observer.now) (O.block work.now.observer.now) work.now.suspects.now (IsAmong group.now (length group.now)) shares.old shares.new) }
{
    let mut notes = no_notes(alloc, work.observer)?;
    let shared = share_kinds(work, scratch, group, &mut notes, shares, steps);
    drop(notes);
    shared
}

/// `cell_piece` with a ledger for its steps of simulation.
fn piece_in<O: ChainObserver, L: Ledger>(
    alloc: Global,
    work: &BlockWork<'_, O>,
    items: &[u32],
    blank: Blank,
) -> Result<Rows<Share<O::Part>>, NoMemory>
    requires work { IsSound O.test O.model O.block O.clean O.ready work.now }
    requires chains { IsChainWork O.test O.good O.block O.model O.ready work.now }
    requires items { All (IsItem work.now.parts.now work.now.suspects.now kinds.Cells) items.now }
    requires name { blank.name ≡ L.name }
    requires parts { blank.parts ≡ L.parts }
    requires some { 0 < blank.parts }
    ensures { IfOk result (Shares (O.means work.now.observer.now) (O.model work.now.observer.now) (O.block work.now.observer.now) work.now.suspects.now (IsServed work.now.parts.now work.now.suspects.now kinds.Cells items.now) []) }
{
    let mut steps = Steps::<L>::open(blank);
    let mut scratch = Scratch::make(alloc, work.good)?;
    let mut shares = Rows::new(alloc);
    let shared = share_cells(alloc, work, &mut scratch, items, &mut shares, &mut steps);
    drop(scratch);
    drop(steps);
    match shared {
        Ok(()) => Ok(shares),
        Err(refused) => {
            drop(shares);
            Err(refused)
        }
    }
}

/// The shares of one piece of the work of shift paths, with a scratch of its own: the suspects that are cells of chains. The only error is want of memory.
pub fn cell_piece<O: ChainObserver>(
    alloc: Global,
    work: &BlockWork<'_, O>,
    items: &[u32],
) -> Result<Rows<Share<O::Part>>, NoMemory>
    requires work { IsSound O.test O.model O.block O.clean O.ready work.now }
    requires chains { IsChainWork O.test O.good O.block O.model O.ready work.now }
    requires items { All (IsItem work.now.parts.now work.now.suspects.now kinds.Cells) items.now }
    ensures { IfOk result (Shares (O.means work.now.observer.now) (O.model work.now.observer.now) (O.block work.now.observer.now) work.now.suspects.now (IsServed work.now.parts.now work.now.suspects.now kinds.Cells items.now) []) }
{
    piece_in::<O, Brand>(alloc, work, items, Blank::new(1))
}
