//! A walk down a chain: at each step one cell's load changes, and what that touches is noted again.
ghost use Rattle.std.specs.Prelude.{◌≡◌, ℕ, ◌+◌, ◌<◌, ◌≤◌, Some, None, false, length, OnOk};
ghost use Rattle.scan_model.specs.ScanTest.{chain_at};
ghost use Rattle.place_sets.specs.Places.{has_place, room};
ghost use Rattle.packed_sim.specs.PackedParts.{IsScratchOf, IsScratchIn};
ghost use Rattle.packed_sim.specs.ChainLoads.{IsLoaded};
ghost use Rattle.fault_effects.specs.Walks.{IsWalk, IsWalkAt, IsStepNoted};
ghost use Rattle.fault_effects.specs.Notes.{AreNotes};
ghost use Rattle.fault_effects.specs.ChainWork.{IsChainWork};

use crate::block_work::BlockWork;
use crate::loaded_chain::LoadedChain;
use crate::notes::Notes;
use crate::observer::ChainObserver;
use packed_sim::Scratch;
use scan_model::{CellKind, NoMemory, Steps};
use std::sync::ledger::Ledger;

/// Takes the marks of all nets out.
fn clear_marks(scratch: &mut Scratch)
    ensures rows { scratch.new.overlay ≡ scratch.old.overlay }
    ensures waiting { scratch.new.waiting ≡ scratch.old.waiting }
    ensures room { room scratch.new.moved ≡ room scratch.old.moved }
    ensures unmarked { (n : ℕ) → has_place scratch.new.moved n ≡ false }
{
    scratch.moved.clear();
}

/// Begins a walk at the fault after a position: the chain is loaded, and all places are noted.
fn begin<O: ChainObserver, L: Ledger>(
    work: &BlockWork<'_, O>,
    scratch: &mut Scratch,
    cell: (u32, u32),
    kind: CellKind,
    notes: &mut Notes<O::Sum>,
    steps: &mut Steps<L>,
) -> Result<(), NoMemory>
    requires work { IsChainWork O.test O.good O.block O.model O.ready work.now }
    requires scratch { IsScratchOf work.now.good.now scratch.old }
    requires chain { cell.0 < length work.now.parts.now.chains }
    requires pos { cell.1 < length (chain_at work.now.parts.now cell.0).cells }
    ensures scratch { IsScratchIn work.now.good.now scratch.new }
    ensures walk { OnOk result (IsWalkAt work.now.parts.now work.now.good.now (O.model work.now.observer.now) (O.sums work.now.observer.now) work.now.block cell.0 cell.1 kind scratch.new notes.new) }
{
    work.good
        .load(work.parts, scratch, work.block, cell, kind, steps);
    clear_marks(scratch);
    let loaded = LoadedChain {
        work,
        scratch,
        chain: cell.0,
        pos: cell.1,
        kind,
    };
    loaded.note_all(notes)
}

/// Notes again what a step of a walk has changed.
fn note_step<O: ChainObserver>(
    work: &BlockWork<'_, O>,
    scratch: &Scratch,
    cell: (u32, u32),
    above: u32,
    kind: CellKind,
    notes: &mut Notes<O::Sum>,
)
    requires work { IsChainWork O.test O.good O.block O.model O.ready work.now }
    requires chain { cell.0 < length work.now.parts.now.chains }
    requires pos { above < length (chain_at work.now.parts.now cell.0).cells }
    requires above { above ≡ cell.1 + 1 }
    requires loaded { IsLoaded work.now.parts.now work.now.good.now work.now.block cell.0 cell.1 kind scratch.now }
    requires notes { AreNotes (O.sums work.now.observer.now) (O.model work.now.observer.now).places notes.old }
    ensures notes { AreNotes (O.sums work.now.observer.now) (O.model work.now.observer.now).places notes.new }
    ensures step { IsStepNoted work.now.parts.now (O.model work.now.observer.now) work.now.block cell.0 cell.1 kind scratch.now notes.old.rows.items notes.new.rows.items }
{
    let loaded = LoadedChain {
        work,
        scratch,
        chain: cell.0,
        pos: cell.1,
        kind,
    };
    loaded.note_moved(notes);
    loaded.note_position(notes, cell.1);
    loaded.note_position(notes, above);
}

/// Takes a walk one position down.
fn step<O: ChainObserver, L: Ledger>(
    work: &BlockWork<'_, O>,
    scratch: &mut Scratch,
    cell: (u32, u32),
    above: u32,
    kind: CellKind,
    notes: &mut Notes<O::Sum>,
    steps: &mut Steps<L>,
)
    requires work { IsChainWork O.test O.good O.block O.model O.ready work.now }
    requires above { above ≡ cell.1 + 1 }
    requires walk { IsWalkAt work.now.parts.now work.now.good.now (O.model work.now.observer.now) (O.sums work.now.observer.now) work.now.block cell.0 (cell.1 + 1) kind scratch.old notes.old }
    ensures { IsWalkAt work.now.parts.now work.now.good.now (O.model work.now.observer.now) (O.sums work.now.observer.now) work.now.block cell.0 cell.1 kind scratch.new notes.new }
{
    let _ = work.parts.chains();
    work.good
        .load_more(work.parts, scratch, work.block, cell, kind, steps);
    note_step(work, scratch, cell, above, kind, notes);
    clear_marks(scratch);
}

/// Takes a walk down its chain from one position to another.
fn descend<O: ChainObserver, L: Ledger>(
    work: &BlockWork<'_, O>,
    scratch: &mut Scratch,
    from: (u32, u32),
    to: u32,
    kind: CellKind,
    notes: &mut Notes<O::Sum>,
    steps: &mut Steps<L>,
)
    requires work { IsChainWork O.test O.good O.block O.model O.ready work.now }
    requires to { to ≤ from.1 }
    requires walk { IsWalkAt work.now.parts.now work.now.good.now (O.model work.now.observer.now) (O.sums work.now.observer.now) work.now.block from.0 from.1 kind scratch.old notes.old }
    ensures { IsWalkAt work.now.parts.now work.now.good.now (O.model work.now.observer.now) (O.sums work.now.observer.now) work.now.block from.0 to kind scratch.new notes.new }
{
    let mut at = from.1;
    while at > to {
        let above = at;
        at -= 1;
        step(work, scratch, (from.0, at), above, kind, notes, steps);
    }
}

/// Brings a walk to a position: down the chain if it stands there or above, else from a new begin.
pub(crate) fn reach<O: ChainObserver, L: Ledger>(
    work: &BlockWork<'_, O>,
    scratch: &mut Scratch,
    at: Option<(u32, u32)>,
    cell: (u32, u32),
    kind: CellKind,
    notes: &mut Notes<O::Sum>,
    steps: &mut Steps<L>,
) -> Result<(), NoMemory>
    requires work { IsChainWork O.test O.good O.block O.model O.ready work.now }
    requires chain { cell.0 < length work.now.parts.now.chains }
    requires pos { cell.1 < length (chain_at work.now.parts.now cell.0).cells }
    requires walk { IsWalk work.now.parts.now work.now.good.now (O.model work.now.observer.now) (O.sums work.now.observer.now) work.now.block kind scratch.old notes.old at }
    ensures scratch { IsScratchIn work.now.good.now scratch.new }
    ensures walk { OnOk result (IsWalkAt work.now.parts.now work.now.good.now (O.model work.now.observer.now) (O.sums work.now.observer.now) work.now.block cell.0 cell.1 kind scratch.new notes.new) }
{
    if let Some(from) = at {
        if from.0 == cell.0 && from.1 >= cell.1 {
            descend(work, scratch, from, cell.1, kind, notes, steps);
            return Ok(());
        }
    }
    work.good.clear(scratch);
    begin(work, scratch, cell, kind, notes, steps)
}
