//! The share of one piece of a block's work: a list of nets, pins or cells, with a scratch of its own.
ghost use Rattle.std.specs.Prelude.{◌≡◌, ◌≢◌, ℕ, ◌+◌, ◌<◌, [], All, Contains, length, OnOk, IfOk};
ghost use Rattle.fault_effects.specs.declared.work_kind.WorkKind.TheVariants as kinds;
ghost use Rattle.fault_effects.specs.Owners.{owner, suspect_at};
ghost use Rattle.fault_effects.specs.Shares.{Shares};
ghost use Rattle.fault_effects.specs.Pieces.{IsItem, IsServed};
ghost use Rattle.fault_effects.specs.ChainWork.{IsChainWork};
ghost use Rattle.fault_effects.specs.SoundWork.{IsSound};

use crate::block_work::BlockWork;
use crate::cell_shares::cell_piece;
use crate::net_piece::share_nets;
use crate::observer::{ChainObserver, Observer};
use crate::pin_piece::share_pins;
use crate::share::Share;
use crate::work_kind::WorkKind;
use packed_sim::Scratch;
use scan_model::{NoMemory, Rows, Steps};
use std::alloc::Global;
use std::marker::Brand;
use std::sync::ledger::{Blank, Ledger};

/// Adds the shares of the suspects that a list of work serves.
fn share_items<O: Observer, L: Ledger>(
    alloc: Global,
    work: &BlockWork<'_, O>,
    kind: WorkKind,
    items: &[u32],
    scratch: &mut Scratch,
    shares: &mut Rows<Share<O::Part>>,
    steps: &mut Steps<L>,
) -> Result<(), NoMemory>
    requires work { IsSound O.test O.model O.block O.clean O.ready work.now }
    requires logic { kind ≢ kinds.Cells }
    requires items { All (IsItem work.now.parts.now work.now.suspects.now kind) items.now }
    requires scratch { O.clean work.now.observer.now scratch.old }
    ensures scratch { O.clean work.now.observer.now scratch.new }
    ensures shares { OnOk result (Shares (O.means work.now.observer.now) (O.model work.now.observer.now) (O.block work.now.observer.now) work.now.suspects.now (IsServed work.now.parts.now work.now.suspects.now kind items.now) shares.old shares.new) }
{
    match kind {
        WorkKind::Nets => share_nets(alloc, work, scratch, items, shares, steps),
        WorkKind::Pins => share_pins(work, items, shares),
        WorkKind::Cells => unreachable!(),
    }
}

/// `logic_piece` with a ledger for its steps of simulation.
fn piece_in<O: Observer, L: Ledger>(
    alloc: Global,
    work: &BlockWork<'_, O>,
    kind: WorkKind,
    items: &[u32],
    blank: Blank,
) -> Result<Rows<Share<O::Part>>, NoMemory>
    requires work { IsSound O.test O.model O.block O.clean O.ready work.now }
    requires logic { kind ≢ kinds.Cells }
    requires items { All (IsItem work.now.parts.now work.now.suspects.now kind) items.now }
    requires name { blank.name ≡ L.name }
    requires parts { blank.parts ≡ L.parts }
    requires some { 0 < blank.parts }
    ensures { IfOk result (Shares (O.means work.now.observer.now) (O.model work.now.observer.now) (O.block work.now.observer.now) work.now.suspects.now (IsServed work.now.parts.now work.now.suspects.now kind items.now) []) }
{
    let mut steps = Steps::<L>::open(blank);
    let mut scratch = Scratch::make(alloc, work.good)?;
    let mut shares = Rows::new(alloc);
    let shared = share_items(
        alloc,
        work,
        kind,
        items,
        &mut scratch,
        &mut shares,
        &mut steps,
    );
    drop(scratch);
    drop(steps);
    match shared {
        Ok(()) => Ok(shares),
        Err(refused) => {
            drop(shares);
            Err(refused)
        }
    }
}

/// The shares of one piece of the work of the logic, with a scratch of its own: nets or pins. The only error is want of memory.
pub fn logic_piece<O: Observer>(
    alloc: Global,
    work: &BlockWork<'_, O>,
    kind: WorkKind,
    items: &[u32],
) -> Result<Rows<Share<O::Part>>, NoMemory>
    requires work { IsSound O.test O.model O.block O.clean O.ready work.now }
    requires logic { kind ≢ kinds.Cells }
    requires items { All (IsItem work.now.parts.now work.now.suspects.now kind) items.now }
    ensures { IfOk result (Shares (O.means work.now.observer.now) (O.model work.now.observer.now) (O.block work.now.observer.now) work.now.suspects.now (IsServed work.now.parts.now work.now.suspects.now kind items.now) []) }
{
    piece_in::<O, Brand>(alloc, work, kind, items, Blank::new(1))
}

/// Adds the shares of all suspects of the logic: those that nets own in the order of the nets, then pins.
fn share_logic<O: Observer, L: Ledger>(
    alloc: Global,
    work: &BlockWork<'_, O>,
    nets: &[u32],
    scratch: &mut Scratch,
    shares: &mut Rows<Share<O::Part>>,
    steps: &mut Steps<L>,
) -> Result<(), NoMemory>
    requires work { IsSound O.test O.model O.block O.clean O.ready work.now }
    requires nets { All (λ n. n < length work.now.parts.now.netlist.nets) nets.now }
    requires all { (i : ℕ) → i < length work.now.suspects.now → owner work.now.parts.now (suspect_at work.now.suspects.now i).fault < length work.now.parts.now.netlist.nets → Contains nets.now (owner work.now.parts.now (suspect_at work.now.suspects.now i).fault) }
    requires scratch { O.clean work.now.observer.now scratch.old }
    ensures { OnOk result (Shares (O.means work.now.observer.now) (O.model work.now.observer.now) (O.block work.now.observer.now) work.now.suspects.now (λ i. owner work.now.parts.now (suspect_at work.now.suspects.now i).fault < length work.now.parts.now.netlist.nets + 1) shares.old shares.new) }
{
    let count = work.parts.circuit().nets().len() as u32;
    let pins = work.owners.group(count);
    share_items(alloc, work, WorkKind::Nets, nets, scratch, shares, steps)?;
    share_items(alloc, work, WorkKind::Pins, pins, scratch, shares, steps)
}

/// `logic_parts` with a ledger for its steps of simulation.
fn parts_in<O: Observer, L: Ledger>(
    alloc: Global,
    work: &BlockWork<'_, O>,
    nets: &[u32],
    blank: Blank,
) -> Result<Rows<Share<O::Part>>, NoMemory>
    requires work { IsSound O.test O.model O.block O.clean O.ready work.now }
    requires nets { All (λ n. n < length work.now.parts.now.netlist.nets) nets.now }
    requires all { (i : ℕ) → i < length work.now.suspects.now → owner work.now.parts.now (suspect_at work.now.suspects.now i).fault < length work.now.parts.now.netlist.nets → Contains nets.now (owner work.now.parts.now (suspect_at work.now.suspects.now i).fault) }
    requires name { blank.name ≡ L.name }
    requires parts { blank.parts ≡ L.parts }
    requires some { 0 < blank.parts }
    ensures { IfOk result (Shares (O.means work.now.observer.now) (O.model work.now.observer.now) (O.block work.now.observer.now) work.now.suspects.now (λ i. owner work.now.parts.now (suspect_at work.now.suspects.now i).fault < length work.now.parts.now.netlist.nets + 1) []) }
{
    let mut shares = Rows::from_vec(Vec::with_capacity(alloc, work.suspects.len())?);
    let mut steps = Steps::<L>::open(blank);
    let mut scratch = Scratch::make(alloc, work.good)?;
    let shared = share_logic(alloc, work, nets, &mut scratch, &mut shares, &mut steps);
    drop(scratch);
    drop(steps);
    match shared {
        Ok(()) => Ok(shares),
        Err(refused) => {
            drop(shares);
            Err(refused)
        }
    }
}

/// The shares of all suspects of the logic in a block, with one scratch: those that nets own in the order of the nets, then
/// pins. The only error is want of memory.
pub fn logic_parts<O: Observer>(
    alloc: Global,
    work: &BlockWork<'_, O>,
    nets: &[u32],
) -> Result<Rows<Share<O::Part>>, NoMemory>
    requires work { IsSound O.test O.model O.block O.clean O.ready work.now }
    requires nets { All (λ n. n < length work.now.parts.now.netlist.nets) nets.now }
    requires all { (i : ℕ) → i < length work.now.suspects.now → owner work.now.parts.now (suspect_at work.now.suspects.now i).fault < length work.now.parts.now.netlist.nets → Contains nets.now (owner work.now.parts.now (suspect_at work.now.suspects.now i).fault) }
    ensures { IfOk result (Shares (O.means work.now.observer.now) (O.model work.now.observer.now) (O.block work.now.observer.now) work.now.suspects.now (λ i. owner work.now.parts.now (suspect_at work.now.suspects.now i).fault < length work.now.parts.now.netlist.nets + 1) []) }
{
    parts_in::<O, Brand>(alloc, work, nets, Blank::new(1))
}

/// The shares of one piece of any list of work, with a scratch of its own. The only error is want of memory.
pub fn piece_shares<O: ChainObserver>(
    alloc: Global,
    work: &BlockWork<'_, O>,
    kind: WorkKind,
    items: &[u32],
) -> Result<Rows<Share<O::Part>>, NoMemory>
    requires work { IsSound O.test O.model O.block O.clean O.ready work.now }
    requires chains { IsChainWork O.test O.good O.block O.model O.ready work.now }
    requires items { All (IsItem work.now.parts.now work.now.suspects.now kind) items.now }
    ensures { IfOk result (Shares (O.means work.now.observer.now) (O.model work.now.observer.now) (O.block work.now.observer.now) work.now.suspects.now (IsServed work.now.parts.now work.now.suspects.now kind items.now) []) }
{
    match kind {
        WorkKind::Cells => cell_piece(alloc, work, items),
        WorkKind::Nets => logic_piece(alloc, work, WorkKind::Nets, items),
        WorkKind::Pins => logic_piece(alloc, work, WorkKind::Pins, items),
    }
}
