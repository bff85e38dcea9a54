//! A flip that is kept for the next look at the same net.
ghost use Rattle.std.specs.Prelude.{◌≡◌, ◌<◌, length, OnOk, None};
ghost use Rattle.fault_effects.specs.FaultModel.{shown_in};
ghost use Rattle.fault_effects.specs.CachedFlips.{IsCachedFlip};
ghost use Rattle.fault_effects.specs.SoundWork.{IsSound};

use crate::block_work::BlockWork;
use crate::observer::Observer;
use packed_sim::Scratch;
use scan_model::{NoMemory, Steps};
use std::sync::ledger::Ledger;

/// Where a flip of a net shows, kept for the next look at the same net.
#[derive(Drop)]
pub(crate) struct CachedFlip<F> {
    pub net: Option<u32>,
    pub flip: F,
}

impl<F> CachedFlip<F> {
    pub(crate) fn new(flip: F) -> CachedFlip<F>
        ensures net { result.net ≡ None }
        ensures flip { result.flip ≡ flip }
    {
        CachedFlip { net: None, flip }
    }
}

/// Finds where a flip of a net shows, unless that is kept.
pub(crate) fn keep<O: Observer, L: Ledger>(
    work: &BlockWork<'_, O>,
    scratch: &mut Scratch,
    kept: &mut CachedFlip<O::Flip>,
    net: u32,
    steps: &mut Steps<L>,
) -> Result<(), NoMemory>
    requires work { IsSound O.test O.model O.block O.clean O.ready work.now }
    requires scratch { O.clean work.now.observer.now scratch.old }
    requires kept { IsCachedFlip (O.holds work.now.observer.now) (O.model work.now.observer.now) (O.block work.now.observer.now) kept.old }
    requires net { net < length work.now.parts.now.netlist.nets }
    ensures scratch { O.clean work.now.observer.now scratch.new }
    ensures kept { OnOk result (IsCachedFlip (O.holds work.now.observer.now) (O.model work.now.observer.now) (O.block work.now.observer.now) kept.new) }
    ensures flip { OnOk result (O.holds work.now.observer.now kept.new.flip (shown_in (O.model work.now.observer.now) (O.block work.now.observer.now) net)) }
{
    if kept.net == Some(net) {
        return Ok(());
    }
    work.observer.flip(scratch, net, &mut kept.flip, steps)?;
    kept.net = Some(net);
    Ok(())
}
