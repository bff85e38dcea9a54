//! A table of flips that are kept for the next looks at their nets.
ghost use Rattle.std.specs.Prelude.{◌≡◌, ℕ, ◌<◌, ◌&&◌, ◌∷◌, All, Contains, length, IfOk, OnOk};
ghost use Rattle.lane_rows.specs.Lanes.{lane};
ghost use Rattle.fault_effects.specs.FaultModel.{shown_in};
ghost use Rattle.fault_effects.specs.CachedFlips.{AreKeptFlips};
ghost use Rattle.fault_effects.specs.SoundWork.{IsSound};

use crate::block_work::BlockWork;
use crate::cached_flip::{CachedFlip, keep};
use crate::observer::Observer;
use lane_rows::Row;
use packed_sim::Scratch;
use scan_model::{NoMemory, Steps};
use std::alloc::Global;
use std::mem::swap;
use std::sync::ledger::Ledger;

/// Some flips. A net's flip has one place, which it shares with those of other nets.
#[derive(Drop)]
pub(crate) struct KeptFlips<F> {
    pub flips: Vec<CachedFlip<F>>,
}

/// Room for so many flips, with nothing kept. The only error is want of memory.
pub(crate) fn no_flips<O: Observer>(
    alloc: Global,
    observer: &O,
    count: usize,
) -> Result<KeptFlips<O::Flip>, NoMemory>
    requires { 0 < count }
    ensures { IfOk result (AreKeptFlips (O.holds observer.now) (O.model observer.now) (O.block observer.now)) }
{
    let mut flips = Vec::with_capacity(alloc, count)?;
    while flips.len() < count {
        flips.push(CachedFlip::new(observer.new_flip(alloc)))?;
    }
    Ok(KeptFlips { flips })
}

impl<F> KeptFlips<F> {
    /// Takes a flip back that was lent, and lends what stood in its place.
    pub(crate) fn put_back(&mut self, flip: &mut CachedFlip<F>)
        requires { 0 < length self.old.flips.items }
        ensures len { length self.new.flips.items ≡ length self.old.flips.items }
        ensures kept { All (Contains (flip.old ∷ self.old.flips.items)) self.new.flips.items }
        ensures lent { Contains (flip.old ∷ self.old.flips.items) flip.new }
    {
        if let Some(net) = flip.net {
            self.lend(flip, net);
        }
    }

    /// Lends what stands in the place of a net's flip, and keeps another there.
    pub(crate) fn lend(&mut self, flip: &mut CachedFlip<F>, net: u32)
        requires { 0 < length self.old.flips.items }
        ensures len { length self.new.flips.items ≡ length self.old.flips.items }
        ensures kept { All (Contains (flip.old ∷ self.old.flips.items)) self.new.flips.items }
        ensures lent { Contains (flip.old ∷ self.old.flips.items) flip.new }
    {
        let place = net as usize % self.flips.len();
        swap(&mut self.flips[place], flip);
    }
}

/// What a flip of a net comes to in some lanes. The flip is kept in place of another net's.
pub(crate) fn part_in<O: Observer, L: Ledger>(
    work: &BlockWork<'_, O>,
    scratch: &mut Scratch,
    kept: &mut KeptFlips<O::Flip>,
    net: u32,
    lanes: Row,
    steps: &mut Steps<L>,
) -> Result<O::Part, NoMemory>
    requires work { IsSound O.test O.model O.block O.clean O.ready work.now }
    requires scratch { O.clean work.now.observer.now scratch.old }
    requires kept { AreKeptFlips (O.holds work.now.observer.now) (O.model work.now.observer.now) (O.block work.now.observer.now) kept.old }
    requires net { net < length work.now.parts.now.netlist.nets }
    ensures scratch { O.clean work.now.observer.now scratch.new }
    ensures kept { OnOk result (AreKeptFlips (O.holds work.now.observer.now) (O.model work.now.observer.now) (O.block work.now.observer.now) kept.new) }
    ensures part { IfOk result (λ part. O.means work.now.observer.now part (λ q j. shown_in (O.model work.now.observer.now) (O.block work.now.observer.now) net q j && lane lanes j)) }
{
    let place = net as usize % kept.flips.len();
    let flip = &mut kept.flips[place];
    keep(work, scratch, flip, net, steps)?;
    Ok(work.observer.part(&flip.flip, lanes))
}
