//! What the suspects that flip one net come to in a block: one flip serves all of a net, and of its region. Bridges flip two nets, and stand with
//! the suspects of the first.
ghost use Rattle.std.specs.Prelude.{◌≡◌, ◌&&◌, ℕ, ◌<◌, All, length, OnOk, IfOk};
ghost use Rattle.scan_model.specs.ScanTest.{HasSite};
ghost use Rattle.scan_model.specs.declared.fault.Fault.TheVariants as fault;
ghost use Rattle.lane_rows.specs.Lanes.{lane};
ghost use Rattle.fault_effects.specs.FaultModel.{shown_in};
ghost use Rattle.fault_effects.specs.CachedFlips.{AreKeptFlips};
ghost use Rattle.fault_effects.specs.Regions.{IsRegion, IsShownIn, IsRooted};
ghost use Rattle.fault_effects.specs.Owners.{IsOwned, suspect_at};
ghost use Rattle.fault_effects.specs.Owners as owning;
ghost use Rattle.fault_effects.specs.Shares.{Shares, IsAmong, suspect_fails};
ghost use Rattle.fault_effects.specs.SoundWork.{IsSound};

use crate::block_work::BlockWork;
use crate::kept_flips::{KeptFlips, no_flips, part_in};
use crate::observer::Observer;
use crate::region::{Member, Region, show};
use crate::rooted::{Rooted, root_of};
use crate::share::Share;
use lane_rows::Row;
use packed_sim::Scratch;
use scan_model::{BridgeKind, Fault, NoMemory, Rows, Steps};
use std::alloc::Global;
use std::sync::ledger::Ledger;

/// At most so many flips are kept.
const MOST_KEPT: usize = 256;

/// A bridge's nets and its kind.
#[derive(Clone, Copy)]
struct BridgeFault {
    a: u32,
    b: u32,
    kind: BridgeKind,
}

/// What a flip of a net comes to in some lanes, by that of the root of its region.
fn part_by_root<O: Observer, L: Ledger>(
    work: &BlockWork<'_, O>,
    scratch: &mut Scratch,
    kept: &mut KeptFlips<O::Flip>,
    region: &Region<O::Flip>,
    at: Rooted,
    lanes: Row,
    steps: &mut Steps<L>,
) -> Result<O::Part, NoMemory>
    requires work { IsSound O.test O.model O.block O.clean O.ready work.now }
    requires scratch { O.clean work.now.observer.now scratch.old }
    requires kept { AreKeptFlips (O.holds work.now.observer.now) (O.model work.now.observer.now) (O.block work.now.observer.now) kept.old }
    requires region { IsRegion (O.holds work.now.observer.now) (O.model work.now.observer.now) (O.block work.now.observer.now) (length work.now.parts.now.netlist.nets) region.now }
    requires at { IsRooted (O.model work.now.observer.now) (O.block work.now.observer.now) (length work.now.parts.now.netlist.nets) at }
    ensures scratch { O.clean work.now.observer.now scratch.new }
    ensures kept { OnOk result (AreKeptFlips (O.holds work.now.observer.now) (O.model work.now.observer.now) (O.block work.now.observer.now) kept.new) }
    ensures part { IfOk result (λ part. O.means work.now.observer.now part (λ q j. shown_in (O.model work.now.observer.now) (O.block work.now.observer.now) at.net q j && lane lanes j)) }
{
    let both = at.lanes.and(lanes);
    if region.flip.net == Some(at.root) {
        return Ok(work.observer.part(&region.flip.flip, both));
    }
    part_in(work, scratch, kept, at.root, both, steps)
}

/// What a bridge comes to in a block, whose first net shows as its region's root does in some lanes: in each lane the bridge flips one of its nets
/// at most.
fn bridge_part<O: Observer, L: Ledger>(
    work: &BlockWork<'_, O>,
    scratch: &mut Scratch,
    kept: &mut KeptFlips<O::Flip>,
    region: &Region<O::Flip>,
    bridged: BridgeFault,
    lanes: Row,
    second: Rooted,
    steps: &mut Steps<L>,
) -> Result<O::Part, NoMemory>
    requires work { IsSound O.test O.model O.block O.clean O.ready work.now }
    requires scratch { O.clean work.now.observer.now scratch.old }
    requires kept { AreKeptFlips (O.holds work.now.observer.now) (O.model work.now.observer.now) (O.block work.now.observer.now) kept.old }
    requires region { IsRegion (O.holds work.now.observer.now) (O.model work.now.observer.now) (O.block work.now.observer.now) (length work.now.parts.now.netlist.nets) region.now }
    requires site { HasSite work.now.parts.now (fault.Bridge bridged.a bridged.b bridged.kind) }
    requires shown { IsShownIn (O.holds work.now.observer.now) (O.model work.now.observer.now) (O.block work.now.observer.now) region.now.flip.flip bridged.a lanes }
    requires second { IsRooted (O.model work.now.observer.now) (O.block work.now.observer.now) (length work.now.parts.now.netlist.nets) second }
    requires net { second.net ≡ bridged.b }
    ensures scratch { O.clean work.now.observer.now scratch.new }
    ensures kept { OnOk result (AreKeptFlips (O.holds work.now.observer.now) (O.model work.now.observer.now) (O.block work.now.observer.now) kept.new) }
    ensures part { IfOk result (λ part. (i : ℕ) → i < length work.now.suspects.now → (suspect_at work.now.suspects.now i).fault ≡ fault.Bridge bridged.a bridged.b bridged.kind
        → O.means work.now.observer.now part (suspect_fails (O.model work.now.observer.now) (O.block work.now.observer.now) work.now.suspects.now i)) }
{
    let BridgeFault { a, b, kind } = bridged;
    let fault = Fault::Bridge { a, b, kind };
    let first_lanes = work.observer.mask(&fault, a);
    let second_lanes = work.observer.mask(&fault, b);
    let of_first = work
        .observer
        .part(&region.flip.flip, lanes.and(first_lanes));
    let of_second = part_by_root(work, scratch, kept, region, second, second_lanes, steps)?;
    Ok(work.observer.both(of_first, of_second))
}

/// The root of a net's region, which is at hand if that net was asked for last.
fn root_again<O: Observer>(work: &BlockWork<'_, O>, last: &mut Rooted, net: u32) -> Rooted
    requires work { IsSound O.test O.model O.block O.clean O.ready work.now }
    requires last { IsRooted (O.model work.now.observer.now) (O.block work.now.observer.now) (length work.now.parts.now.netlist.nets) last.old }
    requires net { net < length work.now.parts.now.netlist.nets }
    ensures last { IsRooted (O.model work.now.observer.now) (O.block work.now.observer.now) (length work.now.parts.now.netlist.nets) last.new }
    ensures rooted { IsRooted (O.model work.now.observer.now) (O.block work.now.observer.now) (length work.now.parts.now.netlist.nets) result }
    ensures net { result.net ≡ net }
{
    if last.net != net {
        *last = root_of(work, net);
    }
    *last
}

/// What a suspect comes to in a block, whose net shows as its region's root does in some lanes.
fn suspect_part<O: Observer, L: Ledger>(
    work: &BlockWork<'_, O>,
    scratch: &mut Scratch,
    kept: &mut KeptFlips<O::Flip>,
    region: &Region<O::Flip>,
    shown: &Member,
    item: u32,
    other: &mut Rooted,
    steps: &mut Steps<L>,
) -> Result<O::Part, NoMemory>
    requires work { IsSound O.test O.model O.block O.clean O.ready work.now }
    requires scratch { O.clean work.now.observer.now scratch.old }
    requires kept { AreKeptFlips (O.holds work.now.observer.now) (O.model work.now.observer.now) (O.block work.now.observer.now) kept.old }
    requires region { IsRegion (O.holds work.now.observer.now) (O.model work.now.observer.now) (O.block work.now.observer.now) (length work.now.parts.now.netlist.nets) region.now }
    requires net { shown.now.net < length work.now.parts.now.netlist.nets }
    requires shown { IsShownIn (O.holds work.now.observer.now) (O.model work.now.observer.now) (O.block work.now.observer.now) region.now.flip.flip shown.now.net shown.now.lanes }
    requires item { IsOwned work.now.parts.now work.now.suspects.now shown.now.net item }
    requires other { IsRooted (O.model work.now.observer.now) (O.block work.now.observer.now) (length work.now.parts.now.netlist.nets) other.old }
    ensures scratch { O.clean work.now.observer.now scratch.new }
    ensures kept { OnOk result (AreKeptFlips (O.holds work.now.observer.now) (O.model work.now.observer.now) (O.block work.now.observer.now) kept.new) }
    ensures other { IsRooted (O.model work.now.observer.now) (O.block work.now.observer.now) (length work.now.parts.now.netlist.nets) other.new }
    ensures part { IfOk result (λ part. O.means work.now.observer.now part (suspect_fails (O.model work.now.observer.now) (O.block work.now.observer.now) work.now.suspects.now item)) }
{
    let suspect = work.suspects[item as usize];
    if let Fault::Bridge { a, b, kind } = suspect.fault {
        let second = root_again(work, other, b);
        let bridged = BridgeFault { a, b, kind };
        return bridge_part(
            work,
            scratch,
            kept,
            region,
            bridged,
            shown.lanes,
            second,
            steps,
        );
    }
    let mask = work.observer.mask(&suspect.fault, shown.net);
    Ok(work.observer.part(&region.flip.flip, shown.lanes.and(mask)))
}

/// Adds the shares of a net's suspects: the net shows as its region's root does, in some lanes.
fn share_group<O: Observer, L: Ledger>(
    work: &BlockWork<'_, O>,
    scratch: &mut Scratch,
    kept: &mut KeptFlips<O::Flip>,
    region: &Region<O::Flip>,
    shown: &Member,
    group: &[u32],
    shares: &mut Rows<Share<O::Part>>,
    steps: &mut Steps<L>,
) -> Result<(), NoMemory>
    requires work { IsSound O.test O.model O.block O.clean O.ready work.now }
    requires scratch { O.clean work.now.observer.now scratch.old }
    requires kept { AreKeptFlips (O.holds work.now.observer.now) (O.model work.now.observer.now) (O.block work.now.observer.now) kept.old }
    requires region { IsRegion (O.holds work.now.observer.now) (O.model work.now.observer.now) (O.block work.now.observer.now) (length work.now.parts.now.netlist.nets) region.now }
    requires net { shown.now.net < length work.now.parts.now.netlist.nets }
    requires shown { IsShownIn (O.holds work.now.observer.now) (O.model work.now.observer.now) (O.block work.now.observer.now) region.now.flip.flip shown.now.net shown.now.lanes }
    requires group { All (IsOwned work.now.parts.now work.now.suspects.now shown.now.net) group.now }
    ensures scratch { O.clean work.now.observer.now scratch.new }
    ensures kept { OnOk result (AreKeptFlips (O.holds work.now.observer.now) (O.model work.now.observer.now) (O.block work.now.observer.now) kept.new) }
    ensures shares { OnOk result (Shares (O.means work.now.observer.now) (O.model work.now.observer.now) (O.block work.now.observer.now) work.now.suspects.now (IsAmong group.now (length group.now)) shares.old shares.new) }
{
    let mut other = Rooted {
        net: shown.net,
        root: shown.net,
        lanes: Row::all(),
    };
    for item in group {
        let part = suspect_part(work, scratch, kept, region, shown, *item, &mut other, steps)?;
        shares.push(Share {
            suspect: *item,
            part,
        })?;
    }
    Ok(())
}

/// Adds the shares of the suspects that a net owns.
fn share_net<O: Observer, L: Ledger>(
    work: &BlockWork<'_, O>,
    scratch: &mut Scratch,
    kept: &mut KeptFlips<O::Flip>,
    region: &mut Region<O::Flip>,
    net: u32,
    group: &[u32],
    shares: &mut Rows<Share<O::Part>>,
    steps: &mut Steps<L>,
) -> Result<(), NoMemory>
    requires work { IsSound O.test O.model O.block O.clean O.ready work.now }
    requires scratch { O.clean work.now.observer.now scratch.old }
    requires kept { AreKeptFlips (O.holds work.now.observer.now) (O.model work.now.observer.now) (O.block work.now.observer.now) kept.old }
    requires region { IsRegion (O.holds work.now.observer.now) (O.model work.now.observer.now) (O.block work.now.observer.now) (length work.now.parts.now.netlist.nets) region.old }
    requires net { net < length work.now.parts.now.netlist.nets }
    requires group { All (IsOwned work.now.parts.now work.now.suspects.now net) group.now }
    ensures scratch { O.clean work.now.observer.now scratch.new }
    ensures kept { OnOk result (AreKeptFlips (O.holds work.now.observer.now) (O.model work.now.observer.now) (O.block work.now.observer.now) kept.new) }
    ensures region { OnOk result (IsRegion (O.holds work.now.observer.now) (O.model work.now.observer.now) (O.block work.now.observer.now) (length work.now.parts.now.netlist.nets) region.new) }
    ensures shares { OnOk result (Shares (O.means work.now.observer.now) (O.model work.now.observer.now) (O.block work.now.observer.now) work.now.suspects.now (IsAmong group.now (length group.now)) shares.old shares.new) }
{
    if group.is_empty() {
        return Ok(());
    }
    let lanes = show(work, scratch, kept, region, net, steps)?;
    let shown = Member { net, lanes };
    share_group(work, scratch, kept, region, &shown, group, shares, steps)
}

/// Adds the shares of all suspects that some nets own.
pub(crate) fn share_nets<O: Observer, L: Ledger>(
    alloc: Global,
    work: &BlockWork<'_, O>,
    scratch: &mut Scratch,
    nets: &[u32],
    shares: &mut Rows<Share<O::Part>>,
    steps: &mut Steps<L>,
) -> Result<(), NoMemory>
    requires work { IsSound O.test O.model O.block O.clean O.ready work.now }
    requires scratch { O.clean work.now.observer.now scratch.old }
    requires nets { All (λ n. n < length work.now.parts.now.netlist.nets) nets.now }
    ensures scratch { O.clean work.now.observer.now scratch.new }
    ensures shares { OnOk result (Shares (O.means work.now.observer.now) (O.model work.now.observer.now) (O.block work.now.observer.now) work.now.suspects.now (λ i. IsAmong nets.now (length nets.now) (owning.owner work.now.parts.now (suspect_at work.now.suspects.now i).fault)) shares.old shares.new) }
{
    let count = nets.len().clamp(1, MOST_KEPT);
    let mut kept = no_flips(alloc, work.observer, count)?;
    let mut region = Region::new(alloc, work.observer.new_flip(alloc));
    for net in nets {
        let group = work.owners.group(*net);
        share_net(
            work,
            scratch,
            &mut kept,
            &mut region,
            *net,
            group,
            shares,
            steps,
        )?;
    }
    Ok(())
}
