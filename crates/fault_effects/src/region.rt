//! A region: nets of which each is read by one gate alone, up to one that isn't, its root. A net shows where its one reader does, in the lanes in
//! which it flips the reader. So of a region the root alone is flipped.
ghost use Rattle.std.specs.Prelude.{◌≡◌, ℕ, ◌<◌, All, length, IfOk, IfSome, OnOk, None, []};
ghost use Rattle.fault_effects.specs.FaultModel.{FaultModel, Table};
ghost use Rattle.fault_effects.specs.CachedFlips.{AreKeptFlips};
ghost use Rattle.fault_effects.specs.Regions.{IsRegion, IsEntered, ShowsAs};
ghost use Rattle.fault_effects.specs.SoundWork.{IsSound};

use crate::block_work::BlockWork;
use crate::cached_flip::{CachedFlip, keep};
use crate::kept_flips::KeptFlips;
use crate::observer::Observer;
use crate::readers::{SoleReader, sole_reader};
use lane_rows::Row;
use packed_sim::Scratch;
use scan_model::{NoMemory, Steps};
use std::alloc::Global;
use std::sync::ledger::Ledger;

/// A net, and the lanes in which it shows where the root of its region does.
#[derive(Clone, Copy)]
pub(crate) struct Member {
    pub net: u32,
    pub lanes: Row,
}

/// The region of the net that was shown last. `flip` is that of its root, `members` go upstream from the root to that net, and
/// `path` has the gates from the net that is shown next downstream to its root, the root last.
#[derive(Drop)]
pub(crate) struct Region<F> {
    pub flip: CachedFlip<F>,
    pub members: Vec<Member>,
    pub path: Vec<u32>,
}

impl<F> Region<F> {
    pub(crate) fn new(alloc: Global, flip: F) -> Region<F>
        ensures flip { result.flip.flip ≡ flip }
        ensures net { result.flip.net ≡ None }
        ensures members { result.members.items ≡ [] }
        ensures path { result.path.items ≡ [] }
    {
        Region {
            flip: CachedFlip::new(flip),
            members: Vec::new(alloc),
            path: Vec::new(alloc),
        }
    }
}

/// Whether the last member is the gate that alone reads a net.
fn is_last(members: &[Member], reader: Option<SoleReader>) -> bool {
    match (members.last(), reader) {
        (Some(member), Some(reader)) => member.net == reader.gate,
        _ => false,
    }
}

/// Drops the members upstream of the gate that alone reads a net, or all of them if that gate is none.
fn leave(members: &mut Vec<Member>, reader: Option<SoleReader>)
    ensures { (m : FaultModel) (b : ℕ) (root : Table) → All (λ x. ShowsAs m b root x.net x.lanes) members.old.items → All (λ x. ShowsAs m b root x.net x.lanes) members.new.items }
{
    for _ in 0..members.len() {
        if is_last(members, reader) {
            return;
        }
        let _ = members.pop();
    }
}

/// Notes the gates between a net and the root of its region, where no member is left.
fn climb<O: Observer>(
    work: &BlockWork<'_, O>,
    region: &mut Region<O::Flip>,
    net: u32,
) -> Result<(), NoMemory>
    requires region { IsRegion (O.holds work.now.observer.now) (O.model work.now.observer.now) (O.block work.now.observer.now) (length work.now.parts.now.netlist.nets) region.old }
    requires net { net < length work.now.parts.now.netlist.nets }
    ensures { OnOk result (IsRegion (O.holds work.now.observer.now) (O.model work.now.observer.now) (O.block work.now.observer.now) (length work.now.parts.now.netlist.nets) region.new) }
{
    region.path.clear();
    if !region.members.is_empty() {
        return Ok(());
    }
    let mut at = net;
    for _ in 0..work.reads.len() {
        let Some(reader) = sole_reader(work.parts, work.reads, at) else {
            return Ok(());
        };
        region.path.push(reader.gate)?;
        at = reader.gate;
    }
    Ok(())
}

/// The lanes in which a net shows where the root does, if the last member alone reads it.
fn upstream_lanes<O: Observer>(
    work: &BlockWork<'_, O>,
    region: &Region<O::Flip>,
    net: u32,
) -> Option<Row>
    requires work { IsSound O.test O.model O.block O.clean O.ready work.now }
    requires region { IsRegion (O.holds work.now.observer.now) (O.model work.now.observer.now) (O.block work.now.observer.now) (length work.now.parts.now.netlist.nets) region.now }
    requires net { net < length work.now.parts.now.netlist.nets }
    ensures { IfSome result (IsEntered (O.holds work.now.observer.now) (O.model work.now.observer.now) (O.block work.now.observer.now) (length work.now.parts.now.netlist.nets) region.now net) }
{
    let last = region.members.last()?;
    let reader = sole_reader(work.parts, work.reads, net)?;
    if reader.gate != last.net {
        return None;
    }
    let lanes = work.observer.downstream(reader.pin);
    Some(last.lanes.and(lanes))
}

/// Takes a net as the root of a region: it is flipped, unless its flip is kept.
fn begin<O: Observer, L: Ledger>(
    work: &BlockWork<'_, O>,
    scratch: &mut Scratch,
    kept: &mut KeptFlips<O::Flip>,
    region: &mut Region<O::Flip>,
    net: u32,
    steps: &mut Steps<L>,
) -> Result<Row, NoMemory>
    requires work { IsSound O.test O.model O.block O.clean O.ready work.now }
    requires scratch { O.clean work.now.observer.now scratch.old }
    requires kept { AreKeptFlips (O.holds work.now.observer.now) (O.model work.now.observer.now) (O.block work.now.observer.now) kept.old }
    requires region { IsRegion (O.holds work.now.observer.now) (O.model work.now.observer.now) (O.block work.now.observer.now) (length work.now.parts.now.netlist.nets) region.old }
    requires net { net < length work.now.parts.now.netlist.nets }
    ensures scratch { O.clean work.now.observer.now scratch.new }
    ensures kept { OnOk result (AreKeptFlips (O.holds work.now.observer.now) (O.model work.now.observer.now) (O.block work.now.observer.now) kept.new) }
    ensures region { IfOk result (IsEntered (O.holds work.now.observer.now) (O.model work.now.observer.now) (O.block work.now.observer.now) (length work.now.parts.now.netlist.nets) region.new net) }
{
    region.members.clear();
    kept.put_back(&mut region.flip);
    kept.lend(&mut region.flip, net);
    keep(work, scratch, &mut region.flip, net, steps)?;
    Ok(Row::all())
}

/// Takes a net as a member: upstream of the last one if that alone reads the net, else as the root of a region. The answer is its
/// lanes.
fn enter<O: Observer, L: Ledger>(
    work: &BlockWork<'_, O>,
    scratch: &mut Scratch,
    kept: &mut KeptFlips<O::Flip>,
    region: &mut Region<O::Flip>,
    net: u32,
    steps: &mut Steps<L>,
) -> Result<Row, NoMemory>
    requires work { IsSound O.test O.model O.block O.clean O.ready work.now }
    requires scratch { O.clean work.now.observer.now scratch.old }
    requires kept { AreKeptFlips (O.holds work.now.observer.now) (O.model work.now.observer.now) (O.block work.now.observer.now) kept.old }
    requires region { IsRegion (O.holds work.now.observer.now) (O.model work.now.observer.now) (O.block work.now.observer.now) (length work.now.parts.now.netlist.nets) region.old }
    requires net { net < length work.now.parts.now.netlist.nets }
    ensures scratch { O.clean work.now.observer.now scratch.new }
    ensures kept { OnOk result (AreKeptFlips (O.holds work.now.observer.now) (O.model work.now.observer.now) (O.block work.now.observer.now) kept.new) }
    ensures region { IfOk result (IsEntered (O.holds work.now.observer.now) (O.model work.now.observer.now) (O.block work.now.observer.now) (length work.now.parts.now.netlist.nets) region.new net) }
{
    let lanes = match upstream_lanes(work, region, net) {
        Some(lanes) => lanes,
        None => begin(work, scratch, kept, region, net, steps)?,
    };
    region.members.push(Member { net, lanes })?;
    Ok(lanes)
}

/// Takes the nets of the path as members, from the root down.
fn descend<O: Observer, L: Ledger>(
    work: &BlockWork<'_, O>,
    scratch: &mut Scratch,
    kept: &mut KeptFlips<O::Flip>,
    region: &mut Region<O::Flip>,
    steps: &mut Steps<L>,
) -> Result<(), NoMemory>
    requires work { IsSound O.test O.model O.block O.clean O.ready work.now }
    requires scratch { O.clean work.now.observer.now scratch.old }
    requires kept { AreKeptFlips (O.holds work.now.observer.now) (O.model work.now.observer.now) (O.block work.now.observer.now) kept.old }
    requires region { IsRegion (O.holds work.now.observer.now) (O.model work.now.observer.now) (O.block work.now.observer.now) (length work.now.parts.now.netlist.nets) region.old }
    ensures scratch { O.clean work.now.observer.now scratch.new }
    ensures kept { OnOk result (AreKeptFlips (O.holds work.now.observer.now) (O.model work.now.observer.now) (O.block work.now.observer.now) kept.new) }
    ensures region { OnOk result (IsRegion (O.holds work.now.observer.now) (O.model work.now.observer.now) (O.block work.now.observer.now) (length work.now.parts.now.netlist.nets) region.new) }
{
    for _ in 0..region.path.len() {
        let Some(above) = region.path.pop() else {
            return Ok(());
        };
        enter(work, scratch, kept, region, above, steps)?;
    }
    Ok(())
}

/// Finds where a flip of a net shows: where the root of its region does, in the lanes of the answer.
pub(crate) fn show<O: Observer, L: Ledger>(
    work: &BlockWork<'_, O>,
    scratch: &mut Scratch,
    kept: &mut KeptFlips<O::Flip>,
    region: &mut Region<O::Flip>,
    net: u32,
    steps: &mut Steps<L>,
) -> Result<Row, NoMemory>
    requires work { IsSound O.test O.model O.block O.clean O.ready work.now }
    requires scratch { O.clean work.now.observer.now scratch.old }
    requires kept { AreKeptFlips (O.holds work.now.observer.now) (O.model work.now.observer.now) (O.block work.now.observer.now) kept.old }
    requires region { IsRegion (O.holds work.now.observer.now) (O.model work.now.observer.now) (O.block work.now.observer.now) (length work.now.parts.now.netlist.nets) region.old }
    requires net { net < length work.now.parts.now.netlist.nets }
    ensures scratch { O.clean work.now.observer.now scratch.new }
    ensures kept { OnOk result (AreKeptFlips (O.holds work.now.observer.now) (O.model work.now.observer.now) (O.block work.now.observer.now) kept.new) }
    ensures region { IfOk result (IsEntered (O.holds work.now.observer.now) (O.model work.now.observer.now) (O.block work.now.observer.now) (length work.now.parts.now.netlist.nets) region.new net) }
{
    let reader = sole_reader(work.parts, work.reads, net);
    leave(&mut region.members, reader);
    climb(work, region, net)?;
    descend(work, scratch, kept, region, steps)?;
    enter(work, scratch, kept, region, net, steps)
}
