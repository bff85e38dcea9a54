//! The root of a net's region, and the lanes in which the net shows where the root does.
ghost use Rattle.std.specs.Prelude.{◌≡◌, ◌<◌, length};
ghost use Rattle.fault_effects.specs.Regions.{IsRooted};
ghost use Rattle.fault_effects.specs.SoundWork.{IsSound};

use crate::block_work::BlockWork;
use crate::observer::Observer;
use crate::readers::sole_reader;
use lane_rows::Row;

/// A net, the root of its region, and the lanes in which the net shows where the root does.
#[derive(Clone, Copy)]
pub(crate) struct Rooted {
    pub net: u32,
    pub root: u32,
    pub lanes: Row,
}

/// Finds the root of a net's region.
pub(crate) fn root_of<O: Observer>(work: &BlockWork<'_, O>, net: u32) -> Rooted
    requires work { IsSound O.test O.model O.block O.clean O.ready work.now }
    requires net { net < length work.now.parts.now.netlist.nets }
    ensures rooted { IsRooted (O.model work.now.observer.now) (O.block work.now.observer.now) (length work.now.parts.now.netlist.nets) result }
    ensures net { result.net ≡ net }
{
    let mut at = Rooted {
        net,
        root: net,
        lanes: Row::all(),
    };
    for _ in 0..work.reads.len() {
        let Some(reader) = sole_reader(work.parts, work.reads, at.root) else {
            return at;
        };
        let lanes = work.observer.downstream(reader.pin);
        at.lanes = at.lanes.and(lanes);
        at.root = reader.gate;
    }
    at
}
