//! The lanes in which a net changes from the first frame to the second.
ghost use Rattle.std.specs.Prelude.{◌≡◌, ℕ, ◌<◌, true, length};
ghost use Rattle.lane_rows.specs.Lanes.{lane};
ghost use Rattle.lane_rows.specs.Planes.{held};
ghost use Rattle.lane_rows.specs.GoodRows.{AreBlockRows, pattern_of};
ghost use Rattle.lane_rows.specs.Stimuli.{captures};
ghost use Rattle.frame_rows.specs.Frames.{changes, net_changes};
ghost use Rattle.frame_rows.specs.SecondRows.{IsNextBlock};

use lane_rows::{Block, Packed, Row};
use scan_model::{Parts, Stuck};

/// The lanes in which a net goes from the value at which it would be stuck to the other one.
fn changing(first: Packed, second: Packed, value: Stuck) -> Row
    ensures { (j : ℕ) → j < 512 → lane result j ≡ changes value (held first j) (held second j) }
{
    match value {
        Stuck::Zero => first.zeros().and(second.ones()),
        Stuck::One => first.ones().and(second.zeros()),
    }
}

/// The lanes in which a net makes a transition, from a block's rows of both frames. Of lanes whose patterns don't capture it
/// says nothing.
pub fn launched_lanes(parts: &Parts, first: &Block, second: &Block, net: u32, value: Stuck) -> Row
    requires first { length first.now.values ≡ length parts.now.netlist.nets }
    requires second { length second.now.values ≡ length parts.now.netlist.nets }
    requires net { net < length parts.now.netlist.nets }
    ensures { (b j : ℕ) → AreBlockRows parts.now b first.now → IsNextBlock parts.now b second.now → j < 512 → captures parts.now (pattern_of b j) ≡ true
        → lane result j ≡ net_changes parts.now value (pattern_of b j) net }
{
    let _ = parts.circuit().order();
    let first = first.values.as_slice()[net as usize];
    let second = second.values.as_slice()[net as usize];
    changing(first, second, value)
}
