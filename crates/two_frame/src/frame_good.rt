//! The fault-free rows of both frames, and room for a change of them.
ghost use Rattle.std.specs.Prelude.{◌≡◌, ℕ, ◌<◌, true, length, IfOk};
ghost use Rattle.lane_rows.specs.Lanes.{lane};
ghost use Rattle.lane_rows.specs.GoodRows.{pattern_of};
ghost use Rattle.lane_rows.specs.Stimuli.{captures};
ghost use Rattle.frame_rows.specs.Frames.{net_changes};
ghost use Rattle.two_frame.specs.FrameRows.{IsFrameGood, IsFrameScratch};

use frame_rows::{launched_lanes, second_rows};
use lane_rows::{GoodRows, Row};
use packed_sim::{PackedGood, Scratch};
use scan_model::{NoMemory, Parts, Stuck};
use std::alloc::Global;

/// The fault-free values of all patterns in the first frame and, with what a change spreads along, in the second.
#[derive(Drop)]
pub struct FrameGood {
    pub(crate) first: GoodRows,
    pub(crate) second: PackedGood,
}

/// What a change of the second frame needs while it spreads.
#[derive(Drop)]
pub struct FrameScratch {
    pub(crate) scratch: Scratch,
}

impl FrameGood {
    /// The values of both frames. The only error is want of memory.
    pub fn make(alloc: Global, parts: &Parts) -> Result<FrameGood, NoMemory>
        ensures { IfOk result (IsFrameGood parts.now) }
    {
        let first = GoodRows::make(alloc, parts)?;
        let rows = second_rows(alloc, parts, &first)?;
        let second = PackedGood::of_rows(alloc, parts, rows)?;
        Ok(FrameGood { first, second })
    }

    /// The lanes of a block in which a net makes a transition. Of lanes whose patterns don't capture it says nothing.
    pub(crate) fn launched(&self, parts: &Parts, block: usize, net: u32, value: Stuck) -> Row
        requires good { IsFrameGood parts.now self.now }
        requires block { block < length self.now.first }
        requires net { net < length parts.now.netlist.nets }
        ensures { (j : ℕ) → j < 512 → captures parts.now (pattern_of block j) ≡ true → lane result j ≡ net_changes parts.now value (pattern_of block j) net }
    {
        let first = &self.first.blocks()[block];
        let second = &self.second.blocks()[block];
        launched_lanes(parts, first, second, net, value)
    }
}

impl FrameScratch {
    /// Room for a change of each net. The only error is want of memory.
    pub fn make(alloc: Global, good: &FrameGood) -> Result<FrameScratch, NoMemory>
        ensures { IfOk result (IsFrameScratch good.now) }
    {
        Ok(FrameScratch {
            scratch: Scratch::make(alloc, &good.second)?,
        })
    }
}
