//! What is counted in the blocks so far.
ghost use Rattle.std.specs.Prelude.{◌≡◌, ◌+◌, ◌^◌, ◌<◌, ◌≤◌, List, All, length, IfOk};
ghost use Rattle.std.specs.List.{flat_map};
ghost use Rattle.fault_effects.specs.declared.suspect.Suspect.{Suspect};
ghost use Rattle.fault_effects.specs.FaultModel.{FaultModel};
ghost use Rattle.match_counts.specs.Sides.{Classes, AreSideRows};
ghost use Rattle.match_counts.specs.Totals.{AreBlockShares, AreCounted};

use crate::block_count::BlockCount;
use crate::lane_tally::failing_count;
use crate::share_lists::add_share_lists;
use crate::totals::{Total, add_shares};
use fault_effects::Share;
use log_rows::PointRow;
use scan_model::{NoMemory, Rows};
use std::alloc::Global;
use std::marker::Model;

/// What each suspect explains and mispredicts in the blocks so far, and how many Failing bits they have.
#[derive(Drop)]
pub struct BlockTotals {
    blocks: u32,
    failing: u64,
    totals: Vec<Total>,
    // Room to mark the suspects whose share has been added, while a block is added.
    added: Vec<bool>,
}

impl Model for BlockTotals {
    ghost use Rattle.match_counts.specs.Totals.{TotalsSoFar, AreBounded};

    ghost Value = { TotalsSoFar };

    ghost view = { λ n. record { blocks = n.blocks; failing = n.failing; totals = n.totals.items } };

    ghost invariant = { λ n. AreBounded n.blocks n.failing n.totals.items n.added.items };
}

impl BlockTotals {
    /// Totals of so many suspects over no block. The only error is want of memory.
    pub fn make(alloc: Global, suspects: usize) -> Result<BlockTotals, NoMemory>
        ensures blocks { IfOk result (λ totals. totals.blocks ≡ 0) }
        ensures len { IfOk result (λ totals. length totals.totals ≡ suspects) }
        ensures none { IfOk result (λ totals. (m : FaultModel) (on : Classes) (list : List Suspect) → AreCounted m on list totals) }
    {
        let totals = vec![in alloc; Total { tfsf: 0, tpsf: 0 }; suspects]?;
        let added = vec![in alloc; false; suspects]?;
        Ok(BlockTotals {
            blocks: 0,
            failing: 0,
            totals,
            added,
        })
    }

    /// Adds one block, by the rows of its places and the shares of the suspects in it. A share that comes twice counts once.
    pub fn add_block(&mut self, rows: &[PointRow], shares: &[Share<BlockCount>])
        requires rows { length rows.now ≤ 2 ^ 22 }
        requires shares { All (λ s. s.suspect < length self.old.totals) shares.now }
        requires blocks { self.old.blocks < 2 ^ 31 }
        ensures blocks { self.new.blocks ≡ self.old.blocks + 1 }
        ensures len { length self.new.totals ≡ length self.old.totals }
        ensures counted { (m : FaultModel) (on : Classes) (suspects : List Suspect) → AreSideRows m on self.old.blocks rows.now → AreBlockShares m self.old.blocks rows.now suspects shares.now
            → AreCounted m on suspects self.old → AreCounted m on suspects self.new }
    {
        add_shares(&mut self.totals, &mut self.added, shares);
        self.failing += u64::from(failing_count(rows));
        self.blocks += 1;
    }

    /// Adds one block, by the rows of its places and the shares of the suspects in it, which stand in several lists. A share that
    /// comes twice, in one list or in two, counts once.
    pub fn add_pieces(&mut self, rows: &[PointRow], pieces: &[Rows<Share<BlockCount>>])
        requires rows { length rows.now ≤ 2 ^ 22 }
        requires shares { All (λ s. s.suspect < length self.old.totals) (flat_map (λ shares. shares) pieces.now) }
        requires blocks { self.old.blocks < 2 ^ 31 }
        ensures blocks { self.new.blocks ≡ self.old.blocks + 1 }
        ensures len { length self.new.totals ≡ length self.old.totals }
        ensures counted { (m : FaultModel) (on : Classes) (suspects : List Suspect) → AreSideRows m on self.old.blocks rows.now → AreBlockShares m self.old.blocks rows.now suspects (flat_map (λ shares. shares) pieces.now)
            → AreCounted m on suspects self.old → AreCounted m on suspects self.new }
    {
        add_share_lists(&mut self.totals, &mut self.added, pieces);
        self.failing += u64::from(failing_count(rows));
        self.blocks += 1;
    }

    /// How many Failing bits the blocks have.
    pub fn failing(&self) -> u64
        ensures { result ≡ self.now.failing }
    {
        self.failing
    }

    /// A total for each suspect.
    pub fn totals(&self) -> &[Total]
        ensures { result.now ≡ self.now.totals }
    {
        &self.totals
    }
}
