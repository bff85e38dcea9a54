//! For each place how many lanes of each side a fault predicts to fail, with their sums.
ghost use Rattle.std.specs.Prelude.{◌≡◌, ◌<◌, ◌≤◌, length, replicate, sum_by, slice_set, IfOk};
ghost use Rattle.log_rows.specs.declared.side.Side.{Side};
ghost use Rattle.match_counts.specs.Flips.{count_on};
ghost use Rattle.match_counts.specs.PlaceCounts.{no_count, IsSmall};

use crate::block_count::BlockCount;
use scan_model::NoMemory;
use std::alloc::Global;
use std::marker::Model;

/// A count for each place of a block, with their sum.
#[derive(Drop)]
pub struct PlaceCounts {
    places: Vec<BlockCount>,
    sum: BlockCount,
}

impl Model for PlaceCounts {
    ghost use Rattle.std.specs.Prelude.{List};
    ghost use Rattle.match_counts.specs.declared.block_count.BlockCount.{BlockCount};

    ghost Value = { List BlockCount };

    ghost use Rattle.match_counts.specs.PlaceCounts.{AreSummed};

    ghost view = { λ n. n.places.items };

    ghost invariant = { λ n. AreSummed n.places.items n.sum };
}

impl PlaceCounts {
    /// So many places, each with a count of zero. The only error is want of memory.
    pub fn make(alloc: Global, len: usize) -> Result<PlaceCounts, NoMemory>
        requires { len ≤ 131072 }
        ensures { IfOk result (λ counts. counts ≡ replicate len no_count) }
    {
        let none = BlockCount { tfsf: 0, tpsf: 0 };
        let places = vec![in alloc; none; len]?;
        Ok(PlaceCounts { places, sum: none })
    }

    /// Another count at a place.
    pub fn put(&mut self, place: usize, count: BlockCount)
        requires within { place < length self.old }
        requires small { IsSmall count }
        ensures { self.new ≡ slice_set self.old place count }
    {
        let old = self.places[place];
        self.places[place] = count;
        self.sum = BlockCount {
            tfsf: self.sum.tfsf - old.tfsf + count.tfsf,
            tpsf: self.sum.tpsf - old.tpsf + count.tpsf,
        };
    }

    /// The sum over all places.
    pub fn sum(&self) -> BlockCount
        ensures { (side : Side) → count_on side result ≡ sum_by (count_on side) self.now }
    {
        self.sum
    }
}
