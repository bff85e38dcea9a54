//! Shares of a block that stand in several lists.
ghost use Rattle.std.specs.Prelude.{ℕ, ◌≡◌, ◌+◌, ◌^◌, ◌<◌, length, All};
ghost use Rattle.std.specs.List.{flat_map};
ghost use Rattle.match_counts.specs.declared.block_count.BlockCount.{BlockCount};
ghost use Rattle.match_counts.specs.Totals.{AreCounts, IsAdded, AreTotalsAtMost};

use crate::block_count::BlockCount;
use crate::totals::{Total, add_more};
use fault_effects::Share;
use scan_model::Rows;

/// Adds the shares of one block, as `add_shares` does, where they stand. A share that comes twice counts once, whether in one
/// list or in two.
pub(crate) fn add_share_lists(
    totals: &mut [Total],
    added: &mut [bool],
    lists: &[Rows<Share<BlockCount>>],
)
    requires shares { All (λ s. s.suspect < length totals.old) (flat_map (λ shares. shares) lists.now) }
    requires len { length added.old ≡ length totals.old }
    requires at_most { AreTotalsAtMost (2 ^ 63) totals.old }
    ensures sums { (truth : ℕ → BlockCount) → AreCounts truth (flat_map (λ shares. shares) lists.now) → IsAdded truth (flat_map (λ shares. shares) lists.now) totals.old totals.new }
    ensures at_most { (n : ℕ) → AreTotalsAtMost n totals.old → AreTotalsAtMost (n + 2 ^ 32) totals.new }
{
    added.fill(false);
    for shares in lists {
        add_more(totals, added, shares.as_slice());
    }
}
