//! Sums of shares by suspect over the blocks.
ghost use Rattle.std.specs.Prelude.{◌≡◌, ℕ, ◌+◌, ◌^◌, ◌<◌, ◌∷◌, [], length, All};
ghost use Rattle.match_counts.specs.declared.block_count.BlockCount.{BlockCount};
ghost use Rattle.match_counts.specs.Totals.{AreCounts};
ghost use Rattle.match_counts.specs.Totals as sums;

use crate::block_count::BlockCount;
use fault_effects::Share;

/// What a fault explains and mispredicts in the blocks so far.
#[derive(Clone, Copy)]
pub struct Total {
    pub tfsf: u64,
    pub tpsf: u64,
}

/// A total with one block more.
fn plus(total: Total, count: BlockCount) -> Total
    requires { sums.IsAtMost (2 ^ 63 + 2 ^ 32) total }
    ensures sum { result ≡ sums.plus total count }
    ensures at_most { (n : ℕ) → sums.IsAtMost n total → sums.IsAtMost (n + 2 ^ 32) result }
{
    Total {
        tfsf: total.tfsf + u64::from(count.tfsf),
        tpsf: total.tpsf + u64::from(count.tpsf),
    }
}

/// Adds a share, unless its suspect is marked, and marks it.
fn add_share(totals: &mut [Total], added: &mut [bool], share: Share<BlockCount>)
    requires share { share.suspect < length totals.old }
    requires len { length added.old ≡ length totals.old }
    requires room { sums.HaveRoom added.old totals.old }
    ensures { sums.AreAddedOnce (share ∷ []) added.old totals.old added.new totals.new }
{
    let suspect = share.suspect as usize;
    if !added[suspect] {
        totals[suspect] = plus(totals[suspect], share.part);
        added[suspect] = true;
    }
}

/// Adds shares, but those of marked suspects, and marks theirs.
pub(crate) fn add_more(totals: &mut [Total], added: &mut [bool], shares: &[Share<BlockCount>])
    requires shares { All (λ s. s.suspect < length totals.old) shares.now }
    requires len { length added.old ≡ length totals.old }
    requires room { sums.HaveRoom added.old totals.old }
    ensures { sums.AreAddedOnce shares.now added.old totals.old added.new totals.new }
{
    for share in shares {
        add_share(totals, added, *share);
    }
}

/// Adds the shares of one block. `added` is room to mark whose share has been added: a share that comes twice counts once.
pub(crate) fn add_shares(totals: &mut [Total], added: &mut [bool], shares: &[Share<BlockCount>])
    requires shares { All (λ s. s.suspect < length totals.old) shares.now }
    requires len { length added.old ≡ length totals.old }
    requires at_most { sums.AreTotalsAtMost (2 ^ 63) totals.old }
    ensures sums { (truth : ℕ → BlockCount) → AreCounts truth shares.now → sums.IsAdded truth shares.now totals.old totals.new }
    ensures at_most { (n : ℕ) → sums.AreTotalsAtMost n totals.old → sums.AreTotalsAtMost (n + 2 ^ 32) totals.new }
{
    added.fill(false);
    add_more(totals, added, shares);
}
