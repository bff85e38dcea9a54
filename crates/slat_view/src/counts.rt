//! The explained patterns of a die, pattern by pattern.
ghost use Rattle.std.specs.Prelude.{◌≡◌, ◌+◌, ◌*◌, ◌^◌, ◌<◌, ◌≤◌, ◌++◌, ◌∷◌, [], ℕ, List, cond, min, nat_lt, length, IfOk, OnOk};
ghost use Rattle.scan_model.specs.declared.logs.LogFacts.{LogFacts};
ghost use Rattle.log_join.specs.Joining.{StandsFor};
ghost use Rattle.fault_effects.specs.Owners.{places_of};
ghost use Rattle.slat_view.specs.Tests.{AreTrials, IsBlockOf, IsSlatUpTo, HaveAllFits};
ghost use Rattle.slat_view.specs.WholeCounts.{IsWholeOf, kept_fits};

use crate::die_trials::{BlockFits, DieTrials};
use crate::kept_fits::{MOST_FITS, with_block};
use crate::slat::{Slat, SlatCount};
use crate::whole::WholeSlat;
use fault_universe::universe_len;
use pattern_fits::count_with;
use scan_model::{NoMemory, Parts, Rows};
use std::alloc::Global;
use std::thread::Threads;

/// Counts one more pattern: whether it is failing, and how many faults fit it.
fn add_pattern(slat: &mut Slat, pattern: u32, fails: bool, faults: u32) -> Result<(), NoMemory>
    requires few { slat.old.failing ≤ pattern }
    requires pattern { pattern < 2 ^ 31 }
    ensures failing { OnOk result (slat.new.failing ≡ slat.old.failing + cond fails 1 0) }
    ensures rows { OnOk result (slat.new.rows ≡ slat.old.rows ++ cond (nat_lt 0 faults) (record { pattern = pattern; faults = faults } ∷ []) []) }
{
    if fails {
        slat.failing += 1;
    }
    if faults > 0 {
        slat.rows.push(SlatCount { pattern, faults })?;
    }
    Ok(())
}

/// Counts the patterns of a block up to an end.
fn add_block(
    slat: &mut Slat,
    parts: &Parts,
    block: u32,
    end: u32,
    tried: &BlockFits,
) -> Result<(), NoMemory>
    requires block { block < 2 ^ 16 }
    requires start { 512 * block ≤ end }
    requires end { end ≤ 512 * block + 512 }
    requires failing { slat.old.failing ≤ 512 * block }
    ensures few { OnOk result (slat.new.failing ≤ end) }
    ensures counted { (logs : List LogFacts) (places : List ℕ) → end ≤ length parts.now.patterns → HaveAllFits parts.now logs places → IsBlockOf parts.now logs block places tried.now → IsSlatUpTo parts.now logs (512 * block) slat.old → OnOk result (IsSlatUpTo parts.now logs end slat.new) }
{
    // No more faults fit than there are.
    let most = universe_len(parts) as usize;
    for pattern in 512 * block..end {
        let lane = pattern % 512;
        let fails = tried.failing.has(lane as usize);
        let count = count_with(tried.fits.as_slice(), lane);
        let faults = count.min(most);
        add_pattern(slat, pattern, fails, faults as u32)?;
    }
    Ok(())
}

/// The counts of all patterns, with the fits of each block.
pub(crate) fn whole_of<R: Threads + Sync>(
    rt: &R,
    alloc: Global,
    trials: &DieTrials<'_>,
) -> Result<WholeSlat, NoMemory>
    requires trials { AreTrials trials.now }
    ensures whole { (logs : List LogFacts) → StandsFor logs trials.now.die.now.joined → HaveAllFits trials.now.parts.now logs (places_of trials.now.die.now.suspects) → IfOk result (IsWholeOf trials.now.parts.now logs) }
    ensures few { IfOk result (λ whole. kept_fits whole ≤ MOST_FITS) }
{
    let patterns = trials.parts.patterns().len() as u32;
    let mut slat = Slat {
        failing: 0,
        rows: Rows::new(alloc),
    };
    let mut blocks = Some(Rows::new(alloc));
    let mut count: usize = 0;
    for block in 0..patterns.div_ceil(512) {
        let tried = trials.block(rt, alloc, block)?;
        let end = (512 * block + 512).min(patterns);
        add_block(&mut slat, trials.parts, block, end, &tried)?;
        let BlockFits { fits, .. } = tried;
        count = count.saturating_add(fits.len());
        blocks = with_block(blocks, fits, count);
    }
    Ok(WholeSlat { slat, blocks })
}
