//! Counts that are kept with what they were counted from.
ghost use Rattle.std.specs.Prelude.{◌≡◌, ◌<◌, All, Contains, length, map, IfOk};
ghost use Rattle.scan_model.specs.MatchCounts.{candidates};
ghost use Rattle.diagnosis.specs.Designs.{facts_of};
ghost use Rattle.slat_view.specs.Slat.{fitting_places};
ghost use Rattle.slat_view.specs.WholeCounts.{places_at, IsWholeOf};

use crate::slat::Slat;
use crate::views::slat_places;
use diagnosis::DieView;
use pattern_fits::{Fit, places_with};
use scan_model::{NoMemory, Rows};
use std::alloc::Global;
use std::thread::Threads;

/// The counts of a die, and the fits of each block of 512 patterns, where these aren't too many to be kept.
#[derive(Drop)]
pub struct WholeSlat {
    pub slat: Slat,
    pub(crate) blocks: Option<Rows<Rows<Fit>>>,
}

/// The places of the faults that fit a pattern, by the fits of each block.
fn kept_places(alloc: Global, blocks: &[Rows<Fit>], pattern: u32) -> Result<Rows<u32>, NoMemory>
    ensures { IfOk result (λ places. places ≡ places_at blocks.now pattern) }
{
    match blocks.get((pattern / 512) as usize) {
        Some(fits) => places_with(alloc, fits.as_slice(), pattern % 512),
        None => Ok(Rows::new(alloc)),
    }
}

impl WholeSlat {
    /// What `slat_places` gives for the die of these counts. Where the fits are kept, no fault is tried.
    pub fn places<R: Threads + Sync>(
        &self,
        rt: &R,
        alloc: Global,
        view: &DieView,
        pattern: u32,
    ) -> Result<Rows<u32>, NoMemory>
        requires whole { IsWholeOf view.now.design.test (facts_of view.now.logs) self.now }
        requires pattern { pattern < length view.now.design.test.patterns }
        ensures places { IfOk result (λ places. places ≡ fitting_places view.now.design.test (facts_of view.now.logs) pattern) }
        ensures candidates { IfOk result (All (Contains (map (λ row. row.place) (candidates view.now.design.test (facts_of view.now.logs))))) }
    {
        match &self.blocks {
            Some(blocks) => kept_places(alloc, blocks.as_slice(), pattern),
            None => slat_places(rt, alloc, view, pattern),
        }
    }
}
