//! The explained patterns of a view of a die.
ghost use Rattle.std.specs.Prelude.{◌≡◌, ◌^◌, ◌<◌, ◌≤◌, All, Contains, length, map, IfOk};
ghost use Rattle.scan_model.specs.MatchCounts.{candidates};
ghost use Rattle.diagnosis.specs.Designs.{facts_of};
ghost use Rattle.slat_view.specs.Slat.{failing_patterns, slat_rows, fitting_places};
ghost use Rattle.slat_view.specs.WholeCounts.{IsWholeOf, kept_fits};

use crate::counts::whole_of;
use crate::die_suspects::DieSuspects;
use crate::die_trials::DieTrials;
use crate::slat::Slat;
use crate::whole::WholeSlat;
use diagnosis::{DieView, joined_of};
use pattern_fits::places_with;
use scan_model::{NoMemory, Rows};
use std::alloc::Global;
use std::thread::Threads;

/// The counts of a die, with the faults that fit each pattern, where these are no more than 2^18 in all blocks of 512 patterns.
/// Only faults that can explain the first and the last Failing bit of some pattern are tried, a block at a time, those of the
/// logic beside those of the chains: one flip serves all faults of a net.
pub fn whole_slat<R: Threads + Sync>(
    rt: &R,
    alloc: Global,
    view: &DieView,
) -> Result<WholeSlat, NoMemory>
    ensures whole { IfOk result (IsWholeOf view.now.design.test (facts_of view.now.logs)) }
    ensures few { IfOk result (λ whole. kept_fits whole ≤ 2 ^ 18) }
{
    let design = view.design();
    let parts = design.parts();
    let expected = design.expected();
    let joined = joined_of(alloc, parts, view.logs().as_slice())?;
    let rows = design.rows(alloc)?;
    let die = DieSuspects::make(alloc, parts, rows.good(), expected, joined)?;
    let trials = DieTrials {
        parts,
        expected,
        die: &die,
    };
    whole_of(rt, alloc, &trials)
}

/// How many patterns of a die are failing, and which of them single faults explain, each with the number of faults that fit.
pub fn slat_counts<R: Threads + Sync>(
    rt: &R,
    alloc: Global,
    view: &DieView,
) -> Result<Slat, NoMemory>
    ensures failing { IfOk result (λ slat. slat.failing ≡ failing_patterns view.now.design.test (facts_of view.now.logs)) }
    ensures rows { IfOk result (λ slat. slat.rows ≡ slat_rows view.now.design.test (facts_of view.now.logs)) }
{
    let WholeSlat { slat, .. } = whole_slat(rt, alloc, view)?;
    Ok(slat)
}

/// The places of the faults that fit a pattern, rising: none where it isn't failing. Each is a candidate of the report over the
/// same logs. That costs the block of 512 patterns that has it.
pub fn slat_places<R: Threads + Sync>(
    rt: &R,
    alloc: Global,
    view: &DieView,
    pattern: u32,
) -> Result<Rows<u32>, NoMemory>
    requires { pattern < length view.now.design.test.patterns }
    ensures places { IfOk result (λ places. places ≡ fitting_places view.now.design.test (facts_of view.now.logs) pattern) }
    ensures candidates { IfOk result (All (Contains (map (λ row. row.place) (candidates view.now.design.test (facts_of view.now.logs))))) }
{
    let design = view.design();
    let parts = design.parts();
    let _ = parts.patterns();
    let expected = design.expected();
    let joined = joined_of(alloc, parts, view.logs().as_slice())?;
    let rows = design.rows(alloc)?;
    let die = DieSuspects::make(alloc, parts, rows.good(), expected, joined)?;
    let trials = DieTrials {
        parts,
        expected,
        die: &die,
    };
    let tried = trials.block(rt, alloc, pattern / 512)?;
    places_with(alloc, tried.fits.as_slice(), pattern % 512)
}
