//! Kept reports.
ghost use Rattle.std.specs.Prelude.{◌≡◌, ◌≤◌, List, IfOk};
ghost use Rattle.std.specs.Arc.{arc_value};
ghost use Rattle.desk_outside.specs.declared.deed.Deed.{Deed};
ghost use Rattle.diagnosis.specs.Designs.{view_lines, facts_of};
ghost use Rattle.slat_view.specs.WholeCounts.{IsWholeOf};
ghost use Rattle.book.specs.Changes.{IsViewIn};
ghost use Rattle.report_cache.specs.Truth.{IsTrueFor, IsReportIn, fresh_cache, report_for};

use crate::findings::{Findings, share};
use crate::key::ReportKey;
use diagnosis::{DieView, WholeReport, make_report};
use lru::LruCache;
use scan_model::NoMemory;
use slat_view::{WholeSlat, whole_slat};
use std::alloc::Global;
use std::marker::Model;
use std::num::NonZeroUsize;
use std::sync::Arc;
use std::thread::Threads;

/// Whole reports and explained patterns, kept for a design, a die and a revision; those that were used longest ago go first.
/// Contracts see what is kept, and for how many.
#[derive(Drop)]
pub struct ReportCache {
    kept: LruCache<ReportKey, Findings>,
    hits: u64,
}

impl Model for ReportCache {
    ghost use Rattle.std.specs.Prelude.{map};
    ghost use Rattle.report_cache.specs.Truth.{CacheFacts, kept_report};

    ghost Value = { CacheFacts };

    ghost view = { λ c. record { entries = c.kept.cap; kept = map kept_report c.kept.entries } };
}

// The report of a die, made anew.
fn make_whole<R: Threads + Sync>(
    rt: &R,
    alloc: Global,
    view: &DieView,
) -> Result<Arc<WholeReport>, NoMemory>
    ensures { IfOk result (λ report. arc_value report ≡ view_lines view.now) }
{
    let report = WholeReport::of(make_report(rt, alloc, view)?);
    match Arc::new(alloc, report) {
        Ok(report) => Ok(report),
        Err(_) => Err(NoMemory),
    }
}

// The explained patterns of a die, told anew.
fn make_slat<R: Threads + Sync>(
    rt: &R,
    alloc: Global,
    view: &DieView,
) -> Result<Arc<WholeSlat>, NoMemory>
    ensures { IfOk result (λ slat. IsWholeOf view.now.design.test (facts_of view.now.logs) (arc_value slat)) }
{
    let slat = whole_slat(rt, alloc, view)?;
    match Arc::new(alloc, slat) {
        Ok(slat) => Ok(slat),
        Err(_) => Err(NoMemory),
    }
}

impl ReportCache {
    /// A cache for so many reports, one at least. It keeps none, and so is true for each list of deeds.
    pub fn make(alloc: Global, entries: usize) -> Result<ReportCache, NoMemory>
        requires { 1 ≤ entries }
        ensures empty { IfOk result (λ cache. cache ≡ fresh_cache entries) }
        ensures fresh { IfOk result (λ cache. (deeds : List Deed) → IsTrueFor cache deeds) }
    {
        let Some(entries) = NonZeroUsize::new(entries) else {
            unreachable!()
        };
        let kept = LruCache::new(alloc, entries)?;
        Ok(ReportCache { kept, hits: 0 })
    }

    /// How many look-ups found what they asked for. The count stays at 2^64 - 1 once it is there.
    pub fn hits(&self) -> u64 {
        self.hits
    }

    // Counts a look-up that did.
    fn count_hit(&mut self)
        ensures { self.new ≡ self.old }
    {
        self.hits = self.hits.saturating_add(1);
    }

    // What is kept for a key, which then was used last. What can't be shared for want of memory isn't found.
    fn find(&mut self, key: &ReportKey) -> Findings
        ensures entries { self.new.entries ≡ self.old.entries }
        ensures stays { (deeds : List Deed) → IsTrueFor self.old deeds → IsTrueFor self.new deeds }
        ensures found { (deeds : List Deed) → IsTrueFor self.old deeds → IsReportIn deeds (report_for key.now result) }
    {
        let Some(kept) = self.kept.peek(key) else {
            return Findings::none();
        };
        let found = kept.shared();
        self.kept.promote(key);
        found
    }

    // Keeps findings for a key, in place of those that it had, if there is memory for them.
    fn keep(&mut self, key: ReportKey, findings: Findings)
        ensures entries { self.new.entries ≡ self.old.entries }
        ensures stays { (deeds : List Deed) → IsTrueFor self.old deeds → IsReportIn deeds (report_for key findings) → IsTrueFor self.new deeds }
    {
        let _kept = self.kept.put(key, findings);
    }

    /// The report of a die, which is made where it isn't kept. Where memory is too short to keep it, it is answered all the
    /// same.
    pub fn report<R: Threads + Sync>(
        &mut self,
        rt: &R,
        alloc: Global,
        view: &DieView,
    ) -> Result<Arc<WholeReport>, NoMemory>
        ensures entries { self.new.entries ≡ self.old.entries }
        ensures stays { (deeds : List Deed) → IsViewIn deeds view.now → IsTrueFor self.old deeds → IsTrueFor self.new deeds }
        ensures made { (deeds : List Deed) → IsViewIn deeds view.now → IsTrueFor self.old deeds → IfOk result (λ report. arc_value report ≡ view_lines view.now) }
    {
        // The view says of itself that its design stands for its text.
        let _revision = view.revision();
        let Ok(key) = ReportKey::of(alloc, view) else {
            return make_whole(rt, alloc, view);
        };
        let Findings { report, slat } = self.find(&key);
        if let Some(report) = report {
            self.count_hit();
            return Ok(report);
        }
        let report = make_whole(rt, alloc, view)?;
        let findings = Findings {
            report: share(&report),
            slat,
        };
        self.keep(key, findings);
        Ok(report)
    }

    /// The explained patterns of a die with their counts, in the same way.
    pub fn slat<R: Threads + Sync>(
        &mut self,
        rt: &R,
        alloc: Global,
        view: &DieView,
    ) -> Result<Arc<WholeSlat>, NoMemory>
        ensures entries { self.new.entries ≡ self.old.entries }
        ensures stays { (deeds : List Deed) → IsViewIn deeds view.now → IsTrueFor self.old deeds → IsTrueFor self.new deeds }
        ensures made { (deeds : List Deed) → IsViewIn deeds view.now → IsTrueFor self.old deeds → IfOk result (λ slat. IsWholeOf view.now.design.test (facts_of view.now.logs) (arc_value slat)) }
    {
        let _revision = view.revision();
        let Ok(key) = ReportKey::of(alloc, view) else {
            return make_slat(rt, alloc, view);
        };
        let Findings { report, slat } = self.find(&key);
        if let Some(slat) = slat {
            self.count_hit();
            return Ok(slat);
        }
        let slat = make_slat(rt, alloc, view)?;
        let findings = Findings {
            report,
            slat: share(&slat),
        };
        self.keep(key, findings);
        Ok(slat)
    }
}
