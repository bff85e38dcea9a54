//! The report of a die, and its digest.
ghost use Rattle.std.specs.Prelude.{◌≡◌, ◌<◌, ℕ, List, length, IfOk};
ghost use Rattle.sha2.specs.Sha256.{sha256};
ghost use Rattle.scan_model.specs.Lines.{pieces};
ghost use Rattle.scan_model.specs.DieReport.{die_report};
ghost use Rattle.scan_model.specs.MatchCounts.{candidates};
ghost use Rattle.scan_model.specs.Ranking.{ranked};
ghost use Rattle.scan_model.specs.ReportText as text_of;
ghost use Rattle.diagnosis.specs.Designs.{view_lines, view_report, texts_of, facts_of, HaveSameTexts};

use crate::diagnosed::{Diagnosis, Subject, diagnosis_of};
use crate::view::DieView;
use diag_report::Report;
use scan_model::{Digest, NoMemory};
use sha2::Sha256;
use std::alloc::Global;
use std::marker::Model;
use std::thread::Threads;

/// The report over the logs of a die, with the candidates that it lists.
pub fn make_diagnosis<R: Threads + Sync>(
    rt: &R,
    alloc: Global,
    view: &DieView,
) -> Result<Diagnosis, NoMemory>
    ensures lines { IfOk result (λ d. d.report ≡ view_lines view.now) }
    ensures report { IfOk result (λ d. text_of.concatenated d.report ≡ view_report view.now) }
    ensures cut { IfOk result (λ d. pieces (view_report view.now) ≡ d.report) }
    ensures candidates { IfOk result (λ d. d.candidates ≡ ranked (candidates view.now.design.test (facts_of view.now.logs))) }
{
    let design = view.design();
    let parts = design.parts();
    let rows = design.rows(alloc)?;
    let subject = Subject {
        design: design.name(),
        die: view.die(),
        parts,
        good: rows.good(),
        expected: design.expected(),
        logs: view.logs().as_slice(),
    };
    diagnosis_of(rt, alloc, &subject)
}

/// The report over the logs of a die. Its lines are its text cut behind each LF. The order of the logs doesn't matter, nor does
/// it that a text is given again.
pub fn make_report<R: Threads + Sync>(
    rt: &R,
    alloc: Global,
    view: &DieView,
) -> Result<Report, NoMemory>
    ensures lines { IfOk result (λ report. report ≡ view_lines view.now) }
    ensures report { IfOk result (λ report. text_of.concatenated report ≡ view_report view.now) }
    ensures cut { IfOk result (λ report. pieces (view_report view.now) ≡ report) }
    ensures any_order { (others : List (List ℕ)) → HaveSameTexts (texts_of view.now.logs) others → IfOk result (λ report. text_of.concatenated report ≡ die_report view.now.design.test view.now.design.name view.now.die others) }
{
    let diagnosis = make_diagnosis(rt, alloc, view)?;
    Ok(diagnosis.report)
}

/// A die with the SHA-256 digest (FIPS 180-4) of its report's bytes, at the revision that is its number of logs.
#[derive(Drop)]
pub struct CheckedView {
    view: DieView,
    digest: Digest,
}

impl Model for CheckedView {
    ghost use Rattle.std.specs.Prelude.{◌≡◌, ◌<◌, length};
    ghost use Rattle.sha2.specs.Sha256.{sha256};
    ghost use Rattle.diagnosis.specs.Designs.{ViewFacts, view_report};

    ghost Value = { ViewFacts };

    ghost view = { λ c. c.view };

    ghost invariant = { λ c. (c.digest ≡ sha256 (view_report c.view)) × (0 < length c.view.logs) };
}

impl CheckedView {
    /// A die with the digest of its report, which was made before.
    pub fn by_digest(view: DieView, digest: Digest) -> CheckedView
        requires some { 0 < length view.logs }
        requires digest { digest ≡ sha256 (view_report view) }
        ensures { result ≡ view }
    {
        CheckedView { view, digest }
    }

    /// The digest of the report.
    pub fn digest(&self) -> &Digest
        ensures value { result.now ≡ sha256 (view_report self.now) }
        ensures some { 0 < length self.now.logs }
    {
        &self.digest
    }

    /// The die with the logs that were checked.
    pub fn view(&self) -> &DieView
        ensures { result.now ≡ self.now }
    {
        &self.view
    }
}

fn digest_of(report: &Report) -> Digest
    ensures { result ≡ sha256 (text_of.concatenated report.now) }
{
    Digest::from_bytes(<Sha256 as sha2::Digest>::digest(report.bytes()))
}

/// Makes the report of a die that has a log, for its digest.
pub fn check_report<R: Threads + Sync>(
    rt: &R,
    alloc: Global,
    view: &DieView,
) -> Result<CheckedView, NoMemory>
    requires { 0 < length view.now.logs }
    ensures { IfOk result (λ checked. checked ≡ view.now) }
{
    let report = make_report(rt, alloc, view)?;
    let digest = digest_of(&report);
    let view = view.copy(alloc)?;
    Ok(CheckedView::by_digest(view, digest))
}
