//! The diagnosis of a die from its logs.
ghost use Rattle.std.specs.Prelude.{◌≡◌, ◌<◌, All, length, map, IfOk};
ghost use Rattle.std.specs.Arc.{arc_value};
ghost use Rattle.scan_model.specs.ScanTest.{points_of};
ghost use Rattle.scan_model.specs.Universe.{universe};
ghost use Rattle.scan_model.specs.MatchCounts.{candidates};
ghost use Rattle.scan_model.specs.Ranking.{ranked};
ghost use Rattle.log_join.specs.Joining.{StandsFor, IsJoinedOf};
ghost use Rattle.diagnosis.specs.Designs.{StandsOver, facts_of};
ghost use Rattle.diagnosis.specs.Cases.{case_lines};
ghost use Rattle.diagnosis.specs.Subjects.{IsSubject, AreItsLogs, IsTallyOver, subject_case, subject_candidates};

use crate::log::ReadLog;
use diag_report::{Head, Report, Tally, make_text, rank_in_threads, tally_bits};
use log_join::Joined;
use match_counts::counts;
use packed_sim::PackedGood;
use rayon::current_num_threads;
use scan_model::{Expected, Name, NoMemory, Parts, Rows, Scored};
use std::alloc::Global;
use std::sync::Arc;
use std::thread::Threads;
use work_crew::join_apart;

/// How few bits aren't worth a thread.
const LEAST_BITS: usize = 262_144;

/// The report of a die, and the candidates that it lists, best first.
#[derive(Drop)]
pub struct Diagnosis {
    pub report: Report,
    pub candidates: Rows<Scored>,
}

/// What is diagnosed: a die of a design with different logs, the parts of the design, and their fault-free rows and responses.
#[derive(Clone, Copy)]
pub struct Subject<'a> {
    pub design: &'a [u8],
    pub die: &'a [u8],
    pub parts: &'a Parts,
    pub good: &'a PackedGood,
    pub expected: &'a Expected,
    pub logs: &'a [Arc<ReadLog>],
}

/// The logs of a die, joined.
pub fn joined_of(alloc: Global, parts: &Parts, logs: &[Arc<ReadLog>]) -> Result<Joined, NoMemory>
    requires stand { All (StandsOver parts.now) (map (λ log. arc_value log) logs.now) }
    ensures size { IfOk result (IsJoinedOf (length parts.now.patterns) (length (points_of parts.now))) }
    ensures stands { IfOk result (StandsFor (facts_of (map (λ log. arc_value log) logs.now))) }
{
    let patterns = parts.patterns().len() as u32;
    let points = parts.points().len() as u32;
    let mut joined = Joined::make(alloc, patterns, points)?;
    for log in logs {
        joined.add(log.facts());
    }
    Ok(joined)
}

// The head of a report over so many logs.
fn head_of(alloc: Global, design: &[u8], die: &[u8], logs: u64) -> Result<Head, NoMemory>
    ensures design { IfOk result (λ head. head.design ≡ design.now) }
    ensures die { IfOk result (λ head. head.die ≡ die.now) }
    ensures logs { IfOk result (λ head. head.logs ≡ logs) }
{
    let design = Name::copy_of(alloc, design)?;
    let die = Name::copy_of(alloc, die)?;
    Ok(Head { design, die, logs })
}

/// Whether the joined logs have so many bits that their division into classes is worth a thread, and there is more than one
/// processor.
fn wants_threads<R: Threads>(rt: &R, joined: &Joined) -> bool {
    let bits = (joined.patterns() as usize).saturating_mul(joined.points() as usize);
    bits >= LEAST_BITS && current_num_threads(rt) > 1
}

// The candidates of a die with their counts.
fn counts_of<R: Threads + Sync>(
    rt: &R,
    alloc: Global,
    subject: &Subject<'_>,
    joined: &Joined,
) -> Result<Rows<Scored>, NoMemory>
    requires subject { IsSubject subject.now }
    requires joined { AreItsLogs subject.now joined.now }
    ensures { IfOk result (λ rows. rows ≡ subject_candidates subject.now) }
{
    counts(
        rt,
        alloc,
        subject.parts,
        subject.good,
        subject.expected,
        joined,
    )
}

// The bits of a die by class.
fn tally_of(alloc: Global, subject: &Subject<'_>, joined: &Joined) -> Result<Tally, NoMemory>
    requires subject { IsSubject subject.now }
    requires joined { AreItsLogs subject.now joined.now }
    ensures { IfOk result (IsTallyOver subject.now) }
{
    let _ = subject.parts.patterns();
    tally_bits(alloc, subject.expected, joined)
}

// Both, at the same time where the bits are many and there are several processors; the counts are made in this thread.
fn counts_and_tally<R: Threads + Sync>(
    rt: &R,
    alloc: Global,
    subject: &Subject<'_>,
    joined: &Joined,
) -> (Result<Tally, NoMemory>, Result<Rows<Scored>, NoMemory>)
    requires subject { IsSubject subject.now }
    requires joined { AreItsLogs subject.now joined.now }
    ensures tally { IfOk result.0 (IsTallyOver subject.now) }
    ensures rows { IfOk result.1 (λ rows. rows ≡ subject_candidates subject.now) }
{
    if !wants_threads(rt, joined) {
        let rows = counts_of(rt, alloc, subject, joined);
        return (tally_of(alloc, subject, joined), rows);
    }
    let tally = move || -> Result<Tally, NoMemory>
        requires subject { IsSubject subject.now }
        requires joined { AreItsLogs subject.now joined.now }
        ensures { IfOk result (IsTallyOver subject.entry.now) }
    { tally_of(alloc, subject, joined) };
    let rows = move || -> Result<Rows<Scored>, NoMemory>
        requires subject { IsSubject subject.now }
        requires joined { AreItsLogs subject.now joined.now }
        ensures { IfOk result (λ rows. rows ≡ subject_candidates subject.entry.now) }
    { counts_of(rt, alloc, subject, joined) };
    join_apart(rt, tally, rows)
}

// The report of a die, given the classes of its bits and its candidates in order.
fn report_over<R: Threads + Sync>(
    rt: &R,
    alloc: Global,
    subject: &Subject<'_>,
    tally: &Tally,
    rows: &Rows<Scored>,
) -> Result<Report, NoMemory>
    requires subject { IsSubject subject.now }
    requires tally { IsTallyOver subject.now tally.now }
    requires places { All (λ row. row.place < length (universe subject.now.parts.now)) rows.now }
    requires ranked { rows.now ≡ ranked (subject_candidates subject.now) }
    ensures { IfOk result (λ report. report ≡ case_lines (subject_case subject.now)) }
{
    let head = head_of(
        alloc,
        subject.design,
        subject.die,
        subject.logs.len() as u64,
    )?;
    make_text(rt, alloc, subject.parts, &head, tally, rows)
}

// The diagnosis of a die from its logs, joined.
fn diagnosis_over<R: Threads + Sync>(
    rt: &R,
    alloc: Global,
    subject: &Subject<'_>,
    joined: &Joined,
) -> Result<Diagnosis, NoMemory>
    requires subject { IsSubject subject.now }
    requires joined { AreItsLogs subject.now joined.now }
    ensures lines { IfOk result (λ d. d.report ≡ case_lines (subject_case subject.now)) }
    ensures candidates { IfOk result (λ d. d.candidates ≡ ranked (subject_candidates subject.now)) }
{
    let (tally, rows) = counts_and_tally(rt, alloc, subject, joined);
    let tally = tally?;
    let mut rows = rows?;
    rank_in_threads(rt, alloc, &mut rows);
    let report = report_over(rt, alloc, subject, &tally, &rows)?;
    Ok(Diagnosis {
        report,
        candidates: rows,
    })
}

/// The diagnosis of a die.
pub fn diagnosis_of<R: Threads + Sync>(
    rt: &R,
    alloc: Global,
    subject: &Subject<'_>,
) -> Result<Diagnosis, NoMemory>
    requires subject { IsSubject subject.now }
    ensures lines { IfOk result (λ d. d.report ≡ case_lines (subject_case subject.now)) }
    ensures candidates { IfOk result (λ d. d.candidates ≡ ranked (candidates subject.now.parts.now (facts_of (subject_case subject.now).logs))) }
{
    let joined = joined_of(alloc, subject.parts, subject.logs)?;
    let diagnosis = diagnosis_over(rt, alloc, subject, &joined);
    drop(joined);
    diagnosis
}
