//! A die under diagnosis, without the bundle of its design.
ghost use Rattle.std.specs.Prelude.{◌≡◌, ◌<◌, ℕ, List, [], length, true, Ok, IfOk, IfErr, OnErr};
ghost use Rattle.scan_model.specs.Words.{is_tag};
ghost use Rattle.scan_model.specs.Response.{expected_rows};
ghost use Rattle.scan_model.specs.Universe.{universe};
ghost use Rattle.scan_model.specs.LogText.{log_frame, log_reading};
ghost use Rattle.scan_model.specs.DieReport.{die_report};
ghost use Rattle.scan_model.specs.MatchCounts.{candidates};
ghost use Rattle.scan_model.specs.Ranking.{ranked};
ghost use Rattle.scan_model.specs.ReportText as text_of;
ghost use Rattle.diag_report.specs.PredictedLog.{HasWordNames, fault_of, predicted_facts, predicted_log};
ghost use Rattle.packed_sim.specs.PackedParts.{BelongsTo};
ghost use Rattle.text_parts.specs.ReadResults.{Fails, Gives};
ghost use Rattle.diagnosis.specs.Designs.{HaveSameTexts, facts_of, texts_of};
ghost use Rattle.diagnosis.specs.Cases.{IsLogOver, AddedAmong, IsTextAdded, with_logs, case_lines, case_report};
ghost use Rattle.diagnosis.specs.Subjects.{IsSubject, subject_case};

use crate::diagnosed::{Diagnosis, Subject, diagnosis_of};
use crate::log::{ReadLog, log_over};
use crate::logs::push_log;
use crate::put::Put;
use crate::simulation::{Simulation, simulated};
use diag_report::{Report, fails_text_over};
use packed_sim::PackedGood;
use scan_model::{Expected, Name, NoMemory, Parts, Rows};
use std::alloc::Global;
use std::marker::Model;
use std::sync::Arc;
use std::thread::Threads;
use text_parts::ReadFault;

/// A die under diagnosis: what its design stands for, with the fault-free rows and responses, and different logs of it in
/// order. Unlike a view of a die it keeps no bundle and no digest.
#[derive(Drop)]
pub struct Case {
    design: Name,
    die: Name,
    parts: Parts,
    good: PackedGood,
    expected: Expected,
    logs: Rows<Arc<ReadLog>>,
}

impl Model for Case {
    ghost use Rattle.std.specs.Prelude.{map};
    ghost use Rattle.std.specs.Arc.{arc_value};
    ghost use Rattle.diagnosis.specs.Cases.{CaseFacts, IsWholeCase};

    ghost Value = { CaseFacts };

    ghost view = { λ c. record { design = c.design; die = c.die; test = c.parts; logs = map (λ log. arc_value log) c.logs } };

    ghost invariant = { λ c. IsWholeCase (record { design = c.design; die = c.die; test = c.parts; logs = map (λ log. arc_value log) c.logs }) c.good c.expected };
}

// The names of a design and a die.
#[derive(Drop)]
struct CaseNames {
    design: Name,
    die: Name,
}

fn case_names(alloc: Global, design: &[u8], die: &[u8]) -> Result<CaseNames, NoMemory>
    ensures design { IfOk result (λ names. names.design ≡ design.now) }
    ensures die { IfOk result (λ names. names.die ≡ die.now) }
{
    let design = Name::copy_of(alloc, design)?;
    let die = Name::copy_of(alloc, die)?;
    Ok(CaseNames { design, die })
}

// What a case keeps beside the parts of its design and its logs.
#[derive(Drop)]
struct CaseSetup {
    names: CaseNames,
    simulation: Simulation,
}

fn prepare(alloc: Global, design: &[u8], die: &[u8], parts: &Parts) -> Result<CaseSetup, NoMemory>
    ensures design { IfOk result (λ made. made.names.design ≡ design.now) }
    ensures die { IfOk result (λ made. made.names.die ≡ die.now) }
    ensures good { IfOk result (λ made. BelongsTo parts.now made.simulation.good) }
    ensures expected { IfOk result (λ made. made.simulation.expected ≡ expected_rows parts.now) }
{
    let names = case_names(alloc, design, die)?;
    let simulation = simulated(alloc, parts)?;
    Ok(CaseSetup { names, simulation })
}

impl Case {
    // A case of what was prepared over the parts, without logs.
    fn whole(alloc: Global, parts: Parts, made: CaseSetup) -> Case
        requires design { is_tag made.names.design ≡ true }
        requires die { is_tag made.names.die ≡ true }
        requires good { BelongsTo parts made.simulation.good }
        requires expected { made.simulation.expected ≡ expected_rows parts }
        ensures { result ≡ record { design = made.names.design; die = made.names.die; test = parts; logs = [] } }
    {
        let CaseSetup { names, simulation } = made;
        Case {
            design: names.design,
            die: names.die,
            parts,
            good: simulation.good,
            expected: simulation.expected,
            logs: Rows::new(alloc),
        }
    }

    /// A die of a design of these parts, without logs.
    pub fn make(alloc: Global, design: &[u8], die: &[u8], parts: Parts) -> Result<Case, NoMemory>
        requires design { is_tag design.now ≡ true }
        requires die { is_tag die.now ≡ true }
        ensures { IfOk result (λ case. case ≡ record { design = design.now; die = die.now; test = parts; logs = [] }) }
    {
        match prepare(alloc, design, die, &parts) {
            Ok(made) => Ok(Case::whole(alloc, parts, made)),
            Err(refused) => {
                drop(parts);
                Err(refused)
            }
        }
    }

    /// What the design stands for.
    pub fn parts(&self) -> &Parts
        ensures { result.now ≡ self.now.test }
    {
        &self.parts
    }

    /// The fail log that the fault at a place predicts, over the fault-free values that are kept.
    pub fn predicted(&self, alloc: Global, place: u32) -> Result<Name, NoMemory>
        requires place { place < length (universe self.now.test) }
        ensures text { IfOk result (λ text. text ≡ predicted_log self.now.test self.now.design self.now.die (fault_of self.now.test place)) }
        ensures reading { IfOk result (λ text. HasWordNames self.now.test → log_reading (log_frame self.now.test self.now.design self.now.die) text ≡ Ok (predicted_facts self.now.test (fault_of self.now.test place))) }
    {
        fails_text_over(
            alloc,
            &self.parts,
            &self.good,
            self.design.as_slice(),
            self.die.as_slice(),
            place,
        )
    }

    /// Reads a log, which keeps its text, and adds it at the end, unless one of equal text is there. Its number is its place
    /// from 1.
    pub fn add(&mut self, alloc: Global, text: Name) -> Result<Put, ReadFault>
        ensures added { IfOk result (λ put. IsTextAdded put text self.old self.new.logs) }
        ensures kept { self.new ≡ with_logs self.old self.new.logs }
        ensures fault { IfErr result (λ fault. Fails fault (log_reading (log_frame self.old.test self.old.design self.old.die) text)) }
        ensures err { OnErr result (self.new ≡ self.old) }
    {
        let log = self.read(alloc, text)?;
        Ok(self.add_log(alloc, log)?)
    }

    /// Adds a log that was read, in the same way.
    pub fn add_log(&mut self, alloc: Global, log: ReadLog) -> Result<Put, NoMemory>
        requires { IsLogOver self.old.test self.old.design self.old.die log }
        ensures added { IfOk result (λ put. AddedAmong put log self.old.logs self.new.logs) }
        ensures kept { self.new ≡ with_logs self.old self.new.logs }
        ensures err { OnErr result (self.new ≡ self.old) }
    {
        let log = Arc::new(alloc, log)?;
        push_log(&mut self.logs, log)
    }

    // The log of that text, over the parts of the design.
    fn read(&self, alloc: Global, text: Name) -> Result<ReadLog, ReadFault>
        ensures text { IfOk result (λ log. log.text ≡ text) }
        ensures log { IfOk result (IsLogOver self.now.test self.now.design self.now.die) }
        ensures reading { Gives (λ log. log.facts) result (log_reading (log_frame self.now.test self.now.design self.now.die) text) }
    {
        log_over(
            alloc,
            &self.parts,
            self.design.as_slice(),
            self.die.as_slice(),
            text,
        )
    }

    // What a diagnosis is made of.
    fn subject(&self) -> Subject<'_>
        ensures case { subject_case result ≡ self.now }
        ensures whole { IsSubject result }
    {
        Subject {
            design: self.design.as_slice(),
            die: self.die.as_slice(),
            parts: &self.parts,
            good: &self.good,
            expected: &self.expected,
            logs: self.logs.as_slice(),
        }
    }
}

/// The report over the logs of a die under diagnosis, with the candidates that it lists.
pub fn case_diagnosis<R: Threads + Sync>(
    rt: &R,
    alloc: Global,
    case: &Case,
) -> Result<Diagnosis, NoMemory>
    ensures lines { IfOk result (λ d. d.report ≡ case_lines case.now) }
    ensures report { IfOk result (λ d. text_of.concatenated d.report ≡ case_report case.now) }
    ensures candidates { IfOk result (λ d. d.candidates ≡ ranked (candidates case.now.test (facts_of case.now.logs))) }
{
    diagnosis_of(rt, alloc, &case.subject())
}

/// The report over the logs of a die under diagnosis. The order of the logs doesn't matter, nor does it that a text is given
/// again.
pub fn case_report<R: Threads + Sync>(
    rt: &R,
    alloc: Global,
    case: &Case,
) -> Result<Report, NoMemory>
    ensures lines { IfOk result (λ report. report ≡ case_lines case.now) }
    ensures report { IfOk result (λ report. text_of.concatenated report ≡ case_report case.now) }
    ensures any_order { (others : List (List ℕ)) → HaveSameTexts (texts_of case.now.logs) others → IfOk result (λ report. text_of.concatenated report ≡ die_report case.now.test case.now.design case.now.die others) }
{
    let diagnosis = case_diagnosis(rt, alloc, case)?;
    Ok(diagnosis.report)
}
