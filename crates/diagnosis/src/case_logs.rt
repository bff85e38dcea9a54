//! A die under diagnosis, apart from the simulation of its design.
ghost use Rattle.std.specs.Prelude.{◌≡◌, List, [], ℕ, true, IfOk, IfErr, OnErr};
ghost use Rattle.scan_model.specs.Words.{is_tag};
ghost use Rattle.scan_model.specs.Response.{expected_rows};
ghost use Rattle.scan_model.specs.LogText.{log_frame, log_reading};
ghost use Rattle.scan_model.specs.DieReport.{die_report};
ghost use Rattle.scan_model.specs.ReportText as text_of;
ghost use Rattle.packed_sim.specs.PackedParts.{BelongsTo};
ghost use Rattle.text_parts.specs.declared.fault.ReadFault.TheVariants as read_fault;
ghost use Rattle.text_parts.specs.ReadResults.{Fails, Gives};
ghost use Rattle.diagnosis.specs.Designs.{HaveSameTexts, texts_of};
ghost use Rattle.diagnosis.specs.Cases.{IsLogOver, AddedAmong, IsTextAdded, with_logs, case_lines, case_report};
ghost use Rattle.diagnosis.specs.Subjects.{IsSubject, subject_case};

use crate::diagnosed::{Subject, diagnosis_of};
use crate::log::{ReadLog, log_over};
use crate::logs::push_log;
use crate::put::Put;
use crate::simulation::{Simulation, read_and_simulated};
use diag_report::Report;
use scan_model::{Name, NoMemory, Parts, Rows};
use std::alloc::Global;
use std::marker::Model;
use std::sync::Arc;
use std::thread::Threads;
use text_parts::ReadFault;

/// A die under diagnosis as a `Case`, without the rows and responses of its design.
#[derive(Drop)]
pub struct CaseLogs<'a> {
    design: Name,
    die: Name,
    parts: &'a Parts,
    logs: Rows<Arc<ReadLog>>,
}

impl<'a> Model for CaseLogs<'a> {
    ghost use Rattle.std.specs.Prelude.{map};
    ghost use Rattle.std.specs.Arc.{arc_value};
    ghost use Rattle.diagnosis.specs.Cases.{CaseFacts, IsCase};

    ghost Value = { CaseFacts };

    ghost view = { λ c. record { design = c.design; die = c.die; test = c.parts.now; logs = map (λ log. arc_value log) c.logs } };

    ghost invariant = { λ c. IsCase (record { design = c.design; die = c.die; test = c.parts.now; logs = map (λ log. arc_value log) c.logs }) };
}

impl<'a> CaseLogs<'a> {
    /// A die of a design of these parts, without logs.
    pub fn make(
        alloc: Global,
        design: &[u8],
        die: &[u8],
        parts: &'a Parts,
    ) -> Result<CaseLogs<'a>, NoMemory>
        requires design { is_tag design.now ≡ true }
        requires die { is_tag die.now ≡ true }
        ensures { IfOk result (λ case. case ≡ record { design = design.now; die = die.now; test = parts.now; logs = [] }) }
    {
        let design = Name::copy_of(alloc, design)?;
        let die = Name::copy_of(alloc, die)?;
        Ok(CaseLogs {
            design,
            die,
            parts,
            logs: Rows::new(alloc),
        })
    }

    /// What the design stands for.
    pub fn parts(&self) -> &'a Parts
        ensures { result.now ≡ self.now.test }
    {
        self.parts
    }

    /// Reads a log and adds it as `Case::add` does.
    pub fn add(&mut self, alloc: Global, text: Name) -> Result<Put, ReadFault>
        ensures added { IfOk result (λ put. IsTextAdded put text self.old self.new.logs) }
        ensures kept { self.new ≡ with_logs self.old self.new.logs }
        ensures fault { IfErr result (λ fault. Fails fault (log_reading (log_frame self.old.test self.old.design self.old.die) text)) }
        ensures err { OnErr result (self.new ≡ self.old) }
    {
        let log = self.read(alloc, text)?;
        Ok(self.push(alloc, log)?)
    }

    /// Adds a log as `add` does, while a thread of its own simulates the design. The first answer is that of `add`; the second is
    /// the simulation, whatever came of the log, or want of memory for it.
    pub fn add_beside<R: Threads>(
        &mut self,
        rt: &R,
        alloc: Global,
        text: Name,
    ) -> (Result<Put, ReadFault>, Result<Simulation, NoMemory>)
        ensures added { IfOk result.0 (λ put. IsTextAdded put text self.old self.new.logs) }
        ensures kept { self.new ≡ with_logs self.old self.new.logs }
        ensures fault { IfErr result.0 (λ fault. Fails fault (log_reading (log_frame self.old.test self.old.design self.old.die) text)) }
        ensures err { OnErr result.0 (self.new ≡ self.old) }
        ensures good { IfOk result.1 (λ made. BelongsTo self.old.test made.good) }
        ensures expected { IfOk result.1 (λ made. made.expected ≡ expected_rows self.old.test) }
    {
        let (log, simulation) = self.read_beside(rt, alloc, text);
        match log {
            Ok(log) => (self.add_read(alloc, log), simulation),
            Err(fault) => (Err(fault), simulation),
        }
    }

    // The log of that text, and the simulation of the design, made at the same time.
    fn read_beside<R: Threads>(
        &self,
        rt: &R,
        alloc: Global,
        text: Name,
    ) -> (Result<ReadLog, ReadFault>, Result<Simulation, NoMemory>)
        ensures text { IfOk result.0 (λ log. log.text ≡ text) }
        ensures log { IfOk result.0 (IsLogOver self.now.test self.now.design self.now.die) }
        ensures reading { Gives (λ log. log.facts) result.0 (log_reading (log_frame self.now.test self.now.design self.now.die) text) }
        ensures good { IfOk result.1 (λ made. BelongsTo self.now.test made.good) }
        ensures expected { IfOk result.1 (λ made. made.expected ≡ expected_rows self.now.test) }
    {
        read_and_simulated(
            rt,
            alloc,
            self.parts,
            self.design.as_slice(),
            self.die.as_slice(),
            text,
        )
    }

    // The log of that text, over the parts of the design.
    fn read(&self, alloc: Global, text: Name) -> Result<ReadLog, ReadFault>
        ensures text { IfOk result (λ log. log.text ≡ text) }
        ensures log { IfOk result (IsLogOver self.now.test self.now.design self.now.die) }
        ensures reading { Gives (λ log. log.facts) result (log_reading (log_frame self.now.test self.now.design self.now.die) text) }
    {
        log_over(
            alloc,
            self.parts,
            self.design.as_slice(),
            self.die.as_slice(),
            text,
        )
    }

    // Adds a log that was read.
    fn push(&mut self, alloc: Global, log: ReadLog) -> Result<Put, NoMemory>
        requires { IsLogOver self.old.test self.old.design self.old.die log }
        ensures added { IfOk result (λ put. AddedAmong put log self.old.logs self.new.logs) }
        ensures kept { self.new ≡ with_logs self.old self.new.logs }
        ensures err { OnErr result (self.new ≡ self.old) }
    {
        let log = Arc::new(alloc, log)?;
        push_log(&mut self.logs, log)
    }

    // Adds a log that was read. A refusal is want of memory.
    fn add_read(&mut self, alloc: Global, log: ReadLog) -> Result<Put, ReadFault>
        requires { IsLogOver self.old.test self.old.design self.old.die log }
        ensures added { IfOk result (λ put. AddedAmong put log self.old.logs self.new.logs) }
        ensures kept { self.new ≡ with_logs self.old self.new.logs }
        ensures fault { IfErr result (λ fault. fault ≡ read_fault.NoMemory) }
        ensures err { OnErr result (self.new ≡ self.old) }
    {
        Ok(self.push(alloc, log)?)
    }

    // What a diagnosis is made of, with the simulation of the design.
    fn subject<'b>(&'b self, simulation: &'b Simulation) -> Subject<'b>
        requires good { BelongsTo self.now.test simulation.now.good }
        requires expected { simulation.now.expected ≡ expected_rows self.now.test }
        ensures case { subject_case result ≡ self.now }
        ensures whole { IsSubject result }
    {
        Subject {
            design: self.design.as_slice(),
            die: self.die.as_slice(),
            parts: self.parts,
            good: &simulation.good,
            expected: &simulation.expected,
            logs: self.logs.as_slice(),
        }
    }
}

/// The report over these logs, as `case_report` has it, with the simulation of the design.
pub fn report_of_logs<R: Threads + Sync>(
    rt: &R,
    alloc: Global,
    case: &CaseLogs<'_>,
    simulation: &Simulation,
) -> Result<Report, NoMemory>
    requires good { BelongsTo case.now.test simulation.now.good }
    requires expected { simulation.now.expected ≡ expected_rows case.now.test }
    ensures lines { IfOk result (λ report. report ≡ case_lines case.now) }
    ensures report { IfOk result (λ report. text_of.concatenated report ≡ case_report case.now) }
    ensures any_order { (others : List (List ℕ)) → HaveSameTexts (texts_of case.now.logs) others → IfOk result (λ report. text_of.concatenated report ≡ die_report case.now.test case.now.design case.now.die others) }
{
    let diagnosis = diagnosis_of(rt, alloc, &case.subject(simulation))?;
    Ok(diagnosis.report)
}
