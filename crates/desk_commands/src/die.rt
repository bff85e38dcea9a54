//! The die of `diagnose`, whose design is simulated while a long log is read, or after the logs.
ghost use Rattle.std.specs.Prelude.{◌≡◌, [], true, IfOk, IfErr};
ghost use Rattle.scan_model.specs.Words.{is_tag};
ghost use Rattle.scan_model.specs.Response.{expected_rows};
ghost use Rattle.scan_model.specs.LogText.{log_frame, log_reading};
ghost use Rattle.packed_sim.specs.PackedParts.{BelongsTo};
ghost use Rattle.text_parts.specs.ReadResults.{Fails};
ghost use Rattle.diagnosis.specs.Cases.{IsTextAdded, with_logs};

use crate::logs::DieLogs;
use diagnosis::{CaseLogs, Put, Simulation, simulated_in_threads};
use rayon::current_num_threads;
use scan_model::{Name, NoMemory, Parts};
use std::alloc::Global;
use std::marker::Model;
use std::thread::Threads;
use text_parts::ReadFault;

/// The least length of a log that is worth a thread, in bytes.
const LONG_LOG: usize = 262_144;

/// A die and its logs. Contracts see it without the simulation, which is there or will be made.
#[derive(Drop)]
pub struct SimulatedDie<'a, R> {
    rt: &'a R,
    logs: CaseLogs<'a>,
    simulation: Option<Simulation>,
}

impl<'a, R> Model for SimulatedDie<'a, R> {
    ghost use Rattle.std.specs.Prelude.{IfSome};
    ghost use Rattle.diagnosis.specs.Cases.{CaseFacts};
    ghost use Rattle.desk_commands.specs.Dies.{IsSimulationOf};

    ghost Value = { CaseFacts };

    ghost view = { λ d. d.logs };

    ghost invariant = { λ d. IfSome d.simulation (IsSimulationOf d.logs.test) };
}

impl<'a, R: Threads> SimulatedDie<'a, R> {
    /// A die of a design of these parts, without logs.
    pub fn make(
        rt: &'a R,
        alloc: Global,
        design: &[u8],
        die: &[u8],
        parts: &'a Parts,
    ) -> Result<SimulatedDie<'a, R>, NoMemory>
        requires design { is_tag design.now ≡ true }
        requires die { is_tag die.now ≡ true }
        ensures { IfOk result (λ made. made ≡ record { design = design.now; die = die.now; test = parts.now; logs = [] }) }
    {
        let logs = CaseLogs::make(alloc, design, die, parts)?;
        Ok(SimulatedDie {
            rt,
            logs,
            simulation: None,
        })
    }

    /// Its logs.
    pub fn logs(&self) -> &CaseLogs<'a>
        ensures { result.now ≡ self.now }
    {
        &self.logs
    }

    // Whether the design is still to be simulated, and a log of that text is worth a thread.
    fn wants_thread(&self, text: &[u8]) -> bool {
        self.simulation.is_none() && text.len() >= LONG_LOG && current_num_threads(self.rt) > 1
    }

    // Adds a log as `CaseLogs::add` does. Where memory ran out for the simulation, it will be made after the logs.
    fn add(&mut self, alloc: Global, text: Name) -> Result<Put, ReadFault>
        ensures added { IfOk result (λ put. IsTextAdded put text self.old self.new.logs) }
        ensures kept { self.new ≡ with_logs self.old self.new.logs }
        ensures fault { IfErr result (λ fault. Fails fault (log_reading (log_frame self.old.test self.old.design self.old.die) text)) }
    {
        if !self.wants_thread(text.as_slice()) {
            return self.logs.add(alloc, text);
        }
        let (put, simulation) = self.logs.add_beside(self.rt, alloc, text);
        self.simulation = simulation.ok();
        put
    }
}

impl<'a, R: Threads + Sync> SimulatedDie<'a, R> {
    /// The simulation of its design, which is handed out.
    pub fn take_simulation(&mut self, alloc: Global) -> Result<Simulation, NoMemory>
        ensures good { IfOk result (λ made. BelongsTo self.old.test made.good) }
        ensures expected { IfOk result (λ made. made.expected ≡ expected_rows self.old.test) }
        ensures same { self.new ≡ self.old }
    {
        match self.simulation.take() {
            Some(simulation) => Ok(simulation),
            None => simulated_in_threads(self.rt, alloc, self.logs.parts()),
        }
    }
}

impl<'a, R: Threads> DieLogs for SimulatedDie<'a, R> {
    ghost use Rattle.std.specs.Prelude.{[]};
    ghost use Rattle.scan_model.specs.LogText.{log_frame};
    ghost use Rattle.diagnosis.specs.Designs.{texts_of};
    ghost use Rattle.diagnosis.specs.Cases.{with_logs};

    ghost frame = { λ k. log_frame k.test k.design k.die };

    ghost texts = { λ k. texts_of k.logs };

    ghost bare = { λ k. with_logs k [] };

    fn add_text(&mut self, alloc: Global, text: Name) -> Result<(), ReadFault> {
        self.add(alloc, text)?;
        Ok(())
    }
}
