//! The fault-free rows and responses of a test.
ghost use Rattle.std.specs.Prelude.{◌≡◌, true, IfOk};
ghost use Rattle.scan_model.specs.Words.{is_tag};
ghost use Rattle.scan_model.specs.Response.{expected_rows};
ghost use Rattle.scan_model.specs.LogText.{log_frame, log_reading};
ghost use Rattle.packed_sim.specs.PackedParts.{BelongsTo};
ghost use Rattle.text_parts.specs.ReadResults.{Gives};
ghost use Rattle.diagnosis.specs.Cases.{IsLogOver};

use crate::log::{ReadLog, log_over};
use expected_values::expected_at_points;
use packed_sim::PackedGood;
use scan_model::{Expected, Name, NoMemory, Parts};
use std::alloc::Global;
use std::thread::Threads;
use text_parts::ReadFault;
use work_crew::join_apart;

/// The fault-free rows and responses of a test.
#[derive(Drop)]
pub struct Simulation {
    pub good: PackedGood,
    pub expected: Expected,
}

/// Makes them.
pub(crate) fn simulated(alloc: Global, parts: &Parts) -> Result<Simulation, NoMemory>
    ensures good { IfOk result (λ made. BelongsTo parts.now made.good) }
    ensures expected { IfOk result (λ made. made.expected ≡ expected_rows parts.now) }
{
    let good = PackedGood::make(alloc, parts)?;
    with_responses(alloc, parts, good)
}

/// Makes them, the rows of many nets while the circuit is read. The only error is want of memory.
pub fn simulated_in_threads<R: Threads + Sync>(
    rt: &R,
    alloc: Global,
    parts: &Parts,
) -> Result<Simulation, NoMemory>
    ensures good { IfOk result (λ made. BelongsTo parts.now made.good) }
    ensures expected { IfOk result (λ made. made.expected ≡ expected_rows parts.now) }
{
    let good = PackedGood::make_in_threads(rt, alloc, parts)?;
    with_responses(alloc, parts, good)
}

/// Reads a log over the parts of its design, while a thread of its own makes what `simulated` makes.
pub(crate) fn read_and_simulated<R: Threads>(
    rt: &R,
    alloc: Global,
    parts: &Parts,
    design: &[u8],
    die: &[u8],
    text: Name,
) -> (Result<ReadLog, ReadFault>, Result<Simulation, NoMemory>)
    requires die { is_tag die.now ≡ true }
    ensures text { IfOk result.0 (λ log. log.text ≡ text) }
    ensures log { IfOk result.0 (IsLogOver parts.now design.now die.now) }
    ensures reading { Gives (λ log. log.facts) result.0 (log_reading (log_frame parts.now design.now die.now) text) }
    ensures good { IfOk result.1 (λ made. BelongsTo parts.now made.good) }
    ensures expected { IfOk result.1 (λ made. made.expected ≡ expected_rows parts.now) }
{
    let read = move || -> Result<ReadLog, ReadFault>
        requires { is_tag die.now ≡ true }
        ensures text { IfOk result (λ log. log.text ≡ text) }
        ensures log { IfOk result (IsLogOver parts.entry.now design.entry.now die.entry.now) }
        ensures reading { Gives (λ log. log.facts) result (log_reading (log_frame parts.entry.now design.entry.now die.entry.now) text) }
    { log_over(alloc, parts, design, die, text) };
    let simulate = move || -> Result<Simulation, NoMemory>
        ensures good { IfOk result (λ made. BelongsTo parts.entry.now made.good) }
        ensures expected { IfOk result (λ made. made.expected ≡ expected_rows parts.entry.now) }
    { simulated(alloc, parts) };
    let (simulation, log) = join_apart(rt, simulate, read);
    (log, simulation)
}

/// The rows with the responses that they show.
fn with_responses(alloc: Global, parts: &Parts, good: PackedGood) -> Result<Simulation, NoMemory>
    requires { BelongsTo parts.now good }
    ensures good { IfOk result (λ made. BelongsTo parts.now made.good) }
    ensures expected { IfOk result (λ made. made.expected ≡ expected_rows parts.now) }
{
    match expected_at_points(alloc, parts, good.rows()) {
        Ok(expected) => Ok(Simulation { good, expected }),
        Err(refused) => {
            drop(good);
            Err(refused)
        }
    }
}
