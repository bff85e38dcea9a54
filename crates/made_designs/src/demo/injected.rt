//! The fault that is put in.
ghost use Rattle.std.specs.Prelude.{◌≡◌, ◌<◌, ℕ, length, IfOk, IfSome};
ghost use Rattle.scan_model.specs.Universe.{universe};
ghost use Rattle.diag_report.specs.PredictedLog.{HasWordNames};
ghost use Rattle.made_designs.specs.InjectedFaults.{IsDemoCase, IsOwnLog, IsFound, IsFirst, IsAfterTexts, IsDrawn, place_of};

use crate::draws::Draws;
use diagnosis::{Case, ReadLog, log_over};
use fault_universe::universe_len;
use scan_model::NoMemory;
use std::alloc::Global;
use text_parts::ReadFault;

/// How many places are tried.
const TRIES: u64 = 256;

/// The place of a fault that predicts a fail, with the log that it predicts.
#[derive(Drop)]
pub struct InjectedFault {
    pub place: u32,
    pub log: ReadLog,
}

// The log that the fault at a place predicts, as it is read.
fn own_log(alloc: Global, case: &Case, place: u32) -> Result<ReadLog, NoMemory>
    requires case { IsDemoCase case.now }
    requires names { HasWordNames case.now.test }
    requires place { place < length (universe case.now.test) }
    ensures { IfOk result (IsOwnLog case.now.test place) }
{
    let text = case.predicted(alloc, place)?;
    match log_over(alloc, case.parts(), b"demo", b"demo", text) {
        Ok(log) => Ok(log),
        Err(ReadFault::Text(_)) => unreachable!(),
        Err(ReadFault::NoMemory) => Err(NoMemory),
    }
}

// The first of the tried places from this one on, of so many, whose fault predicts a fail.
fn first_failing(
    alloc: Global,
    case: &Case,
    first: u32,
    count: u32,
) -> Result<Option<InjectedFault>, NoMemory>
    requires case { IsDemoCase case.now }
    requires names { HasWordNames case.now.test }
    requires count { count ≡ length (universe case.now.test) }
    requires some { 0 < count }
    ensures found { IfOk result (λ injected. IfSome injected (IsFound case.now.test)) }
    ensures first { IfOk result (λ injected. IsFirst case.now.test first (place_of injected)) }
{
    for i in 0..TRIES {
        let place = ((u64::from(first) + i) % u64::from(count)) as u32;
        let log = own_log(alloc, case, place)?;
        if !log.facts().fails.is_empty() {
            return Ok(Some(InjectedFault { place, log }));
        }
    }
    Ok(None)
}

/// The first fault from a drawn place on, round the end, that predicts a fail; none where none of those that are tried does.
pub fn inject(
    alloc: Global,
    case: &Case,
    draws: &mut Draws,
) -> Result<Option<InjectedFault>, NoMemory>
    requires case { IsDemoCase case.now }
    requires names { HasWordNames case.now.test }
    ensures found { IfOk result (λ injected. IfSome injected (IsFound case.now.test)) }
    ensures drawn { (seed blocks : ℕ) → IsAfterTexts seed blocks draws.old.state → IfOk result (λ injected. IsDrawn seed blocks case.now.test (place_of injected)) }
{
    let count = universe_len(case.parts());
    if count == 0 {
        return Ok(None);
    }
    let first = draws.draw(count);
    first_failing(alloc, case, first, count)
}
