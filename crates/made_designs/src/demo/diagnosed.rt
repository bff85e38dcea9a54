//! The diagnosis of the log that the fault predicts.
ghost use Rattle.std.specs.Prelude.{◌≡◌, IfOk};
ghost use Rattle.scan_model.specs.ReportText as text_of;
ghost use Rattle.diag_report.specs.PredictedLog.{fault_of};
ghost use Rattle.made_designs.specs.Demo.{own_candidates, own_report};
ghost use Rattle.made_designs.specs.InjectedFaults.{IsDemoCase, IsFound};

use crate::demo::injected::InjectedFault;
use diagnosis::{Case, Diagnosis, case_diagnosis};
use scan_model::NoMemory;
use std::alloc::Global;
use std::thread::Threads;

/// The report over the log, which is added to the die, and its candidates.
pub fn diagnosis_of<R: Threads + Sync>(
    rt: &R,
    alloc: Global,
    case: &mut Case,
    injected: InjectedFault,
) -> Result<Diagnosis, NoMemory>
    requires case { IsDemoCase case.old }
    requires found { IsFound case.old.test injected }
    ensures report { IfOk result (λ d. text_of.concatenated d.report ≡ own_report case.old.test (fault_of case.old.test injected.place)) }
    ensures candidates { IfOk result (λ d. d.candidates ≡ own_candidates case.old.test (fault_of case.old.test injected.place)) }
{
    case.add_log(alloc, injected.log)?;
    case_diagnosis(rt, alloc, case)
}
