//! What is kept of a die at a revision.
ghost use Rattle.std.specs.Prelude.{◌≡◌, Some, None, OnSome};
ghost use Rattle.std.specs.Option.{option_map};
ghost use Rattle.std.specs.Arc.{arc_value};

use diagnosis::WholeReport;
use slat_view::WholeSlat;
use std::alloc::Global;
use std::sync::Arc;

/// The report of a die and its explained patterns with their counts, each if it was asked for.
#[derive(Drop)]
pub(crate) struct Findings {
    pub report: Option<Arc<WholeReport>>,
    pub slat: Option<Arc<WholeSlat>>,
}

/// One more hold of what is kept; none where memory is too short for it.
pub(crate) fn share<T>(kept: &Arc<T>) -> Option<Arc<T>>
    ensures { OnSome result (option_map arc_value result ≡ Some (arc_value kept.now)) }
{
    Arc::try_clone(kept).ok()
}

impl Findings {
    /// None yet.
    pub(crate) fn none() -> Findings
        ensures { result ≡ record { report = None; slat = None } }
    {
        Findings {
            report: None,
            slat: None,
        }
    }

    /// One more hold of each of them. What memory is too short for is left out.
    pub(crate) fn shared(&self) -> Findings
        ensures report { OnSome result.report (option_map arc_value result.report ≡ option_map arc_value self.now.report) }
        ensures slat { OnSome result.slat (option_map arc_value result.slat ≡ option_map arc_value self.now.slat) }
    {
        let report = match &self.report {
            Some(report) => share(report),
            None => None,
        };
        let slat = match &self.slat {
            Some(slat) => share(slat),
            None => None,
        };
        Findings { report, slat }
    }
}
