//! What a report is kept for.
ghost use Rattle.std.specs.Prelude.{IfOk};
ghost use Rattle.report_cache.specs.Truth.{IsKeyOf};

use diagnosis::DieView;
use scan_model::{Name, NoMemory};
use std::alloc::Global;

/// The names of a design and of a die, and a revision of the die.
#[derive(Drop, PartialEq, Eq, Hash)]
pub(crate) struct ReportKey {
    design: Vec<u8>,
    die: Vec<u8>,
    revision: u64,
}

impl ReportKey {
    /// What the report of a die is kept for.
    pub(crate) fn of(alloc: Global, view: &DieView) -> Result<ReportKey, NoMemory>
        ensures { IfOk result (λ key. IsKeyOf key view.now) }
    {
        let design = Name::copy_of(alloc, view.design().name())?;
        let die = Name::copy_of(alloc, view.die())?;
        Ok(ReportKey {
            design: design.into_vec(),
            die: die.into_vec(),
            revision: view.revision(),
        })
    }
}
