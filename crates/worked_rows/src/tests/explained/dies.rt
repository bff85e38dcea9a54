//! Dies of a design with logs.
ghost use Rattle.diagnosis.specs.Designs.{IsLogOf};

use diagnosis::{Design, DieView, ReadLog, log_of};
use scan_model::Name;
use std::alloc::Global;
use std::process::Abort;
use std::sync::Arc;

/// The die D1 of a design, without a log.
pub(crate) fn die_of(rt: &impl Abort, alloc: Global, design: Design) -> DieView {
    let design = Arc::new(alloc, design).expect(rt, "memory");
    let name = Name::copy_of(alloc, b"D1").expect(rt, "memory");
    DieView::make(alloc, design, name).expect(rt, "memory")
}

fn add(rt: &impl Abort, alloc: Global, view: &mut DieView, log: ReadLog)
    requires { IsLogOf view.old.design view.old.die log }
{
    let log = Arc::new(alloc, log).expect(rt, "memory");
    let _put = view.add(log).expect(rt, "memory");
}

/// Adds a log, which must be one of the die.
pub(crate) fn add_text(rt: &impl Abort, alloc: Global, view: &mut DieView, text: &[u8]) {
    let _ = view.revision();
    let log = log_of(alloc, view.design(), view.die(), text).expect(rt, "a log");
    add(rt, alloc, view, log);
}
