//! A die with some of its logs.
ghost use Rattle.std.specs.Prelude.{◌≡◌, All, true, IfOk};
ghost use Rattle.std.specs.List.{IsDistinct};
ghost use Rattle.std.specs.Str.{bytes_eq};
ghost use Rattle.std.specs.Arc.{arc_value};
ghost use Rattle.scan_model.specs.Words.{is_tag};
ghost use Rattle.diagnosis.specs.Designs.{IsLogOf, texts_of};
ghost use Rattle.die_entries.specs.Entries.{arc_values};

use diagnosis::{Design, DieView, ReadLog};
use scan_model::{Name, NoMemory};
use std::alloc::Global;
use std::sync::Arc;

/// The die with these logs, which differ.
pub fn view_of(
    alloc: Global,
    design: &Arc<Design>,
    die: &[u8],
    logs: &[Arc<ReadLog>],
) -> Result<DieView, NoMemory>
    requires die { is_tag die.now ≡ true }
    requires logs { All (IsLogOf (arc_value design.now) die.now) (arc_values logs.now) }
    requires differ { IsDistinct bytes_eq (texts_of (arc_values logs.now)) }
    ensures { IfOk result (λ view. view ≡ record { design = arc_value design.now; die = die.now; logs = arc_values logs.now }) }
{
    let design = Arc::try_clone(design)?;
    let mut view = DieView::make(alloc, design, Name::copy_of(alloc, die)?)?;
    for log in logs {
        view.add(Arc::try_clone(log)?)?;
    }
    Ok(view)
}
