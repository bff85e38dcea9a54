//! What a fault of the logic forces, from the fault-free values of its nets.
ghost use Rattle.std.specs.Prelude.{◌≡◌, length, IfOk, IfSome};
ghost use Rattle.scan_model.specs.ChainShift.{value_at};
ghost use Rattle.scan_model.specs.ScanTest.{HasSite};
ghost use Rattle.single_faults.specs.Effect.{forces, FitsEffect};
ghost use Rattle.good_sim.specs.PointValues.{forced_over};

use crate::evaluate::net_values;
use scan_model::{Fault, NoMemory, Parts, Tri};
use single_faults::{Effect, bridge_value, stuck_value};
use std::alloc::Global;

/// What a fault forces in the logic. One in a chain forces nothing there.
pub(crate) fn effect_of(
    alloc: Global,
    parts: &Parts,
    source: &[Tri],
    fault: Option<Fault>,
) -> Result<Effect, NoMemory>
    requires source { length source.now ≡ length parts.now.netlist.nets }
    requires fault { IfSome fault (HasSite parts.now) }
    ensures forces { IfOk result (λ effect. forces effect ≡ forced_over parts.now.netlist (value_at source.now) fault) }
    ensures fits { IfOk result (FitsEffect (length parts.now.netlist.pins)) }
{
    match fault {
        None => Ok(Effect::Nothing),
        Some(Fault::Cell { .. }) => Ok(Effect::Nothing),
        Some(Fault::Stem { net, value }) => Ok(Effect::Net {
            net,
            value: stuck_value(value),
        }),
        Some(Fault::Branch { pin, value }) => Ok(Effect::Pin {
            pin,
            value: stuck_value(value),
        }),
        Some(Fault::Bridge { a, b, kind }) => {
            let good = net_values(alloc, parts.circuit(), source, Effect::Nothing)?;
            let value = bridge_value(kind, good[a as usize], good[b as usize]);
            Ok(Effect::Bridge { a, b, kind, value })
        }
    }
}
