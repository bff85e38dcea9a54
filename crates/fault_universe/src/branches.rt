//! The branch faults, and the place of each among them.

ghost use Rattle.std.specs.Prelude.{◌≡◌, ◌++◌, ◌<◌, ◌≤◌, ◌^◌, length, filter, slice_get, OnOk, IfSome};
ghost use Rattle.fault_universe.specs.FaultPlaces.{FindsPlace};
ghost use Rattle.scan_model.specs.declared.fault.Fault.TheVariants as fault;
ghost use Rattle.scan_model.specs.Netlist.{is_branch, pin_numbers};
ghost use Rattle.scan_model.specs.Universe.{branches};

use scan_model::{Fault, NoMemory, Parts, Rows, Stuck};

/// The pins of nets with two pins or more, in rising order.
fn branch_pins(parts: &Parts) -> &[u32]
    ensures pins { result.now ≡ filter (is_branch parts.now.netlist) (pin_numbers parts.now.netlist) }
    ensures few { length result.now ≤ 262144 }
{
    parts.circuit().branch_pins().as_slice()
}

/// Adds the branch faults: for each pin of a net with two pins or more stuck at 0, then stuck at 1.
pub(crate) fn push_branches(faults: &mut Rows<Fault>, parts: &Parts) -> Result<(), NoMemory>
    ensures { OnOk result (faults.new ≡ faults.old ++ branches parts.now) }
{
    for &pin in branch_pins(parts) {
        faults.push(Fault::Branch {
            pin,
            value: Stuck::Zero,
        })?;
        faults.push(Fault::Branch {
            pin,
            value: Stuck::One,
        })?;
    }
    Ok(())
}

/// The number of branch faults.
pub fn branch_count(parts: &Parts) -> u32
    ensures count { result ≡ length (branches parts.now) }
    ensures few { length (branches parts.now) ≤ 524288 }
{
    2 * branch_pins(parts).len() as u32
}

/// The branch fault at a place among the branch faults, or `None` past their end.
pub(crate) fn branch_at(parts: &Parts, place: u32) -> Option<Fault>
    ensures { result ≡ slice_get (branches parts.now) place }
{
    let pins = branch_pins(parts);
    let at = place as usize / 2;
    if at >= pins.len() {
        return None;
    }
    let pin = pins[at];
    if place % 2 == 0 {
        Some(Fault::Branch {
            pin,
            value: Stuck::Zero,
        })
    } else {
        Some(Fault::Branch {
            pin,
            value: Stuck::One,
        })
    }
}

/// The place of a branch fault among the branch faults.
pub(crate) fn branch_place(parts: &Parts, pin: u32, value: Stuck) -> Option<u32>
    ensures place { FindsPlace (branches parts.now) (fault.Branch pin value) result }
    ensures small { IfSome result (λ place. place < 2 ^ 31) }
{
    let pins = branch_pins(parts);
    let Ok(at) = pins.binary_search(&pin) else {
        return None;
    };
    match value {
        Stuck::Zero => Some(2 * at as u32),
        Stuck::One => Some(2 * at as u32 + 1),
    }
}
