//! The pins that are branches: those of nets with two pins or more.

ghost use Rattle.std.specs.Prelude.{◌≡◌, ◌≤◌, length, filter, IfOk};
ghost use Rattle.scan_model.specs.Netlist.{is_branch, pin_numbers};
ghost use Rattle.scan_model.specs.GateSearch.{wiring, IsWired};
ghost use Rattle.scan_model.specs.PinCounts.{CountsPins};

use crate::circuit::{Net, Pin};
use crate::rows::{NoMemory, Rows};
use std::alloc::Global;

/// How many pins each net has.
fn pin_counts(alloc: Global, nets: &[Net], pins: &[Pin]) -> Result<Vec<u32>, NoMemory>
    requires wired { IsWired (wiring nets.now pins.now) }
    requires few { length pins.now ≤ 262144 }
    ensures { IfOk result (λ counts. CountsPins (length nets.now) pins.now counts.items) }
{
    let mut counts = vec![in alloc; 0u32; nets.len()]?;
    for pin in pins {
        counts[pin.net as usize] += 1;
    }
    Ok(counts)
}

/// The pins of nets with two pins or more, in rising order. Takes a time in proportion to the nets and pins.
pub(crate) fn branch_pins(alloc: Global, nets: &[Net], pins: &[Pin]) -> Result<Rows<u32>, NoMemory>
    requires wired { IsWired (wiring nets.now pins.now) }
    requires few { length pins.now ≤ 262144 }
    ensures { IfOk result (λ found. found ≡ filter (is_branch (wiring nets.now pins.now)) (pin_numbers (wiring nets.now pins.now))) }
{
    let counts = pin_counts(alloc, nets, pins)?;
    let mut found = Rows::new(alloc);
    for p in 0..pins.len() {
        if counts[pins[p].net as usize] >= 2 {
            found.push(p as u32)?;
        }
    }
    Ok(found)
}
