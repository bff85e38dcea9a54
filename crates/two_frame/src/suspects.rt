//! The transition faults whose sites lead to a failing bit: net by net, then pin by pin, each slow to rise, then slow to fall.
ghost use Rattle.std.specs.Prelude.{◌≡◌, ◌+◌, ◌^◌, ◌<◌, List, Bool, All, filter, length, IfOk, OnOk};
ghost use Rattle.std.specs.List.{range_with_len};
ghost use Rattle.scan_model.specs.ScanTest.{ScanTest};
ghost use Rattle.scan_model.specs.Universe.{stems};
ghost use Rattle.fault_effects.specs.Owners.{IsSuspectOf, places_of};
ghost use Rattle.two_frame.specs.TwoFrame.{transitions};
ghost use Rattle.two_frame.specs.FrameRows.{transition_at};
ghost use Rattle.two_frame.specs.FanInMarks.{reaches};
ghost use Rattle.two_frame.specs.ReachingFaults.{IsMarkedAs, AreReachingTo};

use crate::fails::slow_len;
use fault_effects::Suspect;
use fault_universe::{branch_count, stem_count};
use packed_sim::net_of_pin;
use scan_model::{Fault, NoMemory, Parts, Rows, Stuck};
use std::alloc::Global;

/// Adds both faults of a site at a place and the next, if its net has a mark.
#[inline(always)]
fn push_site(
    suspects: &mut Rows<Suspect>,
    marked: bool,
    place: u32,
    rise: Fault,
    fall: Fault,
) -> Result<(), NoMemory>
    requires { place + 1 < 2 ^ 32 }
    ensures { (t : ScanTest) (marks : List Bool) → IsMarkedAs t marks marked place rise → IsMarkedAs t marks marked (place + 1) fall
        → AreReachingTo t marks place suspects.old → OnOk result (AreReachingTo t marks (place + 2) suspects.new) }
{
    if !marked {
        return Ok(());
    }
    suspects.push(Suspect { place, fault: rise })?;
    suspects.push(Suspect {
        place: place + 1,
        fault: fall,
    })?;
    Ok(())
}

/// Adds the stems of the nets with a mark.
fn push_stems(suspects: &mut Rows<Suspect>, parts: &Parts, marks: &[bool]) -> Result<(), NoMemory>
    requires marks { length marks.now ≡ length parts.now.netlist.nets }
    requires none { AreReachingTo parts.now marks.now 0 suspects.old }
    ensures { OnOk result (AreReachingTo parts.now marks.now (length (stems parts.now)) suspects.new) }
{
    for net in 0..stem_count(parts) / 2 {
        let marked = marks[net as usize];
        let rise = Fault::Stem {
            net,
            value: Stuck::Zero,
        };
        let fall = Fault::Stem {
            net,
            value: Stuck::One,
        };
        push_site(suspects, marked, 2 * net, rise, fall)?;
    }
    Ok(())
}

/// Adds the branches at the pins of nets with a mark.
fn push_branches(
    suspects: &mut Rows<Suspect>,
    parts: &Parts,
    marks: &[bool],
) -> Result<(), NoMemory>
    requires marks { length marks.now ≡ length parts.now.netlist.nets }
    requires stems { AreReachingTo parts.now marks.now (length (stems parts.now)) suspects.old }
    ensures { OnOk result (AreReachingTo parts.now marks.now (length (transitions parts.now)) suspects.new) }
{
    let circuit = parts.circuit();
    let stems = stem_count(parts);
    let pins = circuit.branch_pins().as_slice();
    for at in 0..branch_count(parts) / 2 {
        let pin = pins[at as usize];
        let marked = marks[net_of_pin(circuit, pin) as usize];
        let rise = Fault::Branch {
            pin,
            value: Stuck::Zero,
        };
        let fall = Fault::Branch {
            pin,
            value: Stuck::One,
        };
        push_site(suspects, marked, stems + 2 * at, rise, fall)?;
    }
    Ok(())
}

/// The transition faults whose sites lead to a failing bit, at their places.
pub(crate) fn reaching_suspects(
    alloc: Global,
    parts: &Parts,
    marks: &[bool],
) -> Result<Rows<Suspect>, NoMemory>
    requires marks { length marks.now ≡ length parts.now.netlist.nets }
    ensures each { IfOk result (All (IsSuspectOf parts.now)) }
    ensures few { IfOk result (λ suspects. length suspects < 2 ^ 32) }
    ensures below { IfOk result (All (λ s. s.place < length (transitions parts.now))) }
    ensures places { IfOk result (λ suspects. places_of suspects ≡ filter (λ p. reaches parts.now marks.now (transition_at parts.now p)) (range_with_len 0 (length (transitions parts.now)))) }
{
    let mut suspects = Rows::from_vec(Vec::with_capacity(alloc, slow_len(parts) as usize)?);
    push_stems(&mut suspects, parts, marks)?;
    push_branches(&mut suspects, parts, marks)?;
    Ok(suspects)
}
