//! The suspects by the net that each flips.
ghost use Rattle.std.specs.Prelude.{◌≡◌, ◌+◌, ◌^◌, ◌<◌, ◌≤◌, [], ◌++◌, ◌∷◌, All, length, IfOk, OnOk};
ghost use Rattle.scan_model.specs.ScanTest.{HasSite};
ghost use Rattle.scan_model.specs.Universe.{universe};
ghost use Rattle.fault_universe.specs.LineWords.{IsPlaceOf};
ghost use Rattle.fault_effects.specs.Owners.{IsSuspectOf, AreOwners, places_of};
ghost use Rattle.fault_effects.specs.Owners as owners;

use crate::suspect::Suspect;
use fault_universe::fault_at;
use lane_rows::Groups;
use scan_model::{Driver, Fault, NoMemory, Parts, PinPlace, Rows};
use std::alloc::Global;

/// The gate that reads the pin, or a number past the nets.
fn pin_owner(parts: &Parts, place: PinPlace) -> u32
    requires { IsPlaceOf (length parts.now.netlist.nets) place }
    ensures { result ≡ owners.pin_owner parts.now place }
{
    let nets = parts.circuit().nets().as_slice();
    match place {
        PinPlace::Operand { net, .. } => match nets[net as usize].driver {
            Driver::Gate(_) => net,
            _ => nets.len() as u32,
        },
        PinPlace::Output { .. } => nets.len() as u32,
    }
}

/// The net that a fault flips; of a bridge the first of its two nets. Past the nets: a pin that goes straight to a point, a chain's cell.
fn owner(parts: &Parts, fault: &Fault) -> u32
    requires { HasSite parts.now fault.now }
    ensures value { result ≡ owners.owner parts.now fault.now }
    ensures below { result < length parts.now.netlist.nets + 2 }
{
    let nets = parts.circuit().nets().len() as u32;
    match *fault {
        Fault::Stem { net, .. } => net,
        Fault::Branch { pin, .. } => {
            let place = parts.circuit().pins().as_slice()[pin as usize].place;
            pin_owner(parts, place)
        }
        Fault::Bridge { a, .. } => a,
        Fault::Cell { .. } => nets + 1,
    }
}

/// Adds the suspect at a place, if a fault stands there.
fn push_suspect(suspects: &mut Rows<Suspect>, parts: &Parts, place: u32) -> Result<(), NoMemory>
    ensures each { OnOk result (All (IsSuspectOf parts.now) suspects.old → All (IsSuspectOf parts.now) suspects.new) }
    ensures places { OnOk result (place < length (universe parts.now) → places_of suspects.new ≡ places_of suspects.old ++ place ∷ []) }
    ensures few { OnOk result (length suspects.new ≤ length suspects.old + 1) }
{
    let Some(fault) = fault_at(parts, place) else {
        return Ok(());
    };
    suspects.push(Suspect { place, fault })?;
    Ok(())
}

/// The suspects at some places, in their order.
pub fn suspects_at(alloc: Global, parts: &Parts, places: &[u32]) -> Result<Rows<Suspect>, NoMemory>
    ensures each { IfOk result (All (IsSuspectOf parts.now)) }
    ensures few { IfOk result (λ suspects. length suspects ≤ length places.now) }
    ensures places { IfOk result (λ suspects. All (λ p. p < length (universe parts.now)) places.now → places_of suspects ≡ places.now) }
{
    let mut suspects = Rows::from_vec(Vec::with_capacity(alloc, places.len())?);
    for place in places {
        push_suspect(&mut suspects, parts, *place)?;
    }
    Ok(suspects)
}

/// The numbers of the suspects by owner.
pub fn owners_of(alloc: Global, parts: &Parts, suspects: &[Suspect]) -> Result<Groups, NoMemory>
    requires suspects { All (IsSuspectOf parts.now) suspects.now }
    requires few { length suspects.now < 2 ^ 32 }
    ensures len { IfOk result (λ groups. length groups ≡ length parts.now.netlist.nets + 2) }
    ensures groups { IfOk result (AreOwners parts.now suspects.now) }
{
    let mut keys = Vec::with_capacity(alloc, suspects.len())?;
    for suspect in suspects {
        keys.push(owner(parts, &suspect.fault))?;
    }
    let groups = Groups::of(alloc, &keys, parts.circuit().nets().len() + 2)?;
    Ok(groups)
}
