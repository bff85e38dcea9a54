//! The stem faults, and the place of each among them.

ghost use Rattle.std.specs.Prelude.{◌≡◌, ◌++◌, ◌<◌, ◌≤◌, length, slice_get, Some, OnOk};
ghost use Rattle.fault_universe.specs.FaultPlaces.{FindsPlace};
ghost use Rattle.scan_model.specs.declared.fault.Fault.TheVariants as fault;
ghost use Rattle.scan_model.specs.ScanTest.{ScanTest, IsScanTest, HasSite};
ghost use Rattle.scan_model.specs.Universe.{stems};

use scan_model::{Fault, NoMemory, Parts, Rows, Stuck};

/// Adds the stem faults: for each net stuck at 0, then stuck at 1.
pub(crate) fn push_stems(faults: &mut Rows<Fault>, parts: &Parts) -> Result<(), NoMemory>
    ensures { OnOk result (faults.new ≡ faults.old ++ stems parts.now) }
{
    let nets = parts.circuit().nets().len() as u32;
    for net in 0..nets {
        faults.push(Fault::Stem {
            net,
            value: Stuck::Zero,
        })?;
        faults.push(Fault::Stem {
            net,
            value: Stuck::One,
        })?;
    }
    Ok(())
}

/// The number of stem faults.
pub fn stem_count(parts: &Parts) -> u32
    ensures count { result ≡ length (stems parts.now) }
    ensures few { length (stems parts.now) ≤ 131072 }
    ensures fits { IsScanTest parts.now }
{
    2 * parts.circuit().nets().len() as u32
}

/// The stem fault at a place among the stem faults.
pub(crate) fn stem_at(place: u32) -> Fault
    ensures { (t : ScanTest) → place < length (stems t) → (slice_get (stems t) place ≡ Some result) × HasSite t result }
{
    let net = place / 2;
    if place % 2 == 0 {
        Fault::Stem {
            net,
            value: Stuck::Zero,
        }
    } else {
        Fault::Stem {
            net,
            value: Stuck::One,
        }
    }
}

/// The place of a stem fault among the stem faults.
pub(crate) fn stem_place(parts: &Parts, net: u32, value: Stuck) -> Option<u32>
    ensures { FindsPlace (stems parts.now) (fault.Stem net value) result }
{
    if net as usize >= parts.circuit().nets().len() {
        return None;
    }
    match value {
        Stuck::Zero => Some(2 * net),
        Stuck::One => Some(2 * net + 1),
    }
}
