//! The list of all faults, and the place of each in it.

ghost use Rattle.std.specs.Prelude.{◌≡◌, ◌+◌, ◌<◌, ◌^◌, length, slice_get, option_map, Some, MatchOption, IfSome, Contains, IfOk};
ghost use Rattle.scan_model.specs.ScanTest.{HasSite};
ghost use Rattle.scan_model.specs.Universe.{universe};

use crate::branches::{branch_at, branch_count, branch_place, push_branches};
use crate::bridges::{bridge_at, bridge_count, bridge_place, push_bridges};
use crate::cells::{cell_at, cell_count, cell_place, push_cells};
use crate::stems::{push_stems, stem_at, stem_count, stem_place};
use scan_model::{Fault, NoMemory, Parts, Rows};
use std::alloc::Global;

/// The list of faults, in the order of their places.
pub fn universe(alloc: Global, parts: &Parts) -> Result<Rows<Fault>, NoMemory>
    ensures { IfOk result (λ faults. faults ≡ universe parts.now) }
{
    let mut faults = Rows::new(alloc);
    push_stems(&mut faults, parts)?;
    push_branches(&mut faults, parts)?;
    push_bridges(&mut faults, parts)?;
    push_cells(&mut faults, parts)?;
    Ok(faults)
}

/// The number of faults in the list.
pub fn universe_len(parts: &Parts) -> u32
    ensures { result ≡ length (universe parts.now) }
{
    stem_count(parts) + branch_count(parts) + bridge_count(parts) + cell_count(parts)
}

/// The fault at a place, or `None` past the end of the list.
pub fn fault_at(parts: &Parts, place: u32) -> Option<Fault>
    ensures fault { result ≡ slice_get (universe parts.now) place }
    ensures site { IfSome result (HasSite parts.now) }
{
    let stems = stem_count(parts);
    if place < stems {
        return Some(stem_at(place));
    }
    let after_stems = place - stems;
    let branches = branch_count(parts);
    if after_stems < branches {
        return branch_at(parts, after_stems);
    }
    let after_branches = after_stems - branches;
    let bridges = bridge_count(parts);
    if after_branches < bridges {
        return bridge_at(parts, after_branches);
    }
    cell_at(parts, after_branches - bridges)
}

/// The place in the whole list, where so many faults of other kinds stand before.
fn list_place(before: u32, place: Option<u32>) -> Option<u32>
    requires before { before < 2 ^ 31 }
    requires place { IfSome place (λ k. k < 2 ^ 31) }
    ensures { result ≡ option_map (λ k. before + k) place }
{
    let place = place?;
    Some(before + place)
}

/// The place of a fault, or `None` where it isn't in the list.
pub fn place_of(parts: &Parts, fault: &Fault) -> Option<u32>
    ensures { MatchOption result (¬ (Contains (universe parts.now) fault.now)) (λ place. slice_get (universe parts.now) place ≡ Some fault.now) }
{
    match *fault {
        Fault::Stem { net, value } => stem_place(parts, net, value),
        Fault::Branch { pin, value } => {
            list_place(stem_count(parts), branch_place(parts, pin, value))
        }
        Fault::Bridge { a, b, kind } => {
            let before = stem_count(parts) + branch_count(parts);
            list_place(before, bridge_place(parts, a, b, kind))
        }
        Fault::Cell { chain, pos, kind } => {
            let before = stem_count(parts) + branch_count(parts) + bridge_count(parts);
            list_place(before, cell_place(parts, chain, pos, kind))
        }
    }
}
