//! Notes of the places of names.
ghost use Rattle.std.specs.Prelude.{◌≡◌, ℕ, List, Some, OnOk, OnErr, if◌then◌else◌};
ghost use Rattle.std.specs.Str.{bytes_eq};
ghost use Rattle.book.specs.Places.{place_of};

use scan_model::NoMemory;
use std::alloc::Global;
use std::collections::BTreeMap;

/// Notes the place of a name, over an earlier one.
pub(super) fn note(
    alloc: Global,
    places: &mut BTreeMap<Vec<u8>, usize>,
    name: &[u8],
    place: usize,
) -> Result<(), NoMemory>
    ensures ok { OnOk result ((q : List ℕ) → place_of places.new q ≡ (if bytes_eq name.now q then Some place else place_of places.old q)) }
    ensures err { OnErr result ((q : List ℕ) → place_of places.new q ≡ place_of places.old q) }
{
    let key = Vec::from_slice(alloc, name)?;
    places.insert(key, place)?;
    Ok(())
}
