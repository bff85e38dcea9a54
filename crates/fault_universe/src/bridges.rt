//! The bridge faults, and the place of each among them.

ghost use Rattle.std.specs.Prelude.{◌≡◌, ◌++◌, ◌<◌, ◌≤◌, ◌^◌, length, slice_get, Some, OnOk, IfSome, MatchOption};
ghost use Rattle.fault_universe.specs.FaultPlaces.{FindsPlace};
ghost use Rattle.fault_universe.specs.KeptPairs.{FindsPair, IsNoneOfPair};
ghost use Rattle.scan_model.specs.declared.fault.Fault.TheVariants as fault;
ghost use Rattle.scan_model.specs.Universe.{bridge_faults, bridges};

use scan_model::{BridgeKind, Fault, NoMemory, Pair, Parts, Profile, Rows, nets_number};
use single_faults::{faults_of_pair, faults_per_pair};

/// The pairs of neighbouring nets that are kept.
fn kept_pairs(parts: &Parts) -> &[Pair]
    ensures kept { result.now ≡ parts.now.pairs.kept }
    ensures few { length result.now ≤ 65536 }
{
    parts.pairs().kept.as_slice()
}

/// Adds the faults of a pair.
fn push_pair(faults: &mut Rows<Fault>, profile: Profile, pair: &Pair) -> Result<(), NoMemory>
    ensures { OnOk result (faults.new ≡ faults.old ++ bridge_faults profile pair.now) }
{
    let all = faults_of_pair(pair);
    for fault in &all[..faults_per_pair(profile) as usize] {
        faults.push(*fault)?;
    }
    Ok(())
}

/// Adds the bridge faults, pair by pair.
pub(crate) fn push_bridges(faults: &mut Rows<Fault>, parts: &Parts) -> Result<(), NoMemory>
    ensures { OnOk result (faults.new ≡ faults.old ++ bridges parts.now) }
{
    let profile = parts.profile();
    for pair in kept_pairs(parts) {
        push_pair(faults, profile, pair)?;
    }
    Ok(())
}

/// The number of bridge faults.
pub fn bridge_count(parts: &Parts) -> u32
    ensures count { result ≡ length (bridges parts.now) }
    ensures few { length (bridges parts.now) ≤ 524288 }
{
    faults_per_pair(parts.profile()) * kept_pairs(parts).len() as u32
}

/// The bridge fault at a place among the bridge faults, or `None` past their end.
pub(crate) fn bridge_at(parts: &Parts, place: u32) -> Option<Fault>
    ensures { result ≡ slice_get (bridges parts.now) place }
{
    let pairs = kept_pairs(parts);
    let count = faults_per_pair(parts.profile());
    let at = (place / count) as usize;
    if at >= pairs.len() {
        return None;
    }
    let all = faults_of_pair(&pairs[at]);
    let faults = &all[..count as usize];
    Some(faults[(place % count) as usize])
}

/// The place of the pair of these two nets, in this order, among the kept pairs.
fn pair_place(parts: &Parts, a: u32, b: u32) -> Option<u32>
    ensures pair { FindsPair parts.now.pairs.kept a b result }
    ensures small { IfSome result (λ at. at < 65536) }
{
    let _fits = parts.pairs();
    let index = parts.pair_index().as_slice();
    let nets = nets_number(a, b);
    let Ok(at) = index.binary_search_by_key(&nets, |pair| pair.nets) else {
        return None;
    };
    Some(index[at].place)
}

/// The place of a fault in a list, where it is there.
fn number_in(faults: &[Fault], fault: Fault) -> Option<usize>
    ensures { FindsPlace faults.now fault result }
{
    for number in 0..faults.len() {
        if faults[number] == fault {
            return Some(number);
        }
    }
    None
}

/// The place of a fault of the pair of these two nets, in this order, among the bridge faults.
fn place_in_pair(parts: &Parts, a: u32, b: u32, fault: Fault) -> Option<u32>
    ensures place { MatchOption result (IsNoneOfPair parts.now a b fault) (λ place. slice_get (bridges parts.now) place ≡ Some fault) }
    ensures small { IfSome result (λ place. place < 2 ^ 31) }
{
    let at = pair_place(parts, a, b)?;
    let count = faults_per_pair(parts.profile());
    let all = faults_of_pair(&kept_pairs(parts)[at as usize]);
    let faults = &all[..count as usize];
    let number = number_in(faults, fault)?;
    Some(count * at + number as u32)
}

/// The place of a bridge fault among the bridge faults.
pub(crate) fn bridge_place(parts: &Parts, a: u32, b: u32, kind: BridgeKind) -> Option<u32>
    ensures place { FindsPlace (bridges parts.now) (fault.Bridge a b kind) result }
    ensures small { IfSome result (λ place. place < 2 ^ 31) }
{
    let fault = Fault::Bridge { a, b, kind };
    if let Some(place) = place_in_pair(parts, a, b, fault) {
        return Some(place);
    }
    place_in_pair(parts, b, a, fault)
}
