//! The faults of a pair of neighbouring nets: one list, of which each profile has so many.
ghost use Rattle.std.specs.Prelude.{◌≡◌, ◌≤◌, ◌<◌, length, take};
ghost use Rattle.scan_model.specs.declared.parts.Pair.{Pair};
ghost use Rattle.scan_model.specs.declared.fault.Profile.{Profile};
ghost use Rattle.scan_model.specs.Universe as listed;

use scan_model::{BridgeKind, Fault, Pair, Profile};

/// How many faults each pair has.
pub fn faults_per_pair(profile: Profile) -> u32
    ensures count { result ≡ listed.bridges_per_pair profile }
    ensures some { 0 < listed.bridges_per_pair profile }
    ensures few { listed.bridges_per_pair profile ≤ 8 }
    ensures each { (pair : Pair) → length (listed.bridge_faults profile pair) ≡ listed.bridges_per_pair profile }
{
    match profile {
        Profile::One => 4,
        Profile::Two => 8,
    }
}

/// The faults of a pair, in the order of their places: those that `faults_per_pair` counts are the
/// first.
pub fn faults_of_pair(pair: &Pair) -> [Fault; 8]
    ensures { (profile : Profile) → take (listed.bridges_per_pair profile) result ≡ listed.bridge_faults profile pair.now }
{
    let Pair { a, b, .. } = *pair;
    [
        bridge(a, b, BridgeKind::Dominant),
        bridge(b, a, BridgeKind::Dominant),
        bridge(a, b, BridgeKind::WiredAnd),
        bridge(a, b, BridgeKind::WiredOr),
        bridge(a, b, BridgeKind::DominantAnd),
        bridge(b, a, BridgeKind::DominantAnd),
        bridge(a, b, BridgeKind::DominantOr),
        bridge(b, a, BridgeKind::DominantOr),
    ]
}

fn bridge(a: u32, b: u32, kind: BridgeKind) -> Fault
    ensures { result ≡ Fault.Bridge a b kind }
{
    Fault::Bridge { a, b, kind }
}
