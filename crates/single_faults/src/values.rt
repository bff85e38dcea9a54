//! The values that faults force.
ghost use Rattle.std.specs.Prelude.{◌≡◌};
ghost use Rattle.scan_model.specs.Faults as model;

use scan_model::{BridgeKind, Stuck, Tri};

/// The value that a net or a pin is stuck at.
pub fn stuck_value(value: Stuck) -> Tri
    ensures { result ≡ model.stuck_value value }
{
    match value {
        Stuck::Zero => Tri::Zero,
        Stuck::One => Tri::One,
    }
}

/// The value of a bridge, from those that drive its nets.
pub fn bridge_value(kind: BridgeKind, a: Tri, b: Tri) -> Tri
    ensures { result ≡ model.bridged kind a b }
{
    kind.value(a, b)
}
