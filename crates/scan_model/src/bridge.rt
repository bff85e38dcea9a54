//! What a bridge makes of the values of its two nets.
ghost use Rattle.std.specs.Prelude.{◌≡◌, ℕ, ◌<◌};
ghost use Rattle.scan_model.specs.declared.values.Tri.{Tri};
ghost use Rattle.scan_model.specs.Values as values;
ghost use Rattle.scan_model.specs.Faults.{bridged, takes};

use crate::fault::BridgeKind;
use crate::values::{Tri, tri_and, tri_or};

/// Values that AND and OR join: a single one, or one for each of up to 512 patterns.
pub trait Joins: Copy {
    ghost use Rattle.scan_model.specs.declared.values.Tri.{Tri};

    /// The value in a lane.
    ghost in_lane: { Self → ℕ → Tri };

    fn and_with(self, other: Self) -> Self
        ensures { (j : ℕ) → j < 512 → in_lane result j ≡ values.tri_and (in_lane self j) (in_lane other j) };

    fn or_with(self, other: Self) -> Self
        ensures { (j : ℕ) → j < 512 → in_lane result j ≡ values.tri_or (in_lane self j) (in_lane other j) };
}

impl Joins for Tri {
    ghost in_lane = { λ value j. value };

    fn and_with(self, other: Tri) -> Tri {
        tri_and(self, other)
    }

    fn or_with(self, other: Tri) -> Tri {
        tri_or(self, other)
    }
}

impl BridgeKind {
    /// Whether a net takes the bridge's value: it is the first net of the pair, or the second. One
    /// that doesn't keeps its own.
    pub fn takes(self, is_first: bool, is_second: bool) -> bool
        ensures { result ≡ takes self is_first is_second }
    {
        match self {
            BridgeKind::Dominant | BridgeKind::WiredAnd | BridgeKind::WiredOr => {
                is_first || is_second
            }
            BridgeKind::DominantAnd | BridgeKind::DominantOr => is_second,
        }
    }

    /// The bridge's value, from the values that drive the first net and the second.
    pub fn value<V: Joins>(self, a: V, b: V) -> V
        ensures { (j : ℕ) → j < 512 → V.in_lane result j ≡ bridged self (V.in_lane a j) (V.in_lane b j) }
    {
        match self {
            BridgeKind::Dominant => a,
            BridgeKind::WiredAnd | BridgeKind::DominantAnd => a.and_with(b),
            BridgeKind::WiredOr | BridgeKind::DominantOr => a.or_with(b),
        }
    }
}
