//! Where a response fails.
ghost use Rattle.std.specs.Prelude.{◌≡◌};
ghost use Rattle.scan_model.specs.Values.{are_opposite};

use scan_model::Tri;

/// Whether a value is a fail where another is expected: both are definite, and they differ. So an X predicts nothing.
pub fn is_fail(expected: Tri, value: Tri) -> bool
    ensures { result ≡ are_opposite expected value }
{
    matches!(
        (expected, value),
        (Tri::Zero, Tri::One) | (Tri::One, Tri::Zero)
    )
}
