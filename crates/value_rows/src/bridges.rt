//! Bridges over rows of values.
ghost use Rattle.std.specs.Prelude.{◌≡◌, ℕ, ◌<◌, ◌&&◌};
ghost use Rattle.scan_model.specs.Values.{are_opposite};
ghost use Rattle.bit_rows.specs.Lanes.{lane};
ghost use Rattle.value_rows.specs.Planes.{held};

use crate::packed::Packed;
use bit_rows::Row;
use scan_model::Joins;

impl Joins for Packed {
    ghost use Rattle.value_rows.specs.Planes.{held};

    ghost in_lane = { held };

    fn and_with(self, other: Packed) -> Packed {
        self.and(other)
    }

    fn or_with(self, other: Packed) -> Packed {
        self.or(other)
    }
}

/// The lanes in which a bridge flips a net that has the row `own`: the net takes the bridge's
/// value, and that is the opposite.
pub fn flipped_lanes(is_taken: bool, own: Packed, value: Packed) -> Row
    ensures { (j : ℕ) → j < 512 → lane result j ≡ (is_taken && are_opposite (held own j) (held value j)) }
{
    if is_taken {
        own.opposite(value)
    } else {
        Row::none()
    }
}
