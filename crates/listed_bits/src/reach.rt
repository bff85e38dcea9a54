//! How far failing bits reach, in bit order.
ghost use Rattle.std.specs.Prelude.{◌≡◌, ℕ, ◌+◌, ◌^◌, ◌<◌, ◌&&◌, ◌||◌, false, length, All, nat_lt, slice_index_or};
ghost use Rattle.std.specs.List.{list_any};
ghost use Rattle.scan_model.specs.Coverage.{bit_of, not_after};
ghost use Rattle.listed_bits.specs.FailReach.{reaches, HasEnds, FitsWords};

use scan_model::Bit;

/// All points of the patterns before `pattern`, and of `pattern` the first `points`.
#[derive(Clone, Copy)]
pub struct Reach {
    pub pattern: u32,
    pub points: u32,
}

/// The reach of no bit.
const NOWHERE: Reach = Reach {
    pattern: 0,
    points: 0,
};

/// The reach that goes up to a bit, or the given one if it goes further.
fn further(reach: Reach, bit: Bit) -> Reach
    requires reach { HasEnds reach }
    requires bit { FitsWords bit }
    ensures covered { (w k : ℕ) → reaches result (bit_of w k) ≡ (reaches reach (bit_of w k) || not_after (bit_of w k) bit) }
    ensures ends { HasEnds result }
{
    if reach.pattern < bit.pattern || reach.pattern == bit.pattern && reach.points <= bit.point {
        Reach {
            pattern: bit.pattern,
            points: bit.point + 1,
        }
    } else {
        reach
    }
}

/// The reach up to the last of the bits.
pub fn reach_of(fails: &[Bit]) -> Reach
    requires { All FitsWords fails.now }
    ensures covered { (w k : ℕ) → reaches result (bit_of w k) ≡ list_any (not_after (bit_of w k)) fails.now }
    ensures ends { HasEnds result }
{
    let mut reach = NOWHERE;
    for i in 0..fails.len() {
        reach = further(reach, fails[i]);
    }
    reach
}

/// The reach up to the last of the bits at a point that is marked.
pub(crate) fn reach_of_marked(fails: &[Bit], marks: &[bool]) -> Reach
    requires fails { All FitsWords fails.now }
    requires points { All (λ b. b.point < length marks.now) fails.now }
    ensures covered { (w k : ℕ) → reaches result (bit_of w k) ≡ list_any (λ f. slice_index_or marks.now f.point false && not_after (bit_of w k) f) fails.now }
    ensures ends { HasEnds result }
{
    let mut reach = NOWHERE;
    for i in 0..fails.len() {
        if marks[fails[i].point as usize] {
            reach = further(reach, fails[i]);
        }
    }
    reach
}

/// The pattern before which a reach covers a point.
pub(crate) fn end_at(reach: Reach, point: u32) -> u32
    requires { HasEnds reach }
    ensures { (w : ℕ) → nat_lt w result ≡ reaches reach (bit_of w point) }
{
    if point < reach.points {
        reach.pattern + 1
    } else {
        reach.pattern
    }
}
