//! What a fault explains and mispredicts in a pattern, bit by bit.
ghost use Rattle.std.specs.Prelude.{◌≡◌, ℕ, ◌+◌, ◌^◌, ◌<◌, ◌≤◌, ◌++◌, List, [], length, slice_index_or};
ghost use Rattle.scan_model.specs.declared.values.Tri.{Tri};
ghost use Rattle.scan_model.specs.declared.logs.Bit.{Bit};
ghost use Rattle.scan_model.specs.declared.logs.LogFacts.{LogFacts};
ghost use Rattle.log_join.specs.Joining.{StandsFor, FitsExpected};
ghost use Rattle.fault_universe.specs.BitRows.{row_bits};
ghost use Rattle.match_counts.specs.Tally.{counted, counts_over, AreAtMost};

use good_sim::is_fail;
use log_join::Joined;
use scan_model::{Bit, BitClass, Counts, Expected, Tri};

/// Counts one bit.
fn count_bit(counts: Counts, class: BitClass, predicted: bool) -> Counts
    requires { AreAtMost (2 ^ 63) counts }
    ensures counts { result ≡ counted counts class predicted }
    ensures at_most { (n : ℕ) → AreAtMost n counts → AreAtMost (n + 1) result }
{
    let mut counts = counts;
    match (class, predicted) {
        (BitClass::Failing, true) => counts.tfsf += 1,
        (BitClass::Failing, false) => counts.tfsp += 1,
        (BitClass::Passing, true) => counts.tpsf += 1,
        _ => {}
    }
    counts
}

/// Counts the bits of one pattern, given the values under a fault.
pub(crate) fn count_row(
    counts: Counts,
    expected: &Expected,
    joined: &Joined,
    pattern: u32,
    values: &[Tri],
) -> Counts
    requires expected { FitsExpected expected.now joined.now }
    requires pattern { pattern < joined.now.patterns }
    requires values { length values.now ≡ joined.now.points }
    requires few { joined.now.points ≤ 131072 }
    requires at_most { AreAtMost (2 ^ 62) counts }
    ensures counts { (logs : List LogFacts) (good bad : ℕ → List Tri) (bits : List Bit) → StandsFor logs joined.now
        → good pattern ≡ slice_index_or expected.now pattern [] → bad pattern ≡ values.now
        → counts ≡ counts_over logs good bad bits
        → result ≡ counts_over logs good bad (bits ++ row_bits pattern joined.now.points) }
    ensures at_most { (n : ℕ) → AreAtMost n counts → AreAtMost (n + joined.now.points) result }
{
    let mut sum = counts;
    for point in 0..values.len() as u32 {
        let bit = Bit { pattern, point };
        let class = joined.class(expected, &bit);
        let predicted = is_fail(expected.get(&bit), values[point as usize]);
        sum = count_bit(sum, class, predicted);
    }
    sum
}
