//! The bits that a log lists, in the tables of failed and of passed bits.

ghost use Rattle.std.specs.Prelude.{◌≡◌, ℕ, ◌+◌, ◌*◌, ◌/◌, ◌<◌, ◌≤◌, ◌||◌, length, All, if◌then◌else◌};
ghost use Rattle.std.specs.List.{list_any};
ghost use Rattle.scan_model.specs.BitTable.{table_bit};
ghost use Rattle.scan_model.specs.Coverage.{bit_of, same_bit};

use scan_model::{Bit, bit, set_bit, write_bit};

/// Writes the listed bits as they are in another table.
pub fn copy_bits(from: &[u64], into: &mut [u64], points: usize, fails: &[Bit])
    requires from { All (λ b. b.pattern / 64 * points + b.point < length from.now) fails.now }
    requires into { All (λ b. b.pattern / 64 * points + b.point < length into.old) fails.now }
    requires points { All (λ b. b.point < points) fails.now }
    ensures { (w k : ℕ) → k < points → table_bit into.new points w k
        ≡ (if list_any (same_bit (bit_of w k)) fails.now then table_bit from.now points w k else table_bit into.old points w k) }
{
    for i in 0..fails.len() {
        let pattern = fails[i].pattern as usize;
        let point = fails[i].point as usize;
        let is_set = bit(from, points, pattern, point);
        write_bit(into, points, pattern, point, is_set);
    }
}

/// Sets the listed bits.
pub fn set_listed(words: &mut [u64], points: usize, fails: &[Bit])
    requires inside { All (λ b. b.pattern / 64 * points + b.point < length words.old) fails.now }
    requires points { All (λ b. b.point < points) fails.now }
    ensures { (w k : ℕ) → k < points → table_bit words.new points w k
        ≡ (list_any (same_bit (bit_of w k)) fails.now || table_bit words.old points w k) }
{
    for i in 0..fails.len() {
        set_bit(
            words,
            points,
            fails[i].pattern as usize,
            fails[i].point as usize,
        );
    }
}
