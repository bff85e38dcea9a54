//! Masks of the patterns of a word.

ghost use Rattle.std.specs.Prelude.{◌≡◌, ℕ, ◌+◌, ◌*◌, ◌/◌, ◌^◌, ◌<◌, ◌≤◌, ◌==◌, ◌&&◌, ◌||◌, length, nat_lt, nat_le};
ghost use Rattle.std.specs.Int.{bit_at};
ghost use Rattle.scan_model.specs.BitTable.{table_bit};

use crate::bits::set_bits;

/// A word whose lowest bits are 1.
fn low_bits(count: usize) -> u64
    requires { count ≤ 64 }
    ensures { (j : ℕ) → j < 64 → (bit_at result j == 1) ≡ nat_lt j count }
{
    if count == 64 {
        u64::MAX
    } else {
        (1u64 << count) - 1
    }
}

/// Those of the 64 patterns from 64 * word on that lie in first..end.
pub fn pattern_mask(word: usize, first: usize, end: usize) -> u64
    requires { word < 2 ^ 32 }
    ensures { (j : ℕ) → j < 64 → (bit_at result j == 1) ≡ (nat_le first (64 * word + j) && nat_lt (64 * word + j) end) }
{
    let base = 64 * word;
    let below_end = low_bits(end.saturating_sub(base).min(64));
    let below_first = low_bits(first.saturating_sub(base).min(64));
    below_end & !below_first
}

/// Marks the patterns from first to last in words of 64 patterns each.
pub fn mark_patterns(words: &mut [u64], first: usize, last: usize)
    requires few { last < 2 ^ 32 }
    requires inside { last / 64 < length words.old }
    ensures { (w : ℕ) → table_bit words.new 1 w 0 ≡ (nat_le first w && nat_le w last || table_bit words.old 1 w 0) }
{
    for word in first / 64..last / 64 + 1 {
        set_bits(words, 1, word, 0, pattern_mask(word, first, last + 1));
    }
}
