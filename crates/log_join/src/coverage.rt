//! What one log covers, while it is joined.
ghost use Rattle.std.specs.Prelude.{◌≡◌, ℕ, ◌+◌, ◌*◌, ◌/◌, ◌%◌, ◌^◌, ◌<◌, ◌≤◌, ◌==◌, ◌&&◌, ◌||◌, not, length, All, IfOk, nat_lt, slice_index_or};
ghost use Rattle.std.specs.List.{list_any, list_all};
ghost use Rattle.std.specs.Int.{bit_at};
ghost use Rattle.scan_model.specs.BitTable.{table_bit};
ghost use Rattle.scan_model.specs.Coverage.{bit_of, not_after, some_holds, has_point, group_goes_on, covers, FitsLog};
ghost use Rattle.log_join.specs.CoverageBits.{IsCoverageOf, is_covered};
ghost use Rattle.listed_bits.specs.FailReach.{reaches, HasEnds, FitsWords, AreUnmarked};

use listed_bits::{Reach, cut_groups, reach_of, set_ends};
use scan_model::{LogFacts, NoMemory, Range, mark_patterns, pattern_mask, set_bits};
use std::alloc::Global;
use std::marker::Model;

/// The patterns that a log tested, and for each point the pattern before which the log covers it.
#[derive(Drop)]
pub struct Coverage {
    // A word for 64 patterns.
    tested: Vec<u64>,
    // By point.
    ends: Vec<u32>,
    // By point; all are clear between two groups.
    marks: Vec<bool>,
}

impl Model for Coverage {
    ghost use Rattle.std.specs.Prelude.{◌≡◌, vec_len};
    ghost use Rattle.log_join.specs.CoverageBits.{CoverageBits};
    ghost use Rattle.listed_bits.specs.FailReach.{AreUnmarked};

    ghost Value = { CoverageBits };

    ghost view = { λ c. record { tested = c.tested.items; ends = c.ends.items } };

    ghost invariant = { λ c. (vec_len c.marks ≡ vec_len c.ends) × AreUnmarked c.marks.items };
}

/// Marks the tested patterns.
fn mark_tested(tested: &mut [u64], ranges: &[Range])
    requires { All (λ r. r.last / 64 < length tested.old) ranges.now }
    ensures { (w : ℕ) → table_bit tested.new 1 w 0 ≡ some_holds ranges.now w }
{
    tested.fill(0);
    for i in 0..ranges.len() {
        mark_patterns(tested, ranges[i].first as usize, ranges[i].last as usize);
    }
}

/// How far a log covers the points that no group has.
fn reach_of_log(patterns: u32, facts: &LogFacts) -> Reach
    requires { All FitsWords facts.now.fails }
    ensures covered { (w k : ℕ) → w < patterns → reaches result (bit_of w k) ≡ (not facts.now.truncated || list_any (not_after (bit_of w k)) facts.now.fails) }
    ensures ends { HasEnds result }
{
    if facts.truncated {
        reach_of(facts.fails.as_slice())
    } else {
        Reach {
            pattern: patterns,
            points: 0,
        }
    }
}

/// Sets the ends to those of a log.
fn find_ends(ends: &mut [u32], marks: &mut [bool], patterns: u32, points: u32, facts: &LogFacts)
    requires fails { All FitsWords facts.now.fails }
    requires points { All (λ b. b.point < points) facts.now.fails }
    requires cuts { All (All (λ k. k < points)) facts.now.cuts }
    requires ends { length ends.old ≡ points }
    requires marks { (length marks.old ≡ points) × AreUnmarked marks.old }
    ensures ends { (w k : ℕ) → w < patterns → k < points → nat_lt w (slice_index_or ends.new k 0)
        ≡ ((not facts.now.truncated || list_any (not_after (bit_of w k)) facts.now.fails)
        && list_all (λ group. not (has_point group k) || group_goes_on facts.now (bit_of w k) group) facts.now.cuts) }
    ensures marks { AreUnmarked marks.new }
{
    let reach = reach_of_log(patterns, facts);
    set_ends(ends, points, reach);
    cut_groups(ends, marks, facts);
}

/// Covers those of the 64 patterns from 64 * word on that the mask names, at all points.
fn cover_whole_word(words: &mut [u64], points: usize, word: usize, mask: u64)
    requires { word * points + points ≤ length words.old }
    ensures { (w k : ℕ) → k < points → table_bit words.new points w k ≡ ((w / 64 == word) && (bit_at mask (w % 64) == 1) || table_bit words.old points w k) }
{
    for point in 0..points {
        set_bits(words, points, word, point, mask);
    }
}

/// Covers those of the 64 patterns from 64 * word on that the mask names, at each point before its
/// end.
fn cover_word(words: &mut [u64], points: usize, word: usize, mask: u64, ends: &[u32])
    requires few { word < 2 ^ 32 }
    requires ends { length ends.now ≡ points }
    requires inside { word * points + points ≤ length words.old }
    ensures { (w k : ℕ) → k < points → table_bit words.new points w k
        ≡ ((w / 64 == word) && ((bit_at mask (w % 64) == 1) && nat_lt w (slice_index_or ends.now k 0)) || table_bit words.old points w k) }
{
    for point in 0..points {
        let before = pattern_mask(word, 0, ends[point] as usize);
        set_bits(words, points, word, point, mask & before);
    }
}

/// The tested patterns at each point before its end, of the 64 from 64 * word on. Points that end
/// later need no masks of their own.
fn cover_tested(words: &mut [u64], points: usize, word: usize, mask: u64, ends: &[u32], least: u32)
    requires few { word < 2 ^ 32 }
    requires ends { length ends.now ≡ points }
    requires least { All (λ end. least ≤ end) ends.now }
    requires inside { word * points + points ≤ length words.old }
    ensures { (w k : ℕ) → k < points → table_bit words.new points w k
        ≡ ((w / 64 == word) && ((bit_at mask (w % 64) == 1) && nat_lt w (slice_index_or ends.now k 0)) || table_bit words.old points w k) }
{
    if mask == 0 {
        return;
    }
    if word < least as usize / 64 {
        cover_whole_word(words, points, word, mask);
    } else {
        cover_word(words, points, word, mask, ends);
    }
}

/// The least of the ends.
fn least_end(ends: &[u32]) -> u32
    ensures { All (λ end. result ≤ end) ends.now }
{
    let mut least = u32::MAX;
    for i in 0..ends.len() {
        least = least.min(ends[i]);
    }
    least
}

/// Covers the tested patterns at each point before its end.
fn cover_words(words: &mut [u64], points: usize, tested: &[u64], ends: &[u32])
    requires few { length tested.now ≤ 2 ^ 32 }
    requires ends { length ends.now ≡ points }
    requires inside { length tested.now * points ≤ length words.old }
    ensures { (w k : ℕ) → k < points → table_bit words.new points w k
        ≡ (table_bit tested.now 1 w 0 && nat_lt w (slice_index_or ends.now k 0) || table_bit words.old points w k) }
{
    let least = least_end(ends);
    for word in 0..tested.len() {
        cover_tested(words, points, word, tested[word], ends, least);
    }
}

impl Coverage {
    /// No patterns yet, for so many patterns and points.
    pub fn make(alloc: Global, patterns: u32, points: u32) -> Result<Coverage, NoMemory>
        ensures { IfOk result (IsCoverageOf patterns points) }
    {
        let words = (patterns as usize + 63) / 64;
        let tested = vec![in alloc; 0u64; words]?;
        let ends = vec![in alloc; 0u32; points as usize]?;
        let marks = vec![in alloc; false; points as usize]?;
        Ok(Coverage {
            tested,
            ends,
            marks,
        })
    }

    /// Takes what a log covers, in place of what another did.
    pub fn take(&mut self, patterns: u32, points: u32, facts: &LogFacts)
        requires size { IsCoverageOf patterns points self.old }
        requires facts { FitsLog patterns points facts.now }
        ensures size { IsCoverageOf patterns points self.new }
        ensures covered { (w k : ℕ) → w < patterns → k < points
            → covers facts.now (bit_of w k) ≡ is_covered self.new w k }
    {
        mark_tested(&mut self.tested, facts.ranges.as_slice());
        find_ends(&mut self.ends, &mut self.marks, patterns, points, facts);
    }

    /// Sets the bits that are covered.
    pub fn cover(&self, words: &mut [u64], points: usize)
        requires points { length self.now.ends ≡ points }
        requires few { length self.now.tested ≤ 2 ^ 32 }
        requires inside { length self.now.tested * points ≤ length words.old }
        ensures { (w k : ℕ) → k < points → table_bit words.new points w k ≡ (is_covered self.now w k || table_bit words.old points w k) }
    {
        cover_words(words, points, &self.tested, &self.ends);
    }
}
