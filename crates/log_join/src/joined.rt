//! The logs of a die, joined.
ghost use Rattle.std.specs.Prelude.{◌≡◌, ◌<◌, ◌≤◌, ◌*◌, ◌/◌, ◌+◌, ◌&&◌, ◌||◌, ◌==◌, ◌∷◌, ◌++◌, [], ℕ, List, length, not, nat_lt, slice_index_or, IfOk};
ghost use Rattle.std.specs.Int.{bit_at};
ghost use Rattle.scan_model.specs.declared.logs.LogFacts.{LogFacts};
ghost use Rattle.scan_model.specs.BitTable.{table_bit};
ghost use Rattle.scan_model.specs.Values.{is_unknown};
ghost use Rattle.scan_model.specs.ChainShift.{value_at};
ghost use Rattle.scan_model.specs.Coverage.{bit_of, lists, covers, FitsLog};
ghost use Rattle.scan_model.specs.Classes.{class_by, class_of, is_failing, is_passing};
ghost use Rattle.log_join.specs.Joining.{StandsFor, HaveSameLogs, IsJoinedOf, FitsExpected, is_set_aside};
ghost use Rattle.log_join.specs.CoverageBits.{IsCoverageOf, is_covered};

use crate::coverage::Coverage;
use listed_bits::{copy_bits, set_listed};
use scan_model::{Bit, BitClass, Expected, LogFacts, NoMemory, Tri, bit, pattern_mask};
use std::alloc::Global;
use std::marker::Model;

/// What the logs of a die say together of each bit. It stands for a list of logs, in any order and with repeats.
#[derive(Drop)]
pub struct Joined {
    patterns: u32,
    points: u32,
    failed: Vec<u64>,
    passed: Vec<u64>,
    // What the log covers that is being joined.
    coverage: Coverage,
}

impl Model for Joined {
    ghost use Rattle.std.specs.Prelude.{◌≡◌, ◌+◌, ◌*◌, ◌/◌, vec_len};
    ghost use Rattle.log_join.specs.Joining.{JoinedBits};
    ghost use Rattle.log_join.specs.CoverageBits.{IsCoverageOf};

    ghost Value = { JoinedBits };

    ghost view = { λ j. record { patterns = j.patterns; points = j.points; failed = j.failed.items; passed = j.passed.items } };

    ghost invariant = { λ j. (vec_len j.failed ≡ (j.patterns + 63) / 64 * j.points) × (vec_len j.passed ≡ (j.patterns + 63) / 64 * j.points) × IsCoverageOf j.patterns j.points j.coverage };
}

impl Joined {
    /// No logs yet, for so many patterns and points. Takes all the memory that joining needs.
    pub fn make(alloc: Global, patterns: u32, points: u32) -> Result<Joined, NoMemory>
        ensures size { IfOk result (IsJoinedOf patterns points) }
        ensures empty { IfOk result (StandsFor []) }
    {
        let words = (patterns as usize + 63) / 64 * points as usize;
        let failed = vec![in alloc; 0u64; words]?;
        let passed = vec![in alloc; 0u64; words]?;
        let coverage = Coverage::make(alloc, patterns, points)?;
        Ok(Joined {
            patterns,
            points,
            failed,
            passed,
            coverage,
        })
    }

    /// The number of patterns.
    pub fn patterns(&self) -> u32
        ensures { result ≡ self.now.patterns }
    {
        self.patterns
    }

    /// The number of points.
    pub fn points(&self) -> u32
        ensures { result ≡ self.now.points }
    {
        self.points
    }

    /// Joins one more log. The result stands for the logs in any order and with any repeats.
    pub fn add(&mut self, facts: &LogFacts)
        requires { FitsLog self.old.patterns self.old.points facts.now }
        ensures size { IsJoinedOf self.old.patterns self.old.points self.new }
        ensures joined { (logs : List LogFacts) → StandsFor logs self.old → StandsFor (logs ++ facts.now ∷ []) self.new }
        ensures any_order { (logs others : List LogFacts) → StandsFor logs self.old → HaveSameLogs (logs ++ facts.now ∷ []) others → StandsFor others self.new }
    {
        self.coverage.take(self.patterns, self.points, facts);
        join(
            &mut self.failed,
            &mut self.passed,
            self.patterns,
            self.points,
            &self.coverage,
            facts,
        );
    }

    /// The class of a bit over all logs added.
    pub fn class(&self, expected: &Expected, at: &Bit) -> BitClass
        requires expected { FitsExpected expected.now self.now }
        requires pattern { at.now.pattern < self.now.patterns }
        requires point { at.now.point < self.now.points }
        ensures { (logs : List LogFacts) → StandsFor logs self.now → result ≡ class_of logs (value_at (slice_index_or expected.now at.now.pattern []) at.now.point) at.now }
    {
        let points = self.points as usize;
        let pattern = at.pattern as usize;
        let point = at.point as usize;
        let failed = bit(&self.failed, points, pattern, point);
        let passed = bit(&self.passed, points, pattern, point);
        class_by(failed, passed, expected.get(at))
    }

    /// The Failing bits of a point in 64 patterns: bit j is 1 exactly where pattern 64 * word + j exists and its bit is Failing.
    pub fn failing_word(&self, expected: &Expected, word: u32, point: u32) -> u64
        requires expected { FitsExpected expected.now self.now }
        requires word { 64 * word < self.now.patterns }
        requires point { point < self.now.points }
        ensures { (logs : List LogFacts) → StandsFor logs self.now → (j : ℕ) → j < 64
            → (bit_at result j == 1) ≡ (nat_lt (64 * word + j) self.now.patterns
            && is_failing (class_of logs (value_at (slice_index_or expected.now (64 * word + j) []) point) (bit_of (64 * word + j) point))) }
    {
        let place = word as usize * self.points as usize + point as usize;
        let decided = self.decided_word(expected, word, point);
        self.failed.as_slice()[place] & !self.passed.as_slice()[place] & decided
    }

    /// The Passing bits of a point in 64 patterns: bit j is 1 exactly where pattern 64 * word + j exists and its bit is Passing.
    pub fn passing_word(&self, expected: &Expected, word: u32, point: u32) -> u64
        requires expected { FitsExpected expected.now self.now }
        requires word { 64 * word < self.now.patterns }
        requires point { point < self.now.points }
        ensures { (logs : List LogFacts) → StandsFor logs self.now → (j : ℕ) → j < 64
            → (bit_at result j == 1) ≡ (nat_lt (64 * word + j) self.now.patterns
            && is_passing (class_of logs (value_at (slice_index_or expected.now (64 * word + j) []) point) (bit_of (64 * word + j) point))) }
    {
        let place = word as usize * self.points as usize + point as usize;
        let decided = self.decided_word(expected, word, point);
        self.passed.as_slice()[place] & !self.failed.as_slice()[place] & decided
    }

    /// The Conflict and the Masked bits of a point in 64 patterns, which some log lists and which are not Failing: bit j is 1
    /// exactly where pattern 64 * word + j exists and its bit is one of them.
    pub fn set_aside_word(&self, expected: &Expected, word: u32, point: u32) -> u64
        requires expected { FitsExpected expected.now self.now }
        requires word { 64 * word < self.now.patterns }
        requires point { point < self.now.points }
        ensures { (logs : List LogFacts) → StandsFor logs self.now → (j : ℕ) → j < 64
            → (bit_at result j == 1) ≡ (nat_lt (64 * word + j) self.now.patterns
            && is_set_aside (class_of logs (value_at (slice_index_or expected.now (64 * word + j) []) point) (bit_of (64 * word + j) point))) }
    {
        let place = word as usize * self.points as usize + point as usize;
        let failing = self.failing_word(expected, word, point);
        let there = pattern_mask(word as usize, 0, self.patterns as usize);
        self.failed.as_slice()[place] & !failing & there
    }

    /// The patterns that exist and whose expected value is known, of 64 at a point.
    fn decided_word(&self, expected: &Expected, word: u32, point: u32) -> u64
        requires expected { FitsExpected expected.now self.now }
        requires word { 64 * word < self.now.patterns }
        requires point { point < self.now.points }
        ensures { (j : ℕ) → j < 64 → (bit_at result j == 1) ≡ (nat_lt (64 * word + j) self.now.patterns
            && not (is_unknown (value_at (slice_index_or expected.now (64 * word + j) []) point))) }
    {
        expected.known_word(word, point) & pattern_mask(word as usize, 0, self.patterns as usize)
    }
}

/// Joins a log to the tables of what failed and what passed.
fn join(
    failed: &mut [u64],
    passed: &mut [u64],
    patterns: u32,
    points: u32,
    coverage: &Coverage,
    facts: &LogFacts,
)
    requires facts { FitsLog patterns points facts.now }
    requires coverage { IsCoverageOf patterns points coverage.now }
    requires failed { length failed.old ≡ (patterns + 63) / 64 * points }
    requires passed { length passed.old ≡ (patterns + 63) / 64 * points }
    ensures failed { (w k : ℕ) → k < points → table_bit failed.new points w k ≡ (lists facts.now (bit_of w k) || table_bit failed.old points w k) }
    ensures passed { (w k : ℕ) → k < points → table_bit passed.new points w k ≡ (is_covered coverage.now w k && not (lists facts.now (bit_of w k)) || table_bit passed.old points w k) }
{
    let width = points as usize;
    let fails = facts.fails.as_slice();
    // `failed` keeps meanwhile whether a listed bit had passed: its own bit becomes 1 in any case.
    copy_bits(passed, failed, width, fails);
    coverage.cover(passed, width);
    copy_bits(failed, passed, width, fails);
    set_listed(failed, width, fails);
}

/// The class of a bit by the tables and its expected value.
fn class_by(failed: bool, passed: bool, value: Tri) -> BitClass
    ensures { result ≡ class_by failed passed value }
{
    match (failed, passed) {
        (true, true) => BitClass::Conflict,
        (true, false) => match value {
            Tri::Unknown => BitClass::Masked,
            _ => BitClass::Failing,
        },
        (false, true) => match value {
            Tri::Unknown => BitClass::Uncounted,
            _ => BitClass::Passing,
        },
        (false, false) => BitClass::Uncounted,
    }
}
