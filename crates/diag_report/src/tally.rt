//! The bits of a log by class: how many fail and pass, and which are Conflict and Masked.
ghost use Rattle.std.specs.Prelude.{◌≡◌, ℕ, ◌+◌, ◌*◌, ◌^◌, ◌<◌, ◌≤◌, List, length, map, filter, All, IfOk, OnOk};
ghost use Rattle.scan_model.specs.declared.logs.LogFacts.{LogFacts};
ghost use Rattle.scan_model.specs.PatternText.{pattern_limit};
ghost use Rattle.scan_model.specs.Coverage.{bit_of, bits_over};
ghost use Rattle.scan_model.specs.Classes.{class_with};
ghost use Rattle.log_join.specs.Joining.{StandsFor, FitsExpected};
ghost use Rattle.log_rows.specs.PointRows.{is_on};
ghost use Rattle.fault_universe.specs.BitRows.{row_bits};
ghost use Rattle.diag_report.specs.BitTally.{tally_over, word_block, listed, listed_over, HaveSameAside, IsTallyOf};

use log_join::Joined;
use log_rows::{Side, side_word};
use scan_model::{Bit, BitClass, Expected, NoMemory, Rows};
use std::alloc::Global;

/// How many bits of a die are Failing and Passing, and which are Conflict and Masked.
#[derive(Drop)]
pub struct Tally {
    pub failing: u64,
    pub passing: u64,
    pub conflict: Rows<Bit>,
    pub masked: Rows<Bit>,
}

/// How many bits of the 64 patterns of a word are of a side.
fn count_side(
    expected: &Expected,
    joined: &Joined,
    side: Side,
    word: u32,
    patterns: u32,
    points: u32,
) -> u64
    requires expected { FitsExpected expected.now joined.now }
    requires word { 64 * word < joined.now.patterns }
    requires patterns { patterns ≡ joined.now.patterns }
    requires points { points ≡ joined.now.points }
    ensures count { (logs : List LogFacts) → StandsFor logs joined.now
        → result ≡ length (filter (λ b. is_on side (class_with expected.now logs b)) (word_block joined.now.patterns word points)) }
    ensures few { result ≤ 64 * points }
{
    let mut count = 0;
    for point in 0..points {
        let bits = side_word(joined, expected, patterns, side, word, point);
        count += u64::from(bits.count_ones());
    }
    count
}

/// The points with a Conflict or a Masked bit in some of the 64 patterns of a word, in rising order.
fn set_aside_points(
    alloc: Global,
    expected: &Expected,
    joined: &Joined,
    word: u32,
    points: u32,
) -> Result<Rows<u32>, NoMemory>
    requires expected { FitsExpected expected.now joined.now }
    requires word { 64 * word < joined.now.patterns }
    requires points { points ≡ joined.now.points }
    ensures inside { IfOk result (All (λ k. k < points)) }
    ensures aside { IfOk result (λ found. (logs : List LogFacts) → StandsFor logs joined.now → (j : ℕ) → j < 64 → 64 * word + j < joined.now.patterns
        → HaveSameAside (class_with expected.now logs) (map (bit_of (64 * word + j)) found) (row_bits (64 * word + j) points)) }
{
    let mut found = Rows::new(alloc);
    for point in 0..points {
        let bits = joined.set_aside_word(expected, word, point);
        if bits != 0 {
            found.push(point)?;
        }
    }
    Ok(found)
}

/// Lists one bit, if it is Conflict or Masked.
fn list(tally: &mut Tally, class: BitClass, bit: Bit) -> Result<(), NoMemory>
    ensures { OnOk result (tally.new ≡ listed tally.old class bit) }
{
    match class {
        BitClass::Conflict => tally.conflict.push(bit)?,
        BitClass::Masked => tally.masked.push(bit)?,
        _ => {}
    }
    Ok(())
}

/// Lists the Conflict and the Masked bits of a pattern at some points.
fn list_row(
    tally: &mut Tally,
    expected: &Expected,
    joined: &Joined,
    pattern: u32,
    points: &[u32],
) -> Result<(), NoMemory>
    requires expected { FitsExpected expected.now joined.now }
    requires pattern { pattern < joined.now.patterns }
    requires points { All (λ k. k < joined.now.points) points.now }
    ensures listed { OnOk result ((logs : List LogFacts) → StandsFor logs joined.now
        → tally.new ≡ listed_over (class_with expected.now logs) (map (bit_of pattern) points.now) tally.old) }
    ensures tally { OnOk result ((n : ℕ) → IsTallyOf joined.now.points n tally.old → IsTallyOf joined.now.points n tally.new) }
{
    for i in 0..points.len() {
        let bit = Bit {
            pattern,
            point: points[i],
        };
        let class = joined.class(expected, &bit);
        list(tally, class, bit)?;
    }
    Ok(())
}

/// Lists the Conflict and the Masked bits of the 64 patterns of a word.
fn list_word(
    alloc: Global,
    tally: &mut Tally,
    expected: &Expected,
    joined: &Joined,
    word: u32,
    patterns: u32,
    points: u32,
) -> Result<(), NoMemory>
    requires expected { FitsExpected expected.now joined.now }
    requires word { 64 * word < joined.now.patterns }
    requires patterns { patterns ≡ joined.now.patterns }
    requires points { points ≡ joined.now.points }
    ensures listed { OnOk result ((logs : List LogFacts) → StandsFor logs joined.now
        → tally.new ≡ listed_over (class_with expected.now logs) (word_block joined.now.patterns word points) tally.old) }
    ensures tally { OnOk result ((n : ℕ) → IsTallyOf joined.now.points n tally.old → IsTallyOf joined.now.points n tally.new) }
{
    let found = set_aside_points(alloc, expected, joined, word, points)?;
    let first = 64 * word;
    let end = first.saturating_add(64).min(patterns);
    for pattern in first..end {
        list_row(tally, expected, joined, pattern, found.as_slice())?;
    }
    Ok(())
}

/// Divides all bits of joined logs into the classes that the given expected values make, and lists the Conflict and the Masked
/// ones in bit order. Takes time linear in the bits, of which it reads those of 64 patterns at a time.
pub fn tally_bits(alloc: Global, expected: &Expected, joined: &Joined) -> Result<Tally, NoMemory>
    requires expected { FitsExpected expected.now joined.now }
    requires patterns { joined.now.patterns ≤ pattern_limit }
    ensures classes { (logs : List LogFacts) → StandsFor logs joined.now → IfOk result (λ tally. tally ≡ tally_over (class_with expected.now logs) (bits_over joined.now.patterns joined.now.points)) }
    ensures tally { IfOk result (IsTallyOf joined.now.points (2 ^ 62)) }
{
    let mut tally = Tally {
        failing: 0,
        passing: 0,
        conflict: Rows::new(alloc),
        masked: Rows::new(alloc),
    };
    let points = joined.points();
    let patterns = joined.patterns();
    for word in 0..(patterns + 63) / 64 {
        let failing = count_side(expected, joined, Side::Failing, word, patterns, points);
        let passing = count_side(expected, joined, Side::Passing, word, patterns, points);
        tally.failing += failing;
        tally.passing += passing;
        list_word(alloc, &mut tally, expected, joined, word, patterns, points)?;
    }
    Ok(tally)
}
