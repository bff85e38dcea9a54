//! The lanes of one side, read off the joined logs word by word: the one place where tracing, counting and reports read them.
ghost use Rattle.std.specs.Prelude.{◌≡◌, ℕ, ◌+◌, ◌*◌, ◌^◌, ◌<◌, ◌==◌, List, length, IfOk};
ghost use Rattle.std.specs.Int.{bit_at};
ghost use Rattle.scan_model.specs.declared.logs.LogFacts.{LogFacts};
ghost use Rattle.log_join.specs.Joining.{StandsFor, FitsExpected};
ghost use Rattle.bit_rows.specs.Lanes.{lane, pattern_of};
ghost use Rattle.log_rows.specs.PointRows.{is_on_at};
ghost use Rattle.log_rows.specs.PlaceRows.{AreSideLanes};

use crate::side::Side;
use bit_rows::Row;
use log_join::Joined;
use scan_model::{Expected, NoMemory, Rows};
use std::alloc::Global;

/// The bits of a side of a point in the 64 patterns from 64 * `word` on, the first in the lowest bit; none past the last of
/// the `patterns` that were joined.
pub fn side_word(
    joined: &Joined,
    expected: &Expected,
    patterns: u32,
    side: Side,
    word: u32,
    point: u32,
) -> u64
    requires expected { FitsExpected expected.now joined.now }
    requires patterns { patterns ≡ joined.now.patterns }
    requires word { word < 2 ^ 26 }
    requires point { point < joined.now.points }
    ensures { (logs : List LogFacts) → StandsFor logs joined.now → (i : ℕ) → i < 64 → (bit_at result i == 1) ≡ is_on_at logs expected.now patterns side (64 * word + i) point }
{
    if 64 * word >= patterns {
        return 0;
    }
    match side {
        Side::Failing => joined.failing_word(expected, word, point),
        Side::Passing => joined.passing_word(expected, word, point),
    }
}

/// The lanes of a side of a point in a block.
pub(crate) fn side_row(
    joined: &Joined,
    expected: &Expected,
    patterns: u32,
    side: Side,
    block: u32,
    point: u32,
) -> Row
    requires expected { FitsExpected expected.now joined.now }
    requires patterns { patterns ≡ joined.now.patterns }
    requires block { block < 2 ^ 16 }
    requires point { point < joined.now.points }
    ensures { (logs : List LogFacts) → StandsFor logs joined.now → (j : ℕ) → j < 512 → lane result j ≡ is_on_at logs expected.now patterns side (pattern_of block j) point }
{
    let mut words = [0u64; 8];
    for at in 0..8 {
        let word = 8 * block + at as u32;
        words[at] = side_word(joined, expected, patterns, side, word, point);
    }
    Row::of_words(words)
}

/// The lanes of one side of each place of the joined logs in a block, by rows of expected values. The suspects are traced
/// back from all bits that this gives of the Failing side.
pub fn side_rows(
    alloc: Global,
    joined: &Joined,
    expected: &Expected,
    side: Side,
    block: u32,
) -> Result<Rows<Row>, NoMemory>
    requires expected { FitsExpected expected.now joined.now }
    requires block { block < 2 ^ 16 }
    ensures len { IfOk result (λ rows. length rows ≡ joined.now.points) }
    ensures lanes { (logs : List LogFacts) → StandsFor logs joined.now → IfOk result (AreSideLanes logs expected.now joined.now.patterns joined.now.points side block) }
{
    let patterns = joined.patterns();
    let points = joined.points();
    let mut rows = Vec::with_capacity(alloc, points as usize)?;
    for point in 0..points {
        rows.push(side_row(joined, expected, patterns, side, block, point))?;
    }
    Ok(Rows::from_vec(rows))
}
