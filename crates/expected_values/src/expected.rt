//! Expected values from what places show.
ghost use Rattle.std.specs.Prelude.{◌≡◌, ℕ, ◌+◌, ◌*◌, ◌/◌, ◌<◌, min, List, All, length, IfOk, OnOk};
ghost use Rattle.scan_model.specs.declared.values.Tri.{Tri};
ghost use Rattle.expected_values.specs.ResponseWords.{AreResponseWords, ShowsBlock};

use crate::response_rows::ResponseRows;
use lane_rows::Packed;
use scan_model::{Expected, NoMemory, Rows};
use std::alloc::Global;

/// The patterns of a word.
const WORD_PATTERNS: usize = 64;

/// The patterns of a block.
const BLOCK_PATTERNS: usize = 512;

/// The words of a block.
const BLOCK_WORDS: usize = 8;

/// The responses of all places: a word for each place in the first 64 patterns, then in the next 64, and so on.
#[derive(Drop)]
struct ResponseWords {
    known: Rows<u64>,
    ones: Rows<u64>,
}

/// No words yet, with room for so many.
fn no_words(alloc: Global, room: usize) -> Result<ResponseWords, NoMemory>
    ensures { (table : List (List Tri)) (places : ℕ) → IfOk result (AreResponseWords table places 0) }
{
    Ok(ResponseWords {
        known: Rows::from_vec(Vec::with_capacity(alloc, room)?),
        ones: Rows::from_vec(Vec::with_capacity(alloc, room)?),
    })
}

/// What the places show in a block.
fn block_rows<S: ResponseRows>(
    alloc: Global,
    shown: &S,
    block: usize,
    places: u32,
) -> Result<Vec<Packed>, NoMemory>
    requires ready { S.ready shown.now }
    requires block { 512 * block < length (S.table shown.now) }
    requires places { S.places shown.now ≡ places }
    ensures { IfOk result (λ rows. ShowsBlock (S.table shown.now) places block rows.items) }
{
    let mut rows = Vec::with_capacity(alloc, places as usize)?;
    for place in 0..places {
        rows.push(shown.row(block, place))?;
    }
    Ok(rows)
}

/// Adds what the places show in the 64 patterns of a word, from what they show in its block.
fn push_word(rows: &[Packed], word: usize, words: &mut ResponseWords) -> Result<(), NoMemory>
    ensures { (table : List (List Tri)) → ShowsBlock table (length rows.now) (word / 8) rows.now → AreResponseWords table (length rows.now) (word * length rows.now) words.old
        → OnOk result (AreResponseWords table (length rows.now) (word * length rows.now + length rows.now) words.new) }
{
    for row in rows {
        let ones = row.ones().word(word % BLOCK_WORDS);
        let zeros = row.zeros().word(word % BLOCK_WORDS);
        words.known.push(ones | zeros)?;
        words.ones.push(ones)?;
    }
    Ok(())
}

/// Adds what the places show in a block, word by word, up to the last word that has a pattern.
fn push_block<S: ResponseRows>(
    alloc: Global,
    shown: &S,
    block: usize,
    patterns: u32,
    places: u32,
    words: &mut ResponseWords,
) -> Result<(), NoMemory>
    requires ready { S.ready shown.now }
    requires patterns { length (S.table shown.now) ≡ patterns }
    requires block { 512 * block < patterns }
    requires places { S.places shown.now ≡ places }
    requires before { AreResponseWords (S.table shown.now) places (8 * block * places) words.old }
    ensures { OnOk result (AreResponseWords (S.table shown.now) places (min (8 * block + 8) ((patterns + 63) / 64) * places) words.new) }
{
    let rows = block_rows(alloc, shown, block, places)?;
    let first = BLOCK_WORDS * block;
    let last = (patterns as usize).div_ceil(WORD_PATTERNS);
    for word in first..last.min(first + BLOCK_WORDS) {
        push_word(&rows, word, words)?;
    }
    Ok(())
}

/// The expected values at some places in all patterns of a test. Takes room for 512 patterns of each place besides. The only
/// error is want of memory.
pub fn expected_of<S: ResponseRows>(
    alloc: Global,
    shown: &S,
    patterns: u32,
    places: u32,
) -> Result<Expected, NoMemory>
    requires ready { S.ready shown.now }
    requires patterns { length (S.table shown.now) ≡ patterns }
    requires places { S.places shown.now ≡ places }
    requires whole { All (λ row. length row ≡ places) (S.table shown.now) }
    ensures { IfOk result (λ expected. expected ≡ S.table shown.now) }
{
    let count = (patterns as usize).div_ceil(WORD_PATTERNS);
    let mut words = no_words(alloc, count.saturating_mul(places as usize))?;
    for block in 0..(patterns as usize).div_ceil(BLOCK_PATTERNS) {
        push_block(alloc, shown, block, patterns, places, &mut words)?;
    }
    let ResponseWords { known, ones } = words;
    Ok(Expected::of_words(patterns, places, known, ones))
}
