//! The patterns of a made design.
ghost use Rattle.std.specs.Prelude.{◌≡◌, ℕ, ◌+◌, ◌*◌, ◌≤◌, ◌++◌, length, take, flat_map, IfOk, OnOk};
ghost use Rattle.std.specs.List.{range_with_len};
ghost use Rattle.made_laws.specs.Draws.{state_after};
ghost use Rattle.made_laws.specs.MadePatterns.{made_patterns, first_draw, drawn_digits, load_words, shift_line, capture_line, pattern_line};

use crate::block::{CELLS, INPUTS};
use crate::draws::Draws;
use crate::scan::{chain_blocks, chain_count};
use scan_model::{Name, NoMemory, Rows};
use std::alloc::Global;

/// How many patterns there are.
const PATTERNS: u32 = 512;

/// Each so many-th pattern shifts alone, from the first on.
const SHIFT_EACH: u32 = 64;

/// At most so many bytes of a line are neither a digit nor the space before a load.
const LINE_BYTES: u32 = 9;

/// At most so many digits are drawn one after another: those of the inputs of 200 blocks.
const MOST_DIGITS: usize = 2_000;

/// Writes a digit 0 or 1 for each of so many draws.
fn write_digits(digits: &mut [u8], draws: &mut Draws, count: u32)
    requires { count ≤ length digits.old }
    ensures digits { (seed i : ℕ) → draws.old.state ≡ state_after seed i → take count digits.new ≡ drawn_digits seed i count }
    ensures draws { (seed i : ℕ) → draws.old.state ≡ state_after seed i → draws.new.state ≡ state_after seed (i + count) }
{
    for place in 0..count as usize {
        digits[place] = b'0' + draws.draw(2) as u8;
    }
}

/// Adds a digit 0 or 1 for each of so many draws.
fn push_digits(text: &mut Name, draws: &mut Draws, count: u32) -> Result<(), NoMemory>
    requires { count ≤ 2000 }
    ensures text { (seed i : ℕ) → draws.old.state ≡ state_after seed i → OnOk result (text.new ≡ text.old ++ drawn_digits seed i count) }
    ensures draws { (seed i : ℕ) → draws.old.state ≡ state_after seed i → OnOk result (draws.new.state ≡ state_after seed (i + count)) }
{
    let mut digits = [0; MOST_DIGITS];
    write_digits(&mut digits, draws, count);
    text.append(&digits[..count as usize])
}

/// Adds the load of each chain, after a space.
fn push_loads(text: &mut Name, draws: &mut Draws, blocks: u32) -> Result<(), NoMemory>
    requires { blocks ≤ 200 }
    ensures text { (seed i : ℕ) → draws.old.state ≡ state_after seed i → OnOk result (text.new ≡ text.old ++ load_words seed blocks i) }
    ensures draws { (seed i : ℕ) → draws.old.state ≡ state_after seed i → OnOk result (draws.new.state ≡ state_after seed (i + 5 * blocks)) }
{
    for chain in 0..chain_count(blocks) {
        text.push(b' ')?;
        push_digits(text, draws, CELLS * chain_blocks(blocks, chain))?;
    }
    Ok(())
}

/// Adds the line of a pattern that shifts alone.
fn push_shift(text: &mut Name, draws: &mut Draws, blocks: u32) -> Result<(), NoMemory>
    requires { blocks ≤ 200 }
    ensures text { (seed i : ℕ) → draws.old.state ≡ state_after seed i → OnOk result (text.new ≡ text.old ++ shift_line seed blocks i) }
    ensures draws { (seed i : ℕ) → draws.old.state ≡ state_after seed i → OnOk result (draws.new.state ≡ state_after seed (i + 5 * blocks)) }
{
    text.append(b"SHIFT")?;
    push_loads(text, draws, blocks)?;
    text.push(b'\n')
}

/// Adds the line of a pattern that captures.
fn push_capture(text: &mut Name, draws: &mut Draws, blocks: u32) -> Result<(), NoMemory>
    requires { blocks ≤ 200 }
    ensures text { (seed i : ℕ) → draws.old.state ≡ state_after seed i → OnOk result (text.new ≡ text.old ++ capture_line seed blocks i) }
    ensures draws { (seed i : ℕ) → draws.old.state ≡ state_after seed i → OnOk result (draws.new.state ≡ state_after seed (i + 15 * blocks)) }
{
    text.append(b"CAPTURE ")?;
    push_digits(text, draws, INPUTS * blocks)?;
    push_loads(text, draws, blocks)?;
    text.push(b'\n')
}

/// Adds the line of a pattern.
fn push_pattern(
    text: &mut Name,
    draws: &mut Draws,
    blocks: u32,
    pattern: u32,
) -> Result<(), NoMemory>
    requires { blocks ≤ 200 }
    ensures text { (seed : ℕ) → draws.old.state ≡ state_after seed (first_draw blocks pattern) → OnOk result (text.new ≡ text.old ++ pattern_line seed blocks pattern) }
    ensures draws { (seed : ℕ) → draws.old.state ≡ state_after seed (first_draw blocks pattern) → OnOk result (draws.new.state ≡ state_after seed (first_draw blocks (pattern + 1))) }
{
    if pattern % SHIFT_EACH == 0 {
        push_shift(text, draws, blocks)
    } else {
        push_capture(text, draws, blocks)
    }
}

/// The first so many patterns.
fn first_patterns(
    alloc: Global,
    blocks: u32,
    count: u32,
    draws: &mut Draws,
) -> Result<Name, NoMemory>
    requires { blocks ≤ 200 }
    ensures text { (seed : ℕ) → draws.old.state ≡ state_after seed (300 * blocks) → IfOk result (λ text. text ≡ flat_map (pattern_line seed blocks) (range_with_len 0 count)) }
    ensures draws { (seed : ℕ) → draws.old.state ≡ state_after seed (300 * blocks) → OnOk result (draws.new.state ≡ state_after seed (first_draw blocks count)) }
{
    let line = (INPUTS + CELLS) * blocks + chain_count(blocks) + LINE_BYTES;
    let room = line as usize * count as usize;
    let mut text = Rows::from_vec(Vec::with_capacity(alloc, room)?);
    for pattern in 0..count {
        push_pattern(&mut text, draws, blocks, pattern)?;
    }
    Ok(text)
}

/// The patterns of so many blocks, with their values drawn after the gates.
pub fn made_patterns(alloc: Global, blocks: u32, draws: &mut Draws) -> Result<Name, NoMemory>
    requires { blocks ≤ 200 }
    ensures text { (seed : ℕ) → draws.old.state ≡ state_after seed (300 * blocks) → IfOk result (λ text. text ≡ made_patterns seed blocks) }
    ensures draws { (seed : ℕ) → draws.old.state ≡ state_after seed (300 * blocks) → OnOk result (draws.new.state ≡ state_after seed (first_draw blocks 512)) }
{
    first_patterns(alloc, blocks, PATTERNS, draws)
}
