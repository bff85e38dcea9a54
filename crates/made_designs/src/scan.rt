//! The scan chains of a made design.
ghost use Rattle.std.specs.Prelude.{◌≡◌, ◌+◌, ◌*◌, ◌<◌, ◌≤◌, ◌++◌, flat_map, IfOk, OnOk};
ghost use Rattle.std.specs.List.{range_with_len};
ghost use Rattle.made_laws.specs.MadeScan.{made_scan, chain_count, chain_blocks, cell_word, cell_words, chain_line};

use crate::block::CELLS;
use crate::names::{push_net, push_number};
use scan_model::{Name, NoMemory, Rows};
use std::alloc::Global;

/// How many blocks a chain has, if so many are left.
const CHAIN_BLOCKS: u32 = 25;

/// At most so many bytes of the scan text are of the cells of a block: 5 words of at most 7.
const BLOCK_BYTES: usize = 35;

/// At most so many bytes more are of a chain.
const CHAIN_BYTES: usize = 9;

/// How many chains so many blocks take.
pub fn chain_count(blocks: u32) -> u32
    requires { blocks ≤ 200 }
    ensures { result ≡ chain_count blocks }
{
    blocks.div_ceil(CHAIN_BLOCKS)
}

/// How many of the blocks a chain has.
pub fn chain_blocks(blocks: u32, chain: u32) -> u32
    requires { 25 * chain ≤ blocks }
    ensures { result ≡ chain_blocks blocks chain }
{
    CHAIN_BLOCKS.min(blocks - CHAIN_BLOCKS * chain)
}

/// Adds a cell of a block, after a space.
fn push_cell(text: &mut Name, block: u32, cell: u32) -> Result<(), NoMemory>
    ensures { OnOk result (text.new ≡ text.old ++ cell_word block cell) }
{
    text.push(b' ')?;
    push_net(text, b'q', block, cell)
}

/// Adds the cells of a block.
fn push_cells(text: &mut Name, block: u32) -> Result<(), NoMemory>
    ensures { OnOk result (text.new ≡ text.old ++ cell_words block) }
{
    for cell in 0..CELLS {
        push_cell(text, block, cell)?;
    }
    Ok(())
}

/// Adds the cells of so many blocks.
fn push_blocks(text: &mut Name, first: u32, count: u32) -> Result<(), NoMemory>
    requires { first + count ≤ 200 }
    ensures { OnOk result (text.new ≡ text.old ++ flat_map cell_words (range_with_len first count)) }
{
    for place in 0..count {
        push_cells(text, first + place)?;
    }
    Ok(())
}

/// Adds the line of a chain.
fn push_chain(text: &mut Name, blocks: u32, chain: u32) -> Result<(), NoMemory>
    requires few { blocks ≤ 200 }
    requires chain { 25 * chain < blocks }
    ensures { OnOk result (text.new ≡ text.old ++ chain_line blocks chain) }
{
    text.append(b"CHAIN c")?;
    push_number(text, chain)?;
    push_blocks(text, CHAIN_BLOCKS * chain, chain_blocks(blocks, chain))?;
    text.push(b'\n')
}

/// The scan text of so many blocks.
pub fn made_scan(alloc: Global, blocks: u32) -> Result<Name, NoMemory>
    requires { blocks ≤ 200 }
    ensures { IfOk result (λ text. text ≡ made_scan blocks) }
{
    let room = BLOCK_BYTES * blocks as usize + CHAIN_BYTES * chain_count(blocks) as usize;
    let mut text = Rows::from_vec(Vec::with_capacity(alloc, room)?);
    for chain in 0..chain_count(blocks) {
        push_chain(&mut text, blocks, chain)?;
    }
    Ok(text)
}
