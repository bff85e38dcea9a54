//! The netlist of a made design.
ghost use Rattle.std.specs.Prelude.{◌≡◌, ◌≤◌, ◌<◌, ◌+◌, ◌*◌, ◌++◌, ℕ, IfOk, OnOk, flat_map};
ghost use Rattle.std.specs.List.{range_with_len};
ghost use Rattle.made_laws.specs.Draws.{state_after};
ghost use Rattle.made_laws.specs.MadeNetlist.{made_netlist, input_line, output_line, cell_line, gate_word, operand_name, gate_line, gate_draw, drawn_gate, block_inputs, block_outputs, block_cells, block_gates};

use crate::block::{CELLS, GATES, INPUTS};
use crate::draws::Draws;
use crate::names::push_net;
use scan_model::{Name, NoMemory, Rows};
use std::alloc::Global;

/// How many outputs a block has.
const OUTPUTS: u32 = 5;

/// The first gate that is an output.
const FIRST_OUTPUT: u32 = 90;

/// The first gate that a cell takes.
const FIRST_TAKEN: u32 = 95;

/// At most so many bytes of the netlist are of a block: 10 lines of at most 14, 5 of 16, 5 of 21, and 100 of 33.
const BLOCK_BYTES: usize = 3_625;

/// Adds the line of an input of a block.
fn push_input(text: &mut Name, block: u32, input: u32) -> Result<(), NoMemory>
    ensures { OnOk result (text.new ≡ text.old ++ input_line block input) }
{
    text.append(b"INPUT(")?;
    push_net(text, b'i', block, input)?;
    text.append(b")\n")
}

/// Adds the lines of the inputs of a block.
fn push_inputs(text: &mut Name, block: u32) -> Result<(), NoMemory>
    ensures { OnOk result (text.new ≡ text.old ++ block_inputs block) }
{
    for input in 0..INPUTS {
        push_input(text, block, input)?;
    }
    Ok(())
}

/// Adds those of so many blocks.
fn push_all_inputs(text: &mut Name, blocks: u32) -> Result<(), NoMemory>
    ensures { OnOk result (text.new ≡ text.old ++ flat_map block_inputs (range_with_len 0 blocks)) }
{
    for block in 0..blocks {
        push_inputs(text, block)?;
    }
    Ok(())
}

/// Adds the line of a gate of a block that is an output.
fn push_output(text: &mut Name, block: u32, gate: u32) -> Result<(), NoMemory>
    ensures { OnOk result (text.new ≡ text.old ++ output_line block gate) }
{
    text.append(b"OUTPUT(")?;
    push_net(text, b'g', block, gate)?;
    text.append(b")\n")
}

/// Adds the lines of the outputs of a block.
fn push_outputs(text: &mut Name, block: u32) -> Result<(), NoMemory>
    ensures { OnOk result (text.new ≡ text.old ++ block_outputs block) }
{
    for output in 0..OUTPUTS {
        push_output(text, block, FIRST_OUTPUT + output)?;
    }
    Ok(())
}

/// Adds those of so many blocks.
fn push_all_outputs(text: &mut Name, blocks: u32) -> Result<(), NoMemory>
    ensures { OnOk result (text.new ≡ text.old ++ flat_map block_outputs (range_with_len 0 blocks)) }
{
    for block in 0..blocks {
        push_outputs(text, block)?;
    }
    Ok(())
}

/// Adds the line of a cell of a block.
fn push_cell(text: &mut Name, block: u32, cell: u32) -> Result<(), NoMemory>
    requires { cell < 5 }
    ensures { OnOk result (text.new ≡ text.old ++ cell_line block cell) }
{
    push_net(text, b'q', block, cell)?;
    text.append(b" = DFF(")?;
    push_net(text, b'g', block, FIRST_TAKEN + cell)?;
    text.append(b")\n")
}

/// Adds the lines of the cells of a block.
fn push_cells(text: &mut Name, block: u32) -> Result<(), NoMemory>
    ensures { OnOk result (text.new ≡ text.old ++ block_cells block) }
{
    for cell in 0..CELLS {
        push_cell(text, block, cell)?;
    }
    Ok(())
}

/// The word of a gate.
fn word_of(number: u32) -> &'static [u8]
    requires { number < 6 }
    ensures { result.now ≡ gate_word number }
{
    match number {
        0 => b"AND",
        1 => b"NAND",
        2 => b"OR",
        3 => b"NOR",
        4 => b"XOR",
        _ => b"XNOR",
    }
}

/// Adds the name of the net of a number among the inputs, the cells and the gates of a block.
fn push_operand(text: &mut Name, block: u32, number: u32) -> Result<(), NoMemory>
    ensures { OnOk result (text.new ≡ text.old ++ operand_name block number) }
{
    if number < INPUTS {
        push_net(text, b'i', block, number)
    } else if number < INPUTS + CELLS {
        push_net(text, b'q', block, number - INPUTS)
    } else {
        push_net(text, b'g', block, number - INPUTS - CELLS)
    }
}

/// Adds the line of a gate of a word over two operands.
fn push_gate_line(
    text: &mut Name,
    block: u32,
    gate: u32,
    word: u32,
    left: u32,
    right: u32,
) -> Result<(), NoMemory>
    requires { word < 6 }
    ensures { OnOk result (text.new ≡ text.old ++ gate_line block gate word left right) }
{
    push_net(text, b'g', block, gate)?;
    text.append(b" = ")?;
    text.append(word_of(word))?;
    text.push(b'(')?;
    push_operand(text, block, left)?;
    text.append(b", ")?;
    push_operand(text, block, right)?;
    text.append(b")\n")
}

/// Adds the line of a gate, whose word is drawn before its operands.
fn push_gate(text: &mut Name, draws: &mut Draws, block: u32, gate: u32) -> Result<(), NoMemory>
    requires { gate < 100 }
    ensures { (seed : ℕ) → draws.old.state ≡ state_after seed (gate_draw block gate) → OnOk result ((text.new ≡ text.old ++ drawn_gate seed block gate) × (draws.new.state ≡ state_after seed (gate_draw block gate + 3))) }
{
    let word = draws.draw(6);
    let left = draws.draw(INPUTS + CELLS + gate);
    let right = draws.draw(INPUTS + CELLS + gate);
    push_gate_line(text, block, gate, word, left, right)
}

/// Adds the gates of a block.
fn push_gates(text: &mut Name, draws: &mut Draws, block: u32) -> Result<(), NoMemory>
    ensures { (seed : ℕ) → draws.old.state ≡ state_after seed (gate_draw block 0) → OnOk result ((text.new ≡ text.old ++ block_gates seed block) × (draws.new.state ≡ state_after seed (gate_draw (block + 1) 0))) }
{
    for gate in 0..GATES {
        push_gate(text, draws, block, gate)?;
    }
    Ok(())
}

/// Adds the cells and the gates of so many blocks.
fn push_blocks(text: &mut Name, draws: &mut Draws, blocks: u32) -> Result<(), NoMemory>
    ensures { (seed : ℕ) → draws.old.state ≡ seed → OnOk result ((text.new ≡ text.old ++ flat_map (λ b. block_cells b ++ block_gates seed b) (range_with_len 0 blocks)) × (draws.new.state ≡ state_after seed (gate_draw blocks 0))) }
{
    for block in 0..blocks {
        push_cells(text, block)?;
        push_gates(text, draws, block)?;
    }
    Ok(())
}

/// The netlist of so many blocks, with the words and the operands of its gates drawn.
pub fn made_netlist(alloc: Global, blocks: u32, draws: &mut Draws) -> Result<Name, NoMemory>
    requires { blocks ≤ 200 }
    ensures text { (seed : ℕ) → draws.old.state ≡ seed → IfOk result (λ text. text ≡ made_netlist seed blocks) }
    ensures draws { (seed : ℕ) → draws.old.state ≡ seed → OnOk result (draws.new.state ≡ state_after seed (300 * blocks)) }
{
    let room = BLOCK_BYTES * blocks as usize;
    let mut text = Rows::from_vec(Vec::with_capacity(alloc, room)?);
    push_all_inputs(&mut text, blocks)?;
    push_all_outputs(&mut text, blocks)?;
    push_blocks(&mut text, draws, blocks)?;
    Ok(text)
}
