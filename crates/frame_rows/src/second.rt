//! The fault-free rows of the second frame, from those of the first.
ghost use Rattle.std.specs.Prelude.{◌≡◌, ℕ, ◌<◌, length, IfOk};
ghost use Rattle.lane_rows.specs.Planes.{held};
ghost use Rattle.lane_rows.specs.Sources.{lane_values};
ghost use Rattle.lane_rows.specs.GoodRows.{AreBlockRows, AreGoodRows};
ghost use Rattle.lane_rows.specs.Stimuli.{AreRowsOf};
ghost use Rattle.frame_rows.specs.SecondRows.{next_value, second_stimuli, IsNextBlock};

use lane_rows::{Block, GoodRows, Packed, evaluated};
use scan_model::{Circuit, Driver, NoMemory, Parts, Rows, Tri};
use std::alloc::Global;

/// What drives a net in the second frame: an input holds, and a flop has what its data pin saw in the first.
fn next_row(circuit: &Circuit, first: &[Packed], net: u32) -> Packed
    requires net { net < length circuit.now.nets }
    requires first { length first.now ≡ length circuit.now.nets }
    ensures { (j : ℕ) → j < 512 → held result j ≡ next_value circuit.now (lane_values first.now j) net }
{
    match circuit.nets().as_slice()[net as usize].driver {
        Driver::Input => first[net as usize],
        Driver::Flop => first[circuit.data_net(net) as usize],
        Driver::Gate(_) => Packed::all(Tri::Unknown),
    }
}

/// What drives each net in the second frame.
fn next_sources(alloc: Global, circuit: &Circuit, first: &[Packed]) -> Result<Vec<Packed>, NoMemory>
    requires { length first.now ≡ length circuit.now.nets }
    ensures len { IfOk result (λ rows. length rows.items ≡ length circuit.now.nets) }
    ensures value { IfOk result (λ rows. (j n : ℕ) → j < 512 → n < length circuit.now.nets → lane_values rows.items j n ≡ next_value circuit.now (lane_values first.now j) n) }
{
    let _ = circuit.nets();
    let mut rows = Vec::with_capacity(alloc, first.len())?;
    for net in 0..first.len() {
        rows.push(next_row(circuit, first, net as u32))?;
    }
    Ok(rows)
}

/// The second frame of a block.
fn next_block(alloc: Global, parts: &Parts, first: &Block) -> Result<Block, NoMemory>
    requires { length first.now.values ≡ length parts.now.netlist.nets }
    ensures { IfOk result (λ next. (b : ℕ) → AreBlockRows parts.now b first.now → IsNextBlock parts.now b next) }
{
    let circuit = parts.circuit();
    let _ = circuit.order();
    let sources = next_sources(alloc, circuit, first.values.as_slice())?;
    let values = evaluated(sources, circuit);
    Ok(Block {
        values: Rows::from_vec(values),
        capture: first.capture,
        shift: first.shift,
    })
}

/// The rows of the second frame. The only error is want of memory.
pub fn second_rows(alloc: Global, parts: &Parts, first: &GoodRows) -> Result<GoodRows, NoMemory>
    requires { AreGoodRows parts.now first.now }
    ensures { IfOk result (AreRowsOf parts.now.netlist (second_stimuli parts.now)) }
{
    let mut blocks = Vec::new(alloc);
    for block in first.blocks() {
        blocks.push(next_block(alloc, parts, block)?)?;
    }
    Ok(GoodRows::of_blocks(Rows::from_vec(blocks)))
}
