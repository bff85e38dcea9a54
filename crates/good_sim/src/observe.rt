//! What outputs show, what cells capture, and the values of the points.
ghost use Rattle.std.specs.Prelude.{◌≡◌, ◌<◌, length, map, All, IfOk};
ghost use Rattle.scan_model.specs.ChainShift.{value_at};
ghost use Rattle.scan_model.specs.ScanTest.{IsFlop};
ghost use Rattle.scan_model.specs.Netlist.{driver_of};
ghost use Rattle.scan_model.specs.NetValue.{seen};
ghost use Rattle.scan_model.specs.Response.{output_pin, data_pin, is_at_output as model_is_at_output};
ghost use Rattle.single_faults.specs.Effect.{forces, FitsEffect};
ghost use Rattle.good_sim.specs.PointValues as shown;

use crate::evaluate::pin_value;
use scan_model::{Circuit, NoMemory, Parts, PinPlace, Point, Rows, Tri};
use single_faults::Effect;
use std::alloc::Global;

/// Whether a pin is that of an output.
fn is_at_output(place: PinPlace, output: usize) -> bool
    ensures { result ≡ model_is_at_output output place }
{
    match place {
        PinPlace::Operand { .. } => false,
        PinPlace::Output { place } => place as usize == output,
    }
}

/// What is forced on the pin of an output. The forced pin tells by its place, so that no pin is searched for.
fn on_output(circuit: &Circuit, effect: Effect, output: usize) -> Option<Tri>
    requires output { output < length circuit.now.outputs }
    requires effect { FitsEffect (length circuit.now.pins) effect }
    ensures { result ≡ (forces effect).pin (output_pin circuit.now output) }
{
    match effect {
        Effect::Pin { pin, value } => {
            if is_at_output(circuit.pins().as_slice()[pin as usize].place, output) {
                Some(value)
            } else {
                None
            }
        }
        Effect::Nothing | Effect::Net { .. } | Effect::Bridge { .. } => None,
    }
}

/// What an output shows.
fn output_value(circuit: &Circuit, values: &[Tri], effect: Effect, output: usize) -> Tri
    requires output { output < length circuit.now.outputs }
    requires values { length values.now ≡ length circuit.now.nets }
    requires effect { FitsEffect (length circuit.now.pins) effect }
    ensures { result ≡ seen circuit.now (forces effect) (value_at values.now) (output_pin circuit.now output) }
{
    match on_output(circuit, effect, output) {
        Some(value) => value,
        None => values[circuit.outputs().as_slice()[output] as usize],
    }
}

/// What the outputs show.
pub(crate) fn output_values(
    alloc: Global,
    circuit: &Circuit,
    values: &[Tri],
    effect: Effect,
) -> Result<Vec<Tri>, NoMemory>
    requires values { length values.now ≡ length circuit.now.nets }
    requires effect { FitsEffect (length circuit.now.pins) effect }
    ensures { IfOk result (λ row. row.items ≡ shown.outputs_over circuit.now (forces effect) (value_at values.now)) }
{
    let mut row = Vec::new(alloc);
    for output in 0..circuit.outputs().len() {
        row.push(output_value(circuit, values, effect, output))?;
    }
    Ok(row)
}

/// What a cell captures.
fn captured(circuit: &Circuit, values: &[Tri], effect: Effect, cell: u32) -> Tri
    requires cell { cell < length circuit.now.nets }
    requires is_flop { IsFlop (driver_of circuit.now cell) }
    requires values { length values.now ≡ length circuit.now.nets }
    ensures { result ≡ seen circuit.now (forces effect) (value_at values.now) (data_pin circuit.now cell) }
{
    let pin = circuit.nets().as_slice()[cell as usize].first_pin;
    pin_value(circuit, values, effect, pin as usize)
}

/// What the cells of a chain capture.
fn captured_row(
    alloc: Global,
    circuit: &Circuit,
    values: &[Tri],
    effect: Effect,
    cells: &[u32],
) -> Result<Rows<Tri>, NoMemory>
    requires cells { All (λ n. (n < length circuit.now.nets) × IsFlop (driver_of circuit.now n)) cells.now }
    requires values { length values.now ≡ length circuit.now.nets }
    ensures { IfOk result (λ row. row ≡ shown.captured_over circuit.now (forces effect) (value_at values.now) cells.now) }
{
    let mut row = Vec::new(alloc);
    for cell in cells {
        row.push(captured(circuit, values, effect, *cell))?;
    }
    Ok(Rows::from_vec(row))
}

/// What each chain captures.
pub(crate) fn captured_rows(
    alloc: Global,
    parts: &Parts,
    values: &[Tri],
    effect: Effect,
) -> Result<Vec<Rows<Tri>>, NoMemory>
    requires { length values.now ≡ length parts.now.netlist.nets }
    ensures { IfOk result (λ rows. rows.items ≡ shown.captured_rows_over parts.now.netlist (forces effect) (value_at values.now) parts.now.chains) }
{
    let circuit = parts.circuit();
    let chains = parts.chains().as_slice();
    let mut rows = Vec::new(alloc);
    for chain in chains {
        rows.push(captured_row(alloc, circuit, values, effect, chain.cells.as_slice())?)?;
    }
    Ok(rows)
}

/// What a point shows.
fn value_of_point(outputs: &[Tri], rows: &[Rows<Tri>], point: Point) -> Tri
    requires { shown.HasPoint outputs.now rows.now point }
    ensures { result ≡ shown.shown_at outputs.now rows.now point }
{
    match point {
        Point::Output { place } => outputs[place as usize],
        Point::Cell { chain, pos } => rows[chain as usize].as_slice()[pos as usize],
    }
}

/// What the points show, from the values of the outputs and the rows that the chains unload.
pub(crate) fn values_of_points(
    alloc: Global,
    points: &[Point],
    outputs: &[Tri],
    rows: &[Rows<Tri>],
) -> Result<Rows<Tri>, NoMemory>
    requires { All (shown.HasPoint outputs.now rows.now) points.now }
    ensures { IfOk result (λ values. values ≡ map (shown.shown_at outputs.now rows.now) points.now) }
{
    let mut values = Vec::new(alloc);
    for point in points {
        values.push(value_of_point(outputs, rows, *point))?;
    }
    Ok(Rows::from_vec(values))
}
