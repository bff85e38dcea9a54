//! The tables that a log is read with.

ghost use Rattle.std.specs.Prelude.{◌≡◌, ◌<◌, ◌≤◌, map, length, IfOk, replicate};
ghost use Rattle.scan_model.specs.Netlist.{net_at};
ghost use Rattle.scan_model.specs.LogText.{is_shift};
ghost use Rattle.fail_logs.specs.Frames.{rows_view};
ghost use Rattle.fail_logs.specs.Places.{with_place, places_in};

use scan_model::{Chain, Circuit, Pattern, PatternKind, Point};
use std::alloc::{AllocError, Global};
use text_parts::Names;

fn net_name(circuit: &Circuit, net: u32) -> &[u8]
    requires { net < length circuit.now.nets }
    ensures { result.now ≡ (net_at circuit.now net).name }
{
    let net = &circuit.nets().as_slice()[net as usize];
    net.name.as_slice()
}

/// The names of the outputs, in their order.
pub fn output_names(alloc: Global, circuit: &Circuit) -> Result<Names<'_>, AllocError>
    ensures { IfOk result (λ names. names ≡ map (λ n. (net_at circuit.now n).name) circuit.now.outputs) }
{
    let outputs = circuit.outputs().as_slice();
    let mut names = Names::new(alloc);
    for output in outputs {
        names.add(net_name(circuit, *output))?;
    }
    Ok(names)
}

/// The names of the chains, in file order.
pub fn chain_names(alloc: Global, chains: &[Chain]) -> Result<Names<'_>, AllocError>
    ensures { IfOk result (λ names. names ≡ map (λ h. h.name) chains.now) }
{
    let mut names = Names::new(alloc);
    for chain in chains {
        names.add(chain.name.as_slice())?;
    }
    Ok(names)
}

/// The number of cells of each chain.
pub fn chain_lengths(alloc: Global, chains: &[Chain]) -> Result<Vec<usize>, AllocError>
    ensures { IfOk result (λ v. v.items ≡ map (λ h. length h.cells) chains.now) }
{
    chains.iter().map(|chain| chain.cells.len()).collect(alloc)
}

fn is_shift(pattern: &Pattern) -> bool
    ensures { result ≡ is_shift pattern.now }
{
    match pattern.kind {
        PatternKind::Capture => false,
        PatternKind::Shift => true,
    }
}

/// Whether each pattern only shifts.
pub fn shift_marks(alloc: Global, patterns: &[Pattern]) -> Result<Vec<bool>, AllocError>
    ensures { IfOk result (λ v. v.items ≡ map is_shift patterns.now) }
{
    patterns.iter().map(is_shift).collect(alloc)
}

// A row of zeros for each chain.
fn blank_rows(alloc: Global, lengths: &[usize]) -> Result<Vec<Vec<u32>>, AllocError>
    ensures { IfOk result (λ rows. rows_view rows.items ≡ map (λ n. replicate n 0) lengths.now) }
{
    let mut rows = Vec::new(alloc);
    for length in lengths {
        rows.push(vec![in alloc; 0; *length]?)?;
    }
    Ok(rows)
}

// Writes the place of a cell. Other points have none.
fn write_place(rows: &mut [Vec<u32>], point: Point, place: u32)
    ensures { rows_view rows.new ≡ with_place (rows_view rows.old) point place }
{
    if let Point::Cell { chain, pos } = point {
        let chain = chain as usize;
        let pos = pos as usize;
        if chain < rows.len() {
            let row = &mut rows[chain];
            if pos < row.len() {
                row[pos] = place;
            }
        }
    }
}

// Writes the places of all cells.
fn write_places(rows: &mut [Vec<u32>], points: &[Point])
    requires { length points.now ≤ 131072 }
    ensures { rows_view rows.new ≡ places_in (rows_view rows.old) 0 points.now }
{
    for (k, point) in points.iter().enumerate() {
        write_place(rows, *point, k as u32);
    }
}

/// For each chain of these lengths a row with the place of each of its cells among the points.
pub fn cell_places(
    alloc: Global,
    lengths: &[usize],
    points: &[Point],
) -> Result<Vec<Vec<u32>>, AllocError>
    requires { length points.now ≤ 131072 }
    ensures { IfOk result (λ rows. rows_view rows.items ≡ places_in (map (λ n. replicate n 0) lengths.now) 0 points.now) }
{
    let mut rows = blank_rows(alloc, lengths)?;
    write_places(rows.as_mut_slice(), points);
    Ok(rows)
}
