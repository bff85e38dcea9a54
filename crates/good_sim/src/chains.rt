//! The rows of chains as they are loaded or unloaded past a fault of a shift path.
ghost use Rattle.std.specs.Prelude.{◌≡◌, ◌<◌, length, IfOk};
ghost use Rattle.good_sim.specs.Shifts.{shifted_past, shifted, shifted_rows, SitsWithin, SitsWithinRows};

use chain_faults::{faulty_load, faulty_unload};
use scan_model::{CellKind, Fault, NoMemory, Rows, Tri};
use std::alloc::Global;

/// Which way rows move through the chains: in as they are loaded, out as they are unloaded.
#[derive(Clone, Copy)]
pub(crate) enum Direction {
    In,
    Out,
}

/// Writes what becomes of a row that moves past a fault.
fn shift_past(direction: Direction, kind: CellKind, pos: usize, row: &[Tri], into: &mut [Tri])
    requires lengths { length into.old ≡ length row.now }
    requires position { pos < length row.now }
    ensures { into.new ≡ shifted_past direction kind pos row.now }
{
    match direction {
        Direction::In => faulty_load(kind, pos, row, into),
        Direction::Out => faulty_unload(kind, pos, row, into),
    }
}

/// What becomes of a row that moves past a fault.
fn faulty_row(
    alloc: Global,
    direction: Direction,
    kind: CellKind,
    pos: usize,
    row: &[Tri],
) -> Result<Rows<Tri>, NoMemory>
    requires { pos < length row.now }
    ensures { IfOk result (λ moved. moved ≡ shifted_past direction kind pos row.now) }
{
    let mut moved = vec![in alloc; Tri::Unknown; row.len()]?;
    shift_past(direction, kind, pos, row, &mut moved);
    Ok(Rows::from_vec(moved))
}

/// A copy of a row.
fn same_row(alloc: Global, row: &[Tri]) -> Result<Rows<Tri>, NoMemory>
    ensures { IfOk result (λ moved. moved ≡ row.now) }
{
    Ok(Rows::from_vec(Vec::from_slice(alloc, row)?))
}

/// What becomes of the row of a chain.
fn shift_row(
    alloc: Global,
    direction: Direction,
    fault: Option<Fault>,
    chain: usize,
    row: &[Tri],
) -> Result<Rows<Tri>, NoMemory>
    requires { SitsWithin fault chain (length row.now) }
    ensures { IfOk result (λ moved. moved ≡ shifted direction fault chain row.now) }
{
    match fault {
        Some(
            Fault::Cell {
                chain: faulty,
                pos,
                kind,
            },
        ) => {
            if chain == faulty as usize {
                faulty_row(alloc, direction, kind, pos as usize, row)
            } else {
                same_row(alloc, row)
            }
        }
        _ => same_row(alloc, row),
    }
}

/// What becomes of a row for each chain.
pub(crate) fn shift_rows(
    alloc: Global,
    direction: Direction,
    fault: Option<Fault>,
    rows: &[Rows<Tri>],
) -> Result<Vec<Rows<Tri>>, NoMemory>
    requires { SitsWithinRows fault rows.now }
    ensures { IfOk result (λ moved. moved.items ≡ shifted_rows direction fault rows.now) }
{
    let mut moved = Vec::new(alloc);
    for (chain, row) in rows.iter().enumerate() {
        moved.push(shift_row(alloc, direction, fault, chain, row.as_slice())?)?;
    }
    Ok(moved)
}
