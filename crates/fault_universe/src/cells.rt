//! The cell faults, and the place of each among them.

ghost use Rattle.std.specs.Prelude.{◌≡◌, ℕ, ◌++◌, ◌<◌, ◌≤◌, ◌^◌, length, take, flat_map, slice_get, Some, OnOk, IfSome};
ghost use Rattle.std.specs.List.{range_with_len};
ghost use Rattle.fault_universe.specs.FaultPlaces.{FindsPlace};
ghost use Rattle.scan_model.specs.declared.fault.Fault.TheVariants as fault;
ghost use Rattle.scan_model.specs.ScanTest.{IsScanTest, cells_of};
ghost use Rattle.scan_model.specs.Universe.{cell_faults, cells};

use scan_model::{CellKind, Chain, Fault, NoMemory, Parts, Rows};

/// The scan chains. They have at most 65,536 cells in all.
fn chains_of(parts: &Parts) -> &[Chain]
    ensures chains { result.now ≡ parts.now.chains }
    ensures few { length result.now ≤ 256 }
    ensures few_cells { length (cells_of result.now) ≤ 65536 }
    ensures fits { IsScanTest parts.now }
{
    parts.chains().as_slice()
}

/// One of the four faults of a cell.
fn cell_of(chain: u32, pos: u32, number: u32) -> Fault
    requires { number < 4 }
    ensures { slice_get (cell_faults chain pos) number ≡ Some result }
{
    let kind = match number {
        0 => CellKind::Stuck0,
        1 => CellKind::Stuck1,
        2 => CellKind::SlowRise,
        _ => CellKind::SlowFall,
    };
    Fault::Cell { chain, pos, kind }
}

/// Which of the four faults of a cell has this kind.
fn number_of(kind: CellKind) -> u32
    ensures small { result < 4 }
    ensures kind { (h i : ℕ) → slice_get (cell_faults h i) result ≡ Some (fault.Cell h i kind) }
{
    match kind {
        CellKind::Stuck0 => 0,
        CellKind::Stuck1 => 1,
        CellKind::SlowRise => 2,
        CellKind::SlowFall => 3,
    }
}

/// Adds the four faults of a cell.
fn push_cell(faults: &mut Rows<Fault>, chain: u32, pos: u32) -> Result<(), NoMemory>
    ensures { OnOk result (faults.new ≡ faults.old ++ cell_faults chain pos) }
{
    for number in 0..4 {
        faults.push(cell_of(chain, pos, number))?;
    }
    Ok(())
}

/// Adds the faults of the cells of a chain.
fn push_chain(faults: &mut Rows<Fault>, chain: u32, count: usize) -> Result<(), NoMemory>
    requires { count < 2 ^ 32 }
    ensures { OnOk result (faults.new ≡ faults.old ++ flat_map (cell_faults chain) (range_with_len 0 count)) }
{
    for pos in 0..count {
        push_cell(faults, chain, pos as u32)?;
    }
    Ok(())
}

/// Adds the cell faults, chain by chain.
pub(crate) fn push_cells(faults: &mut Rows<Fault>, parts: &Parts) -> Result<(), NoMemory>
    ensures { OnOk result (faults.new ≡ faults.old ++ cells parts.now) }
{
    let chains = chains_of(parts);
    for h in 0..chains.len() {
        push_chain(faults, h as u32, chains[h].cells.len())?;
    }
    Ok(())
}

/// The number of cells of the first chains.
fn cells_before(chains: &[Chain], count: usize) -> u32
    requires count { count ≤ length chains.now }
    requires few { length (cells_of chains.now) ≤ 65536 }
    ensures { result ≡ length (cells_of (take count chains.now)) }
{
    let mut before = 0;
    for h in 0..count {
        before += chains[h].cells.len() as u32;
    }
    before
}

/// The number of cell faults.
pub(crate) fn cell_count(parts: &Parts) -> u32
    ensures count { result ≡ length (cells parts.now) }
    ensures few { length (cells parts.now) ≤ 262144 }
{
    let chains = chains_of(parts);
    4 * cells_before(chains, chains.len())
}

/// The cell fault at a place among the cell faults, or `None` past their end. Goes through the chains.
pub(crate) fn cell_at(parts: &Parts, place: u32) -> Option<Fault>
    ensures { result ≡ slice_get (cells parts.now) place }
{
    let chains = chains_of(parts);
    let mut left = place;
    for h in 0..chains.len() {
        let len = 4 * chains[h].cells.len() as u32;
        if left < len {
            return Some(cell_of(h as u32, left / 4, left % 4));
        }
        left -= len;
    }
    None
}

/// The place of a cell fault among the cell faults. Goes through the chains.
pub(crate) fn cell_place(parts: &Parts, chain: u32, pos: u32, kind: CellKind) -> Option<u32>
    ensures place { FindsPlace (cells parts.now) (fault.Cell chain pos kind) result }
    ensures small { IfSome result (λ place. place < 2 ^ 31) }
{
    let chains = chains_of(parts);
    let at = chain as usize;
    if at >= chains.len() || pos as usize >= chains[at].cells.len() {
        return None;
    }
    Some(4 * (cells_before(chains, at) + pos) + number_of(kind))
}
