//! The net that each point observes, and the net of each point that is a cell.
ghost use Rattle.std.specs.Prelude.{◌≡◌, ℕ, ◌<◌, length, IfOk};
ghost use Rattle.scan_model.specs.ScanTest.{IsPoint, points_of};
ghost use Rattle.scan_model.specs.Loads.{cell};
ghost use Rattle.scan_model.specs.Suspect as reach;
ghost use Rattle.back_trace.specs.Keys.{is_key, IsKeyBelow, AreKeys, observes};

use scan_model::{NoMemory, Parts, Point};
use std::alloc::Global;

/// The net of the cell that a point is, if it is one.
fn own_net(parts: &Parts, point: Point) -> Option<u32>
    requires { IsPoint parts.now point }
    ensures key { (n : ℕ) → is_key result n ≡ reach.is_cell parts.now n point }
    ensures below { IsKeyBelow (length parts.now.netlist.nets) result }
{
    match point {
        Point::Output { .. } => None,
        Point::Cell { chain, pos } => Some(parts.cell_net(chain, pos)),
    }
}

/// The net that each point observes.
pub(crate) fn observed_keys(alloc: Global, parts: &Parts) -> Result<Vec<Option<u32>>, NoMemory>
    ensures { IfOk result (λ keys. AreKeys parts.now (observes parts.now) (length (points_of parts.now)) keys.items) }
{
    let points = parts.points().as_slice();
    let mut keys = Vec::new(alloc);
    for k in 0..points.len() {
        keys.push(Some(parts.observed_net(points[k])))?;
    }
    Ok(keys)
}

/// The net of each point that is a cell.
pub(crate) fn cell_keys(alloc: Global, parts: &Parts) -> Result<Vec<Option<u32>>, NoMemory>
    ensures { IfOk result (λ keys. AreKeys parts.now (reach.is_cell parts.now) (length (points_of parts.now)) keys.items) }
{
    let points = parts.points().as_slice();
    let mut keys = Vec::new(alloc);
    for k in 0..points.len() {
        keys.push(own_net(parts, points[k]))?;
    }
    Ok(keys)
}
