//! The points of a test, in test order.

ghost use Rattle.std.specs.Prelude.{◌≡◌, ◌≤◌, ◌<◌, ◌^◌, ◌+◌, ◌-◌, ◌++◌, map, flat_map, length, IfOk, OnOk};
ghost use Rattle.std.specs.List.{range_with_len};
ghost use Rattle.scan_model.specs.ScanTest.{cycle, longest as model_longest};

use crate::parts::{Chain, Point};
use crate::rows::{NoMemory, Rows};
use std::alloc::Global;

/// The points of so many outputs, in order.
fn output_points(alloc: Global, count: usize) -> Result<Rows<Point>, NoMemory>
    requires { count < 2 ^ 32 }
    ensures { IfOk result (λ points. points ≡ map Point.Output (range_with_len 0 count)) }
{
    let mut points = Rows::new(alloc);
    for k in 0..count {
        points.push(Point::Output { place: k as u32 })?;
    }
    Ok(points)
}

/// The length of the longest chain.
fn longest(chains: &[Chain]) -> usize
    ensures { result ≡ model_longest chains.now }
{
    let mut most = 0;
    for chain in chains {
        most = most.max(chain.cells.len());
    }
    most
}

/// Adds what an unload cycle shows.
fn add_cycle(points: &mut Rows<Point>, chains: &[Chain], number: usize) -> Result<(), NoMemory>
    requires chains { length chains.now ≤ 256 }
    requires cells { model_longest chains.now ≤ 65536 }
    ensures { OnOk result (points.new ≡ points.old ++ cycle number 0 chains.now) }
{
    for h in 0..chains.len() {
        let len = chains[h].cells.len();
        if number < len {
            points.push(Point::Cell {
                chain: h as u32,
                pos: (len - 1 - number) as u32,
            })?;
        }
    }
    Ok(())
}

/// The points in test order: the outputs, then the cells, unload cycle by unload cycle.
pub(crate) fn points_in_order(
    alloc: Global,
    outputs: usize,
    chains: &[Chain],
) -> Result<Rows<Point>, NoMemory>
    requires outputs { outputs < 2 ^ 32 }
    requires chains { length chains.now ≤ 256 }
    requires cells { model_longest chains.now ≤ 65536 }
    ensures { IfOk result (λ points. points ≡ map Point.Output (range_with_len 0 outputs) ++ flat_map (λ number. cycle number 0 chains.now) (range_with_len 0 (model_longest chains.now))) }
{
    let mut points = output_points(alloc, outputs)?;
    for number in 0..longest(chains) {
        add_cycle(&mut points, chains, number)?;
    }
    Ok(points)
}
