//! The compact points in their order.

ghost use Rattle.std.specs.Prelude.{◌≡◌, ◌≤◌, ◌<◌, ◌^◌, ◌++◌, length, map, IfOk, OnOk};
ghost use Rattle.std.specs.List.{range_with_len};
ghost use Rattle.compact_points.specs.Channels.{greatest as model_greatest, points_over, shown_in};

use scan_model::{NoMemory, Point, Rows};
use std::alloc::Global;

// The points of so many outputs.
fn output_points(alloc: Global, count: usize) -> Result<Rows<Point>, NoMemory>
    requires { count ≤ 131072 }
    ensures { IfOk result (λ points. points ≡ map Point.Output (range_with_len 0 count)) }
{
    let mut points = Rows::new(alloc);
    for k in 0..count {
        points.push(Point::Output { place: k as u32 })?;
    }
    Ok(points)
}

// The greatest of some numbers.
fn greatest(numbers: &[usize]) -> usize
    ensures { result ≡ model_greatest numbers.now }
{
    let mut most = 0;
    for number in numbers {
        most = most.max(*number);
    }
    most
}

// Adds the channels that show something in a cycle.
fn add_cycle(points: &mut Rows<Point>, cycles: &[usize], number: usize) -> Result<(), NoMemory>
    requires channels { length cycles.now ≤ 256 }
    requires number { number < 2 ^ 32 }
    ensures { OnOk result (points.new ≡ points.old ++ shown_in number 0 cycles.now) }
{
    for (x, count) in cycles.iter().enumerate() {
        if number < *count {
            points.push(Point::Cell {
                chain: x as u32,
                pos: number as u32,
            })?;
        }
    }
    Ok(())
}

/// The outputs, and then the channels that show something, cycle by cycle, where these are the numbers of cycles in which they
/// do.
pub fn points_over(alloc: Global, outputs: usize, cycles: &[usize]) -> Result<Rows<Point>, NoMemory>
    requires outputs { outputs ≤ 131072 }
    requires channels { length cycles.now ≤ 256 }
    requires cycles { model_greatest cycles.now ≤ 131072 }
    ensures { IfOk result (λ points. points ≡ points_over outputs cycles.now) }
{
    let mut points = output_points(alloc, outputs)?;
    for number in 0..greatest(cycles) {
        add_cycle(&mut points, cycles, number)?;
    }
    Ok(points)
}
