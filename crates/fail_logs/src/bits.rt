//! The bits that fail lines name.

ghost use Rattle.std.specs.Prelude.{◌≡◌, ◌*◌, ◌<◌, ◌≤◌, map, All, IfOk, option_map};
ghost use Rattle.fail_logs.specs.BitNumbers.{bit_number, bit_numbered};
ghost use Rattle.fail_logs.specs.RisingNumbers.{IsRisingOf, IsBitsOf};

use crate::target::LineTarget;
use scan_model::{Bit, Rows};
use std::alloc::{AllocError, Global};

/// The number of a bit in bit order.
pub fn bit_number(points: usize, pattern: u32, point: usize) -> u64
    requires points { points ≤ 131072 }
    requires point { point ≤ 4294967295 }
    ensures { result ≡ bit_number points pattern point }
{
    pattern as u64 * points as u64 + point as u64
}

/// The number of the bit that is the target of a fail line, where each pattern has so many points.
pub fn number_named(points: usize, target: LineTarget) -> Option<u64>
    requires points { points ≤ 131072 }
    ensures { result ≡ option_map (λ p. bit_number points p target.point) target.pattern }
{
    let point = target.point as usize;
    target
        .pattern
        .map(|pattern| bit_number(points, pattern, point))
}

// The numbers in rising order, each once.
fn rising(numbers: Vec<u64>) -> Vec<u64>
    ensures { IsRisingOf numbers.items result.items }
{
    let mut rising = numbers;
    rising.sort_unstable();
    rising.dedup();
    rising
}

// The bit of this number, where each pattern has so many points.
fn bit_numbered(points: usize, n: u64) -> Bit
    requires points { points ≤ 131072 }
    requires n { n < 4096 * points }
    ensures { result ≡ bit_numbered points n }
{
    let count = points as u64;
    Bit {
        pattern: (n / count) as u32,
        point: (n % count) as u32,
    }
}

fn bits_numbered(alloc: Global, points: usize, numbers: &[u64]) -> Result<Vec<Bit>, AllocError>
    requires points { points ≤ 131072 }
    requires numbers { All (λ n. n < 4096 * points) numbers.now }
    ensures { IfOk result (λ bits. bits.items ≡ map (bit_numbered points) numbers.now) }
{
    let mut bits = Vec::with_capacity(alloc, numbers.len())?;
    for n in numbers {
        bits.push(bit_numbered(points, *n))?;
    }
    Ok(bits)
}

/// The bits with these numbers in bit order, each once.
pub fn bits_in_order(
    alloc: Global,
    points: usize,
    numbers: Vec<u64>,
) -> Result<Rows<Bit>, AllocError>
    requires points { points ≤ 131072 }
    requires numbers { All (λ n. n < 4096 * points) numbers.items }
    ensures { IfOk result (IsBitsOf points numbers.items) }
{
    let rising = rising(numbers);
    let bits = bits_numbered(alloc, points, &rising)?;
    Ok(Rows::from_vec(bits))
}
