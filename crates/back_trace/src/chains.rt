//! By chain, the positions between which a fault of the shift path explains a failing bit.
ghost use Rattle.std.specs.Prelude.{◌≡◌, ℕ, ◌<◌, length, Bool, ◌&&◌, ◌||◌, nat_lt, nat_le, None, slice_index_or, All, IfOk};
ghost use Rattle.scan_model.specs.ScanTest.{points_of, chain_at, IsPoint};
ghost use Rattle.lane_rows.specs.Lanes.{lane};
ghost use Rattle.explained_lanes.specs.Fails.{Tells};
ghost use Rattle.explained_lanes.specs.Traces.{is_shifted_through, is_from, IsFirst, IsLastReached};

use explained_lanes::NetRows;
use lane_rows::Row;
use scan_model::{NoMemory, Parts, Point, Rows};
use std::alloc::Global;

/// From which position of its chain on a fault explains the failing bits of a cell on their way out: each bit from the
/// cell's own position on, and one of a pattern that only shifts from the first.
fn first_of(pos: u32, fails: Row, shift: Row) -> Option<u32>
    ensures { (c : ℕ) → Tells (is_from result c) (λ j. lane fails j && (nat_le pos c || (lane shift j && nat_lt c pos))) }
{
    if fails.is_empty() {
        None
    } else if fails.and(shift).is_empty() {
        Some(pos)
    } else {
        Some(0)
    }
}

/// The earlier of two positions, where there are any.
fn earlier(a: Option<u32>, b: Option<u32>) -> Option<u32>
    ensures { (c : ℕ) → is_from result c ≡ (is_from a c || is_from b c) }
{
    match (a, b) {
        (Some(a), Some(b)) => Some(if a < b { a } else { b }),
        (Some(a), None) => Some(a),
        (None, b) => b,
    }
}

/// Takes in the failing bits of a point.
fn take_in(firsts: &mut [Option<u32>], point: Point, fails: Row, shift: Row)
    ensures { (h c : ℕ) (told : ℕ → Bool) → h < length firsts.old → Tells (is_from (slice_index_or firsts.old h None) c) told
        → Tells (is_from (slice_index_or firsts.new h None) c) (λ j. told j || (lane fails j && is_shifted_through shift j h c point)) }
{
    if let Point::Cell { chain, pos } = point {
        let at = chain as usize;
        if at < firsts.len() {
            firsts[at] = earlier(firsts[at], first_of(pos, fails, shift));
        }
    }
}

/// The first position of each chain from which on a fault explains a failing bit on its way out.
pub(crate) fn firsts(
    alloc: Global,
    parts: &Parts,
    fails: &[Row],
    shift: Row,
) -> Result<Rows<Option<u32>>, NoMemory>
    requires { length fails.now ≡ length (points_of parts.now) }
    ensures len { IfOk result (λ rows. length rows ≡ length parts.now.chains) }
    ensures firsts { IfOk result (λ rows. (h : ℕ) → h < length parts.now.chains → IsFirst parts.now fails.now shift h (slice_index_or rows h None)) }
{
    let points = parts.points().as_slice();
    let mut firsts = vec![in alloc; None; parts.chains().len()]?;
    for k in 0..points.len() {
        take_in(&mut firsts, points[k], fails[k], shift);
    }
    Ok(Rows::from_vec(firsts))
}

/// The last of the positions whose cell reaches a failing bit, or 0.
fn last_reached(cells: &[u32], reach: &NetRows) -> usize
    requires { All (λ n. n < length reach.now) cells.now }
    ensures { IsLastReached reach.now cells.now result }
{
    let mut last = 0;
    for i in 0..cells.len() {
        if !reach.is_empty_at(cells[i] as usize) {
            last = i;
        }
    }
    last
}

/// That of each chain.
pub(crate) fn lasts(alloc: Global, parts: &Parts, reach: &NetRows) -> Result<Rows<usize>, NoMemory>
    requires { length reach.now ≡ length parts.now.netlist.nets }
    ensures len { IfOk result (λ rows. length rows ≡ length parts.now.chains) }
    ensures lasts { IfOk result (λ rows. (h : ℕ) → h < length parts.now.chains → IsLastReached reach.now (chain_at parts.now h).cells (slice_index_or rows h 0)) }
{
    let chains = parts.chains().as_slice();
    let mut lasts = Vec::new(alloc);
    for h in 0..chains.len() {
        lasts.push(last_reached(chains[h].cells.as_slice(), reach))?;
    }
    Ok(Rows::from_vec(lasts))
}
