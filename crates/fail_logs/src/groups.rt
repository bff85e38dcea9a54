//! The points of the groups that cut lines name.

ghost use Rattle.std.specs.Prelude.{◌≡◌, ℕ, ◌+◌, ◌<◌, ◌≤◌, length, map, All, IfOk, slice_index_or, []};
ghost use Rattle.scan_model.specs.LogText.{each_once, group_points};
ghost use Rattle.fail_logs.specs.Frames.{rows_view};
ghost use Rattle.fail_logs.specs.Groups.{row_of, row_at, row_points, IsGroupIn};

use scan_model::{CutGroup, Point, Rows};
use std::alloc::{AllocError, Global};

// The row of a group, of which the outputs have the first.
fn row_of(group: CutGroup) -> usize
    ensures { result ≡ row_of group }
{
    match group {
        CutGroup::Outputs => 0,
        CutGroup::Chain(chain) => chain as usize + 1,
    }
}

// The row of the group that a point is in.
fn row_at(point: Point) -> usize
    ensures { result ≡ row_at point }
{
    match point {
        Point::Output { .. } => 0,
        Point::Cell { chain, .. } => chain as usize + 1,
    }
}

// Empty rows.
fn empty_rows(alloc: Global, count: usize) -> Result<Vec<Vec<u32>>, AllocError>
    ensures { IfOk result (λ rows. (length rows.items ≡ count) × ((r : ℕ) → slice_index_or (rows_view rows.items) r [] ≡ [])) }
{
    let mut rows = Vec::new(alloc);
    for _ in 0..count {
        rows.push(Vec::new(alloc))?;
    }
    Ok(rows)
}

// A row with the points of each group, in rising order: of the outputs, and of so many chains.
fn point_rows(alloc: Global, chains: usize, points: &[Point]) -> Result<Vec<Vec<u32>>, AllocError>
    requires chains { chains ≤ 256 }
    requires points { length points.now ≤ 131072 }
    ensures { IfOk result (λ rows. (length rows.items ≡ chains + 1) × ((r : ℕ) → r < chains + 1 → slice_index_or (rows_view rows.items) r [] ≡ row_points points.now r (length points.now))) }
{
    let mut rows = empty_rows(alloc, chains + 1)?;
    for (k, point) in points.iter().enumerate() {
        let row = row_at(*point);
        if row < rows.len() {
            rows[row].push(k as u32)?;
        }
    }
    Ok(rows)
}

// The rows of the groups, each once, in the order in which they come first.
fn rows_cut(alloc: Global, chains: usize, groups: &[CutGroup]) -> Result<Vec<usize>, AllocError>
    requires chains { chains ≤ 256 }
    requires groups { All (IsGroupIn chains) groups.now }
    ensures { IfOk result (λ rows. rows.items ≡ map row_of (each_once groups.now)) }
{
    let mut seen = vec![in alloc; false; chains + 1]?;
    let mut rows = Vec::new(alloc);
    for group in groups {
        let row = row_of(*group);
        if !seen[row] {
            seen[row] = true;
            rows.push(row)?;
        }
    }
    Ok(rows)
}

// Copies of the rows at these places.
fn copied(alloc: Global, rows: &[Vec<u32>], places: &[usize]) -> Result<Rows<Rows<u32>>, AllocError>
    requires { All (λ r. r < length rows.now) places.now }
    ensures { IfOk result (λ copies. copies ≡ map (λ r. slice_index_or (rows_view rows.now) r []) places.now) }
{
    let mut copies = Vec::new(alloc);
    for place in places {
        copies.push(Rows::from_vec(Vec::from_slice(alloc, &rows[*place])?))?;
    }
    Ok(Rows::from_vec(copies))
}

/// The points of groups among these points, each group once and in the order in which they come first.
pub fn cut_points(
    alloc: Global,
    chains: usize,
    points: &[Point],
    groups: &[CutGroup],
) -> Result<Rows<Rows<u32>>, AllocError>
    requires chains { chains ≤ 256 }
    requires points { length points.now ≤ 131072 }
    requires groups { All (IsGroupIn chains) groups.now }
    ensures { IfOk result (λ cuts. cuts ≡ map (group_points points.now) (each_once groups.now)) }
{
    if groups.is_empty() {
        return Ok(Rows::new(alloc));
    }
    let rows = point_rows(alloc, chains, points)?;
    let places = rows_cut(alloc, chains, groups)?;
    copied(alloc, &rows, &places)
}
