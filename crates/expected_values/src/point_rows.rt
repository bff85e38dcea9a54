//! What the points of a test show, from fault-free values of its nets in rows of 512 patterns.
ghost use Rattle.std.specs.Prelude.{◌≡◌, ℕ, ◌<◌, length, None, IfOk};
ghost use Rattle.scan_model.specs.declared.parts.PatternKind.TheVariants as kind;
ghost use Rattle.scan_model.specs.ScanTest.{IsPoint, pattern_at};
ghost use Rattle.scan_model.specs.Loads.{cell};
ghost use Rattle.scan_model.specs.Response.{observed, expected_rows};
ghost use Rattle.lane_rows.specs.Planes.{held};
ghost use Rattle.lane_rows.specs.GoodRows.{pattern_of, AreBlockRows, AreGoodRows};

use crate::expected::expected_of;
use crate::response_rows::ResponseRows;
use lane_rows::{Block, GoodRows, Packed};
use scan_model::{Expected, NoMemory, Parts, Point, Tri};
use std::alloc::Global;

/// What a point shows where patterns only shift: a cell its load, and an output nothing known.
fn shifted(parts: &Parts, block: &Block, point: Point) -> Packed
    requires values { length block.now.values ≡ length parts.now.netlist.nets }
    requires point { IsPoint parts.now point }
    ensures { (b j : ℕ) → AreBlockRows parts.now b block.now → j < 512 → pattern_of b j < length parts.now.patterns → (pattern_at parts.now (pattern_of b j)).kind ≡ kind.Shift
        → held result j ≡ observed parts.now None (pattern_of b j) point }
{
    match point {
        Point::Output { .. } => Packed::all(Tri::Unknown),
        Point::Cell { chain, pos } => block.values.as_slice()[parts.cell_net(chain, pos) as usize],
    }
}

/// What a point shows in the patterns of a block.
pub fn point_in_block(parts: &Parts, block: &Block, point: Point) -> Packed
    requires values { length block.now.values ≡ length parts.now.netlist.nets }
    requires point { IsPoint parts.now point }
    ensures { (b j : ℕ) → AreBlockRows parts.now b block.now → j < 512 → pattern_of b j < length parts.now.patterns → held result j ≡ observed parts.now None (pattern_of b j) point }
{
    let net = parts.observed_net(point);
    let captured = block.values.as_slice()[net as usize];
    Packed::pick(block.capture, captured, shifted(parts, block, point))
}

/// The points of a test over its fault-free rows.
#[derive(Clone, Copy)]
pub struct PointRows<'a> {
    pub parts: &'a Parts,
    pub rows: &'a GoodRows,
}

impl ResponseRows for PointRows<'_> {
    ghost use Rattle.std.specs.Prelude.{length};
    ghost use Rattle.scan_model.specs.ScanTest.{points_of};
    ghost use Rattle.scan_model.specs.Response.{expected_rows};
    ghost use Rattle.lane_rows.specs.GoodRows.{AreGoodRows};

    ghost table = { λ s. expected_rows s.parts.now };

    ghost places = { λ s. length (points_of s.parts.now) };

    ghost ready = { λ s. AreGoodRows s.parts.now s.rows.now };

    fn row(&self, block: usize, place: u32) -> Packed {
        let point = self.parts.points().as_slice()[place as usize];
        point_in_block(self.parts, &self.rows.blocks()[block], point)
    }
}

/// The fault-free responses of a test, from its fault-free rows: a row for each pattern, with a value for each point in test
/// order. The only error is want of memory.
pub fn expected_at_points(
    alloc: Global,
    parts: &Parts,
    rows: &GoodRows,
) -> Result<Expected, NoMemory>
    requires { AreGoodRows parts.now rows.now }
    ensures { IfOk result (λ expected. expected ≡ expected_rows parts.now) }
{
    let points = PointRows { parts, rows };
    let patterns = parts.patterns().len() as u32;
    expected_of(alloc, &points, patterns, parts.points().len() as u32)
}
