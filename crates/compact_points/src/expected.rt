//! The fault-free values at the compact points, from fault-free values of the nets in rows of 512 patterns.

ghost use Rattle.std.specs.Prelude.{◌≡◌, ℕ, ◌<◌, ◌≤◌, ◌++◌, List, All, length, map, None, IfOk};
ghost use Rattle.scan_model.specs.declared.values.Tri.{Tri};
ghost use Rattle.scan_model.specs.Values.{xor_of};
ghost use Rattle.scan_model.specs.Response.{observed};
ghost use Rattle.log_join.specs.Joining.{JoinedBits, IsJoinedOf, FitsExpected};
ghost use Rattle.lane_rows.specs.Planes.{held};
ghost use Rattle.lane_rows.specs.GoodRows.{pattern_of, AreBlockRows, AreGoodRows};
ghost use Rattle.compact_points.specs.Channels.{IsCompactorOf, chain_length as model_length};
ghost use Rattle.compact_points.specs.Compaction.{cell_shown, cells_shown, compact_value, compact_rows};
ghost use Rattle.compact_points.specs.CompactPoints.{IsThere};

use crate::compactor::Compact;
use expected_values::{ResponseRows, expected_of, point_in_block};
use lane_rows::{Block, GoodRows, Packed};
use scan_model::{Expected, NoMemory, Parts, Point, Tri};
use std::alloc::Global;

/// How many cells a chain has.
pub fn chain_length(parts: &Parts, chain: u32) -> usize
    requires { chain < length parts.now.chains }
    ensures value { result ≡ model_length parts.now chain }
    ensures few { result ≤ 65536 }
{
    parts.chains().as_slice()[chain as usize].cells.len()
}

/// The XOR of a row with what a chain shows in an unload cycle, in the 512 patterns of a block.
fn with_chain(parts: &Parts, block: &Block, row: Packed, chain: u32, cycle: u32) -> Packed
    requires values { length block.now.values ≡ length parts.now.netlist.nets }
    requires chain { chain < length parts.now.chains }
    ensures { (b j : ℕ) → AreBlockRows parts.now b block.now → j < 512 → pattern_of b j < length parts.now.patterns
        → (vs : List Tri) → held row j ≡ xor_of vs → held result j ≡ xor_of (vs ++ map (observed parts.now None (pattern_of b j)) (cell_shown parts.now cycle chain)) }
{
    let length = chain_length(parts, chain);
    if cycle as usize >= length {
        return row;
    }
    let pos = (length - 1 - cycle as usize) as u32;
    let shown = point_in_block(parts, block, Point::Cell { chain, pos });
    row.xor(shown)
}

/// The XOR of what chains show in an unload cycle, in the 512 patterns of a block.
fn channel_in_block(parts: &Parts, block: &Block, chains: &[u32], cycle: u32) -> Packed
    requires values { length block.now.values ≡ length parts.now.netlist.nets }
    requires chains { All (λ h. h < length parts.now.chains) chains.now }
    ensures { (b j : ℕ) → AreBlockRows parts.now b block.now → j < 512 → pattern_of b j < length parts.now.patterns
        → held result j ≡ xor_of (map (observed parts.now None (pattern_of b j)) (cells_shown parts.now cycle chains.now)) }
{
    let mut row = Packed::all(Tri::Zero);
    for chain in chains {
        row = with_chain(parts, block, row, *chain, cycle);
    }
    row
}

/// What a compact point shows in the 512 patterns of a block.
pub fn shown_in_block(parts: &Parts, compact: &Compact, block: &Block, point: Point) -> Packed
    requires values { length block.now.values ≡ length parts.now.netlist.nets }
    requires made { IsCompactorOf parts.now compact.now }
    requires point { IsThere parts.now compact.now point }
    ensures { (b j : ℕ) → AreBlockRows parts.now b block.now → j < 512 → pattern_of b j < length parts.now.patterns → held result j ≡ compact_value parts.now compact.now None (pattern_of b j) point }
{
    match point {
        Point::Output { .. } => point_in_block(parts, block, point),
        Point::Cell { chain, pos } => {
            let channel = &compact.channels().as_slice()[chain as usize];
            channel_in_block(parts, block, channel.chains.as_slice(), pos)
        }
    }
}

/// The compact points over the fault-free rows of the test.
#[derive(Clone, Copy)]
struct CompactRows<'a> {
    parts: &'a Parts,
    compact: &'a Compact,
    rows: &'a GoodRows,
}

impl ResponseRows for CompactRows<'_> {
    ghost use Rattle.std.specs.Prelude.{length};
    ghost use Rattle.lane_rows.specs.GoodRows.{AreGoodRows};
    ghost use Rattle.compact_points.specs.Channels.{IsCompactorOf};
    ghost use Rattle.compact_points.specs.Compaction.{compact_rows};

    ghost table = { λ s. compact_rows s.parts.now s.compact.now };

    ghost places = { λ s. length s.compact.now.points };

    ghost ready = { λ s. IsCompactorOf s.parts.now s.compact.now × AreGoodRows s.parts.now s.rows.now };

    fn row(&self, block: usize, place: u32) -> Packed {
        let point = self.compact.in_order().as_slice()[place as usize];
        shown_in_block(self.parts, self.compact, &self.rows.blocks()[block], point)
    }
}

/// The expected values at the compact points: a row for each pattern, with a value for each compact point. The only error is
/// want of memory.
pub fn compact_expected(
    alloc: Global,
    parts: &Parts,
    compact: &Compact,
) -> Result<Expected, NoMemory>
    requires { IsCompactorOf parts.now compact.now }
    ensures value { IfOk result (λ expected. expected ≡ compact_rows parts.now compact.now) }
    ensures fits { IfOk result (λ expected. (joined : JoinedBits) → IsJoinedOf (length parts.now.patterns) (length compact.now.points) joined → FitsExpected expected joined) }
{
    let rows = GoodRows::make(alloc, parts)?;
    compact_expected_over(alloc, parts, compact, &rows)
}

/// The expected values at the compact points, from fault-free rows that are kept.
pub fn compact_expected_over(
    alloc: Global,
    parts: &Parts,
    compact: &Compact,
    rows: &GoodRows,
) -> Result<Expected, NoMemory>
    requires made { IsCompactorOf parts.now compact.now }
    requires rows { AreGoodRows parts.now rows.now }
    ensures value { IfOk result (λ expected. expected ≡ compact_rows parts.now compact.now) }
    ensures fits { IfOk result (λ expected. (joined : JoinedBits) → IsJoinedOf (length parts.now.patterns) (length compact.now.points) joined → FitsExpected expected joined) }
{
    let shown = CompactRows {
        parts,
        compact,
        rows,
    };
    expected_of(
        alloc,
        &shown,
        parts.patterns().len() as u32,
        compact.points(),
    )
}
