//! The observer of two sums, over the compact points of a block.

ghost use Rattle.std.specs.Prelude.{◌≡◌, ℕ, ◌<◌, All, length};
ghost use Rattle.std.proofs.Props.{props};
ghost use Rattle.scan_model.specs.ScanTest.{points_of, point_at};
ghost use Rattle.compact_points.specs.Channels.{IsCompactorOf};
ghost use Rattle.chain_compactor.specs.ObservationPoints.{seeing, AreTables};
ghost use Rattle.chain_compactor.specs.CompactCounts.{AreExpected};

use crate::tables::Tables;
use compact_points::Compact;
use lane_rows::Packed;
use log_rows::PointRow;
use packed_sim::PackedGood;
use scan_model::Parts;
use std::alloc::Global;

/// Counts how many Failing bits of a block a fault explains, and how many Passing bits it mispredicts, through a compactor.
#[derive(Drop)]
pub struct CompactCounts<'a> {
    pub alloc: Global,
    pub parts: &'a Parts,
    pub good: &'a PackedGood,
    pub block: usize,
    pub compact: &'a Compact,
    pub tables: &'a Tables,
    pub expected: &'a [Packed],
    pub rows: &'a [PointRow],
    ghost made: { IsCompactorOf parts.now compact.now } by { Prim.hlevel props },
    ghost seen_within: { (k : ℕ) → k < length (points_of parts.now) → All (λ q. q < length compact.now.points) (seeing parts.now compact.now (point_at parts.now k)) },
    ghost tables_right: { AreTables parts.now compact.now tables.now },
    ghost block_within: { block < length good.now.rows },
    ghost expected_right: { AreExpected parts.now compact.now block expected.now },
    ghost rows_len: { length rows.now ≡ length compact.now.points },
}
