//! Which faults can explain a Failing bit through a compactor: those that can explain a fail at a point upstream of it.

ghost use Rattle.std.specs.Prelude.{◌≡◌, ℕ, ◌<◌, ◌^◌, ◌++◌, [], ◌∷◌, cond, true, List, Contains, Some, length, slice_get, slice_index_or, IfOk, IfSome, OnOk};
ghost use Rattle.scan_model.specs.declared.fault.Fault.{Fault};
ghost use Rattle.scan_model.specs.declared.logs.LogFacts.{LogFacts};
ghost use Rattle.scan_model.specs.ScanTest.{points_of, point_at};
ghost use Rattle.scan_model.specs.Universe.{universe};
ghost use Rattle.scan_model.specs.Suspect.{suspects};
ghost use Rattle.log_join.specs.Joining.{StandsFor, IsJoinedOf};
ghost use Rattle.lane_rows.specs.Lanes.{lane};
ghost use Rattle.packed_sim.specs.PackedParts.{BelongsTo};
ghost use Rattle.log_rows.specs.PointRows.{no_point_row};
ghost use Rattle.compact_points.specs.Channels.{IsCompactorOf};
ghost use Rattle.compact_points.specs.Compaction.{compact_rows};
ghost use Rattle.chain_compactor.specs.CompactMatches.{compact_counts_of};
ghost use Rattle.chain_compactor.specs.ObservationPoints.{seeing, AreTables};
ghost use Rattle.chain_compactor.specs.TracedBits.{AddsLanes, AddsUpstreamBits, ListsUpstreamBits, AreBits, complete_log};

use crate::tables::Tables;
use back_trace::suspects_over;
use compact_points::Compact;
use expected_values::expected_at_points;
use fault_universe::universe_len;
use lane_rows::Row;
use log_join::Joined;
use log_rows::{PointRow, rows_of_places};
use packed_sim::PackedGood;
use scan_model::{Bit, Expected, LogFacts, NoMemory, Parts, Range, Rows};
use std::alloc::Global;

/// The most bits that are traced back. Where more are upstream of Failing bits, nearly every fault can explain one of them.
const TRACED_LIMIT: usize = 262_144;

/// The lanes of a block in which a compact point that sees a point of the test is Failing.
fn failing_downstream(
    parts: &Parts,
    compact: &Compact,
    tables: &Tables,
    rows: &[PointRow],
    point: u32,
) -> Row
    requires made { IsCompactorOf parts.now compact.now }
    requires tables { AreTables parts.now compact.now tables.now }
    requires rows { length rows.now ≡ length compact.now.points }
    requires point { point < length (points_of parts.now) }
    ensures { (q j : ℕ) → j < 512 → Contains (seeing parts.now compact.now (point_at parts.now point)) q → lane (slice_index_or rows.now q no_point_row).failing j ≡ true → lane result j ≡ true }
{
    let mut row = Row::none();
    let mut nth = 0;
    while let Some(place) = tables.place_seeing(parts, compact, point, nth) {
        row = row.or(rows[place as usize].failing);
        nth += 1;
    }
    row
}

/// Adds a bit, if it is asked for.
fn push_if(bits: &mut Rows<Bit>, bit: Bit, asked: bool) -> Result<(), NoMemory>
    ensures { OnOk result (bits.new ≡ bits.old ++ cond asked (bit ∷ []) []) }
{
    if !asked {
        return Ok(());
    }
    bits.push(bit)
}

/// Adds the bits of a point in some lanes of a block.
fn push_lanes(bits: &mut Rows<Bit>, block: u32, point: u32, lanes: Row) -> Result<(), NoMemory>
    requires { block < 65536 }
    ensures { OnOk result (AddsLanes lanes block point 512 bits.old bits.new) }
{
    if lanes.is_empty() {
        return Ok(());
    }
    for lane in 0..512 {
        let pattern = 512 * block + lane as u32;
        push_if(bits, Bit { pattern, point }, lanes.has(lane))?;
    }
    Ok(())
}

/// Adds the bits of a block upstream of Failing bits.
fn push_block(
    parts: &Parts,
    compact: &Compact,
    tables: &Tables,
    rows: &[PointRow],
    block: u32,
    there: Row,
    bits: &mut Rows<Bit>,
) -> Result<(), NoMemory>
    requires made { IsCompactorOf parts.now compact.now }
    requires tables { AreTables parts.now compact.now tables.now }
    requires rows { length rows.now ≡ length compact.now.points }
    requires block { block < 65536 }
    ensures { OnOk result (AddsUpstreamBits parts.now compact.now rows.now block there (length (points_of parts.now)) bits.old bits.new) }
{
    for point in 0..parts.points().len() as u32 {
        let failing = failing_downstream(parts, compact, tables, rows, point);
        push_lanes(bits, block, point, failing.and(there))?;
    }
    Ok(())
}

/// The bits of the test upstream of Failing bits, if they are few enough to be traced back.
fn upstream_bits(
    alloc: Global,
    parts: &Parts,
    compact: &Compact,
    good: &PackedGood,
    expected: &Expected,
    joined: &Joined,
) -> Result<Option<Rows<Bit>>, NoMemory>
    requires made { IsCompactorOf parts.now compact.now }
    requires good { BelongsTo parts.now good.now }
    requires expected { expected.now ≡ compact_rows parts.now compact.now }
    requires joined { IsJoinedOf (length parts.now.patterns) (length compact.now.points) joined.now }
    ensures within { IfOk result (λ found. IfSome found (AreBits (length parts.now.patterns) (length (points_of parts.now)))) }
    ensures listed { (logs : List LogFacts) → StandsFor logs joined.now → IfOk result (λ found. IfSome found (ListsUpstreamBits parts.now compact.now logs)) }
{
    let _ = parts.circuit();
    let tables = Tables::make(alloc, parts, compact)?;
    let mut bits = Rows::new(alloc);
    for block in 0..good.blocks().len() {
        let rows = rows_of_places(alloc, joined, expected, block as u32)?;
        let there = good.patterns(parts, block);
        push_block(
            parts,
            compact,
            &tables,
            rows.as_slice(),
            block as u32,
            there,
            &mut bits,
        )?;
        if bits.len() > TRACED_LIMIT {
            return Ok(None);
        }
    }
    Ok(Some(bits))
}

/// A complete log of all patterns with these fails.
fn log_of(alloc: Global, patterns: u32, fails: Rows<Bit>) -> Result<LogFacts, NoMemory>
    requires { 0 < patterns }
    ensures { IfOk result (λ log. log ≡ complete_log patterns fails) }
{
    let mut ranges = Rows::new(alloc);
    ranges.push(Range {
        first: 0,
        last: patterns - 1,
    })?;
    Ok(LogFacts {
        ranges,
        truncated: false,
        fails,
        cuts: Rows::new(alloc),
    })
}

/// The places of faults among which are all that explain a Failing bit, traced back from the bits of the test upstream of Failing bits;
/// none where these are too many.
pub(crate) fn traced_places(
    alloc: Global,
    parts: &Parts,
    compact: &Compact,
    good: &PackedGood,
    expected: &Expected,
    joined: &Joined,
) -> Result<Option<Rows<u32>>, NoMemory>
    requires made { IsCompactorOf parts.now compact.now }
    requires good { BelongsTo parts.now good.now }
    requires expected { expected.now ≡ compact_rows parts.now compact.now }
    requires joined { IsJoinedOf (length parts.now.patterns) (length compact.now.points) joined.now }
    ensures suspects { IfOk result (λ found. IfSome found (λ places. (plain : List LogFacts) × (places ≡ suspects parts.now plain))) }
    ensures few { IfOk result (λ found. IfSome found (λ places. length places < 2 ^ 32)) }
    ensures outside { (logs : List LogFacts) → StandsFor logs joined.now
        → IfOk result (λ found. IfSome found (λ places. (k : ℕ) (f : Fault) → slice_get (universe parts.now) k ≡ Some f → ¬ (Contains places k) → (compact_counts_of parts.now compact.now logs f).tfsf ≡ 0)) }
{
    let _ = universe_len(parts);
    let Some(bits) = upstream_bits(alloc, parts, compact, good, expected, joined)? else {
        return Ok(None);
    };
    let patterns = parts.patterns().len() as u32;
    if patterns == 0 {
        return Ok(None);
    }
    let log = log_of(alloc, patterns, bits)?;
    let mut upstream_log = Joined::make(alloc, patterns, parts.points().len() as u32)?;
    upstream_log.add(&log);
    let responses = expected_at_points(alloc, parts, good.rows())?;
    let places = suspects_over(alloc, parts, good.rows(), &responses, &upstream_log)?;
    Ok(Some(places))
}
