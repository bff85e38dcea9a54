//! Counts of all modelled faults through a compactor, block by block.

ghost use Rattle.std.specs.Prelude.{◌≡◌, ℕ, ◌+◌, ◌^◌, ◌<◌, ◌≤◌, List, All, Contains, length, IfOk};
ghost use Rattle.std.specs.List.{range_with_len};
ghost use Rattle.scan_model.specs.declared.logs.LogFacts.{LogFacts};
ghost use Rattle.scan_model.specs.Universe.{universe};
ghost use Rattle.log_join.specs.Joining.{StandsFor, IsJoinedOf};
ghost use Rattle.lane_rows.specs.GoodRows.{AreBlockRows};
ghost use Rattle.packed_sim.specs.PackedParts.{BelongsTo};
ghost use Rattle.fault_effects.specs.Owners.{IsSuspectOf, AreOwners, owner, suspect_at};
ghost use Rattle.fault_effects.specs.Readers.{AreReads};
ghost use Rattle.match_counts.specs.Totals.{AreCounted, AreTotals, candidates_in};
ghost use Rattle.match_counts.specs.Sides.{classes_by};
ghost use Rattle.compact_points.specs.Channels.{IsCompactorOf};
ghost use Rattle.compact_points.specs.Compaction.{compact_rows};
ghost use Rattle.chain_compactor.specs.CompactMatches.{compact_bits, compact_class, predicts_compact_fail, compact_candidates};
ghost use Rattle.chain_compactor.specs.CompactCounts.{AreExpected};

use crate::block_parts::block_parts;
use crate::counts::CompactCounts;
use crate::tables::Tables;
use crate::tracing::traced_places;
use compact_points::{Compact, shown_in_block};
use fault_effects::{BlockWork, Suspect, owned_nets, owners_of, reads_of, suspects_at};
use fault_universe::universe_len;
use lane_rows::{Block, Groups, Packed};
use log_join::Joined;
use log_rows::rows_of_places;
use match_counts::{BlockTotals, list_candidates};
use packed_sim::PackedGood;
use scan_model::{Expected, NoMemory, Parts, Rows, Scored, Steps};
use std::alloc::Global;
use std::sync::ledger::Ledger;

/// What each compact point shows without a fault in the 512 patterns of a block.
fn shown_rows(
    alloc: Global,
    parts: &Parts,
    compact: &Compact,
    block: &Block,
) -> Result<Vec<Packed>, NoMemory>
    requires values { length block.now.values ≡ length parts.now.netlist.nets }
    requires made { IsCompactorOf parts.now compact.now }
    ensures { IfOk result (λ rows. (b : ℕ) → AreBlockRows parts.now b block.now → AreExpected parts.now compact.now b rows.items) }
{
    let points = compact.in_order().as_slice();
    let mut rows = Vec::with_capacity(alloc, points.len())?;
    for point in points {
        rows.push(shown_in_block(parts, compact, block, *point))?;
    }
    Ok(rows)
}

/// Adds up, block by block, what the suspects explain and mispredict.
fn count_blocks<'a>(
    alloc: Global,
    parts: &'a Parts,
    compact: &'a Compact,
    good: &'a PackedGood,
    expected: &Expected,
    joined: &Joined,
    suspects: &'a [Suspect],
    owners: &'a Groups,
) -> Result<BlockTotals, NoMemory>
    requires made { IsCompactorOf parts.now compact.now }
    requires good { BelongsTo parts.now good.now }
    requires expected { expected.now ≡ compact_rows parts.now compact.now }
    requires joined { IsJoinedOf (length parts.now.patterns) (length compact.now.points) joined.now }
    requires suspects { All (IsSuspectOf parts.now) suspects.now }
    requires count { length owners.now ≡ length parts.now.netlist.nets + 2 }
    requires owners { AreOwners parts.now suspects.now owners.now }
    ensures len { IfOk result (λ totals. length totals.totals ≡ length suspects.now) }
    ensures whole { (logs : List LogFacts) → StandsFor logs joined.now → IfOk result (AreTotals (compact_bits parts.now compact.now) (compact_class parts.now compact.now logs) (predicts_compact_fail parts.now compact.now) suspects.now) }
{
    let _ = parts.circuit().order();
    let tables = Tables::make(alloc, parts, compact)?;
    let reads = reads_of(alloc, parts)?;
    let nets = owned_nets(alloc, parts, &reads, owners)?;
    let mut totals = BlockTotals::make(alloc, suspects.len())?;
    for block in 0..good.blocks().len() {
        let rows = rows_of_places(alloc, joined, expected, block as u32)?;
        let shown = shown_rows(alloc, parts, compact, &good.blocks()[block])?;
        let observer = CompactCounts {
            alloc,
            parts,
            good,
            block,
            compact,
            tables: &tables,
            expected: &shown,
            rows: rows.as_slice(),
        };
        let work = BlockWork {
            parts,
            good,
            block,
            observer: &observer,
            reads: &reads,
            suspects,
            owners,
        };
        let shares = block_parts(alloc, &work, &nets)?;
        totals.add_block(rows.as_slice(), shares.as_slice());
    }
    Ok(totals)
}

/// The places of all modelled faults.
fn all_places(alloc: Global, parts: &Parts) -> Result<Vec<u32>, NoMemory>
    ensures all { IfOk result (λ places. places.items ≡ range_with_len 0 (length (universe parts.now))) }
    ensures few { IfOk result (λ places. length places.items < 2 ^ 32) }
{
    let count = universe_len(parts);
    let mut places = Vec::with_capacity(alloc, count as usize)?;
    for place in 0..count {
        places.push(place)?;
    }
    Ok(places)
}

/// The counts of the faults at some places, of those that explain a Failing bit.
fn counts_at(
    alloc: Global,
    parts: &Parts,
    compact: &Compact,
    good: &PackedGood,
    expected: &Expected,
    joined: &Joined,
    places: &[u32],
) -> Result<Rows<Scored>, NoMemory>
    requires made { IsCompactorOf parts.now compact.now }
    requires good { BelongsTo parts.now good.now }
    requires expected { expected.now ≡ compact_rows parts.now compact.now }
    requires joined { IsJoinedOf (length parts.now.patterns) (length compact.now.points) joined.now }
    requires places { All (λ p. p < length (universe parts.now)) places.now }
    requires few { length places.now < 2 ^ 32 }
    ensures { (logs : List LogFacts) → StandsFor logs joined.now
        → IfOk result (λ rows. rows ≡ candidates_in (universe parts.now) (compact_bits parts.now compact.now) (compact_class parts.now compact.now logs) (predicts_compact_fail parts.now compact.now) places.now) }
{
    let suspects = suspects_at(alloc, parts, places)?;
    let owners = owners_of(alloc, parts, suspects.as_slice())?;
    let totals = count_blocks(
        alloc,
        parts,
        compact,
        good,
        expected,
        joined,
        suspects.as_slice(),
        &owners,
    )?;
    list_candidates(alloc, suspects.as_slice(), &totals)
}

/// The counts of all faults that explain a failing bit, in the order of their places.
fn counts_of_all(
    alloc: Global,
    parts: &Parts,
    compact: &Compact,
    good: &PackedGood,
    expected: &Expected,
    joined: &Joined,
) -> Result<Rows<Scored>, NoMemory>
    requires made { IsCompactorOf parts.now compact.now }
    requires good { BelongsTo parts.now good.now }
    requires expected { expected.now ≡ compact_rows parts.now compact.now }
    requires joined { IsJoinedOf (length parts.now.patterns) (length compact.now.points) joined.now }
    ensures { (logs : List LogFacts) → StandsFor logs joined.now → IfOk result (λ rows. rows ≡ compact_candidates parts.now compact.now logs) }
{
    let places = all_places(alloc, parts)?;
    counts_at(alloc, parts, compact, good, expected, joined, &places)
}

/// The faults that explain at least one failing bit of what a tester saw through a compactor, with their counts, in the order
/// of their places. Where the bits of the test upstream of the failing ones are few, they are traced back, and faults that can explain
/// none of them aren't counted. Faults are counted 512 patterns at a time, by flips of nets, and none is simulated by itself: no
/// step is taken.
pub fn compact_counts<L: Ledger>(
    alloc: Global,
    parts: &Parts,
    compact: &Compact,
    good: &PackedGood,
    expected: &Expected,
    joined: &Joined,
    steps: &mut Steps<L>,
) -> Result<Rows<Scored>, NoMemory>
    requires made { IsCompactorOf parts.now compact.now }
    requires good { BelongsTo parts.now good.now }
    requires expected { expected.now ≡ compact_rows parts.now compact.now }
    requires joined { IsJoinedOf (length parts.now.patterns) (length compact.now.points) joined.now }
    ensures counts { (logs : List LogFacts) → StandsFor logs joined.now → IfOk result (λ rows. rows ≡ compact_candidates parts.now compact.now logs) }
    ensures steps { steps.new ≡ steps.old }
{
    let _ = steps;
    match traced_places(alloc, parts, compact, good, expected, joined)? {
        Some(places) => counts_at(
            alloc,
            parts,
            compact,
            good,
            expected,
            joined,
            places.as_slice(),
        ),
        None => counts_of_all(alloc, parts, compact, good, expected, joined),
    }
}
