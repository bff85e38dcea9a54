//! The counts of all faults that can explain a Failing bit.
ghost use Rattle.std.specs.Prelude.{◌≡◌, ◌+◌, ◌^◌, ◌<◌, ◌≤◌, List, All, length, IfOk};
ghost use Rattle.scan_model.specs.declared.logs.LogFacts.{LogFacts};
ghost use Rattle.scan_model.specs.ScanTest.{points_of};
ghost use Rattle.scan_model.specs.Response.{expected_rows};
ghost use Rattle.scan_model.specs.Universe.{universe};
ghost use Rattle.scan_model.specs.MatchCounts.{candidates};
ghost use Rattle.log_join.specs.Joining.{StandsFor, IsJoinedOf};
ghost use Rattle.packed_sim.specs.PackedParts.{BelongsTo};
ghost use Rattle.fault_effects.specs.Owners.{IsSuspectOf, AreOwners, places_of};
ghost use Rattle.match_counts.specs.Totals.{candidates_at};

use crate::counting::count_blocks;
use crate::listing::list_candidates;
use back_trace::suspects_over;
use fault_effects::{Suspect, owners_of, suspects_at};
use fault_universe::universe_len;
use lane_rows::Groups;
use log_join::Joined;
use packed_sim::PackedGood;
use scan_model::{Expected, NoMemory, Parts, Rows, Scored};
use std::alloc::Global;
use std::thread::Threads;

/// The places, as long as they aren't more than there are faults, so that 32 bits hold the number of each.
fn few_places<'a>(parts: &Parts, places: &'a [u32]) -> &'a [u32]
    ensures few { length result.now < 2 ^ 32 }
    ensures same { length places.now ≤ length (universe parts.now) → result.now ≡ places.now }
{
    if places.len() <= universe_len(parts) as usize {
        places
    } else {
        &places[..0]
    }
}

/// Counts the suspects, and lists those that explain a Failing bit.
fn counts_over<R: Threads + Sync>(
    rt: &R,
    alloc: Global,
    parts: &Parts,
    good: &PackedGood,
    expected: &Expected,
    joined: &Joined,
    suspects: &[Suspect],
    owners: &Groups,
) -> Result<Rows<Scored>, NoMemory>
    requires good { BelongsTo parts.now good.now }
    requires expected { expected.now ≡ expected_rows parts.now }
    requires joined { IsJoinedOf (length parts.now.patterns) (length (points_of parts.now)) joined.now }
    requires suspects { All (IsSuspectOf parts.now) suspects.now }
    requires count { length owners.now ≡ length parts.now.netlist.nets + 2 }
    requires owners { AreOwners parts.now suspects.now owners.now }
    ensures { (logs : List LogFacts) → StandsFor logs joined.now → IfOk result (λ rows. rows ≡ candidates_at parts.now logs (places_of suspects.now)) }
{
    let _ = parts.circuit();
    let totals = count_blocks(rt, alloc, parts, good, expected, joined, suspects, owners)?;
    list_candidates(alloc, suspects, &totals)
}

/// The faults that explain at least one failing bit, with their counts, in the order of their places. Suspects alone are
/// counted, 512 patterns at a time, in as many threads as there are processors: one flip serves all faults of a net, and all nets of a region.
pub fn counts<R: Threads + Sync>(
    rt: &R,
    alloc: Global,
    parts: &Parts,
    good: &PackedGood,
    expected: &Expected,
    joined: &Joined,
) -> Result<Rows<Scored>, NoMemory>
    requires good { BelongsTo parts.now good.now }
    requires expected { expected.now ≡ expected_rows parts.now }
    requires joined { IsJoinedOf (length parts.now.patterns) (length (points_of parts.now)) joined.now }
    ensures { (logs : List LogFacts) → StandsFor logs joined.now → IfOk result (λ rows. rows ≡ candidates parts.now logs) }
{
    let traced = suspects_over(alloc, parts, good.rows(), expected, joined)?;
    let places = few_places(parts, traced.as_slice());
    let suspects = suspects_at(alloc, parts, places)?;
    let owners = owners_of(alloc, parts, suspects.as_slice())?;
    counts_over(
        rt,
        alloc,
        parts,
        good,
        expected,
        joined,
        suspects.as_slice(),
        &owners,
    )
}
