//! The yardstick: counts by plain simulation of each fault.
ghost use Rattle.std.specs.Prelude.{◌≡◌, ◌++◌, ◌∷◌, [], List, length, cond, IfOk, OnOk};
ghost use Rattle.scan_model.specs.declared.logs.LogFacts.{LogFacts};
ghost use Rattle.scan_model.specs.ScanTest.{points_of, HasSite};
ghost use Rattle.scan_model.specs.Response.{expected_rows};
ghost use Rattle.scan_model.specs.MatchCounts.{counts_of, candidates, is_candidate};
ghost use Rattle.log_join.specs.Joining.{StandsFor, IsJoinedOf};

use crate::tally::count_row;
use fault_universe::{fault_at, universe_len};
use good_sim::plain_response;
use log_join::Joined;
use scan_model::{Counts, Expected, Fault, NoMemory, Parts, Rows, Scored};
use std::alloc::Global;

/// Counts one fault over all bits.
fn plain_counts_of(
    alloc: Global,
    parts: &Parts,
    expected: &Expected,
    joined: &Joined,
    fault: Fault,
) -> Result<Counts, NoMemory>
    requires expected { expected.now ≡ expected_rows parts.now }
    requires joined { IsJoinedOf (length parts.now.patterns) (length (points_of parts.now)) joined.now }
    requires fault { HasSite parts.now fault }
    ensures { (logs : List LogFacts) → StandsFor logs joined.now → IfOk result (λ counts. counts ≡ counts_of parts.now logs fault) }
{
    let mut counts = Counts {
        tfsf: 0,
        tfsp: 0,
        tpsf: 0,
    };
    // Their number is bounded, so no count overflows.
    let _points = parts.points();
    for pattern in 0..parts.patterns().len() as u32 {
        let values = plain_response(alloc, parts, pattern, Some(fault))?;
        counts = count_row(counts, expected, joined, pattern, values.as_slice());
    }
    Ok(counts)
}

/// Adds a fault's counts where it explains a failing bit.
pub(crate) fn push_candidate(rows: &mut Rows<Scored>, row: Scored) -> Result<(), NoMemory>
    ensures { OnOk result (rows.new ≡ rows.old ++ cond (is_candidate row) (row ∷ []) []) }
{
    if row.counts.tfsf > 0 {
        rows.push(row)?;
    }
    Ok(())
}

/// The faults that explain at least one failing bit, with their counts, in the order of their places. Each fault is
/// simulated by itself in each pattern, so the time is that of all patterns for each fault.
pub fn plain_counts(
    alloc: Global,
    parts: &Parts,
    expected: &Expected,
    joined: &Joined,
) -> Result<Rows<Scored>, NoMemory>
    requires expected { expected.now ≡ expected_rows parts.now }
    requires joined { IsJoinedOf (length parts.now.patterns) (length (points_of parts.now)) joined.now }
    ensures { (logs : List LogFacts) → StandsFor logs joined.now → IfOk result (λ rows. rows ≡ candidates parts.now logs) }
{
    let mut rows = Rows::new(alloc);
    for place in 0..universe_len(parts) {
        let Some(fault) = fault_at(parts, place) else {
            unreachable!()
        };
        let counts = plain_counts_of(alloc, parts, expected, joined, fault)?;
        push_candidate(&mut rows, Scored { place, counts })?;
    }
    Ok(rows)
}
