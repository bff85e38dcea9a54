//! A die whose suspects are tried block by block.
ghost use Rattle.std.specs.Prelude.{◌≡◌, ℕ, ◌^◌, ◌<◌, List, length, IfOk};
ghost use Rattle.scan_model.specs.declared.logs.LogFacts.{LogFacts};
ghost use Rattle.scan_model.specs.ScanTest.{points_of};
ghost use Rattle.lane_rows.specs.Lanes.{lane};
ghost use Rattle.log_join.specs.Joining.{StandsFor};
ghost use Rattle.fault_effects.specs.Owners.{places_of};
ghost use Rattle.slat_view.specs.Tests.{AreDieSuspects, AreTrials, IsBlockOf};
ghost use Rattle.slat_view.specs.Trials.{any_failing, AreFits};

use crate::die_suspects::DieSuspects;
use crate::failing::{failing_counts, failing_lanes};
use crate::fits::Fits;
use crate::shares::list_fits;
use crate::whole_block::block_parts;
use fault_effects::BlockWork;
use lane_rows::Row;
use log_rows::{PointRow, rows_of_points};
use match_counts::PointCounts;
use pattern_fits::Fit;
use scan_model::{Expected, NoMemory, Parts, Rows};
use std::alloc::Global;
use std::thread::Threads;

/// A die with logs: the parts of its design with their fault-free responses, and what is made for its suspects.
#[derive(Clone, Copy)]
pub(crate) struct DieTrials<'a> {
    pub parts: &'a Parts,
    pub expected: &'a Expected,
    pub die: &'a DieSuspects<'a>,
}

/// The lanes of the failing patterns of a block, and what the suspects fit in it.
#[derive(Drop)]
pub(crate) struct BlockFits {
    pub failing: Row,
    pub fits: Rows<Fit>,
}

/// What the suspects fit in a block, by the rows of its points.
fn fits_by<'a, R: Threads + Sync>(
    rt: &R,
    alloc: Global,
    parts: &'a Parts,
    die: &'a DieSuspects<'a>,
    block: usize,
    rows: &'a [PointRow],
    failing: Row,
) -> Result<Rows<Fit>, NoMemory>
    requires die { AreDieSuspects parts.now die.now }
    requires block { block < length die.now.good.now.rows }
    requires rows { length rows.now ≡ length (points_of parts.now) }
    requires failing { (j : ℕ) → j < 512 → lane failing j ≡ any_failing rows.now j }
    ensures { IfOk result (AreFits parts.now rows.now block (places_of die.now.suspects)) }
{
    let _ = parts.points();
    let _ = parts.circuit().order();
    let totals = failing_counts(alloc, rows)?;
    let good = die.good;
    let points = PointCounts {
        parts,
        good,
        block,
        rows,
    };
    let observer = Fits {
        alloc,
        points,
        totals,
        failing,
    };
    let suspects = die.suspects.as_slice();
    let work = BlockWork {
        parts,
        good,
        block,
        observer: &observer,
        reads: &die.reads,
        suspects,
        owners: &die.owners,
    };
    let shares = block_parts(rt, alloc, &work, &die.nets)?;
    list_fits(alloc, suspects, shares.as_slice())
}

impl DieTrials<'_> {
    /// Tries the suspects in a block of 512 patterns. Where no pattern is failing that costs the reading of the logs alone.
    pub(crate) fn block<R: Threads + Sync>(
        &self,
        rt: &R,
        alloc: Global,
        block: u32,
    ) -> Result<BlockFits, NoMemory>
        requires trials { AreTrials self.now }
        requires block { block < length self.now.die.now.good.now.rows }
        requires small { block < 2 ^ 16 }
        ensures { (logs : List LogFacts) → StandsFor logs self.now.die.now.joined → IfOk result (IsBlockOf self.now.parts.now logs block (places_of self.now.die.now.suspects)) }
    {
        let rows = rows_of_points(alloc, self.parts, &self.die.joined, self.expected, block)?;
        let failing = failing_lanes(rows.as_slice());
        if failing.is_empty() {
            let fits = Rows::new(alloc);
            return Ok(BlockFits { failing, fits });
        }
        let rows = rows.as_slice();
        let fits = fits_by(
            rt,
            alloc,
            self.parts,
            self.die,
            block as usize,
            rows,
            failing,
        )?;
        Ok(BlockFits { failing, fits })
    }
}
