//! What is made once for a die, before its blocks are tried.
ghost use Rattle.std.specs.Prelude.{◌≡◌, List, length, IfOk};
ghost use Rattle.scan_model.specs.declared.logs.LogFacts.{LogFacts};
ghost use Rattle.scan_model.specs.ScanTest.{points_of};
ghost use Rattle.scan_model.specs.Response.{expected_rows};
ghost use Rattle.log_join.specs.Joining.{StandsFor, IsJoinedOf};
ghost use Rattle.packed_sim.specs.PackedParts.{BelongsTo};
ghost use Rattle.fault_effects.specs.Owners.{places_of};
ghost use Rattle.slat_view.specs.Tests.{AreDieSuspects, HaveAllFits};

use crate::narrowing::narrowed_places;
use fault_effects::{Reads, Suspect, owned_nets, owners_of, reads_of, suspects_at};
use fault_universe::universe_len;
use lane_rows::Groups;
use log_join::Joined;
use packed_sim::PackedGood;
use scan_model::{Expected, NoMemory, Parts, Rows};
use std::alloc::Global;

/// The fault-free rows of a design, the logs of a die, joined, its suspects in groups by owner, and the nets that own one.
#[derive(Drop)]
pub(crate) struct DieSuspects<'a> {
    pub good: &'a PackedGood,
    pub joined: Joined,
    pub suspects: Rows<Suspect>,
    pub owners: Groups,
    pub reads: Vec<Reads>,
    pub nets: Vec<u32>,
}

impl<'a> DieSuspects<'a> {
    /// Makes it from the rows of a design and the joined logs of a die.
    pub(crate) fn make(
        alloc: Global,
        parts: &Parts,
        good: &'a PackedGood,
        expected: &Expected,
        joined: Joined,
    ) -> Result<DieSuspects<'a>, NoMemory>
        requires good { BelongsTo parts.now good.now }
        requires expected { expected.now ≡ expected_rows parts.now }
        requires joined { IsJoinedOf (length parts.now.patterns) (length (points_of parts.now)) joined }
        ensures prepared { IfOk result (AreDieSuspects parts.now) }
        ensures joined { IfOk result (λ die. die.joined ≡ joined) }
        ensures fits { (logs : List LogFacts) → StandsFor logs joined → IfOk result (λ die. HaveAllFits parts.now logs (places_of die.suspects)) }
    {
        let _ = universe_len(parts);
        let places = narrowed_places(alloc, parts, good.rows(), expected, &joined)?;
        let suspects = suspects_at(alloc, parts, places.as_slice())?;
        let owners = owners_of(alloc, parts, suspects.as_slice())?;
        let reads = reads_of(alloc, parts)?;
        let nets = owned_nets(alloc, parts, &reads, &owners)?;
        Ok(DieSuspects {
            good,
            joined,
            suspects,
            owners,
            reads,
            nets,
        })
    }
}
