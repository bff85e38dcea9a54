//! Where changes show at compact points, among the bits of a block.

ghost use Rattle.std.specs.Prelude.{◌≡◌, ℕ, ◌<◌, ◌≤◌, true, length, map, OnOk};
ghost use Rattle.scan_model.specs.Values.{xor_of};
ghost use Rattle.lane_rows.specs.Lanes.{lane};
ghost use Rattle.lane_rows.specs.Planes.{held};
ghost use Rattle.place_sets.specs.Places.{has_place, IsNextWithin};
ghost use Rattle.match_counts.specs.Tables.{HasTable};
ghost use Rattle.chain_compactor.specs.Flips.{members_at};
ghost use Rattle.chain_compactor.specs.CompactCounts.{expected_at, differs_in, within_set};

use crate::changes::{Changes, differing};
use crate::counts::CompactCounts;
use lane_rows::Row;
use match_counts::FlipRows;
use place_sets::PlaceSet;
use scan_model::NoMemory;

/// The least place of a set from one on, if it lies before an end.
fn next_place(set: &PlaceSet, from: usize, end: usize) -> Option<usize>
    ensures { IsNextWithin (has_place set.now) from end result }
{
    match set.next_from(from) {
        Some(place) => if place < end { Some(place) } else { None },
        None => None,
    }
}

impl CompactCounts<'_> {
    /// The lanes, among some, in which a place shows the opposite of what it shows without changes.
    pub(crate) fn differing_row<C: Changes>(&self, changes: &C, lanes: Row, place: u32) -> Row
        requires ready { C.ready changes.now }
        requires test { C.test changes.now ≡ self.now.parts.now }
        requires tells { (j : ℕ) → j < 512 → lane lanes j ≡ true → C.tells changes.now j }
        requires good { (q j : ℕ) → q < length self.now.compact.now.points → j < 512 → lane lanes j ≡ true → held (expected_at self.now.expected.now q) j ≡ xor_of (map (C.good changes.now j) (members_at self.now.parts.now self.now.compact.now q)) }
        requires place { place < length self.now.compact.now.points }
        ensures { (j : ℕ) → j < 512 → lane result j ≡ differs_in self.now.parts.now self.now.compact.now lanes (C.good changes.now) (C.shown changes.now) place j }
    {
        let point = self.compact.in_order().as_slice()[place as usize];
        let expected = self.expected[place as usize];
        let differs = differing(
            changes,
            self.parts,
            self.compact,
            &self.tables.nets,
            expected,
            point,
        );
        lanes.and(differs)
    }

    /// Takes what shows at the places of a set, in place of what was here. The only error is want of memory.
    pub(crate) fn show_places<C: Changes>(
        &self,
        changes: &C,
        lanes: Row,
        set: &PlaceSet,
        into: &mut FlipRows,
    ) -> Result<(), NoMemory>
        requires ready { C.ready changes.now }
        requires test { C.test changes.now ≡ self.now.parts.now }
        requires tells { (j : ℕ) → j < 512 → lane lanes j ≡ true → C.tells changes.now j }
        requires good { (q j : ℕ) → q < length self.now.compact.now.points → j < 512 → lane lanes j ≡ true → held (expected_at self.now.expected.now q) j ≡ xor_of (map (C.good changes.now j) (members_at self.now.parts.now self.now.compact.now q)) }
        ensures { OnOk result (HasTable self.now.rows.now into.new (within_set set.now (differs_in self.now.parts.now self.now.compact.now lanes (C.good changes.now) (C.shown changes.now)))) }
    {
        into.clear();
        let mut from = 0;
        while let Some(place) = next_place(set, from, self.rows.len()) {
            let row = self.differing_row(changes, lanes, place as u32);
            into.add_point(&self.rows[place], row)?;
            from = place + 1;
        }
        Ok(())
    }
}
