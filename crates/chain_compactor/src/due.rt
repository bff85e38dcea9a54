//! The compact points that see what observes some nets.

ghost use Rattle.std.specs.Prelude.{◌≡◌, ℕ, ◌<◌, ◌≤◌, true, All, Contains, length, IfOk};
ghost use Rattle.scan_model.specs.ScanTest.{points_of, point_at};
ghost use Rattle.place_sets.specs.Places.{has_place, room};
ghost use Rattle.packed_sim.specs.PackedParts.{IsBuiltFor, observed_at};
ghost use Rattle.chain_compactor.specs.ObservationPoints.{seeing};
ghost use Rattle.chain_compactor.specs.CompactCounts.{AreDue};

use crate::counts::CompactCounts;
use place_sets::PlaceSet;
use scan_model::NoMemory;

impl CompactCounts<'_> {
    /// Puts in the places that see a point.
    fn mark_point(&self, due: &mut PlaceSet, point: u32)
        requires point { point < length (points_of self.now.parts.now) }
        requires room { length self.now.compact.now.points ≤ room due.old }
        ensures room { room due.new ≡ room due.old }
        ensures places { ((q : ℕ) → has_place due.old q ≡ true → q < length self.now.compact.now.points) → (q : ℕ) → has_place due.new q ≡ true → q < length self.now.compact.now.points }
        ensures kept { (q : ℕ) → has_place due.old q ≡ true → has_place due.new q ≡ true }
        ensures seeing { (q : ℕ) → Contains (seeing self.now.parts.now self.now.compact.now (point_at self.now.parts.now point)) q → has_place due.new q ≡ true }
    {
        let mut nth = 0;
        while let Some(place) = self
            .tables
            .place_seeing(self.parts, self.compact, point, nth)
        {
            due.insert(place as usize);
            nth += 1;
        }
    }

    /// Puts in the places that see some points.
    fn mark_points(&self, due: &mut PlaceSet, points: &[u32])
        requires points { All (λ k. k < length (points_of self.now.parts.now)) points.now }
        requires room { length self.now.compact.now.points ≤ room due.old }
        ensures room { room due.new ≡ room due.old }
        ensures places { ((q : ℕ) → has_place due.old q ≡ true → q < length self.now.compact.now.points) → (q : ℕ) → has_place due.new q ≡ true → q < length self.now.compact.now.points }
        ensures kept { (q : ℕ) → has_place due.old q ≡ true → has_place due.new q ≡ true }
        ensures seeing { All (λ k. (q : ℕ) → Contains (seeing self.now.parts.now self.now.compact.now (point_at self.now.parts.now k)) q → has_place due.new q ≡ true) points.now }
    {
        for point in points {
            self.mark_point(due, *point);
        }
    }

    /// The places downstream of a point that observes one of some nets. The only error is want of memory.
    pub(crate) fn due_places(&self, nets: &[u32]) -> Result<PlaceSet, NoMemory>
        requires built { IsBuiltFor self.now.parts.now self.now.good.now }
        requires nets { All (λ n. n < length self.now.parts.now.netlist.nets) nets.now }
        ensures { IfOk result (AreDue self.now.parts.now self.now.compact.now nets.now) }
    {
        let _ = self.parts.chains();
        let mut due = PlaceSet::make(self.alloc, self.rows.len())?;
        for net in nets {
            let points = self.good.points_of_net(self.parts, *net);
            self.mark_points(&mut due, points);
        }
        Ok(due)
    }
}
