//! A chain that is loaded as under a fault of its shift path, and the notes of what the places show then.
ghost use Rattle.std.specs.Prelude.{◌≡◌, ◌≢◌, ℕ, ◌+◌, ◌<◌, ◌≤◌, All, MatchOption, length, true, false, OnOk};
ghost use Rattle.scan_model.specs.declared.fault.Fault.TheVariants as fault;
ghost use Rattle.scan_model.specs.declared.parts.Point.TheVariants as point;
ghost use Rattle.scan_model.specs.ScanTest.{points_of, point_at, chain_at};
ghost use Rattle.scan_model.specs.Loads.{cell};
ghost use Rattle.scan_model.specs.Suspect.{observed_net};
ghost use Rattle.place_sets.specs.Places.{has_place};
ghost use Rattle.packed_sim.specs.PackedParts.{IsBuiltFor, has_own_row};
ghost use Rattle.packed_sim.specs.ChainLoads.{IsLoaded};
ghost use Rattle.fault_effects.specs.Notes.{AreNotes};
ghost use Rattle.fault_effects.specs.ChainWork.{IsChainWork};
ghost use Rattle.fault_effects.specs.Walks.{IsFresh, ArePlacesFresh, AreFreshAt, IsMovedAndObserved, IsNetDone, IsRenoted};

use crate::block_work::BlockWork;
use crate::notes::{Notes, clear_notes, note_row};
use crate::observer::ChainObserver;
use packed_sim::Scratch;
use scan_model::{CellKind, NoMemory, Parts, Point};

/// A chain that is loaded as under a fault of its shift path, in the work of a block.
#[derive(Drop)]
pub(crate) struct LoadedChain<'a, O> {
    pub work: &'a BlockWork<'a, O>,
    pub scratch: &'a Scratch,
    pub chain: u32,
    pub pos: u32,
    pub kind: CellKind,
    ghost chain_within: { chain < length work.now.parts.now.chains },
    ghost pos_within: { pos < length (chain_at work.now.parts.now chain).cells },
    ghost loaded: { IsLoaded work.now.parts.now work.now.good.now work.now.block chain pos kind scratch.now },
}

/// The cells of a chain.
fn chain_cells(parts: &Parts, chain: u32) -> &[u32]
    requires { chain < length parts.now.chains }
    ensures { result.now ≡ (chain_at parts.now chain).cells }
{
    parts.chains().as_slice()[chain as usize].cells.as_slice()
}

/// The position below that of a point, if the point is a cell of the chain above its first.
fn position_below(shown_at: Point, chain: u32) -> Option<u32>
    ensures { MatchOption result ((i : ℕ) → shown_at ≢ point.Cell chain (i + 1)) (λ at. shown_at ≡ point.Cell chain (at + 1)) }
{
    match shown_at {
        Point::Output { .. } => None,
        Point::Cell { chain: own, pos } => {
            if own == chain && pos > 0 {
                Some(pos - 1)
            } else {
                None
            }
        }
    }
}

impl<O: ChainObserver> LoadedChain<'_, O> {
    /// Notes a place again.
    fn note_place(&self, notes: &mut Notes<O::Sum>, place: u32)
        requires work { IsChainWork O.test O.good O.block O.model O.ready self.now.work.now }
        requires notes { AreNotes (O.sums self.now.work.now.observer.now) (O.model self.now.work.now.observer.now).places notes.old }
        requires place { place < (O.model self.now.work.now.observer.now).places }
        ensures notes { AreNotes (O.sums self.now.work.now.observer.now) (O.model self.now.work.now.observer.now).places notes.new }
        ensures renoted { IsRenoted (O.model self.now.work.now.observer.now) self.now.work.now.block (fault.Cell self.now.chain self.now.pos self.now.kind) notes.old.rows.items notes.new.rows.items }
        ensures fresh { IsFresh (O.model self.now.work.now.observer.now) self.now.work.now.block (fault.Cell self.now.chain self.now.pos self.now.kind) notes.new.rows.items place }
    {
        let row = self
            .work
            .observer
            .row(self.scratch, (self.chain, self.pos), self.kind, place);
        note_row(self.work.observer, notes, place, row);
    }

    /// Notes again the places that see a point.
    fn note_point(&self, notes: &mut Notes<O::Sum>, point: u32)
        requires work { IsChainWork O.test O.good O.block O.model O.ready self.now.work.now }
        requires notes { AreNotes (O.sums self.now.work.now.observer.now) (O.model self.now.work.now.observer.now).places notes.old }
        requires point { point < length (points_of self.now.work.now.parts.now) }
        ensures notes { AreNotes (O.sums self.now.work.now.observer.now) (O.model self.now.work.now.observer.now).places notes.new }
        ensures renoted { IsRenoted (O.model self.now.work.now.observer.now) self.now.work.now.block (fault.Cell self.now.chain self.now.pos self.now.kind) notes.old.rows.items notes.new.rows.items }
        ensures fresh { ArePlacesFresh (O.model self.now.work.now.observer.now) self.now.work.now.block (fault.Cell self.now.chain self.now.pos self.now.kind) notes.new.rows.items point }
    {
        let mut nth = 0;
        while let Some(place) = self.work.observer.place_seeing(point, nth) {
            self.note_place(notes, place);
            nth += 1;
        }
    }

    /// Notes again the places that see some points.
    fn note_points(&self, notes: &mut Notes<O::Sum>, points: &[u32])
        requires work { IsChainWork O.test O.good O.block O.model O.ready self.now.work.now }
        requires notes { AreNotes (O.sums self.now.work.now.observer.now) (O.model self.now.work.now.observer.now).places notes.old }
        requires points { All (λ k. k < length (points_of self.now.work.now.parts.now)) points.now }
        ensures notes { AreNotes (O.sums self.now.work.now.observer.now) (O.model self.now.work.now.observer.now).places notes.new }
        ensures renoted { IsRenoted (O.model self.now.work.now.observer.now) self.now.work.now.block (fault.Cell self.now.chain self.now.pos self.now.kind) notes.old.rows.items notes.new.rows.items }
        ensures fresh { All (ArePlacesFresh (O.model self.now.work.now.observer.now) self.now.work.now.block (fault.Cell self.now.chain self.now.pos self.now.kind) notes.new.rows.items) points.now }
    {
        for point in points {
            self.note_point(notes, *point);
        }
    }

    /// Notes again what observes a net.
    fn note_net(&self, notes: &mut Notes<O::Sum>, net: u32)
        requires work { IsChainWork O.test O.good O.block O.model O.ready self.now.work.now }
        requires notes { AreNotes (O.sums self.now.work.now.observer.now) (O.model self.now.work.now.observer.now).places notes.old }
        requires net { net < length self.now.work.now.parts.now.netlist.nets }
        ensures notes { AreNotes (O.sums self.now.work.now.observer.now) (O.model self.now.work.now.observer.now).places notes.new }
        ensures renoted { IsRenoted (O.model self.now.work.now.observer.now) self.now.work.now.block (fault.Cell self.now.chain self.now.pos self.now.kind) notes.old.rows.items notes.new.rows.items }
        ensures fresh { AreFreshAt self.now.work.now.parts.now (O.model self.now.work.now.observer.now) self.now.work.now.block (fault.Cell self.now.chain self.now.pos self.now.kind) notes.new.rows.items net }
    {
        let points = self.work.good.points_of_net(self.work.parts, net);
        self.note_points(notes, points);
    }

    /// Notes a position of the chain again.
    pub(crate) fn note_position(&self, notes: &mut Notes<O::Sum>, pos: u32)
        requires work { IsChainWork O.test O.good O.block O.model O.ready self.now.work.now }
        requires notes { AreNotes (O.sums self.now.work.now.observer.now) (O.model self.now.work.now.observer.now).places notes.old }
        requires pos { pos < length (chain_at self.now.work.now.parts.now self.now.chain).cells }
        ensures notes { AreNotes (O.sums self.now.work.now.observer.now) (O.model self.now.work.now.observer.now).places notes.new }
        ensures renoted { IsRenoted (O.model self.now.work.now.observer.now) self.now.work.now.block (fault.Cell self.now.chain self.now.pos self.now.kind) notes.old.rows.items notes.new.rows.items }
        ensures fresh { AreFreshAt self.now.work.now.parts.now (O.model self.now.work.now.observer.now) self.now.work.now.block (fault.Cell self.now.chain self.now.pos self.now.kind) notes.new.rows.items (observed_net self.now.work.now.parts.now (point.Cell self.now.chain pos)) }
    {
        let shown_at = Point::Cell {
            chain: self.chain,
            pos,
        };
        let net = self.work.parts.observed_net(shown_at);
        self.note_net(notes, net);
    }

    /// Notes again the positions of the chain that stand below some points.
    fn note_below(&self, notes: &mut Notes<O::Sum>, points: &[u32])
        requires work { IsChainWork O.test O.good O.block O.model O.ready self.now.work.now }
        requires notes { AreNotes (O.sums self.now.work.now.observer.now) (O.model self.now.work.now.observer.now).places notes.old }
        requires points { All (λ k. k < length (points_of self.now.work.now.parts.now)) points.now }
        ensures notes { AreNotes (O.sums self.now.work.now.observer.now) (O.model self.now.work.now.observer.now).places notes.new }
        ensures renoted { IsRenoted (O.model self.now.work.now.observer.now) self.now.work.now.block (fault.Cell self.now.chain self.now.pos self.now.kind) notes.old.rows.items notes.new.rows.items }
        ensures fresh { All (λ k. (i : ℕ) → point_at self.now.work.now.parts.now k ≡ point.Cell self.now.chain (i + 1)
            → AreFreshAt self.now.work.now.parts.now (O.model self.now.work.now.observer.now) self.now.work.now.block (fault.Cell self.now.chain self.now.pos self.now.kind) notes.new.rows.items (observed_net self.now.work.now.parts.now (point.Cell self.now.chain i))) points.now }
    {
        for point in points {
            let at = self.work.parts.points().as_slice()[*point as usize];
            if let Some(pos) = position_below(at, self.chain) {
                self.note_position(notes, pos);
            }
        }
    }

    /// Notes again all that a change of a net can change.
    fn note_changed(&self, notes: &mut Notes<O::Sum>, net: u32)
        requires work { IsChainWork O.test O.good O.block O.model O.ready self.now.work.now }
        requires notes { AreNotes (O.sums self.now.work.now.observer.now) (O.model self.now.work.now.observer.now).places notes.old }
        requires net { net < length self.now.work.now.parts.now.netlist.nets }
        ensures notes { AreNotes (O.sums self.now.work.now.observer.now) (O.model self.now.work.now.observer.now).places notes.new }
        ensures renoted { IsRenoted (O.model self.now.work.now.observer.now) self.now.work.now.block (fault.Cell self.now.chain self.now.pos self.now.kind) notes.old.rows.items notes.new.rows.items }
        ensures done { IsNetDone self.now.work.now.parts.now (O.model self.now.work.now.observer.now) self.now.work.now.block (fault.Cell self.now.chain self.now.pos self.now.kind) self.now.chain notes.new.rows.items net }
    {
        let points = self.work.good.points_of_net(self.work.parts, net);
        self.note_points(notes, points);
        self.note_below(notes, points);
    }

    /// Notes what observes a net with a row of its own.
    fn note_touched(&self, notes: &mut Notes<O::Sum>)
        requires work { IsChainWork O.test O.good O.block O.model O.ready self.now.work.now }
        requires notes { AreNotes (O.sums self.now.work.now.observer.now) (O.model self.now.work.now.observer.now).places notes.old }
        ensures notes { AreNotes (O.sums self.now.work.now.observer.now) (O.model self.now.work.now.observer.now).places notes.new }
        ensures renoted { IsRenoted (O.model self.now.work.now.observer.now) self.now.work.now.block (fault.Cell self.now.chain self.now.pos self.now.kind) notes.old.rows.items notes.new.rows.items }
        ensures fresh { (n : ℕ) → has_own_row self.now.scratch.now n ≡ true → AreFreshAt self.now.work.now.parts.now (O.model self.now.work.now.observer.now) self.now.work.now.block (fault.Cell self.now.chain self.now.pos self.now.kind) notes.new.rows.items n }
    {
        let nets = self.scratch.nets();
        for net in nets {
            self.note_net(notes, *net);
        }
    }

    /// Notes all positions of the chain.
    fn note_chain(&self, notes: &mut Notes<O::Sum>)
        requires work { IsChainWork O.test O.good O.block O.model O.ready self.now.work.now }
        requires notes { AreNotes (O.sums self.now.work.now.observer.now) (O.model self.now.work.now.observer.now).places notes.old }
        ensures notes { AreNotes (O.sums self.now.work.now.observer.now) (O.model self.now.work.now.observer.now).places notes.new }
        ensures renoted { IsRenoted (O.model self.now.work.now.observer.now) self.now.work.now.block (fault.Cell self.now.chain self.now.pos self.now.kind) notes.old.rows.items notes.new.rows.items }
        ensures fresh { (i : ℕ) → i < length (chain_at self.now.work.now.parts.now self.now.chain).cells
            → AreFreshAt self.now.work.now.parts.now (O.model self.now.work.now.observer.now) self.now.work.now.block (fault.Cell self.now.chain self.now.pos self.now.kind) notes.new.rows.items (observed_net self.now.work.now.parts.now (point.Cell self.now.chain i)) }
    {
        let _ = self.work.parts.chains();
        let circuit = self.work.parts.circuit();
        let cells = chain_cells(self.work.parts, self.chain);
        for cell in cells {
            let net = circuit.data_net(*cell);
            self.note_net(notes, net);
        }
    }

    /// Notes all places for the first time. A point that neither observes a net with a row of its own nor stands in the
    /// chain shows its fault-free value, and a place that sees only such points does not fail.
    pub(crate) fn note_all(&self, notes: &mut Notes<O::Sum>) -> Result<(), NoMemory>
        requires work { IsChainWork O.test O.good O.block O.model O.ready self.now.work.now }
        ensures notes { OnOk result (AreNotes (O.sums self.now.work.now.observer.now) (O.model self.now.work.now.observer.now).places notes.new) }
        ensures fresh { OnOk result ((q : ℕ) → q < (O.model self.now.work.now.observer.now).places → IsFresh (O.model self.now.work.now.observer.now) self.now.work.now.block (fault.Cell self.now.chain self.now.pos self.now.kind) notes.new.rows.items q) }
    {
        let _ = self.work.parts.points();
        clear_notes(self.work.observer, notes)?;
        self.note_touched(notes);
        self.note_chain(notes);
        Ok(())
    }

    /// The least net from one on that has a mark and that a point observes. Few nets are observed at all.
    fn next_moved(&self, from: u32) -> Option<u32>
        requires { IsBuiltFor self.now.work.now.parts.now self.now.work.now.good.now }
        ensures { MatchOption result ((n : ℕ) → from ≤ n → n < length self.now.work.now.parts.now.netlist.nets → IsMovedAndObserved self.now.work.now.parts.now self.now.scratch.now n → ⊥)
            (λ net. (from ≤ net) × (net < length self.now.work.now.parts.now.netlist.nets) × IsMovedAndObserved self.now.work.now.parts.now self.now.scratch.now net
            × ((n : ℕ) → from ≤ n → n < net → IsMovedAndObserved self.now.work.now.parts.now self.now.scratch.now n → ⊥)) }
    {
        let nets = self.work.parts.circuit().nets().len();
        let observing = self.work.good.observing(self.work.parts);
        match self.scratch.moved.next_in_both(observing, from as usize) {
            Some(net) => if net < nets { Some(net as u32) } else { None },
            None => None,
        }
    }

    /// Notes again all that a change of the marked nets can change.
    pub(crate) fn note_moved(&self, notes: &mut Notes<O::Sum>)
        requires work { IsChainWork O.test O.good O.block O.model O.ready self.now.work.now }
        requires notes { AreNotes (O.sums self.now.work.now.observer.now) (O.model self.now.work.now.observer.now).places notes.old }
        ensures notes { AreNotes (O.sums self.now.work.now.observer.now) (O.model self.now.work.now.observer.now).places notes.new }
        ensures renoted { IsRenoted (O.model self.now.work.now.observer.now) self.now.work.now.block (fault.Cell self.now.chain self.now.pos self.now.kind) notes.old.rows.items notes.new.rows.items }
        ensures done { (n : ℕ) → n < length self.now.work.now.parts.now.netlist.nets → has_place self.now.scratch.now.moved n ≡ true
            → IsNetDone self.now.work.now.parts.now (O.model self.now.work.now.observer.now) self.now.work.now.block (fault.Cell self.now.chain self.now.pos self.now.kind) self.now.chain notes.new.rows.items n }
    {
        let _ = self.work.parts.circuit().nets();
        let mut from = 0;
        while let Some(net) = self.next_moved(from) {
            self.note_changed(notes, net);
            from = net + 1;
        }
    }
}
