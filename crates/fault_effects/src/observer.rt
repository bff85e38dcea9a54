//! What the engine tells an observer of a block, and what it asks of one.
ghost use Rattle.std.specs.Prelude.{◌≡◌, ℕ, ◌^◌, ◌<◌, ◌&&◌, ◌||◌, true, false, All, Contains, length, slice_get, IfOk, OnOk};
ghost use Rattle.scan_model.specs.declared.fault.Fault.TheVariants as fault;
ghost use Rattle.scan_model.specs.ScanTest.{HasSite, points_of, chain_at};
ghost use Rattle.scan_model.specs.Masks.{touched_nets, IsLogic};
ghost use Rattle.lane_rows.specs.Lanes.{lane};
ghost use Rattle.lane_rows.specs.GoodRows.{pattern_of};
ghost use Rattle.packed_sim.specs.ChainLoads.{IsLoaded};
ghost use Rattle.fault_effects.specs.Tables.{put_row};
ghost use Rattle.fault_effects.specs.FaultModel.{Table, no_places, shown_in, straight_in, fails_in};
ghost use Rattle.fault_effects.specs.Readers.{IsPinOf};

use lane_rows::Row;
use packed_sim::Scratch;
use scan_model::{CellKind, Fault, NoMemory, Steps, Stuck};
use std::alloc::Global;
use std::sync::ledger::Ledger;

/// Looks at one block: is told where a flip of a net shows, and says what a fault comes to in the lanes that it flips.
pub trait Observer {
    ghost use Rattle.std.specs.Prelude.{◌≡◌, ℕ, ◌<◌};
    ghost use Rattle.scan_model.specs.ScanTest.{ScanTest};
    ghost use Rattle.packed_sim.specs.declared.scratch.Scratch.{Scratch};
    ghost use Rattle.fault_effects.specs.FaultModel.{FaultModel, Table};

    /// What is kept of a flip.
    type Flip: Drop;

    /// What a fault comes to in the block.
    type Part: Copy + Drop;

    ghost test: { Self → ScanTest };

    ghost model: { Self → FaultModel };

    ghost block: { Self → ℕ };

    /// What it reads belongs together.
    ghost ready: { Self → Type 0 };

    /// A scratch that shows nothing.
    ghost clean: { Self → Scratch → Type 0 };

    /// This table of a flip is kept.
    ghost holds: { Self → Self.Flip → Table → Type 0 };

    /// What a table comes to.
    ghost means: { Self → Self.Part → Table → Type 0 };

    /// Room for a flip, with nothing kept.
    fn new_flip(&self, alloc: Global) -> Self::Flip
        ensures { holds self.now result no_places };

    /// Flips a net in all lanes, keeps where that shows, and leaves the scratch as it was. The only error is want of memory.
    fn flip<L: Ledger>(
        &self,
        scratch: &mut Scratch,
        net: u32,
        into: &mut Self::Flip,
        steps: &mut Steps<L>,
    ) -> Result<(), NoMemory>
        requires ready { ready self.now }
        requires scratch { clean self.now scratch.old }
        requires net { net < length (test self.now).netlist.nets }
        ensures scratch { clean self.now scratch.new }
        ensures flip { OnOk result (holds self.now into.new (shown_in (model self.now) (block self.now) net)) };

    /// The lanes in which a fault flips a net that it touches.
    fn mask(&self, fault: &Fault, net: u32) -> Row
        requires ready { ready self.now }
        requires logic { IsLogic fault.now }
        requires site { HasSite (test self.now) fault.now }
        requires touched { Contains (touched_nets (test self.now) fault.now) net }
        ensures { (j : ℕ) → j < 512 → (model self.now).captures (pattern_of (block self.now) j) ≡ true → lane result j ≡ (model self.now).flips fault.now (pattern_of (block self.now) j) net };

    /// The lanes in which a flip of a pin flips the gate that reads through it.
    fn downstream(&self, pin: u32) -> Row
        requires ready { ready self.now }
        requires pin { pin < length (test self.now).netlist.pins }
        ensures { (g j : ℕ) → IsPinOf (test self.now) pin g → j < 512 → (model self.now).captures (pattern_of (block self.now) j) ≡ true → lane result j ≡ (model self.now).pin_flips (pattern_of (block self.now) j) pin g };

    /// What a stuck pin comes to that goes straight to points. The only error is want of memory.
    fn straight(&self, pin: u32, value: Stuck) -> Result<Self::Part, NoMemory>
        requires ready { ready self.now }
        requires pin { pin < length (test self.now).netlist.pins }
        ensures { IfOk result (λ part. means self.now part (straight_in (model self.now) (block self.now) (fault.Branch pin value))) };

    /// What a flip comes to in some lanes.
    fn part(&self, flip: &Self::Flip, lanes: Row) -> Self::Part
        requires { (c : Table) × holds self.now flip.now c }
        ensures { (c : Table) → holds self.now flip.now c → means self.now result (λ q j. c q j && lane lanes j) };

    /// What two tables come to of which no lane has places of both.
    fn both(&self, first: Self::Part, second: Self::Part) -> Self::Part
        requires first { (c : Table) × means self.now first c }
        requires second { (c : Table) × means self.now second c }
        ensures { (c d : Table) → means self.now first c → means self.now second d → ((q p j : ℕ) → j < 512 → (c q j && d p j) ≡ false) → means self.now result (λ q j. c q j || d q j) };

    /// Tables that agree come to the same.
    ghost same: { (o : Self) (p : Self.Part) (c d : Table) → ((q j : ℕ) → q < (model o).places → j < 512 → c q j ≡ d q j) → means o p c → means o p d };
}

/// Is told besides what the places show under a fault of a shift path, place by place.
pub trait ChainObserver: Observer {
    ghost use Rattle.std.specs.Prelude.{ℕ, List};
    ghost use Rattle.packed_sim.specs.declared.good.PackedGood.{PackedGood};
    ghost use Rattle.fault_effects.specs.FaultModel.{Table};

    /// What the rows of all places come to, kept along a walk.
    type Sum: Drop;

    /// The packed rows over which chains are loaded.
    ghost good: { Self → PackedGood };

    /// This table is what was told.
    ghost sums: { Self → Self.Sum → Table → Type 0 };

    /// The places that see a point.
    ghost seeing: { Self → ℕ → List ℕ };

    /// The number of places.
    fn places(&self) -> usize
        ensures { result ≡ (Self.model self.now).places };

    /// One of the places that see a point, if there are so many.
    fn place_seeing(&self, point: u32, nth: u32) -> Option<u32>
        requires { point < length (points_of (Self.test self.now)) }
        ensures place { result ≡ slice_get (seeing self.now point) nth }
        ensures few { length (seeing self.now point) < 2 ^ 32 };

    /// The lanes in which a fault fails at a place, given a scratch in which its chain is loaded as it loads it.
    fn row(&self, scratch: &Scratch, cell: (u32, u32), kind: CellKind, place: u32) -> Row
        requires ready { Self.ready self.now }
        requires chain { cell.0 < length (Self.test self.now).chains }
        requires pos { cell.1 < length (chain_at (Self.test self.now) cell.0).cells }
        requires loaded { IsLoaded (Self.test self.now) (good self.now) (Self.block self.now) cell.0 cell.1 kind scratch.now }
        requires place { place < (Self.model self.now).places }
        ensures { (j : ℕ) → j < 512 → lane result j ≡ fails_in (Self.model self.now) (Self.block self.now) (fault.Cell cell.0 cell.1 kind) place j };

    /// The sum of nothing. The only error is want of memory.
    fn new_sum(&self, alloc: Global) -> Result<Self::Sum, NoMemory>
        ensures { IfOk result (λ sum. sums self.now sum no_places) };

    /// A place shows another row.
    fn change(&self, sum: &mut Self::Sum, place: u32, old: Row, new: Row)
        requires place { place < (Self.model self.now).places }
        requires old { (c : Table) × sums self.now sum.old c × ((j : ℕ) → j < 512 → lane old j ≡ c place j) }
        ensures { (c : Table) → sums self.now sum.old c → ((j : ℕ) → j < 512 → lane old j ≡ c place j) → sums self.now sum.new (put_row c place new) };

    /// What the sum comes to.
    fn total(&self, sum: &Self::Sum) -> Self::Part
        ensures { (c : Table) → sums self.now sum.now c → Self.means self.now result c };

    /// Tables that agree are the same to a sum.
    ghost same_sum: { (o : Self) (sum : Self.Sum) (c d : Table) → ((q j : ℕ) → q < (Self.model o).places → j < 512 → c q j ≡ d q j) → sums o sum c → sums o sum d };

    /// Those places are there, and all that see the point are among them.
    ghost seen_there: { (o : Self) (k : ℕ) → k < length (points_of (Self.test o)) → All (λ q. q < (Self.model o).places) (seeing o k) };

    ghost seen_all: { (o : Self) (k q : ℕ) → k < length (points_of (Self.test o)) → q < (Self.model o).places → (Self.model o).sees q k ≡ true → Contains (seeing o k) q };
}
