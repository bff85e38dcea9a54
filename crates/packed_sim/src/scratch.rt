//! The room in which a change spreads, each gate evaluated once at most.
ghost use Rattle.std.specs.Prelude.{◌≡◌, ℕ, List, ◌+◌, ◌<◌, ◌≤◌, ◌^◌, [], Some, true, false, length, All, IfOk, IsTrue, slice_set, slice_index, slice_index_or, ◌==◌, ◌||◌, Bool, count_by};
ghost use Rattle.std.specs.List.{list_any};
ghost use Rattle.scan_model.specs.declared.values.Tri.{Tri};
ghost use Rattle.scan_model.specs.declared.values.Tri.TheVariants.{Unknown};
ghost use Rattle.scan_model.specs.Netlist.{is_gate};
ghost use Rattle.scan_model.specs.NetValue.{Forced, net_node, values_of, nothing_forced};
ghost use Rattle.lane_rows.specs.Planes.{held};
ghost use Rattle.place_sets.specs.Places.{has_place, room};
ghost use Rattle.lane_rows.specs.Wiring.{sinks_of, AreKept, IsWired, Covers};
ghost use Rattle.packed_sim.specs.Rows.{IsClean, row_now};
ghost use Rattle.packed_sim.specs.Propagation.{lane_now, FitsScratch, IsClosed, IsFree, IsWithin, IsOpen, IsSettled, IsSet, IsTurn, HasMoved};

use crate::overlay::Overlay;
use lane_rows::{Packed, Wiring};
use place_sets::PlaceSet;
use scan_model::{Circuit, NoMemory, Steps};
use std::alloc::Global;
use std::sync::ledger::Ledger;

/// What a change needs while it spreads: rows of the nets that it touched, and the places of the gates that wait.
#[derive(Drop)]
pub struct Scratch {
    pub overlay: Overlay,
    pub waiting: PlaceSet,
    pub moved: PlaceSet,
}

/// Lets the gates at some places wait.
fn wake(waiting: &mut PlaceSet, places: &[u32])
    requires { All (λ k. k < room waiting.old) places.now }
    ensures places { (k : ℕ) → has_place waiting.new k ≡ (list_any (λ m. k == m) places.now || has_place waiting.old k) }
    ensures room { room waiting.new ≡ room waiting.old }
{
    for place in places {
        waiting.insert(*place as usize);
    }
}

impl Scratch {
    /// Gives a net a row, and lets the gates at some places wait, which are those that read it.
    #[inline(always)]
    fn put(&mut self, net: u32, row: Packed, readers: &[u32])
        requires net { net < length self.old.overlay }
        requires places { All (λ k. k < room self.old.waiting) readers.now }
        requires moved { net < room self.old.moved }
        ensures { (sinks : List (List ℕ)) → readers.now ≡ sinks_of sinks net → IsSet sinks net row self.old self.new }
    {
        self.overlay.write(net, row);
        self.moved.insert(net as usize);
        wake(&mut self.waiting, readers);
    }

    /// Gives a net a row, and lets what reads the net wait.
    pub fn set(&mut self, wiring: &Wiring, net: u32, row: Packed)
        requires net { net < length self.old.overlay }
        requires sinks { length self.old.overlay ≤ length wiring.now.sinks }
        requires places { All (λ k. k < room self.old.waiting) (slice_index_or wiring.now.sinks net []) }
        requires moved { net < room self.old.moved }
        ensures { IsSet wiring.now.sinks net row self.old self.new }
    {
        self.put(net, row, wiring.sinks.group(net));
    }

    /// Takes the gate at a place out and evaluates it. Where its row is another than before, what reads it waits.
    fn turn<L: Ledger>(
        &mut self,
        circuit: &Circuit,
        wiring: &Wiring,
        good: &[Packed],
        place: usize,
        steps: &mut Steps<L>,
    )
        requires wiring { IsWired circuit.now wiring.now.order.items wiring.now.sinks }
        requires kept { AreKept circuit.now wiring.now.order.items wiring.now.gates.items wiring.now.operands.items }
        requires fits { FitsScratch circuit.now wiring.now.order.items good.now self.old }
        requires place { place < length wiring.now.order.items }
        ensures turn { IsTurn circuit.now wiring.now.order.items wiring.now.sinks good.now place self.old self.new }
        ensures steps { steps.new ≡ steps.old + 1 }
    {
        self.waiting.remove(place);
        let gate = wiring.gates[place].net as u32;
        let changed = self.overlay.over(good);
        // What is asked for here comes while the gate is evaluated.
        let word = changed.first_word(gate);
        let readers = wiring.sinks.group(gate);
        let row = wiring.gate_row(&changed, circuit, place);
        steps.tick();
        let same = changed.has_row(gate, word, row);
        if !same {
            self.put(gate, row, readers);
        }
    }

    /// Evaluates what waits and what comes to wait, each gate once at most, until nothing does.
    pub(crate) fn settle<L: Ledger>(
        &mut self,
        circuit: &Circuit,
        wiring: &Wiring,
        good: &[Packed],
        steps: &mut Steps<L>,
    )
        requires wiring { IsWired circuit.now wiring.now.order.items wiring.now.sinks }
        requires kept { AreKept circuit.now wiring.now.order.items wiring.now.gates.items wiring.now.operands.items }
        requires fits { FitsScratch circuit.now wiring.now.order.items good.now self.old }
        ensures fits { FitsScratch circuit.now wiring.now.order.items good.now self.new }
        ensures empty { (k : ℕ) → has_place self.new.waiting k ≡ false }
        ensures room { room self.new.waiting ≡ room self.old.waiting }
        ensures leaves { (n : ℕ) → is_gate circuit.now n ≡ false → row_now self.new.overlay good.now n ≡ row_now self.old.overlay good.now n }
        ensures moved { HasMoved good.now self.old self.new }
        ensures settled { (live downstream : ℕ → Bool) (source : ℕ → Tri) (forced : Forced) (j : ℕ) → j < 512
            → Covers circuit.now wiring.now.order.items wiring.now.sinks live → IsClosed circuit.now downstream → IsFree downstream forced → IsWithin wiring.now.order.items downstream self.old
            → IsOpen circuit.now wiring.now.order.items good.now source forced live j self.old → IsSettled circuit.now good.now source forced live j self.new }
        ensures steps { (downstream : ℕ → Bool) → IsClosed circuit.now downstream → IsWithin wiring.now.order.items downstream self.old → steps.new ≤ steps.old + count_by downstream wiring.now.order.items }
    {
        let _ = circuit.nets();
        let mut from = 0;
        while let Some(place) = self.waiting.next_from(from) {
            self.turn(circuit, wiring, good, place, steps);
            from = place + 1;
        }
    }

    /// Takes all rows out.
    pub fn clear(&mut self)
        ensures len { length self.new.overlay ≡ length self.old.overlay }
        ensures clean { IsClean self.new.overlay }
        ensures waiting { self.new.waiting ≡ self.old.waiting }
        ensures moved { self.new.moved ≡ self.old.moved }
    {
        self.overlay.clear();
    }
}

fn sent<T: Send>(value: T) -> T {
    value
}

fn shared<T: Sync>(value: &T) -> &T {
    value
}

/// Wiring can be shared by threads, and a scratch sent to one.
fn crosses_threads(wiring: &Wiring, scratch: Scratch) -> Scratch {
    let _ = shared(wiring);
    sent(scratch)
}
