//! A change put on one net or on two, spread through the gates that it reaches.
ghost use Rattle.std.specs.Prelude.{◌≡◌, ℕ, ◌+◌, ◌<◌, ◌≤◌, [], ◌∷◌, true, false, Bool, length, count_by};
ghost use Rattle.scan_model.specs.declared.values.Tri.{Tri};
ghost use Rattle.scan_model.specs.NetValue.{Forced, values_of};
ghost use Rattle.scan_model.specs.Force.{force};
ghost use Rattle.lane_rows.specs.Planes.{held};
ghost use Rattle.place_sets.specs.Places.{has_place, room};
ghost use Rattle.lane_rows.specs.Wiring.{AreKept, IsWired};
ghost use Rattle.packed_sim.specs.Rows.{IsClean};
ghost use Rattle.packed_sim.specs.Propagation.{FitsScratch, AreApart, IsForced, is_downstream};
ghost use Rattle.scan_model.proofs.counting.OneSite.{force_two};

use crate::scratch::Scratch;
use lane_rows::{Packed, Wiring};
use scan_model::{Circuit, Steps};
use std::sync::ledger::Ledger;

impl Scratch {
    /// Gives one net a row where no net has one, and spreads the change.
    pub(crate) fn force<L: Ledger>(
        &mut self,
        circuit: &Circuit,
        wiring: &Wiring,
        good: &[Packed],
        net: u32,
        row: Packed,
        steps: &mut Steps<L>,
    )
        requires wiring { IsWired circuit.now wiring.now.order.items wiring.now.sinks }
        requires kept { AreKept circuit.now wiring.now.order.items wiring.now.gates.items wiring.now.operands.items }
        requires fits { FitsScratch circuit.now wiring.now.order.items good.now self.old }
        requires clean { IsClean self.old.overlay }
        requires empty { (k : ℕ) → has_place self.old.waiting k ≡ false }
        requires net { net < length circuit.now.nets }
        ensures fits { FitsScratch circuit.now wiring.now.order.items good.now self.new }
        ensures room { room self.new.waiting ≡ room self.old.waiting }
        ensures empty { (k : ℕ) → has_place self.new.waiting k ≡ false }
        ensures values { IsForced circuit.now wiring.now.order.items wiring.now.sinks good.now (λ j. force net (held row j)) self.new }
        ensures steps { steps.new ≤ steps.old + count_by (is_downstream circuit.now (net ∷ [])) wiring.now.order.items }
    {
        let _ = circuit.nets();
        self.set(wiring, net, row);
        self.settle(circuit, wiring, good, steps);
    }

    /// Gives two nets the same row where no net has one, and spreads the change. Neither leads to the other.
    pub(crate) fn force_pair<L: Ledger>(
        &mut self,
        circuit: &Circuit,
        wiring: &Wiring,
        good: &[Packed],
        nets: (u32, u32),
        row: Packed,
        steps: &mut Steps<L>,
    )
        requires wiring { IsWired circuit.now wiring.now.order.items wiring.now.sinks }
        requires kept { AreKept circuit.now wiring.now.order.items wiring.now.gates.items wiring.now.operands.items }
        requires fits { FitsScratch circuit.now wiring.now.order.items good.now self.old }
        requires clean { IsClean self.old.overlay }
        requires empty { (k : ℕ) → has_place self.old.waiting k ≡ false }
        requires first { nets.0 < length circuit.now.nets }
        requires second { nets.1 < length circuit.now.nets }
        requires apart { AreApart circuit.now (nets.0 ∷ nets.1 ∷ []) }
        ensures fits { FitsScratch circuit.now wiring.now.order.items good.now self.new }
        ensures room { room self.new.waiting ≡ room self.old.waiting }
        ensures empty { (k : ℕ) → has_place self.new.waiting k ≡ false }
        ensures values { IsForced circuit.now wiring.now.order.items wiring.now.sinks good.now (λ j. force_two nets.0 nets.1 (held row j)) self.new }
        ensures steps { steps.new ≤ steps.old + count_by (is_downstream circuit.now (nets.0 ∷ nets.1 ∷ [])) wiring.now.order.items }
    {
        let _ = circuit.nets();
        self.set(wiring, nets.0, row);
        self.set(wiring, nets.1, row);
        self.settle(circuit, wiring, good, steps);
    }
}
