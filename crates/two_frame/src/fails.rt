//! The fails that a transition fault predicts in a pattern.
ghost use Rattle.std.specs.Prelude.{◌≡◌, ℕ, ◌+◌, ◌<◌, ◌≤◌, ◌/◌, ◌%◌, [], ◌∷◌, ◌==◌, ◌&&◌, false, length, slice_index_or};
ghost use Rattle.scan_model.specs.declared.circuit.PinPlace.TheVariants as place;
ghost use Rattle.scan_model.specs.declared.fault.Fault.TheVariants as fault;
ghost use Rattle.scan_model.specs.Values.{are_opposite};
ghost use Rattle.scan_model.specs.Netlist.{pin_at, is_gate};
ghost use Rattle.scan_model.specs.ScanTest.{points_of, point_at};
ghost use Rattle.scan_model.specs.Masks.{flip_shows_from, place_is_point};
ghost use Rattle.lane_rows.specs.Lanes.{lane};
ghost use Rattle.packed_sim.specs.OperandValues.{IsGateOfPin};
ghost use Rattle.packed_sim.specs.PackedParts.{observed_at, gates_downstream, cone_gates, IsScratchIn, good_at, now_at};
ghost use Rattle.frame_rows.specs.Frames.{net_changes, second_source};
ghost use Rattle.two_frame.specs.TwoFrame.{transitions, makes_transition};
ghost use Rattle.two_frame.specs.FrameRows.{IsFrameGood, IsFrameScratch, AllCapture, AreFrameFails, transition_at};

use crate::frame_good::{FrameGood, FrameScratch};
use fault_universe::{branch_count, fault_at, stem_count};
use lane_rows::Row;
use packed_sim::{Scratch, gate_of_pin, is_pin_at, net_of_pin};
use scan_model::{Fault, GateKind, Parts, Steps, Stuck};
use std::sync::ledger::Ledger;

/// How many transition faults there are: the stems and the branches, each slow to rise and slow to fall.
pub fn slow_len(parts: &Parts) -> u32
    ensures { result ≡ length (transitions parts.now) }
{
    stem_count(parts) + branch_count(parts)
}

impl FrameGood {
    /// Writes the points whose nets differ in a pattern.
    fn write_differences(&self, parts: &Parts, scratch: &Scratch, pattern: u32, out: &mut [bool])
        requires good { IsFrameGood parts.now self.now }
        requires scratch { IsScratchIn self.now.second scratch.now }
        requires pattern { pattern < length parts.now.patterns }
        requires out { length out.old ≡ length (points_of parts.now) }
        ensures { (k : ℕ) → k < length (points_of parts.now) → slice_index_or out.new k false
            ≡ are_opposite (good_at self.now.second (pattern / 512) (pattern % 512) (observed_at parts.now k)) (now_at self.now.second scratch.now (pattern / 512) (pattern % 512) (observed_at parts.now k)) }
    {
        let _ = parts.circuit();
        for k in 0..out.len() {
            let net = self.second.observed(parts)[k];
            let differs = self
                .second
                .difference(parts, scratch, pattern as usize / 512, net);
            out[k] = differs.has(pattern as usize % 512);
        }
    }

    /// Flips a net in some lanes of a pattern's block, and writes where that shows in the pattern.
    fn show_flip<L: Ledger>(
        &self,
        parts: &Parts,
        scratch: &mut FrameScratch,
        net: u32,
        lanes: Row,
        pattern: u32,
        out: &mut [bool],
        steps: &mut Steps<L>,
    )
        requires good { IsFrameGood parts.now self.now }
        requires scratch { IsFrameScratch self.now scratch.old }
        requires captures { AllCapture parts.now }
        requires net { net < length parts.now.netlist.nets }
        requires pattern { pattern < length parts.now.patterns }
        requires out { length out.old ≡ length (points_of parts.now) }
        ensures shows { (k : ℕ) → k < length (points_of parts.now) → slice_index_or out.new k false
            ≡ (lane lanes (pattern % 512) && flip_shows_from parts.now.netlist (second_source parts.now pattern) net (observed_at parts.now k)) }
        ensures idle { ((j : ℕ) → j < 512 → lane lanes j ≡ false) → steps.new ≡ steps.old }
        ensures steps { steps.new ≤ steps.old + length (gates_downstream parts.now (net ∷ [])) }
        ensures scratch { IsFrameScratch self.now scratch.new }
    {
        if lanes.is_empty() {
            out.fill(false);
            return;
        }
        let block = pattern as usize / 512;
        self.second
            .flip(parts, &mut scratch.scratch, block, net, lanes, steps);
        self.write_differences(parts, &scratch.scratch, pattern, out);
        self.second.clear(&mut scratch.scratch);
    }

    /// The lane of a pattern, where a net makes a transition in it.
    fn launched_in(&self, parts: &Parts, pattern: u32, net: u32, value: Stuck) -> Row
        requires good { IsFrameGood parts.now self.now }
        requires captures { AllCapture parts.now }
        requires pattern { pattern < length parts.now.patterns }
        requires net { net < length parts.now.netlist.nets }
        ensures { (j : ℕ) → j < 512 → lane result j ≡ (net_changes parts.now value pattern net && (j == pattern % 512)) }
    {
        let launched = self.launched(parts, pattern as usize / 512, net, value);
        launched.and(Row::single(pattern as usize % 512))
    }

    fn stem_fails<L: Ledger>(
        &self,
        parts: &Parts,
        scratch: &mut FrameScratch,
        stem: (u32, Stuck),
        pattern: u32,
        out: &mut [bool],
        steps: &mut Steps<L>,
    )
        requires good { IsFrameGood parts.now self.now }
        requires scratch { IsFrameScratch self.now scratch.old }
        requires captures { AllCapture parts.now }
        requires stem { stem.0 < length parts.now.netlist.nets }
        requires pattern { pattern < length parts.now.patterns }
        requires out { length out.old ≡ length (points_of parts.now) }
        ensures fails { AreFrameFails parts.now (fault.Stem stem.0 stem.1) pattern out.new }
        ensures idle { net_changes parts.now stem.1 pattern stem.0 ≡ false → steps.new ≡ steps.old }
        ensures steps { steps.new ≤ steps.old + length (gates_downstream parts.now (stem.0 ∷ [])) }
        ensures scratch { IsFrameScratch self.now scratch.new }
    {
        let _ = parts.circuit().order();
        let (net, value) = stem;
        let lanes = self.launched_in(parts, pattern, net, value);
        self.show_flip(parts, scratch, net, lanes, pattern, out, steps);
    }

    /// The fails of a slow operand of a gate.
    fn gate_fails<L: Ledger>(
        &self,
        parts: &Parts,
        scratch: &mut FrameScratch,
        branch: (u32, Stuck),
        gate: (u32, GateKind),
        pattern: u32,
        out: &mut [bool],
        steps: &mut Steps<L>,
    )
        requires good { IsFrameGood parts.now self.now }
        requires scratch { IsFrameScratch self.now scratch.old }
        requires captures { AllCapture parts.now }
        requires pin { branch.0 < length parts.now.netlist.pins }
        requires gate { IsGateOfPin parts.now.netlist branch.0 gate.0 gate.1 }
        requires pattern { pattern < length parts.now.patterns }
        requires out { length out.old ≡ length (points_of parts.now) }
        ensures fails { AreFrameFails parts.now (fault.Branch branch.0 branch.1) pattern out.new }
        ensures idle { net_changes parts.now branch.1 pattern (pin_at parts.now.netlist branch.0).net ≡ false → steps.new ≡ steps.old }
        ensures steps { steps.new ≤ steps.old + length (gates_downstream parts.now (gate.0 ∷ [])) }
        ensures scratch { IsFrameScratch self.now scratch.new }
    {
        let circuit = parts.circuit();
        let _ = circuit.order();
        let (pin, value) = branch;
        let block = pattern as usize / 512;
        let launched = self.launched_in(parts, pattern, net_of_pin(circuit, pin), value);
        let flips = self.second.branch_mask(parts, block, pin, value);
        let lanes = launched.and(flips);
        self.show_flip(parts, scratch, gate.0, lanes, pattern, out, steps);
    }

    /// The fails of a slow pin that goes straight to an output or a flop.
    fn straight_fails(&self, parts: &Parts, branch: (u32, Stuck), pattern: u32, out: &mut [bool])
        requires good { IsFrameGood parts.now self.now }
        requires captures { AllCapture parts.now }
        requires pin { branch.0 < length parts.now.netlist.pins }
        requires straight { (n i : ℕ) → (pin_at parts.now.netlist branch.0).place ≡ place.Operand n i → is_gate parts.now.netlist n ≡ false }
        requires pattern { pattern < length parts.now.patterns }
        requires out { length out.old ≡ length (points_of parts.now) }
        ensures { AreFrameFails parts.now (fault.Branch branch.0 branch.1) pattern out.new }
    {
        let circuit = parts.circuit();
        let _ = circuit.order();
        let (pin, value) = branch;
        let launched = self.launched_in(parts, pattern, net_of_pin(circuit, pin), value);
        let changes = launched.has(pattern as usize % 512);
        for k in 0..out.len() {
            let sees = is_pin_at(parts, pin, k);
            out[k] = changes && sees;
        }
    }

    fn branch_fails<L: Ledger>(
        &self,
        parts: &Parts,
        scratch: &mut FrameScratch,
        branch: (u32, Stuck),
        pattern: u32,
        out: &mut [bool],
        steps: &mut Steps<L>,
    )
        requires good { IsFrameGood parts.now self.now }
        requires scratch { IsFrameScratch self.now scratch.old }
        requires captures { AllCapture parts.now }
        requires pin { branch.0 < length parts.now.netlist.pins }
        requires pattern { pattern < length parts.now.patterns }
        requires out { length out.old ≡ length (points_of parts.now) }
        ensures fails { AreFrameFails parts.now (fault.Branch branch.0 branch.1) pattern out.new }
        ensures idle { net_changes parts.now branch.1 pattern (pin_at parts.now.netlist branch.0).net ≡ false → steps.new ≡ steps.old }
        ensures steps { steps.new ≤ steps.old + length (cone_gates parts.now (fault.Branch branch.0 branch.1)) }
        ensures scratch { IsFrameScratch self.now scratch.new }
    {
        match gate_of_pin(parts.circuit(), branch.0) {
            Some(gate) => self.gate_fails(parts, scratch, branch, gate, pattern, out, steps),
            None => self.straight_fails(parts, branch, pattern, out),
        }
    }

    /// The fails that the fault at a place predicts in a pattern, point by point; there are none where its site makes no
    /// transition. A step is one evaluation of a gate.
    pub fn fails_of<L: Ledger>(
        &self,
        parts: &Parts,
        scratch: &mut FrameScratch,
        place: u32,
        pattern: u32,
        out: &mut [bool],
        steps: &mut Steps<L>,
    )
        requires good { IsFrameGood parts.now self.now }
        requires scratch { IsFrameScratch self.now scratch.old }
        requires captures { AllCapture parts.now }
        requires place { place < length (transitions parts.now) }
        requires pattern { pattern < length parts.now.patterns }
        requires out { length out.old ≡ length (points_of parts.now) }
        ensures fails { AreFrameFails parts.now (transition_at parts.now place) pattern out.new }
        ensures launched { makes_transition parts.now (transition_at parts.now place) pattern ≡ false → (k : ℕ) → k < length (points_of parts.now) → slice_index_or out.new k false ≡ false }
        ensures idle { makes_transition parts.now (transition_at parts.now place) pattern ≡ false → steps.new ≡ steps.old }
        ensures steps { steps.new ≤ steps.old + length (cone_gates parts.now (transition_at parts.now place)) }
        ensures scratch { IsFrameScratch self.now scratch.new }
    {
        let _ = parts.circuit().order();
        match fault_at(parts, place) {
            Some(Fault::Stem { net, value }) => {
                self.stem_fails(parts, scratch, (net, value), pattern, out, steps)
            }
            Some(Fault::Branch { pin, value }) => {
                self.branch_fails(parts, scratch, (pin, value), pattern, out, steps)
            }
            Some(Fault::Bridge { .. }) => unreachable!(),
            Some(Fault::Cell { .. }) => unreachable!(),
            None => unreachable!(),
        }
    }
}
