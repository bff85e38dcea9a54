//! The fails that a fault predicts in the 64 patterns of a word.
ghost use Rattle.std.specs.Prelude.{◌≡◌, ℕ, ◌+◌, ◌*◌, ◌/◌, ◌%◌, ◌<◌, ◌≤◌, ◌==◌, ◌&&◌, false, Contains, length, slice_index};
ghost use Rattle.std.specs.Int.{bit_at};
ghost use Rattle.scan_model.specs.declared.circuit.PinPlace.TheVariants as place;
ghost use Rattle.scan_model.specs.declared.fault.Fault.TheVariants as fault;
ghost use Rattle.scan_model.specs.Values.{are_opposite};
ghost use Rattle.scan_model.specs.Faults.{stuck_value};
ghost use Rattle.scan_model.specs.Netlist.{pin_at, is_gate};
ghost use Rattle.scan_model.specs.NetValue.{good_value};
ghost use Rattle.scan_model.specs.ScanTest.{IsPoint, points_of, point_at};
ghost use Rattle.scan_model.specs.Universe.{universe};
ghost use Rattle.scan_model.specs.Masks.{place_is_point};
ghost use Rattle.scan_model.specs.Suspect.{is_cell, is_output};
ghost use Rattle.packed_sim.specs.OperandValues.{IsGateOfPin};
ghost use Rattle.packed_sim.specs.PackedParts.{BelongsTo, IsScratchIn, IsScratchOf, good_at, now_at, observed_at, captures, cone_gates, AreFails};

use crate::good::PackedGood;
use crate::made::point_of;
use crate::masks::{gate_of_pin, net_of_pin};
use crate::scratch::Scratch;
use lane_rows::Packed;
use scan_model::{BridgeKind, Driver, Fault, GateKind, Parts, PinPlace, Point, Steps, Stuck, Tri};
use std::sync::ledger::Ledger;

/// The value at which a net or a pin is stuck.
pub fn stuck_at(value: Stuck) -> Tri
    ensures { result ≡ stuck_value value }
{
    match value {
        Stuck::Zero => Tri::Zero,
        Stuck::One => Tri::One,
    }
}

/// Whether a net is that of the cell that a point observes.
fn is_cell_of(parts: &Parts, net: u32, point: Point) -> bool
    requires { IsPoint parts.now point }
    ensures { result ≡ is_cell parts.now net point }
{
    match point {
        Point::Output { .. } => false,
        Point::Cell { chain, pos } => parts.cell_net(chain, pos) == net,
    }
}

fn is_output_of(output: u32, point: Point) -> bool
    ensures { result ≡ is_output output point }
{
    match point {
        Point::Output { place } => output == place,
        Point::Cell { .. } => false,
    }
}

/// Whether a pin is the one that a point sees.
pub fn is_pin_of(parts: &Parts, pin: u32, point: Point) -> bool
    requires pin { pin < length parts.now.netlist.pins }
    requires point { IsPoint parts.now point }
    ensures { result ≡ place_is_point parts.now (pin_at parts.now.netlist pin).place point }
{
    let circuit = parts.circuit();
    match circuit.pins().as_slice()[pin as usize].place {
        PinPlace::Output { place } => is_output_of(place, point),
        PinPlace::Operand { net, .. } => match circuit.nets().as_slice()[net as usize].driver {
            Driver::Flop => is_cell_of(parts, net, point),
            Driver::Input | Driver::Gate(_) => false,
        },
    }
}

/// Whether a pin is the one that point k sees.
pub fn is_pin_at(parts: &Parts, pin: u32, k: usize) -> bool
    requires pin { pin < length parts.now.netlist.pins }
    requires point { k < length (points_of parts.now) }
    ensures { result ≡ place_is_point parts.now (pin_at parts.now.netlist pin).place (point_at parts.now k) }
{
    let _ = parts.chains();
    let point = point_of(parts, k);
    is_pin_of(parts, pin, point)
}

/// The bits where they are asked for, else none.
fn bits_if(asked: bool, bits: u64) -> u64
    ensures { (i : ℕ) → i < 64 → (bit_at result i == 1) ≡ (asked && (bit_at bits i == 1)) }
{
    if asked { bits } else { 0 }
}

impl PackedGood {
    /// Bit i of the word of each point is set where pattern 64 * word + i captures and the point's net differs.
    fn write_differences(&self, parts: &Parts, scratch: &Scratch, word: u32, out: &mut [u64])
        requires good { BelongsTo parts.now self.now }
        requires scratch { IsScratchIn self.now scratch.now }
        requires word { 64 * word < length parts.now.patterns }
        requires out { length out.old ≡ length (points_of parts.now) }
        ensures { (k i : ℕ) → k < length (points_of parts.now) → i < 64 → (bit_at (slice_index out.new k) i == 1)
            ≡ (captures parts.now (64 * word + i) && are_opposite (good_at self.now (word / 8) (64 * (word % 8) + i) (observed_at parts.now k)) (now_at self.now scratch.now (word / 8) (64 * (word % 8) + i) (observed_at parts.now k))) }
    {
        let _ = parts.circuit();
        for k in 0..out.len() {
            let net = self.observed[k];
            let bits = self.difference_word(parts, scratch, word, net);
            out[k] = bits;
        }
    }

    /// The patterns of a word that capture and in which a net differs.
    pub(crate) fn difference_word(
        &self,
        parts: &Parts,
        scratch: &Scratch,
        word: u32,
        net: u32,
    ) -> u64
        requires good { BelongsTo parts.now self.now }
        requires scratch { IsScratchIn self.now scratch.now }
        requires word { 64 * word < length parts.now.patterns }
        requires net { net < length parts.now.netlist.nets }
        ensures { (i : ℕ) → i < 64 → (bit_at result i == 1)
            ≡ (captures parts.now (64 * word + i) && are_opposite (good_at self.now (word / 8) (64 * (word % 8) + i) net) (now_at self.now scratch.now (word / 8) (64 * (word % 8) + i) net)) }
    {
        let block = word as usize / 8;
        let differs = self.difference(parts, scratch, block, net);
        let capture = self.capture(block);
        let lanes = capture.and(differs);
        lanes.word(word as usize % 8)
    }

    fn stem_fails<L: Ledger>(
        &self,
        parts: &Parts,
        scratch: &mut Scratch,
        stem: (u32, Stuck),
        word: u32,
        out: &mut [u64],
        steps: &mut Steps<L>,
    )
        requires good { BelongsTo parts.now self.now }
        requires scratch { IsScratchOf self.now scratch.old }
        requires fault { Contains (universe parts.now) (fault.Stem stem.0 stem.1) }
        requires word { 64 * word < length parts.now.patterns }
        requires out { length out.old ≡ length (points_of parts.now) }
        ensures fails { AreFails parts.now (fault.Stem stem.0 stem.1) word out.new }
        ensures steps { steps.new ≤ steps.old + length (cone_gates parts.now (fault.Stem stem.0 stem.1)) }
        ensures scratch { IsScratchIn self.now scratch.new }
    {
        let _ = parts.circuit();
        let (net, value) = stem;
        let forced = stuck_at(value);
        let row = Packed::all(forced);
        self.force_net(parts, scratch, word as usize / 8, net, row, steps);
        self.write_differences(parts, scratch, word, out);
    }

    fn bridge_fails<L: Ledger>(
        &self,
        parts: &Parts,
        scratch: &mut Scratch,
        bridge: (u32, u32, BridgeKind),
        word: u32,
        out: &mut [u64],
        steps: &mut Steps<L>,
    )
        requires good { BelongsTo parts.now self.now }
        requires scratch { IsScratchOf self.now scratch.old }
        requires fault { Contains (universe parts.now) (fault.Bridge bridge.0 bridge.1 bridge.2) }
        requires word { 64 * word < length parts.now.patterns }
        requires out { length out.old ≡ length (points_of parts.now) }
        ensures fails { AreFails parts.now (fault.Bridge bridge.0 bridge.1 bridge.2) word out.new }
        ensures steps { steps.new ≤ steps.old + length (cone_gates parts.now (fault.Bridge bridge.0 bridge.1 bridge.2)) }
        ensures scratch { IsScratchIn self.now scratch.new }
    {
        let _ = parts.circuit();
        let (a, b, kind) = bridge;
        let block = word as usize / 8;
        let row = self.bridged_row(parts, block, a, b, kind);
        self.force_bridge(parts, scratch, block, bridge, row, steps);
        self.write_differences(parts, scratch, word, out);
    }

    /// The patterns of a word that capture and in which a net has the opposite of a stuck value.
    fn stuck_word(&self, parts: &Parts, net: u32, value: Stuck, word: u32) -> u64
        requires good { BelongsTo parts.now self.now }
        requires net { net < length parts.now.netlist.nets }
        requires word { 64 * word < length parts.now.patterns }
        ensures { (i : ℕ) → i < 64 → (bit_at result i == 1) ≡ (captures parts.now (64 * word + i) && are_opposite (good_value parts.now (64 * word + i) net) (stuck_value value)) }
    {
        let block = word as usize / 8;
        let opposite = self.stuck_mask(parts, block, net, value);
        let capture = self.capture(block);
        let lanes = capture.and(opposite);
        lanes.word(word as usize % 8)
    }

    /// The fails of a stuck pin that goes straight to an output or a cell.
    fn straight_fails(&self, parts: &Parts, branch: (u32, Stuck), word: u32, out: &mut [u64])
        requires good { BelongsTo parts.now self.now }
        requires fault { Contains (universe parts.now) (fault.Branch branch.0 branch.1) }
        requires pin { branch.0 < length parts.now.netlist.pins }
        requires straight { (n i : ℕ) → (pin_at parts.now.netlist branch.0).place ≡ place.Operand n i → is_gate parts.now.netlist n ≡ false }
        requires word { 64 * word < length parts.now.patterns }
        requires out { length out.old ≡ length (points_of parts.now) }
        ensures { AreFails parts.now (fault.Branch branch.0 branch.1) word out.new }
    {
        let circuit = parts.circuit();
        let (pin, value) = branch;
        let net = net_of_pin(circuit, pin);
        let bits = self.stuck_word(parts, net, value, word);
        for k in 0..out.len() {
            let asked = is_pin_at(parts, pin, k);
            out[k] = bits_if(asked, bits);
        }
    }

    /// The fails of a stuck operand of a gate.
    fn gate_fails<L: Ledger>(
        &self,
        parts: &Parts,
        scratch: &mut Scratch,
        branch: (u32, Stuck),
        gate: (u32, GateKind),
        word: u32,
        out: &mut [u64],
        steps: &mut Steps<L>,
    )
        requires good { BelongsTo parts.now self.now }
        requires scratch { IsScratchOf self.now scratch.old }
        requires fault { Contains (universe parts.now) (fault.Branch branch.0 branch.1) }
        requires pin { branch.0 < length parts.now.netlist.pins }
        requires gate { IsGateOfPin parts.now.netlist branch.0 gate.0 gate.1 }
        requires word { 64 * word < length parts.now.patterns }
        requires out { length out.old ≡ length (points_of parts.now) }
        ensures fails { AreFails parts.now (fault.Branch branch.0 branch.1) word out.new }
        ensures steps { steps.new ≤ steps.old + length (cone_gates parts.now (fault.Branch branch.0 branch.1)) }
        ensures scratch { IsScratchIn self.now scratch.new }
    {
        let _ = parts.circuit();
        let (pin, value) = branch;
        let block = word as usize / 8;
        let lanes = self.branch_mask(parts, block, pin, value);
        self.flip(parts, scratch, block, gate.0, lanes, steps);
        self.write_differences(parts, scratch, word, out);
    }

    fn branch_fails<L: Ledger>(
        &self,
        parts: &Parts,
        scratch: &mut Scratch,
        branch: (u32, Stuck),
        word: u32,
        out: &mut [u64],
        steps: &mut Steps<L>,
    )
        requires good { BelongsTo parts.now self.now }
        requires scratch { IsScratchOf self.now scratch.old }
        requires fault { Contains (universe parts.now) (fault.Branch branch.0 branch.1) }
        requires word { 64 * word < length parts.now.patterns }
        requires out { length out.old ≡ length (points_of parts.now) }
        ensures fails { AreFails parts.now (fault.Branch branch.0 branch.1) word out.new }
        ensures steps { steps.new ≤ steps.old + length (cone_gates parts.now (fault.Branch branch.0 branch.1)) }
        ensures scratch { IsScratchIn self.now scratch.new }
    {
        match gate_of_pin(parts.circuit(), branch.0) {
            Some(gate) => self.gate_fails(parts, scratch, branch, gate, word, out, steps),
            None => self.straight_fails(parts, branch, word, out),
        }
    }

    /// The fails that a fault predicts in the 64 patterns of a word; the rows that it changes stay in the scratch.
    fn write_fails<L: Ledger>(
        &self,
        parts: &Parts,
        scratch: &mut Scratch,
        fault: &Fault,
        word: u32,
        out: &mut [u64],
        steps: &mut Steps<L>,
    )
        requires good { BelongsTo parts.now self.now }
        requires scratch { IsScratchOf self.now scratch.old }
        requires fault { Contains (universe parts.now) fault.now }
        requires word { 64 * word < length parts.now.patterns }
        requires out { length out.old ≡ length (points_of parts.now) }
        ensures fails { AreFails parts.now fault.now word out.new }
        ensures steps { steps.new ≤ steps.old + length (cone_gates parts.now fault.now) }
        ensures scratch { IsScratchIn self.now scratch.new }
    {
        match *fault {
            Fault::Stem { net, value } => self.stem_fails(
                parts,
                scratch,
                (net, value),
                word,
                out,
                steps,
            ),
            Fault::Branch { pin, value } => self.branch_fails(
                parts,
                scratch,
                (pin, value),
                word,
                out,
                steps,
            ),
            Fault::Bridge { a, b, kind } => self.bridge_fails(
                parts,
                scratch,
                (a, b, kind),
                word,
                out,
                steps,
            ),
            Fault::Cell { chain, pos, kind } => self.cell_fails(
                parts,
                scratch,
                (chain, pos, kind),
                word,
                out,
                steps,
            ),
        }
    }

    /// The fails that a fault predicts in the 64 patterns of a word: bit i of the word of point k is set where
    /// pattern 64 * word + i is there and the fault predicts a fail in it at the point. A step is one evaluation of a gate.
    pub fn fails_of<L: Ledger>(
        &self,
        parts: &Parts,
        scratch: &mut Scratch,
        fault: &Fault,
        word: u32,
        out: &mut [u64],
        steps: &mut Steps<L>,
    )
        requires good { BelongsTo parts.now self.now }
        requires scratch { IsScratchOf self.now scratch.old }
        requires fault { Contains (universe parts.now) fault.now }
        requires word { 64 * word < length parts.now.patterns }
        requires out { length out.old ≡ length (points_of parts.now) }
        ensures fails { AreFails parts.now fault.now word out.new }
        ensures steps { steps.new ≤ steps.old + length (cone_gates parts.now fault.now) }
        ensures scratch { IsScratchOf self.now scratch.new }
    {
        self.write_fails(parts, scratch, fault, word, out, steps);
        self.clear(scratch);
    }
}
