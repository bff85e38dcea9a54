//! The lanes in which a fault flips its site: a stuck net, the gate of a stuck pin, a net of a bridge.
ghost use Rattle.std.specs.Prelude.{◌≡◌, ℕ, ◌<◌, ◌&&◌, ◌||◌, ◌∷◌, ◌++◌, true, false, not, All, length, map, slice_index_or, MatchOption};
ghost use Rattle.std.specs.List.{list_all};
ghost use Rattle.scan_model.specs.declared.circuit.PinPlace.TheVariants as place;
ghost use Rattle.scan_model.specs.declared.circuit.Driver.TheVariants as driver;
ghost use Rattle.scan_model.specs.declared.circuit.GateKind.{GateKind};
ghost use Rattle.scan_model.specs.declared.fault.Fault.TheVariants as fault;
ghost use Rattle.scan_model.specs.declared.fault.Stuck.TheVariants as stuck;
ghost use Rattle.scan_model.specs.Values.{is_zero, is_one, is_unknown, are_opposite};
ghost use Rattle.scan_model.specs.Faults.{stuck_value, bridged, takes};
ghost use Rattle.scan_model.specs.Netlist.{pin_at, reads, driver_of, is_gate};
ghost use Rattle.scan_model.specs.NetValue.{good_value};
ghost use Rattle.scan_model.specs.Masks.{mask_from, mask};
ghost use Rattle.lane_rows.specs.Lanes.{lane};
ghost use Rattle.lane_rows.specs.Planes.{held};
ghost use Rattle.lane_rows.specs.Sources.{lane_values};
ghost use Rattle.packed_sim.specs.Rows.{no_row};
ghost use Rattle.lane_rows.specs.GoodRows.{pattern_of};
ghost use Rattle.lane_rows.specs.Stimuli.{Stimuli, AreRowsOf};
ghost use Rattle.packed_sim.specs.PackedParts.{IsBuiltFor, BelongsTo, captures, good_at};
ghost use Rattle.packed_sim.specs.OperandValues.{read_values, senses_of, IsGateOfPin};

use crate::good::PackedGood;
use lane_rows::{Packed, Row};
use scan_model::{BridgeKind, Circuit, Driver, GateKind, Parts, Pin, PinPlace, Stuck};

/// The lanes in which a row has the opposite of a stuck value.
fn opposite_of(row: Packed, value: Stuck) -> Row
    ensures { (j : ℕ) → j < 512 → lane result j ≡ are_opposite (held row j) (stuck_value value) }
{
    match value {
        Stuck::Zero => row.ones(),
        Stuck::One => row.zeros(),
    }
}

/// The lanes in which a bridge flips the first net of its pair.
fn first_flips(kind: BridgeKind, first: &Packed, second: &Packed) -> Row
    ensures { (j : ℕ) → j < 512 → lane result j ≡ (takes kind true false && are_opposite (held first.now j) (bridged kind (held first.now j) (held second.now j))) }
{
    match kind {
        BridgeKind::WiredAnd => first.ones().and(second.zeros()),
        BridgeKind::WiredOr => first.zeros().and(second.ones()),
        BridgeKind::Dominant | BridgeKind::DominantAnd | BridgeKind::DominantOr => Row::none(),
    }
}

/// The lanes in which a bridge flips the second net of its pair, which takes the bridge's value whatever the kind.
fn second_flips(kind: BridgeKind, first: &Packed, second: &Packed) -> Row
    ensures { (j : ℕ) → j < 512 → lane result j ≡ are_opposite (held second.now j) (bridged kind (held first.now j) (held second.now j)) }
{
    match kind {
        BridgeKind::Dominant => second.opposite(*first),
        BridgeKind::WiredAnd | BridgeKind::DominantAnd => second.ones().and(first.zeros()),
        BridgeKind::WiredOr | BridgeKind::DominantOr => second.zeros().and(first.ones()),
    }
}

fn row_at(values: &[Packed], net: u32) -> Packed
    requires { net < length values.now }
    ensures { result ≡ slice_index_or values.now net no_row }
{
    values[net as usize]
}

/// Of some lanes those in which all operands that some pins see are 1.
fn all_one(values: &[Packed], pins: &[Pin], lanes: Row) -> Row
    requires { All (λ pin. pin.net < length values.now) pins.now }
    ensures { (j : ℕ) → j < 512 → lane result j ≡ (lane lanes j && list_all (λ pin. is_one (lane_values values.now j pin.net)) pins.now) }
{
    let mut all = lanes;
    for pin in pins {
        all = all.and(row_at(values, pin.net).ones());
    }
    all
}

/// Of some lanes those in which all operands that some pins see are 0.
fn all_zero(values: &[Packed], pins: &[Pin], lanes: Row) -> Row
    requires { All (λ pin. pin.net < length values.now) pins.now }
    ensures { (j : ℕ) → j < 512 → lane result j ≡ (lane lanes j && list_all (λ pin. is_zero (lane_values values.now j pin.net)) pins.now) }
{
    let mut all = lanes;
    for pin in pins {
        all = all.and(row_at(values, pin.net).zeros());
    }
    all
}

/// Of some lanes those in which all operands that some pins see are known.
fn all_known(values: &[Packed], pins: &[Pin], lanes: Row) -> Row
    requires { All (λ pin. pin.net < length values.now) pins.now }
    ensures { (j : ℕ) → j < 512 → lane result j ≡ (lane lanes j && list_all (λ pin. not (is_unknown (lane_values values.now j pin.net))) pins.now) }
{
    let mut all = lanes;
    for pin in pins {
        let row = row_at(values, pin.net);
        all = all.and(row.ones().or(row.zeros()));
    }
    all
}

/// The operands of a gate in front of one of them, and those behind it.
fn other_operands(circuit: &Circuit, pin: u32, gate: u32) -> (&[Pin], &[Pin])
    requires pin { pin < length circuit.now.pins }
    requires gate { (i : ℕ) × ((pin_at circuit.now pin).place ≡ place.Operand gate i) }
    ensures reads { reads circuit.now gate ≡ map (λ other. other.net) result.0.now ++ (pin_at circuit.now pin).net ∷ map (λ other. other.net) result.1.now }
    ensures in_front { All (λ other. other.net < length circuit.now.nets) result.0.now }
    ensures behind { All (λ other. other.net < length circuit.now.nets) result.1.now }
{
    let net = &circuit.nets().as_slice()[gate as usize];
    let pins = circuit.pins().as_slice();
    let first = net.first_pin as usize;
    let own = pin as usize;
    let in_front = &pins[first..own];
    let behind = &pins[own + 1..first + net.pin_count as usize];
    (in_front, behind)
}

/// Of some lanes those in which a gate shows a change of one of its operands: no other stands in the way.
fn sensed(circuit: &Circuit, values: &[Packed], pin: u32, gate: (u32, GateKind), lanes: Row) -> Row
    requires pin { pin < length circuit.now.pins }
    requires gate { IsGateOfPin circuit.now pin gate.0 gate.1 }
    requires values { length values.now ≡ length circuit.now.nets }
    ensures { (j : ℕ) → j < 512 → lane result j ≡ (lane lanes j && senses_of gate.1 (read_values circuit.now values.now gate.0 j) (lane_values values.now j (pin_at circuit.now pin).net)) }
{
    let (in_front, behind) = other_operands(circuit, pin, gate.0);
    match gate.1 {
        GateKind::And | GateKind::Nand => {
            let half = all_one(values, in_front, lanes);
            all_one(values, behind, half)
        }
        GateKind::Or | GateKind::Nor => {
            let half = all_zero(values, in_front, lanes);
            all_zero(values, behind, half)
        }
        GateKind::Xor | GateKind::Xnor => {
            let half = all_known(values, in_front, lanes);
            all_known(values, behind, half)
        }
        GateKind::Not | GateKind::Buf => lanes,
    }
}

/// The net that a pin sees.
pub fn net_of_pin(circuit: &Circuit, pin: u32) -> u32
    requires { pin < length circuit.now.pins }
    ensures value { result ≡ (pin_at circuit.now pin).net }
    ensures in_range { result < length circuit.now.nets }
{
    circuit.pins().as_slice()[pin as usize].net
}

/// The gate of which a pin is an operand, with its kind.
pub fn gate_of_pin(circuit: &Circuit, pin: u32) -> Option<(u32, GateKind)>
    requires { pin < length circuit.now.pins }
    ensures { MatchOption result ((n i : ℕ) → (pin_at circuit.now pin).place ≡ place.Operand n i → is_gate circuit.now n ≡ false) (λ g. IsGateOfPin circuit.now pin g.0 g.1) }
{
    let _ = circuit.nets();
    match circuit.pins().as_slice()[pin as usize].place {
        PinPlace::Output { .. } => None,
        PinPlace::Operand { net, .. } => match circuit.nets().as_slice()[net as usize].driver {
            Driver::Input | Driver::Flop => None,
            Driver::Gate(kind) => Some((net, kind)),
        },
    }
}

impl PackedGood {
    /// The lanes in which a net has the opposite of a stuck value, in rows of any stimuli.
    pub fn stuck_mask(&self, parts: &Parts, block: usize, net: u32, value: Stuck) -> Row
        requires built { IsBuiltFor parts.now self.now }
        requires block { block < length self.now.rows }
        requires net { net < length parts.now.netlist.nets }
        ensures lanes { (j : ℕ) → j < 512 → lane result j ≡ are_opposite (good_at self.now block j net) (stuck_value value) }
        ensures good { BelongsTo parts.now self.now → (j : ℕ) → j < 512 → captures parts.now (pattern_of block j) ≡ true → lane result j ≡ are_opposite (good_value parts.now (pattern_of block j) net) (stuck_value value) }
    {
        let _ = parts.circuit();
        opposite_of(self.row_of(parts, block, net), value)
    }

    /// The lanes in which a stuck operand flips the gate that reads it, all else fault-free.
    fn gate_mask(
        &self,
        parts: &Parts,
        block: usize,
        pin: u32,
        gate: (u32, GateKind),
        value: Stuck,
    ) -> Row
        requires built { IsBuiltFor parts.now self.now }
        requires block { block < length self.now.rows }
        requires pin { pin < length parts.now.netlist.pins }
        requires gate { IsGateOfPin parts.now.netlist pin gate.0 gate.1 }
        ensures { (σ : Stimuli) → AreRowsOf parts.now.netlist σ self.now.rows → (j : ℕ) → j < 512 → σ.captures (pattern_of block j) ≡ true
            → lane result j ≡ mask_from parts.now.netlist (σ.source (pattern_of block j)) (fault.Branch pin value) gate.0 }
    {
        let circuit = parts.circuit();
        let net = net_of_pin(circuit, pin);
        let opposite = opposite_of(self.row_of(parts, block, net), value);
        sensed(circuit, self.values(block), pin, gate, opposite)
    }

    /// The lanes in which a stuck operand flips its gate, all else fault-free, in rows of any stimuli; no lanes for a pin that
    /// is no gate's.
    pub fn branch_mask(&self, parts: &Parts, block: usize, pin: u32, value: Stuck) -> Row
        requires built { IsBuiltFor parts.now self.now }
        requires block { block < length self.now.rows }
        requires pin { pin < length parts.now.netlist.pins }
        ensures lanes { (σ : Stimuli) → AreRowsOf parts.now.netlist σ self.now.rows → (n i j : ℕ) (kind : GateKind) → (pin_at parts.now.netlist pin).place ≡ place.Operand n i → driver_of parts.now.netlist n ≡ driver.Gate kind → j < 512 → σ.captures (pattern_of block j) ≡ true
            → lane result j ≡ mask_from parts.now.netlist (σ.source (pattern_of block j)) (fault.Branch pin value) n }
        ensures good { BelongsTo parts.now self.now → (n i j : ℕ) (kind : GateKind) → (pin_at parts.now.netlist pin).place ≡ place.Operand n i → driver_of parts.now.netlist n ≡ driver.Gate kind → j < 512 → captures parts.now (pattern_of block j) ≡ true
            → lane result j ≡ mask parts.now (fault.Branch pin value) (pattern_of block j) n }
    {
        match gate_of_pin(parts.circuit(), pin) {
            Some(gate) => self.gate_mask(parts, block, pin, gate, value),
            None => Row::none(),
        }
    }

    /// The lanes in which an operand flips the gate that reads it, stuck at 0 or stuck at 1.
    fn gate_flips(&self, parts: &Parts, block: usize, pin: u32, gate: (u32, GateKind)) -> Row
        requires built { IsBuiltFor parts.now self.now }
        requires block { block < length self.now.rows }
        requires pin { pin < length parts.now.netlist.pins }
        requires gate { IsGateOfPin parts.now.netlist pin gate.0 gate.1 }
        ensures { (σ : Stimuli) → AreRowsOf parts.now.netlist σ self.now.rows → (j : ℕ) → j < 512 → σ.captures (pattern_of block j) ≡ true
            → lane result j ≡ (mask_from parts.now.netlist (σ.source (pattern_of block j)) (fault.Branch pin stuck.Zero) gate.0 || mask_from parts.now.netlist (σ.source (pattern_of block j)) (fault.Branch pin stuck.One) gate.0) }
    {
        let circuit = parts.circuit();
        let net = net_of_pin(circuit, pin);
        let row = self.row_of(parts, block, net);
        let falls = opposite_of(row, Stuck::Zero);
        let rises = opposite_of(row, Stuck::One);
        let known = falls.or(rises);
        sensed(circuit, self.values(block), pin, gate, known)
    }

    /// The lanes in which an operand, stuck at 0 or stuck at 1, flips its gate, all else fault-free, in rows of any stimuli; no
    /// lanes for a pin that is no gate's.
    pub fn pin_mask(&self, parts: &Parts, block: usize, pin: u32) -> Row
        requires built { IsBuiltFor parts.now self.now }
        requires block { block < length self.now.rows }
        requires pin { pin < length parts.now.netlist.pins }
        ensures lanes { (σ : Stimuli) → AreRowsOf parts.now.netlist σ self.now.rows → (n i j : ℕ) (kind : GateKind) → (pin_at parts.now.netlist pin).place ≡ place.Operand n i → driver_of parts.now.netlist n ≡ driver.Gate kind → j < 512 → σ.captures (pattern_of block j) ≡ true
            → lane result j ≡ (mask_from parts.now.netlist (σ.source (pattern_of block j)) (fault.Branch pin stuck.Zero) n || mask_from parts.now.netlist (σ.source (pattern_of block j)) (fault.Branch pin stuck.One) n) }
        ensures good { BelongsTo parts.now self.now → (n i j : ℕ) (kind : GateKind) → (pin_at parts.now.netlist pin).place ≡ place.Operand n i → driver_of parts.now.netlist n ≡ driver.Gate kind → j < 512 → captures parts.now (pattern_of block j) ≡ true
            → lane result j ≡ (mask parts.now (fault.Branch pin stuck.Zero) (pattern_of block j) n || mask parts.now (fault.Branch pin stuck.One) (pattern_of block j) n) }
    {
        match gate_of_pin(parts.circuit(), pin) {
            Some(gate) => self.gate_flips(parts, block, pin, gate),
            None => Row::none(),
        }
    }

    /// The values of a bridge, which a net that takes them is given.
    pub(crate) fn bridged_row(
        &self,
        parts: &Parts,
        block: usize,
        a: u32,
        b: u32,
        kind: BridgeKind,
    ) -> Packed
        requires good { BelongsTo parts.now self.now }
        requires block { block < length self.now.rows }
        requires a { a < length parts.now.netlist.nets }
        requires b { b < length parts.now.netlist.nets }
        ensures { (j : ℕ) → j < 512 → captures parts.now (pattern_of block j) ≡ true → held result j ≡ bridged kind (good_value parts.now (pattern_of block j) a) (good_value parts.now (pattern_of block j) b) }
    {
        let _ = parts.circuit();
        let first = self.row_of(parts, block, a);
        let second = self.row_of(parts, block, b);
        kind.value(first, second)
    }

    /// The lanes in which a bridge of two nets flips a net.
    pub fn bridge_mask(
        &self,
        parts: &Parts,
        block: usize,
        pair: (u32, u32),
        kind: BridgeKind,
        net: u32,
    ) -> Row
        requires good { BelongsTo parts.now self.now }
        requires block { block < length self.now.rows }
        requires a { pair.0 < length parts.now.netlist.nets }
        requires b { pair.1 < length parts.now.netlist.nets }
        requires net { net < length parts.now.netlist.nets }
        ensures { (j : ℕ) → j < 512 → captures parts.now (pattern_of block j) ≡ true
            → lane result j ≡ mask parts.now (fault.Bridge pair.0 pair.1 kind) (pattern_of block j) net }
    {
        let _ = parts.circuit();
        let first = self.lent_row(parts, block, pair.0);
        let second = self.lent_row(parts, block, pair.1);
        if net == pair.1 {
            second_flips(kind, first, second)
        } else if net == pair.0 {
            first_flips(kind, first, second)
        } else {
            Row::none()
        }
    }
}
