//! What evaluation needs of each gate of an order, side by side: its net, its kind and the nets that it reads.
ghost use Rattle.std.specs.Prelude.{◌≡◌, ℕ, ◌<◌, ◌≤◌, All, IfOk, length, map, slice_index};
ghost use Rattle.scan_model.specs.declared.values.Tri.TheVariants.{Unknown};
ghost use Rattle.scan_model.specs.NetValue.{net_node, nothing_forced};
ghost use Rattle.scan_model.specs.Walks.{IsEvaluationOrder};
ghost use Rattle.value_rows.specs.Planes.{held};
ghost use Rattle.lane_rows.specs.Wiring.{AreKept, kept_gate, kind_of, pin_nets};

use crate::gates::{NetRows, kind_row};
use crate::wiring::Wiring;
use scan_model::{Circuit, Driver, GateKind, Net, NoMemory, Pin};
use std::alloc::Global;
use value_rows::Packed;

/// What is kept of a gate. The nets that it reads stand side by side in a list, from `first` on. A circuit has at most 65,536
/// nets, so 16 bits hold the number of each.
#[derive(Clone, Copy)]
pub struct KeptGate {
    pub net: u16,
    pub kind: GateKind,
    pub first: u32,
    pub count: u32,
}

/// The net that a pin sees.
fn net_of_pin(pin: &Pin) -> u16
    requires { pin.now.net < 65536 }
    ensures { result ≡ pin.now.net }
{
    pin.net as u16
}

/// The net that each pin of a list sees.
fn nets_of(alloc: Global, pins: &[Pin]) -> Result<Vec<u16>, NoMemory>
    requires { All (λ pin. pin.net < 65536) pins.now }
    ensures { IfOk result (λ nets. nets.items ≡ map (λ pin. pin.net) pins.now) }
{
    Ok(pins.iter().map(|pin| net_of_pin(pin)).collect(alloc)?)
}

/// The net that each pin sees.
pub(crate) fn nets_of_pins(alloc: Global, circuit: &Circuit) -> Result<Vec<u16>, NoMemory>
    ensures { IfOk result (λ nets. nets.items ≡ pin_nets circuit.now) }
{
    let _ = circuit.nets();
    let nets = nets_of(alloc, circuit.pins().as_slice())?;
    Ok(nets)
}

/// The kind of a gate; `Buf` where no gate drives.
fn kind_of(driver: Driver) -> GateKind
    ensures { result ≡ kind_of driver }
{
    match driver {
        Driver::Gate(kind) => kind,
        Driver::Input | Driver::Flop => GateKind::Buf,
    }
}

fn kept_gate(nets: &[Net], gate: u32) -> KeptGate
    requires few { length nets.now ≤ 65536 }
    requires gate { gate < length nets.now }
    ensures { result ≡ kept_gate nets.now gate }
{
    let net = &nets[gate as usize];
    KeptGate {
        net: gate as u16,
        kind: kind_of(net.driver),
        first: net.first_pin,
        count: net.pin_count,
    }
}

/// What is kept of each gate of a list.
fn kept_of(alloc: Global, nets: &[Net], gates: &[u32]) -> Result<Vec<KeptGate>, NoMemory>
    requires few { length nets.now ≤ 65536 }
    requires gates { All (λ g. g < length nets.now) gates.now }
    ensures { IfOk result (λ kept. kept.items ≡ map (kept_gate nets.now) gates.now) }
{
    Ok(
        gates
            .iter()
            .map(|gate| kept_gate(nets, *gate))
            .collect(alloc)?,
    )
}

/// What is kept of each gate of an order.
pub(crate) fn kept_gates(
    alloc: Global,
    circuit: &Circuit,
    order: &[u32],
) -> Result<Vec<KeptGate>, NoMemory>
    requires { IsEvaluationOrder circuit.now order.now }
    ensures { IfOk result (λ gates. AreKept circuit.now order.now gates.items (pin_nets circuit.now)) }
{
    let gates = kept_of(alloc, circuit.nets().as_slice(), order)?;
    Ok(gates)
}

impl Wiring {
    /// What the gate at a place of the order gives for the values of the nets that it reads.
    pub fn gate_row<V: NetRows>(&self, values: &V, circuit: &Circuit, place: usize) -> Packed
        requires kept { AreKept circuit.now self.now.order.items self.now.gates.items self.now.operands.items }
        requires place { place < length self.now.order.items }
        requires nets { V.nets values.now ≡ length circuit.now.nets }
        ensures { (j : ℕ) → j < 512 → held result j ≡ net_node circuit.now (λ n. Unknown) nothing_forced (slice_index self.now.order.items place) (λ m. V.value values.now m j) }
    {
        let _ = circuit.nets();
        let gate = self.gates[place];
        let first = gate.first as usize;
        let nets = &self.operands[first..first + gate.count as usize];
        kind_row(values, gate.kind, nets)
    }
}
