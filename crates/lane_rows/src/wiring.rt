//! An order of evaluation of the gates, and for each net the gates that read it.
ghost use Rattle.std.specs.Prelude.{◌≡◌, ◌≢◌, ◌||◌, ◌==◌, ℕ, ◌+◌, ◌<◌, ◌^◌, true, false, Contains, length, All, IfOk, OnOk, IsTrue, slice_index};
ghost use Rattle.std.specs.List.{list_any};
ghost use Rattle.scan_model.specs.Netlist.{is_gate, reads, pin_at};
ghost use Rattle.scan_model.specs.Walks.{IsEvaluationOrder};
ghost use Rattle.scan_model.specs.Marks.{is_marked};
ghost use Rattle.lane_rows.specs.Wiring.{AreKept, AreMarked, AreLivePlaces, AreLiveReads, IsMadeFor, IsWiredFor, sink_place};

use crate::groups::Groups;
use crate::kept_gates::{KeptGate, kept_gates, nets_of_pins};
use scan_model::{Circuit, NoMemory, PinPlace};
use std::alloc::Global;

/// The gates of a circuit in an order of evaluation, and for each net who waits for it: the gates that read it and lead to an
/// observed net.
#[derive(Drop)]
pub struct Wiring {
    /// The net of each gate, once each, behind the gates that it reads.
    pub order: Vec<u32>,
    /// In group n the places in `order`, from 0, of the gates that wait for net n. What stands in groups past the nets means
    /// nothing.
    pub sinks: Groups,
    /// What is kept of each gate of the order, at its place.
    pub gates: Vec<KeptGate>,
    /// The nets that the gates read.
    pub operands: Vec<u16>,
}

/// The place in an order of each gate with a mark, by its net; the end of the order for other nets.
fn live_places(alloc: Global, order: &[u32], marks: &[bool]) -> Result<Vec<u32>, NoMemory>
    requires nets { All (λ g. g < length marks.now) order.now }
    requires fits { length order.now < 2 ^ 32 }
    requires once { (i j : ℕ) → i < j → j < length order.now → slice_index order.now i ≢ slice_index order.now j }
    ensures len { IfOk result (λ places. length places.items ≡ length marks.now) }
    ensures places { IfOk result (λ places. AreLivePlaces order.now (is_marked marks.now) places.items) }
{
    let mut places = vec![in alloc; order.len() as u32; marks.len()]?;
    write_places(&mut places, order, marks);
    Ok(places)
}

fn write_places(places: &mut [u32], order: &[u32], marks: &[bool])
    requires nets { All (λ g. g < length places.old) order.now }
    requires marks { length marks.now ≡ length places.old }
    requires fits { length order.now < 2 ^ 32 }
    requires once { (i j : ℕ) → i < j → j < length order.now → slice_index order.now i ≢ slice_index order.now j }
    requires none { (n : ℕ) → n < length places.old → slice_index places.old n ≡ length order.now }
    ensures { AreLivePlaces order.now (is_marked marks.now) places.new }
{
    for k in 0..order.len() {
        let gate = order[k] as usize;
        if marks[gate] {
            places[gate] = k as u32;
        }
    }
}

/// Marks nets.
fn mark_all(marks: &mut [bool], nets: &[u32])
    requires { All (λ n. n < length marks.old) nets.now }
    ensures { (k : ℕ) → k < length nets.now → is_marked marks.new (slice_index nets.now k) ≡ true }
{
    for k in 0..nets.len() {
        marks[nets[k] as usize] = true;
    }
}

/// Marks what a gate reads.
fn mark_reads(circuit: &Circuit, marks: &mut [bool], gate: u32)
    requires gate { gate < length circuit.now.nets }
    requires marks { length marks.old ≡ length circuit.now.nets }
    ensures { (n : ℕ) → is_marked marks.new n ≡ (is_marked marks.old n || list_any (λ h. n == h) (reads circuit.now gate)) }
{
    for i in 0..circuit.read_count(gate) {
        marks[circuit.read_at(gate, i) as usize] = true;
    }
}

/// Marks what a gate with a mark reads.
fn mark_back(circuit: &Circuit, marks: &mut [bool], gate: u32)
    requires gate { gate < length circuit.now.nets }
    requires marks { length marks.old ≡ length circuit.now.nets }
    ensures reads { is_marked marks.old gate ≡ true → (n : ℕ) → Contains (reads circuit.now gate) n → is_marked marks.new n ≡ true }
    ensures kept { (n : ℕ) → is_marked marks.old n ≡ true → is_marked marks.new n ≡ true }
    ensures only { (n : ℕ) → is_marked marks.new n ≡ true → is_marked marks.old n ≡ false → Contains (reads circuit.now gate) n }
{
    if marks[gate as usize] {
        mark_reads(circuit, marks, gate);
    }
}

/// Marks all that leads to a net with a mark, by one sweep back through the gates.
fn mark_sources(circuit: &Circuit, order: &[u32], marks: &mut [bool])
    requires order { IsEvaluationOrder circuit.now order.now }
    requires marks { length marks.old ≡ length circuit.now.nets }
    ensures kept { (n : ℕ) → is_marked marks.old n ≡ true → is_marked marks.new n ≡ true }
    ensures closed { (g n : ℕ) → g < length circuit.now.nets → is_gate circuit.now g ≡ true → is_marked marks.new g ≡ true → Contains (reads circuit.now g) n → is_marked marks.new n ≡ true }
{
    let _ = circuit.nets();
    let mut k = order.len();
    while k > 0 {
        k -= 1;
        mark_back(circuit, marks, order[k]);
    }
}

/// Marks on the nets that lead to one of the observed nets.
fn live_marks(
    alloc: Global,
    circuit: &Circuit,
    order: &[u32],
    observed: &[u32],
) -> Result<Vec<bool>, NoMemory>
    requires order { IsEvaluationOrder circuit.now order.now }
    requires observed { All (λ n. n < length circuit.now.nets) observed.now }
    ensures len { IfOk result (λ marks. length marks.items ≡ length circuit.now.nets) }
    ensures marked { IfOk result (λ marks. AreMarked circuit.now observed.now (is_marked marks.items)) }
{
    let mut marks = vec![in alloc; false; circuit.nets().len()]?;
    mark_all(&mut marks, observed);
    mark_sources(circuit, order, &mut marks);
    Ok(marks)
}

/// The place of the gate of which a pin is an operand; `end` for the pin of an output.
fn place_of(circuit: &Circuit, places: &[u32], end: u32, pin: u32) -> u32
    requires pin { pin < length circuit.now.pins }
    requires places { length places.now ≡ length circuit.now.nets }
    ensures { result ≡ sink_place circuit.now places.now end pin }
{
    let _ = circuit.nets();
    match circuit.pins().as_slice()[pin as usize].place {
        PinPlace::Operand { net, .. } => places[net as usize],
        PinPlace::Output { .. } => end,
    }
}

/// The net that a pin sees.
fn net_of(circuit: &Circuit, pin: u32) -> u32
    requires { pin < length circuit.now.pins }
    ensures value { result ≡ (pin_at circuit.now pin).net }
    ensures range { result < length circuit.now.nets }
{
    circuit.pins().as_slice()[pin as usize].net
}

/// The nets that operands of gates with a mark see, and beside each the place of the gate.
#[derive(Drop)]
struct LiveReads {
    nets: Vec<u32>,
    places: Vec<u32>,
}

impl LiveReads {
    /// Adds the net that a pin sees, where the pin is an operand of a gate with a place.
    fn add_pin(
        &mut self,
        circuit: &Circuit,
        places: &[u32],
        end: u32,
        pin: u32,
    ) -> Result<(), NoMemory>
        requires pin { pin < length circuit.now.pins }
        requires places { length places.now ≡ length circuit.now.nets }
        requires reads { AreLiveReads circuit.now places.now end pin self.old.nets.items self.old.places.items }
        ensures { OnOk result (AreLiveReads circuit.now places.now end (pin + 1) self.new.nets.items self.new.places.items) }
    {
        let place = place_of(circuit, places, end, pin);
        if place >= end {
            return Ok(());
        }
        self.nets.push(net_of(circuit, pin))?;
        self.places.push(place)?;
        Ok(())
    }
}

fn live_reads(
    alloc: Global,
    circuit: &Circuit,
    places: &[u32],
    end: u32,
) -> Result<LiveReads, NoMemory>
    requires { length places.now ≡ length circuit.now.nets }
    ensures { IfOk result (λ reads. AreLiveReads circuit.now places.now end (length circuit.now.pins) reads.nets.items reads.places.items) }
{
    let nets = Vec::with_capacity(alloc, circuit.pins().len())?;
    let at = Vec::with_capacity(alloc, circuit.pins().len())?;
    let mut reads = LiveReads { nets, places: at };
    for pin in 0..circuit.pins().len() {
        reads.add_pin(circuit, places, end, pin as u32)?;
    }
    Ok(reads)
}

/// For each net the places of the gates with a mark that read it.
fn sinks_of(
    alloc: Global,
    circuit: &Circuit,
    order: &[u32],
    marks: &[bool],
) -> Result<Groups, NoMemory>
    requires order { IsEvaluationOrder circuit.now order.now }
    requires marks { length marks.now ≡ length circuit.now.nets }
    ensures { IfOk result (IsMadeFor circuit.now order.now (is_marked marks.now)) }
{
    let nets = circuit.nets().len();
    let places = live_places(alloc, order, marks)?;
    let reads = live_reads(alloc, circuit, &places, order.len() as u32)?;
    let groups = Groups::of(alloc, &reads.nets, nets)?;
    let sinks = groups.renamed(alloc, &reads.places)?;
    Ok(sinks)
}

impl Wiring {
    /// The wiring of a circuit, for the gates that lead to one of the observed nets. The only error is want of memory.
    pub fn make(alloc: Global, circuit: &Circuit, observed: &[u32]) -> Result<Wiring, NoMemory>
        requires { All (λ n. n < length circuit.now.nets) observed.now }
        ensures wired { IfOk result (λ w. IsWiredFor circuit.now observed.now w.order.items w.sinks) }
        ensures kept { IfOk result (λ w. AreKept circuit.now w.order.items w.gates.items w.operands.items) }
    {
        let _ = circuit.nets();
        let order = Vec::from_slice(alloc, circuit.order().as_slice())?;
        let marks = live_marks(alloc, circuit, &order, observed)?;
        let sinks = sinks_of(alloc, circuit, &order, &marks)?;
        let gates = kept_gates(alloc, circuit, &order)?;
        let operands = nets_of_pins(alloc, circuit)?;
        Ok(Wiring {
            order,
            sinks,
            gates,
            operands,
        })
    }
}
