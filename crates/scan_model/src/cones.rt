//! The fan-in and the fan-out cone of a net.

ghost use Rattle.std.specs.Prelude.{◌≡◌, ◌+◌, ◌==◌, ◌&&◌, ◌||◌, ◌<◌, ◌≤◌, ℕ, false, length, filter, IfOk};
ghost use Rattle.std.specs.List.{list_any, range_with_len};
ghost use Rattle.scan_model.specs.Netlist.{reads, net_at, pin_at};
ghost use Rattle.scan_model.specs.Cone.{in_fan_in, fan_in, fan_out};
ghost use Rattle.scan_model.specs.Marks.{is_marked};

use crate::circuit::Circuit;
use crate::rows::{NoMemory, Rows};
use std::alloc::Global;

/// Whether a gate has a mark or reads a net with one.
fn is_reached(circuit: &Circuit, marks: &[bool], gate: u32) -> bool
    requires gate { gate < length circuit.now.nets }
    requires marks { length marks.now ≡ length circuit.now.nets }
    ensures { result ≡ (is_marked marks.now gate || list_any (is_marked marks.now) (reads circuit.now gate)) }
{
    if marks[gate as usize] {
        return true;
    }
    for i in 0..circuit.read_count(gate) {
        if marks[circuit.read_at(gate, i) as usize] {
            return true;
        }
    }
    false
}

/// Marks what a gate reads.
fn mark_reads(circuit: &Circuit, marks: &mut [bool], gate: u32)
    requires gate { gate < length circuit.now.nets }
    requires marks { length marks.old ≡ length circuit.now.nets }
    ensures { (n : ℕ) → is_marked marks.new n ≡ (is_marked marks.old n || list_any (λ h. n == h) (reads circuit.now gate)) }
{
    for i in 0..circuit.read_count(gate) {
        marks[circuit.read_at(gate, i) as usize] = true;
    }
}

/// Marks what a gate with a mark reads.
fn spread(circuit: &Circuit, marks: &mut [bool], gate: u32)
    requires gate { gate < length circuit.now.nets }
    requires marks { length marks.old ≡ length circuit.now.nets }
    ensures { (n : ℕ) → is_marked marks.new n ≡ (is_marked marks.old n || is_marked marks.old gate && list_any (λ h. n == h) (reads circuit.now gate)) }
{
    if marks[gate as usize] {
        mark_reads(circuit, marks, gate);
    }
}

/// Marks the nets of a fan-in cone.
fn mark_fan_in(circuit: &Circuit, marks: &mut [bool], net: u32)
    requires net { net < length circuit.now.nets }
    requires marks { length marks.old ≡ length circuit.now.nets }
    requires blank { (n : ℕ) → is_marked marks.old n ≡ false }
    ensures { (n : ℕ) → n < length circuit.now.nets → is_marked marks.new n ≡ in_fan_in circuit.now n net }
{
    let order = circuit.order().as_slice();
    let _ = circuit.nets();
    marks[net as usize] = true;
    let mut k = order.len();
    while k > 0 {
        k -= 1;
        spread(circuit, marks, order[k]);
    }
}

/// Marks the nets of a fan-out cone.
fn mark_fan_out(circuit: &Circuit, marks: &mut [bool], net: u32)
    requires net { net < length circuit.now.nets }
    requires marks { length marks.old ≡ length circuit.now.nets }
    requires blank { (n : ℕ) → is_marked marks.old n ≡ false }
    ensures { (n : ℕ) → n < length circuit.now.nets → is_marked marks.new n ≡ in_fan_in circuit.now net n }
{
    let order = circuit.order().as_slice();
    let _ = circuit.nets();
    marks[net as usize] = true;
    for gate in order {
        let marked = is_reached(circuit, marks, *gate);
        marks[*gate as usize] = marked;
    }
}

/// The numbers of the nets with a mark.
fn marked_nets(alloc: Global, marks: &[bool]) -> Result<Rows<u32>, NoMemory>
    requires { length marks.now ≤ 65536 }
    ensures { IfOk result (λ nets. nets ≡ filter (is_marked marks.now) (range_with_len 0 (length marks.now))) }
{
    let mut nets = Rows::new(alloc);
    for (n, marked) in marks.iter().enumerate() {
        if *marked {
            nets.push(n as u32)?;
        }
    }
    Ok(nets)
}

impl Circuit {
    /// How many operands a net has.
    pub fn read_count(&self, net: u32) -> u32
        requires { net < length self.now.nets }
        ensures { result ≡ (net_at self.now net).pin_count }
    {
        self.nets().as_slice()[net as usize].pin_count
    }

    /// The net that a net reads at one of its operands.
    pub fn read_at(&self, net: u32, index: u32) -> u32
        requires net { net < length self.now.nets }
        requires index { index < (net_at self.now net).pin_count }
        ensures value { result ≡ (pin_at self.now ((net_at self.now net).first_pin + index)).net }
        ensures in_range { result < length self.now.nets }
    {
        let first = self.nets().as_slice()[net as usize].first_pin;
        self.pins().as_slice()[first as usize + index as usize].net
    }

    /// The nets from which a walk forward through gates leads to a net, the net itself among them. Takes a time in
    /// proportion to the nets and pins.
    pub fn cone_in(&self, net: u32) -> Result<Rows<u32>, NoMemory>
        requires { net < length self.now.nets }
        ensures { IfOk result (λ nets. nets ≡ fan_in self.now net) }
    {
        let alloc = self.nets().allocator();
        let mut marks = vec![in alloc; false; self.nets().len()]?;
        mark_fan_in(self, &mut marks, net);
        marked_nets(alloc, &marks)
    }

    /// The nets to which a walk forward through gates leads from a net, the net itself among them. Takes a time in
    /// proportion to the nets and pins.
    pub fn cone_out(&self, net: u32) -> Result<Rows<u32>, NoMemory>
        requires { net < length self.now.nets }
        ensures { IfOk result (λ nets. nets ≡ fan_out self.now net) }
    {
        let alloc = self.nets().allocator();
        let mut marks = vec![in alloc; false; self.nets().len()]?;
        mark_fan_out(self, &mut marks, net);
        marked_nets(alloc, &marks)
    }
}
