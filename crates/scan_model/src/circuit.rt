//! A circuit: its nets, pins, inputs and outputs.

ghost use Rattle.std.specs.Prelude.{◌≡◌, filter, IfOk, OnOk, IfErr};
ghost use Rattle.scan_model.specs.Netlist.{netlist, pin_numbers, is_branch};
ghost use Rattle.scan_model.specs.Walks.{IsEvaluationOrder, HasLevels, IsLeastWithoutLevel};
ghost use Rattle.scan_model.specs.Circuits.{IsCircuit};
ghost use Rattle.scan_model.specs.MakeFaults.{IfNoLevel};

use crate::branches::branch_pins;
use crate::evaluation::evaluation_order;
use crate::rows::{Name, NoMemory, Rows};
use std::alloc::Global;
use std::marker::Model;

#[derive(Clone, Copy, PartialEq, Eq)]
pub enum GateKind {
    And,
    Nand,
    Or,
    Nor,
    Xor,
    Xnor,
    Not,
    Buf,
}

#[derive(Clone, Copy, PartialEq, Eq)]
pub enum Driver {
    Input,
    Flop,
    Gate(GateKind),
}

#[derive(Drop)]
pub struct Net {
    pub name: Name,
    pub driver: Driver,
    pub first_pin: u32,
    pub pin_count: u32,
}

#[derive(Clone, Copy, PartialEq, Eq)]
pub enum PinPlace {
    Operand { net: u32, index: u32 },
    Output { place: u32 },
}

#[derive(Clone, Copy, PartialEq, Eq)]
pub struct Pin {
    pub net: u32,
    pub place: PinPlace,
}

#[derive(Clone, Copy, Debug, PartialEq, Eq)]
pub enum MakeFault {
    NoLevel { net: u32 },
    NoMemory,
}

impl From<NoMemory> for MakeFault {
    ghost use Rattle.scan_model.specs.declared.circuit.MakeFault.TheVariants.{NoMemory};

    ghost from_gives = { λ _ e. e ≡ NoMemory };

    fn from(_: NoMemory) -> Self {
        MakeFault::NoMemory
    }
}

/// A circuit whose gates can be evaluated in one order. Contracts see its nets, pins, inputs and outputs.
#[derive(Drop)]
pub struct Circuit {
    nets: Rows<Net>,
    pins: Rows<Pin>,
    inputs: Rows<u32>,
    outputs: Rows<u32>,
    order: Rows<u32>,
    branch_pins: Rows<u32>,
}

impl Model for Circuit {
    ghost use Rattle.scan_model.specs.Netlist.{Netlist, netlist};

    ghost Value = { Netlist };

    ghost use Rattle.scan_model.specs.Circuits.{IsSoundCircuit};

    ghost view = { λ c. netlist c.nets c.pins c.inputs c.outputs };

    ghost invariant = { λ c. IsSoundCircuit (netlist c.nets c.pins c.inputs c.outputs) c.order c.branch_pins };
}

impl Circuit {
    /// The circuit of four lists, with an order in which its gates can be evaluated. `NoLevel` names the least gate
    /// whose backward walk through gates doesn't end, exactly where there is one.
    pub fn make(
        alloc: Global,
        nets: Rows<Net>,
        pins: Rows<Pin>,
        inputs: Rows<u32>,
        outputs: Rows<u32>,
    ) -> Result<Circuit, MakeFault>
        requires { IsCircuit (netlist nets pins inputs outputs) }
        ensures ok { IfOk result (λ c. c ≡ netlist nets pins inputs outputs) }
        ensures levels { OnOk result (HasLevels (netlist nets pins inputs outputs)) }
        ensures no_level { IfErr result (λ e. IfNoLevel e (IsLeastWithoutLevel (netlist nets pins inputs outputs))) }
    {
        let order = evaluation_order(alloc, nets.as_slice(), pins.as_slice())?;
        let branch_pins = branch_pins(alloc, nets.as_slice(), pins.as_slice())?;
        Ok(Circuit {
            nets,
            pins,
            inputs,
            outputs,
            order,
            branch_pins,
        })
    }

    pub fn nets(&self) -> &Rows<Net>
        ensures value { result.now ≡ self.now.nets }
        ensures circuit { IsCircuit self.now }
    {
        &self.nets
    }

    pub fn pins(&self) -> &Rows<Pin>
        ensures value { result.now ≡ self.now.pins }
        ensures circuit { IsCircuit self.now }
    {
        &self.pins
    }

    pub fn inputs(&self) -> &Rows<u32>
        ensures value { result.now ≡ self.now.inputs }
        ensures circuit { IsCircuit self.now }
    {
        &self.inputs
    }

    pub fn outputs(&self) -> &Rows<u32>
        ensures value { result.now ≡ self.now.outputs }
        ensures circuit { IsCircuit self.now }
    {
        &self.outputs
    }

    /// The gates, each after those that it reads.
    pub fn order(&self) -> &Rows<u32>
        ensures { IsEvaluationOrder self.now result.now }
    {
        &self.order
    }

    /// The pins of nets with two pins or more, in rising order.
    pub fn branch_pins(&self) -> &Rows<u32>
        ensures value { result.now ≡ filter (is_branch self.now) (pin_numbers self.now) }
        ensures circuit { IsCircuit self.now }
    {
        &self.branch_pins
    }
}
