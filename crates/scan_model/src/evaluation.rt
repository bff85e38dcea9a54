//! An order of evaluation, or a gate that stands in a cycle or reads from one.

ghost use Rattle.std.specs.Prelude.{◌≡◌, ◌+◌, ◌-◌, ◌<◌, [], ◌∷◌, ◌++◌, length, map, take, slice_index, slice_set, IfOk, OnOk, IfErr};
ghost use Rattle.scan_model.specs.declared.evaluation.Mark.TheVariants.{Open, Settled};
ghost use Rattle.scan_model.specs.Netlist.{net_at};
ghost use Rattle.scan_model.specs.Walks.{IsEvaluationOrder, IsLeastWithoutLevel};
ghost use Rattle.scan_model.specs.MakeFaults.{IfNoLevel};
ghost use Rattle.scan_model.specs.GateSearch.{wiring, operand, IsWired, state, first_mark, IsTop, IsSearch, IsAtRest, Advances};

use crate::circuit::{Driver, MakeFault, Net, Pin};
use crate::rows::{NoMemory, Rows};
use std::alloc::Global;
use std::marker::Model;

/// How far the search has come with a net.
#[derive(Clone, Copy, PartialEq, Eq)]
enum Mark {
    /// A gate that the search has not met.
    Fresh,
    /// A gate on the path.
    Open,
    /// An input, a flop, or a gate in the order.
    Settled,
}

/// A depth-first search backwards through gates, with a stack of its own.
#[derive(Drop)]
struct Search {
    /// For each net, how many of its operands are still to be looked at, from the last to the first.
    left: Vec<u32>,
    marks: Vec<Mark>,
    /// Open gates, each of which reads the next.
    path: Vec<u32>,
    /// Gates, each after those that it reads.
    order: Rows<u32>,
}

impl Model for Search {
    ghost use Rattle.scan_model.specs.GateSearch.{State, state};

    ghost Value = { State };

    ghost view = { λ s. state s.left.items s.marks.items s.path.items s.order };
}

fn first_mark(driver: Driver) -> Mark
    ensures { result ≡ first_mark driver }
{
    match driver {
        Driver::Input | Driver::Flop => Mark::Settled,
        Driver::Gate(_) => Mark::Fresh,
    }
}

/// The net that a gate reads at one of its operands.
fn operand(nets: &[Net], pins: &[Pin], gate: u32, index: u32) -> u32
    requires wired { IsWired (wiring nets.now pins.now) }
    requires gate { gate < length nets.now }
    requires index { index < (net_at (wiring nets.now pins.now) gate).pin_count }
    ensures value { result ≡ operand (wiring nets.now pins.now) gate index }
    ensures in_range { result < length nets.now }
{
    pins[nets[gate as usize].first_pin as usize + index as usize].net
}

/// How many operands each net has.
fn operand_counts(alloc: Global, nets: &[Net]) -> Result<Vec<u32>, NoMemory>
    ensures { IfOk result (λ left. left.items ≡ map (λ n. n.pin_count) nets.now) }
{
    Ok(nets.iter().map(|net| net.pin_count).collect(alloc)?)
}

fn first_marks(alloc: Global, nets: &[Net]) -> Result<Vec<Mark>, NoMemory>
    ensures { IfOk result (λ marks. marks.items ≡ map (λ n. first_mark n.driver) nets.now) }
{
    Ok(
        nets.iter()
            .map(|net| first_mark(net.driver))
            .collect(alloc)?,
    )
}

impl Search {
    fn new(alloc: Global, nets: &[Net]) -> Result<Self, NoMemory>
        ensures { IfOk result (λ s. s ≡ state (map (λ n. n.pin_count) nets.now) (map (λ n. first_mark n.driver) nets.now) [] []) }
    {
        let left = operand_counts(alloc, nets)?;
        let marks = first_marks(alloc, nets)?;
        Ok(Search {
            left,
            marks,
            path: Vec::new(alloc),
            order: Rows::new(alloc),
        })
    }

    /// Puts a fresh gate on the path.
    fn enter(&mut self, gate: u32) -> Result<(), NoMemory>
        requires { gate < length self.old.marks }
        ensures { OnOk result (self.new ≡ state self.old.left (slice_set self.old.marks gate Open) (self.old.path ++ gate ∷ []) self.old.order) }
    {
        self.path.push(gate)?;
        self.marks[gate as usize] = Mark::Open;
        Ok(())
    }

    /// Takes the last gate off the path and puts it at the end of the order.
    fn settle(&mut self, gate: u32) -> Result<(), NoMemory>
        requires { gate < length self.old.marks }
        ensures { OnOk result (self.new ≡ state self.old.left (slice_set self.old.marks gate Settled) (take (length self.old.path - 1) self.old.path) (self.old.order ++ gate ∷ [])) }
    {
        self.order.push(gate)?;
        self.marks[gate as usize] = Mark::Settled;
        let _ = self.path.pop();
        Ok(())
    }

    /// Goes on to a gate's next operand.
    fn pass(&mut self, gate: u32)
        requires gate { gate < length self.old.left }
        requires left { 0 < slice_index self.old.left gate }
        ensures { self.new ≡ state (slice_set self.old.left gate (slice_index self.old.left gate - 1)) self.old.marks self.old.path self.old.order }
    {
        self.left[gate as usize] -= 1;
    }

    /// Looks at an operand of the last gate of the path. A gate that stands on the path already closes a loop, in
    /// which the walk from the root goes on for ever.
    fn step(&mut self, nets: &[Net], pins: &[Pin], root: u32, gate: u32) -> Result<(), MakeFault>
        requires wired { IsWired (wiring nets.now pins.now) }
        requires search { IsSearch (wiring nets.now pins.now) root self.old }
        requires top { IsTop self.old.path gate }
        ensures ok { OnOk result (Advances (wiring nets.now pins.now) root self.old self.new) }
        ensures no_level { IfErr result (λ e. IfNoLevel e (IsLeastWithoutLevel (wiring nets.now pins.now))) }
    {
        let left = self.left[gate as usize];
        if left == 0 {
            self.settle(gate)?;
            return Ok(());
        }
        let operand = operand(nets, pins, gate, left - 1);
        match self.marks[operand as usize] {
            Mark::Fresh => {
                self.enter(operand)?;
                Ok(())
            }
            Mark::Open => Err(MakeFault::NoLevel { net: root }),
            Mark::Settled => {
                self.pass(gate);
                Ok(())
            }
        }
    }

    /// Settles a gate and all that it reads.
    fn visit(&mut self, nets: &[Net], pins: &[Pin], root: u32) -> Result<(), MakeFault>
        requires wired { IsWired (wiring nets.now pins.now) }
        requires root { root < length nets.now }
        requires rest { IsAtRest (wiring nets.now pins.now) root self.old }
        ensures ok { OnOk result (IsAtRest (wiring nets.now pins.now) (root + 1) self.new) }
        ensures no_level { IfErr result (λ e. IfNoLevel e (IsLeastWithoutLevel (wiring nets.now pins.now))) }
    {
        let Mark::Fresh = self.marks[root as usize] else {
            return Ok(());
        };
        self.enter(root)?;
        while let Some(&gate) = self.path.last() {
            self.step(nets, pins, root, gate)?;
        }
        Ok(())
    }
}

/// The gates, each after those that it reads; or the least gate whose backward walk doesn't end. Takes a time in
/// proportion to the nets and pins, and no recursion.
pub(crate) fn evaluation_order(
    alloc: Global,
    nets: &[Net],
    pins: &[Pin],
) -> Result<Rows<u32>, MakeFault>
    requires { IsWired (wiring nets.now pins.now) }
    ensures ok { IfOk result (IsEvaluationOrder (wiring nets.now pins.now)) }
    ensures no_level { IfErr result (λ e. IfNoLevel e (IsLeastWithoutLevel (wiring nets.now pins.now))) }
{
    let mut search = Search::new(alloc, nets)?;
    for root in 0..nets.len() {
        search.visit(nets, pins, root as u32)?;
    }
    let Search {
        left: _,
        marks: _,
        path: _,
        order,
    } = search;
    Ok(order)
}
