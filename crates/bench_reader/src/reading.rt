//! The rounds over a whole netlist.

ghost use Rattle.std.specs.Prelude.{◌≡◌, [], IfOk, OnOk, length};
ghost use Rattle.scan_model.specs.Lines.{text_lines};
ghost use Rattle.scan_model.specs.Netlist.{netlist};
ghost use Rattle.scan_model.specs.TextFaults.{HasNoFault, IsFirstInRounds, first_fault, refused_or};
ghost use Rattle.scan_model.specs.NetlistRules.{forms_of, first_rule, early_fault};
ghost use Rattle.scan_model.specs.ScanText.{net_names};
ghost use Rattle.scan_model.specs.NetlistText.{circuit_of, netlist_breaks, netlist_rounds, netlist_reading};
ghost use Rattle.text_parts.specs.ReadResults.{Gives, IfFault};
ghost use Rattle.text_parts.specs.Views.{nows};
ghost use Rattle.bench_reader.specs.NetlistDrafts.{IsAfter, IsWithin};
ghost use Rattle.bench_reader.specs.NetUses.{use_views, uses_after};
ghost use Rattle.bench_reader.specs.FaultlessLines.{IsRead};

use crate::first_round::NetlistDraft;
use crate::second_round::{numbers_of, pins_of};
use scan_model::{Circuit, MakeFault, Net, Pin, Rows, rules};
use std::alloc::Global;
use text_parts::{Names, ReadFault, TextFault, lines_of};

// Takes the lines of a netlist, up to its first fault by the first round.
fn take_lines<'a>(
    alloc: Global,
    draft: &mut NetlistDraft<'a>,
    texts: &[&'a [u8]],
) -> Result<(), ReadFault>
    requires within { IsWithin draft.old }
    requires after { IsAfter draft.old [] }
    ensures fault { Gives (λ done. use_views draft.new.uses.items) result (refused_or (first_fault (first_rule (nows texts.now)) (length (nows texts.now))) (uses_after 1 0 [] (forms_of (nows texts.now)))) }
    ensures read { OnOk result (IsRead draft.new (forms_of (nows texts.now))) }
{
    let mut operands = Vec::new(alloc);
    for (i, text) in texts.iter().enumerate() {
        let line = i as u64 + 1;
        if let Some(rule) = draft.take_line(alloc, &mut operands, line, text)? {
            return Err(ReadFault::Text(TextFault { line, rule }));
        }
    }
    Ok(())
}

// What the lines of a netlist say, or its first fault by the first round.
fn first_round(alloc: Global, bytes: &[u8]) -> Result<NetlistDraft<'_>, ReadFault>
    ensures fault { Gives (λ draft. use_views draft.uses.items) result (refused_or (first_fault (first_rule (text_lines bytes.now)) (length (text_lines bytes.now))) (uses_after 1 0 [] (forms_of (text_lines bytes.now)))) }
    ensures read { IfOk result (λ draft. IsRead draft (forms_of (text_lines bytes.now))) }
{
    let texts = lines_of(alloc, bytes)?;
    let mut draft = NetlistDraft::new(alloc, texts.len())?;
    take_lines(alloc, &mut draft, &texts)?;
    Ok(draft)
}

/// The lists of a circuit, which may lack levels, with the names of its nets and the number of the line that defines
/// each.
#[derive(Drop)]
pub struct CircuitDraft<'a> {
    pub nets: Rows<Net>,
    pub pins: Rows<Pin>,
    pub inputs: Rows<u32>,
    pub outputs: Rows<u32>,
    pub names: Names<'a>,
    pub net_lines: Vec<u64>,
}

impl<'a> CircuitDraft<'a> {
    ghost use Rattle.bench_reader.specs.CircuitDrafts.{IsDraft};

    // The draft of a netlist, or its first fault by the first two rounds.
    fn read(alloc: Global, bytes: &'a [u8]) -> Result<Self, ReadFault>
        ensures fault { Gives (λ d. netlist d.nets d.pins d.inputs d.outputs) result (refused_or (early_fault (text_lines bytes.now)) (circuit_of bytes.now)) }
        ensures draft { IfOk result (λ d. IsDraft d (forms_of (text_lines bytes.now))) }
    {
        let draft = first_round(alloc, bytes)?;
        let pins = pins_of(alloc, &draft.defined, &draft.uses)?;
        let outputs = numbers_of(alloc, &draft.defined, draft.outputs.as_slice())?;
        Ok(CircuitDraft {
            nets: Rows::from_vec(draft.nets),
            pins,
            inputs: Rows::from_vec(draft.inputs),
            outputs,
            names: draft.defined,
            net_lines: draft.net_lines,
        })
    }
}

/// A circuit, with the names of its nets in their order as they stand in the netlist's text.
#[derive(Drop)]
pub struct NamedCircuit<'a> {
    pub circuit: Circuit,
    pub names: Names<'a>,
}

/// The circuit that a netlist stands for with the names of its nets, or its first fault by rules 1 to 9.
pub fn read_netlist_named(alloc: Global, bytes: &[u8]) -> Result<NamedCircuit<'_>, ReadFault>
    ensures reading { Gives (λ n. n.circuit) result (netlist_reading bytes.now) }
    ensures first { IfFault result (IsFirstInRounds netlist_rounds (netlist_breaks (text_lines bytes.now)) (length (text_lines bytes.now))) }
    ensures none { IfOk result (λ n. HasNoFault (netlist_breaks (text_lines bytes.now)) (length (text_lines bytes.now))) }
    ensures names { IfOk result (λ n. n.names ≡ net_names n.circuit.nets) }
{
    let draft = CircuitDraft::read(alloc, bytes)?;
    match Circuit::make(alloc, draft.nets, draft.pins, draft.inputs, draft.outputs) {
        Ok(circuit) => Ok(NamedCircuit {
            circuit,
            names: draft.names,
        }),
        Err(MakeFault::NoLevel { net }) => {
            let line = draft.net_lines[net as usize];
            let rule = rules::WITHOUT_LEVEL;
            Err(ReadFault::Text(TextFault { line, rule }))
        }
        Err(MakeFault::NoMemory) => Err(ReadFault::NoMemory),
    }
}

/// The circuit that a netlist stands for, or its first fault by rules 1 to 9.
pub fn read_netlist(alloc: Global, bytes: &[u8]) -> Result<Circuit, ReadFault>
    ensures reading { Gives (λ c. c) result (netlist_reading bytes.now) }
    ensures first { IfFault result (IsFirstInRounds netlist_rounds (netlist_breaks (text_lines bytes.now)) (length (text_lines bytes.now))) }
    ensures none { IfOk result (λ c. HasNoFault (netlist_breaks (text_lines bytes.now)) (length (text_lines bytes.now))) }
{
    let named = read_netlist_named(alloc, bytes)?;
    Ok(named.circuit)
}
