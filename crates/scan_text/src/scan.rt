//! The chains of a whole scan text.

ghost use Rattle.std.specs.Prelude.{◌≡◌, ◌≤◌, [], length, IfOk, OnOk};
ghost use Rattle.scan_model.specs.Netlist.{Netlist};
ghost use Rattle.scan_model.specs.Lines.{text_lines};
ghost use Rattle.scan_model.specs.TextFaults.{HasNoFault, IsFirstFault, first_fault, refused_or};
ghost use Rattle.scan_model.specs.ScanText.{net_names, scan_rule, scan_breaks, chains_of, scan_reading};
ghost use Rattle.scan_model.specs.ScanTest.{AreChains};
ghost use Rattle.text_parts.specs.ReadResults.{Gives, IfFault};
ghost use Rattle.text_parts.specs.Views.{nows};
ghost use Rattle.scan_text.specs.ScanDrafts.{IsAfter};

use crate::chains::ScanDraft;
use scan_model::{Chain, Circuit, Net, Rows};
use std::alloc::Global;
use text_parts::{Names, ReadFault, TextFault, lines_of};

// Takes the chains of a text's lines over these nets, up to its first fault.
fn take_lines<'a>(
    alloc: Global,
    nets: &[Net],
    names: &Names<'_>,
    chains: &mut ScanDraft<'a>,
    lines: &[&'a [u8]],
) -> Result<(), ReadFault>
    requires limit { length nets.now ≤ 65536 }
    requires names { names.now ≡ net_names nets.now }
    requires after { IsAfter nets.now chains.old [] }
    ensures reading { Gives (λ done. chains.new.chains.items) result (refused_or (first_fault (scan_rule nets.now (nows lines.now)) (length (nows lines.now))) (chains_of nets.now (nows lines.now))) }
    ensures fits { (c : Netlist) → c.nets ≡ nets.now → OnOk result (AreChains c chains.new.chains.items) }
{
    for (i, line) in lines.iter().enumerate() {
        if let Some(rule) = chains.take_line(alloc, nets, names, line)? {
            let line = i as u64 + 1;
            return Err(ReadFault::Text(TextFault { line, rule }));
        }
    }
    Ok(())
}

// The chains of a text over these nets.
fn read_chains(
    alloc: Global,
    nets: &[Net],
    names: &Names<'_>,
    bytes: &[u8],
) -> Result<Vec<Chain>, ReadFault>
    requires limit { length nets.now ≤ 65536 }
    requires names { names.now ≡ net_names nets.now }
    ensures reading { Gives (λ v. v.items) result (scan_reading nets.now bytes.now) }
    ensures fits { (c : Netlist) → c.nets ≡ nets.now → IfOk result (λ v. AreChains c v.items) }
{
    let lines = lines_of(alloc, bytes)?;
    let mut chains = ScanDraft::new(alloc);
    take_lines(alloc, nets, names, &mut chains, &lines)?;
    Ok(chains.chains)
}

/// The chains that a scan text stands for, or its first fault by rules 11 to 15, where the names of the circuit's nets
/// are there already.
pub fn read_scan_named(
    alloc: Global,
    circuit: &Circuit,
    names: &Names<'_>,
    bytes: &[u8],
) -> Result<Rows<Chain>, ReadFault>
    requires { names.now ≡ net_names circuit.now.nets }
    ensures reading { Gives (λ chains. chains) result (scan_reading circuit.now.nets bytes.now) }
    ensures first { IfFault result (IsFirstFault (scan_breaks circuit.now.nets (text_lines bytes.now)) (length (text_lines bytes.now))) }
    ensures none { IfOk result (λ chains. HasNoFault (scan_breaks circuit.now.nets (text_lines bytes.now)) (length (text_lines bytes.now))) }
    ensures fits { IfOk result (AreChains circuit.now) }
{
    let nets = circuit.nets().as_slice();
    let chains = read_chains(alloc, nets, names, bytes)?;
    Ok(Rows::from_vec(chains))
}

/// The chains that a scan text stands for, or its first fault by rules 11 to 15.
pub fn read_scan(alloc: Global, circuit: &Circuit, bytes: &[u8]) -> Result<Rows<Chain>, ReadFault>
    ensures reading { Gives (λ chains. chains) result (scan_reading circuit.now.nets bytes.now) }
    ensures first { IfFault result (IsFirstFault (scan_breaks circuit.now.nets (text_lines bytes.now)) (length (text_lines bytes.now))) }
    ensures none { IfOk result (λ chains. HasNoFault (scan_breaks circuit.now.nets (text_lines bytes.now)) (length (text_lines bytes.now))) }
    ensures fits { IfOk result (AreChains circuit.now) }
{
    let names = Names::of_nets(alloc, circuit.nets().as_slice())?;
    read_scan_named(alloc, circuit, &names, bytes)
}
