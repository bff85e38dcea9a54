//! The text of a fault in a report.

ghost use Rattle.std.specs.Prelude.{◌≡◌, ◌++◌, ◌∷◌, ◌<◌, length, IfOk, OnOk};
ghost use Rattle.fault_universe.specs.LineWords.{IsPlaceOf, after_spaces};
ghost use Rattle.scan_model.specs.declared.fault.Fault.TheVariants as fault;
ghost use Rattle.scan_model.specs.ScanTest.{HasSite};
ghost use Rattle.scan_model.specs.ReportText as text_of;

use crate::words::{chain_name, net_name, push_number, push_word};
use scan_model::{BridgeKind, CellKind, Fault, Name, NoMemory, Parts, PinPlace, Rows, Stuck};
use std::alloc::Global;

/// The word of a value that a net is stuck at, behind a space.
fn stuck_ending(value: Stuck) -> &'static [u8]
    ensures { result.now ≡ 32 ∷ text_of.stuck_word value }
{
    match value {
        Stuck::Zero => b" sa0",
        Stuck::One => b" sa1",
    }
}

fn bridge_word(kind: BridgeKind) -> &'static str
    ensures { result.now ≡ text_of.bridge_word kind }
{
    match kind {
        BridgeKind::Dominant => "dom",
        BridgeKind::WiredAnd => "and",
        BridgeKind::WiredOr => "or",
        BridgeKind::DominantAnd => "dom-and",
        BridgeKind::DominantOr => "dom-or",
    }
}

fn cell_word(kind: CellKind) -> &'static str
    ensures { result.now ≡ text_of.cell_word kind }
{
    match kind {
        CellKind::Stuck0 => "stuck0",
        CellKind::Stuck1 => "stuck1",
        CellKind::SlowRise => "slow-rise",
        CellKind::SlowFall => "slow-fall",
    }
}

/// Adds the words for a stem.
pub fn push_stem_site(line: &mut Name, parts: &Parts, net: u32) -> Result<(), NoMemory>
    requires { net < length parts.now.netlist.nets }
    ensures { OnOk result (line.new ≡ line.old ++ text_of.spaced (text_of.stem_site parts.now net)) }
{
    line.append(b"stem ")?;
    line.append(net_name(parts, net))
}

fn push_stem(line: &mut Name, parts: &Parts, net: u32, value: Stuck) -> Result<(), NoMemory>
    requires { net < length parts.now.netlist.nets }
    ensures { OnOk result (line.new ≡ line.old ++ text_of.fault_text parts.now (fault.Stem net value)) }
{
    push_stem_site(line, parts, net)?;
    line.append(stuck_ending(value))
}

/// Adds where the branch at a pin leads.
fn push_branch_end(line: &mut Name, parts: &Parts, place: PinPlace) -> Result<(), NoMemory>
    requires { IsPlaceOf (length parts.now.netlist.nets) place }
    ensures { OnOk result (line.new ≡ line.old ++ after_spaces (text_of.branch_words parts.now place)) }
{
    match place {
        PinPlace::Operand { net, index } => {
            line.append(b" to ")?;
            line.append(net_name(parts, net))?;
            push_number(line, u64::from(index) + 1)
        }
        PinPlace::Output { .. } => line.append(b" to-output"),
    }
}

/// Adds the words for the branch at a pin.
pub fn push_branch_site(line: &mut Name, parts: &Parts, pin: u32) -> Result<(), NoMemory>
    requires { pin < length parts.now.netlist.pins }
    ensures { OnOk result (line.new ≡ line.old ++ text_of.spaced (text_of.branch_site parts.now pin)) }
{
    let branch = parts.circuit().pins().as_slice()[pin as usize];
    line.append(b"branch ")?;
    line.append(net_name(parts, branch.net))?;
    push_branch_end(line, parts, branch.place)
}

fn push_branch(line: &mut Name, parts: &Parts, pin: u32, value: Stuck) -> Result<(), NoMemory>
    requires { pin < length parts.now.netlist.pins }
    ensures { OnOk result (line.new ≡ line.old ++ text_of.fault_text parts.now (fault.Branch pin value)) }
{
    push_branch_site(line, parts, pin)?;
    line.append(stuck_ending(value))
}

fn push_bridge(
    line: &mut Name,
    parts: &Parts,
    a: u32,
    b: u32,
    kind: BridgeKind,
) -> Result<(), NoMemory>
    requires a { a < length parts.now.netlist.nets }
    requires b { b < length parts.now.netlist.nets }
    ensures { OnOk result (line.new ≡ line.old ++ text_of.fault_text parts.now (fault.Bridge a b kind)) }
{
    line.append(b"bridge")?;
    push_word(line, net_name(parts, a))?;
    push_word(line, net_name(parts, b))?;
    push_word(line, bridge_word(kind).as_bytes())
}

fn push_cell(
    line: &mut Name,
    parts: &Parts,
    chain: u32,
    pos: u32,
    kind: CellKind,
) -> Result<(), NoMemory>
    requires { chain < length parts.now.chains }
    ensures { OnOk result (line.new ≡ line.old ++ text_of.fault_text parts.now (fault.Cell chain pos kind)) }
{
    line.append(b"cell")?;
    push_word(line, chain_name(parts, chain))?;
    push_number(line, u64::from(pos))?;
    push_word(line, cell_word(kind).as_bytes())
}

/// Adds the text of a fault at the end of a line.
pub fn push_fault(line: &mut Name, parts: &Parts, fault: &Fault) -> Result<(), NoMemory>
    requires { HasSite parts.now fault.now }
    ensures { OnOk result (line.new ≡ line.old ++ text_of.fault_text parts.now fault.now) }
{
    match *fault {
        Fault::Stem { net, value } => push_stem(line, parts, net, value),
        Fault::Branch { pin, value } => push_branch(line, parts, pin, value),
        Fault::Bridge { a, b, kind } => push_bridge(line, parts, a, b, kind),
        Fault::Cell { chain, pos, kind } => push_cell(line, parts, chain, pos, kind),
    }
}

/// The text of a fault.
pub fn fault_text(alloc: Global, parts: &Parts, fault: &Fault) -> Result<Name, NoMemory>
    requires { HasSite parts.now fault.now }
    ensures { IfOk result (λ text. text ≡ text_of.fault_text parts.now fault.now) }
{
    let mut text = Rows::new(alloc);
    push_fault(&mut text, parts, fault)?;
    Ok(text)
}
