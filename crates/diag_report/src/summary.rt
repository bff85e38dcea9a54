//! The summary of a design.
ghost use Rattle.std.specs.Prelude.{◌≡◌, ◌++◌, ◌∷◌, [], ◌<◌, length, map, All, IfOk, OnOk};
ghost use Rattle.scan_model.specs.ScanTest.{cells_of};
ghost use Rattle.scan_model.specs.ReportText as text_of;
ghost use Rattle.report_lines.specs.LineEnds.{AddsLines};
ghost use Rattle.diag_report.specs.Summary as summary;

use fault_universe::{net_name, push_number, push_word, universe_len};
use report_lines::{Draft, end_line, new_draft, number_line};
use scan_model::{Name, NoMemory, Pair, Parts};
use std::alloc::Global;

/// The number of cells of all chains.
fn cell_count(parts: &Parts) -> u64
    ensures { result ≡ length (cells_of parts.now.chains) }
{
    let chains = parts.chains().as_slice();
    let mut count = 0;
    for h in 0..chains.len() {
        count += chains[h].cells.len() as u64;
    }
    count
}

fn circuit_counts(draft: &mut Draft, parts: &Parts) -> Result<(), NoMemory>
    ensures { OnOk result (AddsLines (summary.circuit_lines parts.now) draft.old draft.new) }
{
    let circuit = parts.circuit();
    number_line(draft, b"inputs", circuit.inputs().len() as u64)?;
    number_line(draft, b"outputs", circuit.outputs().len() as u64)?;
    number_line(draft, b"nets", circuit.nets().len() as u64)?;
    number_line(draft, b"pins", circuit.pins().len() as u64)
}

fn test_counts(draft: &mut Draft, parts: &Parts) -> Result<(), NoMemory>
    ensures { OnOk result (AddsLines (summary.test_lines parts.now) draft.old draft.new) }
{
    let pairs = parts.pairs();
    number_line(draft, b"chains", parts.chains().len() as u64)?;
    number_line(draft, b"cells", cell_count(parts))?;
    number_line(draft, b"patterns", parts.patterns().len() as u64)?;
    number_line(draft, b"pairs", pairs.kept.len() as u64)?;
    number_line(draft, b"left-out", pairs.left_out.len() as u64)?;
    number_line(draft, b"faults", u64::from(universe_len(parts)))
}

/// Adds the words of a pair that was left out.
fn push_left_out(line: &mut Name, parts: &Parts, pair: &Pair) -> Result<(), NoMemory>
    requires a { pair.now.a < length parts.now.netlist.nets }
    requires b { pair.now.b < length parts.now.netlist.nets }
    ensures { OnOk result (line.new ≡ line.old ++ text_of.spaced (summary.left_out_words parts.now pair.now)) }
{
    line.append(b"left-out-row")?;
    push_number(line, pair.row)?;
    push_word(line, net_name(parts, pair.a))?;
    push_word(line, net_name(parts, pair.b))
}

/// Adds the line of a pair that was left out.
fn left_out_line(draft: &mut Draft, parts: &Parts, pair: &Pair) -> Result<(), NoMemory>
    requires a { pair.now.a < length parts.now.netlist.nets }
    requires b { pair.now.b < length parts.now.netlist.nets }
    ensures { OnOk result (AddsLines (summary.left_out_line parts.now pair.now ∷ []) draft.old draft.new) }
{
    push_left_out(&mut draft.text, parts, pair)?;
    end_line(draft)
}

fn left_out_lines(draft: &mut Draft, parts: &Parts, pairs: &[Pair]) -> Result<(), NoMemory>
    requires { All (λ p. (p.a < length parts.now.netlist.nets) × (p.b < length parts.now.netlist.nets)) pairs.now }
    ensures { OnOk result (AddsLines (map (summary.left_out_line parts.now) pairs.now) draft.old draft.new) }
{
    for i in 0..pairs.len() {
        left_out_line(draft, parts, &pairs[i])?;
    }
    Ok(())
}

/// The summary of a design: how many there are of each, and the pairs of neighbouring nets that were left out.
pub fn summary_text(alloc: Global, parts: &Parts) -> Result<Name, NoMemory>
    ensures { IfOk result (λ text. text ≡ summary.summary_text parts.now) }
{
    let mut draft = new_draft(alloc);
    circuit_counts(&mut draft, parts)?;
    test_counts(&mut draft, parts)?;
    left_out_lines(&mut draft, parts, parts.pairs().left_out.as_slice())?;
    let Draft { text, .. } = draft;
    Ok(text)
}
