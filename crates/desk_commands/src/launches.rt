//! The files of a design that is tested with two-frame patterns.
ghost use Rattle.std.specs.Prelude.{◌≡◌, ◌≤◌, ℕ, List, All, Some, IfOk, IfErr, true};
ghost use Rattle.desk_outside.specs.declared.shelf.File.{File};
ghost use Rattle.desk_outside.specs.Faults.{Rose};
ghost use Rattle.scan_model.specs.declared.parts.PatternKind.TheVariants.{Capture};
ghost use Rattle.scan_model.specs.Circuits.{IsCircuit};
ghost use Rattle.scan_model.specs.ScanTest.{AreChains, ArePatterns, scan_test};
ghost use Rattle.scan_model.specs.ScanText.{net_names, scan_reading};
ghost use Rattle.scan_model.specs.PatternText.{pattern_reading};
ghost use Rattle.two_frame.specs.TwoFrame.{launch_frame};
ghost use Rattle.two_frame.specs.FrameRows.{AllCapture};
ghost use Rattle.diagnosis.specs.TextHalts.{ComesTo};
ghost use Rattle.command_words.specs.CommandViews.{shown_files};
ghost use Rattle.desk_commands.specs.FileReadings.{file_reading};
ghost use Rattle.desk_commands.specs.CommandStops.{Follows, halt_of, ends_by_fault};
ghost use Rattle.desk_commands.specs.Views.{launch_reading, no_pairs, over_circuit};

use crate::files::{Stop, named, read_text};
use bench_reader::{NamedCircuit, read_netlist_named};
use command_words::DesignFiles;
use desk_outside::Shelf;
use scan_model::{Chain, Circuit, Pairs, Parts, Pattern, Profile, Rows};
use scan_text::read_scan_named;
use std::alloc::Global;
use text_parts::Names;
use two_frame::read_two_frame;

// The chains of a circuit whose nets have these names.
fn read_chains<'a, F: Shelf>(
    alloc: Global,
    shelf: &mut F,
    name: &'a str,
    circuit: &Circuit,
    names: &Names<'_>,
) -> Result<Rows<Chain>, Stop<'a>>
    requires { names.now ≡ net_names circuit.now.nets }
    ensures told { (held : List File) → F.files shelf.old ≡ Some held → Follows result (file_reading held (scan_reading circuit.now.nets) name.now) }
    ensures fits { IfOk result (AreChains circuit.now) }
    ensures fault { ends_by_fault result ≡ true → Rose (F.faults shelf.old) (F.faults shelf.new) }
    ensures same { F.files shelf.new ≡ F.files shelf.old }
    ensures later { F.faults shelf.old ≤ F.faults shelf.new }
{
    let text = read_text(alloc, shelf, name)?;
    let answer = read_scan_named(alloc, circuit, names, text.as_slice());
    named(name, answer)
}

// The two-frame patterns of a circuit with its chains.
fn read_launches<'a, F: Shelf>(
    alloc: Global,
    shelf: &mut F,
    name: &'a str,
    circuit: &Circuit,
    chains: &Rows<Chain>,
) -> Result<Rows<Pattern>, Stop<'a>>
    ensures told { (held : List File) → F.files shelf.old ≡ Some held
        → Follows result (file_reading held (pattern_reading (launch_frame circuit.now chains.now)) name.now) }
    ensures fits { IfOk result (ArePatterns circuit.now chains.now) }
    ensures captures { IfOk result (All (λ w. w.kind ≡ Capture)) }
    ensures fault { ends_by_fault result ≡ true → Rose (F.faults shelf.old) (F.faults shelf.new) }
    ensures same { F.files shelf.new ≡ F.files shelf.old }
    ensures later { F.faults shelf.old ≤ F.faults shelf.new }
{
    let text = read_text(alloc, shelf, name)?;
    let answer = read_two_frame(alloc, circuit, chains, text.as_slice());
    named(name, answer)
}

fn no_pairs(alloc: Global) -> Pairs
    ensures { result ≡ no_pairs }
{
    Pairs {
        kept: Rows::new(alloc),
        left_out: Rows::new(alloc),
    }
}

// The chains of a scan test, and its patterns.
#[derive(Drop)]
struct Launches {
    chains: Rows<Chain>,
    patterns: Rows<Pattern>,
}

// The chains and the patterns of a circuit whose nets have these names.
fn read_over<'a, F: Shelf>(
    alloc: Global,
    shelf: &mut F,
    files: &DesignFiles<'a>,
    circuit: &Circuit,
    names: &Names<'_>,
) -> Result<Launches, Stop<'a>>
    requires { names.now ≡ net_names circuit.now.nets }
    ensures told { (held : List File) → F.files shelf.old ≡ Some held
        → ComesTo halt_of (λ l. scan_test files.now.profile circuit.now l.chains l.patterns no_pairs) result (over_circuit held (shown_files files.now) circuit.now) }
    ensures chains { IfOk result (λ l. AreChains circuit.now l.chains) }
    ensures patterns { IfOk result (λ l. ArePatterns circuit.now l.chains l.patterns) }
    ensures captures { IfOk result (λ l. All (λ w. w.kind ≡ Capture) l.patterns) }
    ensures fault { ends_by_fault result ≡ true → Rose (F.faults shelf.old) (F.faults shelf.new) }
    ensures same { F.files shelf.new ≡ F.files shelf.old }
    ensures later { F.faults shelf.old ≤ F.faults shelf.new }
{
    let chains = read_chains(alloc, shelf, files.scan, circuit, names)?;
    let patterns = read_launches(alloc, shelf, files.patterns, circuit, &chains)?;
    Ok(Launches { chains, patterns })
}

// The scan test of a circuit with its chains and its patterns.
fn parts_of<'a>(
    alloc: Global,
    profile: Profile,
    circuit: Circuit,
    over: Launches,
) -> Result<Parts, Stop<'a>>
    requires circuit { IsCircuit circuit }
    requires chains { AreChains circuit over.chains }
    requires patterns { ArePatterns circuit over.chains over.patterns }
    requires captures { All (λ w. w.kind ≡ Capture) over.patterns }
    ensures parts { IfOk result (λ p. p ≡ scan_test profile circuit over.chains over.patterns no_pairs) }
    ensures captures { IfOk result AllCapture }
    ensures stop { IfErr result (λ stop. stop ≡ Stop.NoMemory) }
{
    let Launches { chains, patterns } = over;
    let pairs = no_pairs(alloc);
    Ok(Parts::make(alloc, profile, circuit, chains, patterns, pairs)?)
}

// The scan test of a circuit, after its chains and its patterns.
fn parts_behind<'a, F: Shelf>(
    alloc: Global,
    shelf: &mut F,
    files: &DesignFiles<'a>,
    netlist: NamedCircuit<'_>,
) -> Result<Parts, Stop<'a>>
    requires { netlist.names ≡ net_names netlist.circuit.nets }
    ensures told { (held : List File) → F.files shelf.old ≡ Some held → Follows result (over_circuit held (shown_files files.now) netlist.entry.circuit) }
    ensures captures { IfOk result AllCapture }
    ensures fault { ends_by_fault result ≡ true → Rose (F.faults shelf.old) (F.faults shelf.new) }
    ensures same { F.files shelf.new ≡ F.files shelf.old }
    ensures later { F.faults shelf.old ≤ F.faults shelf.new }
{
    let NamedCircuit { circuit, names } = netlist;
    let over = read_over(alloc, shelf, files, &circuit, &names)?;
    parts_of(alloc, files.profile, circuit, over)
}

/// The scan test of the files of these names, each read and judged before the next is read. No file has neighbours.
pub fn read_launch_design<'a, F: Shelf>(
    alloc: Global,
    shelf: &mut F,
    files: &DesignFiles<'a>,
) -> Result<Parts, Stop<'a>>
    ensures told { (held : List File) → F.files shelf.old ≡ Some held → Follows result (launch_reading held (shown_files files.now)) }
    ensures captures { IfOk result AllCapture }
    ensures fault { ends_by_fault result ≡ true → Rose (F.faults shelf.old) (F.faults shelf.new) }
    ensures same { F.files shelf.new ≡ F.files shelf.old }
    ensures later { F.faults shelf.old ≤ F.faults shelf.new }
{
    let text = read_text(alloc, shelf, files.netlist)?;
    let answer = read_netlist_named(alloc, text.as_slice());
    let netlist = named(files.netlist, answer)?;
    parts_behind(alloc, shelf, files, netlist)
}
