//! The four texts of a design, each read and judged before the next is read.
ghost use Rattle.std.specs.Prelude.{◌≡◌, ◌≤◌, Ok, IfOk, IfErr, true, false};
ghost use Rattle.desk_outside.specs.Faults.{Rose};
ghost use Rattle.scan_model.specs.Circuits.{IsCircuit};
ghost use Rattle.scan_model.specs.ScanTest.{AreChains, ArePatterns, ArePairs, scan_test};
ghost use Rattle.scan_model.specs.NetlistText.{netlist_reading};
ghost use Rattle.scan_model.specs.ScanText.{net_names, scan_reading};
ghost use Rattle.scan_model.specs.PatternText.{pattern_frame, pattern_reading};
ghost use Rattle.bridge_pairs.specs.PairText.{pairs_reading};
ghost use Rattle.diag_report.specs.PredictedLog.{HasWordNames};
ghost use Rattle.design_bundle.specs.FourTexts.{four};
ghost use Rattle.design_bundle.specs.Sections.{four_texts};
ghost use Rattle.diagnosis.specs.Texts.{Source, netlist_text, scan_text, pattern_text, neighbour_text, with_circuit, source_reading};
ghost use Rattle.diagnosis.specs.TextHalts.{ComesTo, halt_at, place_of, is_failure, ends_by_failure};
ghost use Rattle.diagnosis.specs.ReadDesigns.{IsReading, shown_text, shown_over, shown_design};
ghost use Rattle.diagnosis.specs.Bundle.{texts_reading};
ghost use Rattle.diagnosis.specs.ReaderAnswers.{RefusedBy};

use crate::section::{BundleFault, DesignText};
use crate::source::TextSource;
use bench_reader::{NamedCircuit, read_netlist_named};
use design_bundle::Sections;
use scan_model::{Chain, Circuit, NoMemory, Pairs, Parts, Pattern, Profile, Rows};
use std::alloc::Global;
use text_parts::{Names, ReadFault};

// A text that was read, with what it stands for.
#[derive(Drop)]
struct TextReading<T, X> {
    text: T,
    value: X,
}

// The texts behind the netlist, over its circuit.
#[derive(Drop)]
struct TestReadings<T> {
    chains: TextReading<T, Rows<Chain>>,
    patterns: TextReading<T, Rows<Pattern>>,
    pairs: TextReading<T, Pairs>,
}

/// The four texts of a design, and the scan test that they stand for.
#[derive(Drop)]
pub struct ReadDesign<T> {
    pub netlist: T,
    pub scan: T,
    pub patterns: T,
    pub neighbours: T,
    pub parts: Parts,
}

impl<T: Drop> ReadDesign<T> {
    /// The scan test alone.
    pub fn into_parts(self) -> Parts
        ensures { result ≡ self.parts }
    {
        let ReadDesign { parts, .. } = self;
        parts
    }
}

fn stop_for<O, S: TextSource<O>>(source: &S, part: DesignText, fault: ReadFault) -> S::Stop
    ensures told { (seen : S.Knowledge) (t : Source S.Name S.Cause) → S.tells source.now seen t → S.halt result ≡ halt_at (place_of t part) t.rule fault }
    ensures sure { is_failure (S.halt result) ≡ false }
{
    match fault {
        ReadFault::Text(fault) => source.stop(part, fault),
        ReadFault::NoMemory => source.stop_for_memory(),
    }
}

// A text with what its reader answered, or the stop for its fault.
fn judge<O, S: TextSource<O>, X: Drop>(
    source: &S,
    part: DesignText,
    text: S::Text,
    answer: Result<X, ReadFault>,
) -> Result<TextReading<S::Text, X>, S::Stop>
    ensures judged { (seen : S.Knowledge) (t : Source S.Name S.Cause) → S.tells source.now seen t → IsReading S.halt (halt_at (place_of t part) t.rule) text answer result }
    ensures value { IfOk result (λ j. (j.text ≡ text) × (answer ≡ Ok j.value)) }
    ensures sure { ends_by_failure S.halt result ≡ false }
{
    match answer {
        Ok(value) => Ok(TextReading { text, value }),
        Err(fault) => Err(stop_for(source, part, fault)),
    }
}

fn read_chains<O, S: TextSource<O>>(
    alloc: Global,
    source: &S,
    outside: &mut O,
    circuit: &Circuit,
    names: &Names<'_>,
) -> Result<TextReading<S::Text, Rows<Chain>>, S::Stop>
    requires { names.now ≡ net_names circuit.now.nets }
    ensures told { (t : Source S.Name S.Cause) → S.tells source.now (S.known outside.old) t → ComesTo S.halt (shown_text S.shows) result (scan_text t circuit.now) }
    ensures stands { IfOk result (λ j. scan_reading circuit.now.nets (S.shows j.text) ≡ Ok j.value) }
    ensures fits { IfOk result (λ j. AreChains circuit.now j.value) }
    ensures fault { ends_by_failure S.halt result ≡ true → Rose (S.faults outside.old) (S.faults outside.new) }
    ensures same { S.known outside.new ≡ S.known outside.old }
    ensures later { S.faults outside.old ≤ S.faults outside.new }
{
    let text = source.text(alloc, outside, DesignText::Scan)?;
    let answer = scan_text::read_scan_named(alloc, circuit, names, source.bytes(&text));
    judge(source, DesignText::Scan, text, answer)
}

fn read_patterns<O, S: TextSource<O>>(
    alloc: Global,
    source: &S,
    outside: &mut O,
    circuit: &Circuit,
    chains: &Rows<Chain>,
) -> Result<TextReading<S::Text, Rows<Pattern>>, S::Stop>
    ensures told { (t : Source S.Name S.Cause) → S.tells source.now (S.known outside.old) t → ComesTo S.halt (shown_text S.shows) result (pattern_text t circuit.now chains.now) }
    ensures stands { IfOk result (λ j. pattern_reading (pattern_frame circuit.now chains.now) (S.shows j.text) ≡ Ok j.value) }
    ensures fits { IfOk result (λ j. ArePatterns circuit.now chains.now j.value) }
    ensures fault { ends_by_failure S.halt result ≡ true → Rose (S.faults outside.old) (S.faults outside.new) }
    ensures same { S.known outside.new ≡ S.known outside.old }
    ensures later { S.faults outside.old ≤ S.faults outside.new }
{
    let text = source.text(alloc, outside, DesignText::Patterns)?;
    let answer = scan_text::read_patterns(alloc, circuit, chains, source.bytes(&text));
    judge(source, DesignText::Patterns, text, answer)
}

fn read_neighbours<O, S: TextSource<O>>(
    alloc: Global,
    source: &S,
    outside: &mut O,
    circuit: &Circuit,
    names: &Names<'_>,
) -> Result<TextReading<S::Text, Pairs>, S::Stop>
    requires { names.now ≡ net_names circuit.now.nets }
    ensures told { (t : Source S.Name S.Cause) → S.tells source.now (S.known outside.old) t → ComesTo S.halt (shown_text S.shows) result (neighbour_text t circuit.now) }
    ensures stands { IfOk result (λ j. pairs_reading circuit.now (S.shows j.text) ≡ Ok j.value) }
    ensures fits { IfOk result (λ j. ArePairs circuit.now j.value) }
    ensures fault { ends_by_failure S.halt result ≡ true → Rose (S.faults outside.old) (S.faults outside.new) }
    ensures same { S.known outside.new ≡ S.known outside.old }
    ensures later { S.faults outside.old ≤ S.faults outside.new }
{
    let text = source.text(alloc, outside, DesignText::Neighbours)?;
    let answer = bridge_pairs::read_pairs_named(alloc, circuit, names, source.bytes(&text));
    judge(source, DesignText::Neighbours, text, answer)
}

// The texts behind a netlist, over its circuit and the names of its nets.
fn read_behind<O, S: TextSource<O>>(
    alloc: Global,
    source: &S,
    outside: &mut O,
    netlist: &S::Text,
    circuit: &Circuit,
    names: &Names<'_>,
) -> Result<TestReadings<S::Text>, S::Stop>
    requires { names.now ≡ net_names circuit.now.nets }
    ensures told { (t : Source S.Name S.Cause) → S.tells source.now (S.known outside.old) t
        → ComesTo S.halt (shown_over t.profile S.shows (S.shows netlist.now, circuit.now)) result (with_circuit t (S.shows netlist.now, circuit.now)) }
    ensures chains { IfOk result (λ over. (scan_reading circuit.now.nets (S.shows over.chains.text) ≡ Ok over.chains.value) × AreChains circuit.now over.chains.value) }
    ensures patterns { IfOk result (λ over. (pattern_reading (pattern_frame circuit.now over.chains.value) (S.shows over.patterns.text) ≡ Ok over.patterns.value)
        × ArePatterns circuit.now over.chains.value over.patterns.value) }
    ensures pairs { IfOk result (λ over. (pairs_reading circuit.now (S.shows over.pairs.text) ≡ Ok over.pairs.value) × ArePairs circuit.now over.pairs.value) }
    ensures fault { ends_by_failure S.halt result ≡ true → Rose (S.faults outside.old) (S.faults outside.new) }
    ensures same { S.known outside.new ≡ S.known outside.old }
    ensures later { S.faults outside.old ≤ S.faults outside.new }
{
    let chains = read_chains(alloc, source, outside, circuit, names)?;
    let patterns = read_patterns(alloc, source, outside, circuit, &chains.value)?;
    let pairs = read_neighbours(alloc, source, outside, circuit, names)?;
    Ok(TestReadings {
        chains,
        patterns,
        pairs,
    })
}

// The circuit of a netlist, and the texts that were read over it.
#[derive(Drop)]
struct DesignReadings<T> {
    circuit: Circuit,
    over: TestReadings<T>,
}

// What the texts behind a netlist stand for, over its circuit and the names of its nets.
fn read_with<O, S: TextSource<O>>(
    alloc: Global,
    source: &S,
    outside: &mut O,
    netlist: &S::Text,
    named: NamedCircuit<'_>,
) -> Result<DesignReadings<S::Text>, S::Stop>
    requires { named.names ≡ net_names named.circuit.nets }
    ensures told { (t : Source S.Name S.Cause) → S.tells source.now (S.known outside.old) t
        → ComesTo S.halt (λ r. shown_over t.profile S.shows (S.shows netlist.now, r.circuit) r.over) result (with_circuit t (S.shows netlist.now, named.entry.circuit)) }
    ensures circuit { IfOk result (λ r. r.circuit ≡ named.entry.circuit) }
    ensures chains { IfOk result (λ r. (scan_reading r.circuit.nets (S.shows r.over.chains.text) ≡ Ok r.over.chains.value) × AreChains r.circuit r.over.chains.value) }
    ensures patterns { IfOk result (λ r. (pattern_reading (pattern_frame r.circuit r.over.chains.value) (S.shows r.over.patterns.text) ≡ Ok r.over.patterns.value)
        × ArePatterns r.circuit r.over.chains.value r.over.patterns.value) }
    ensures pairs { IfOk result (λ r. (pairs_reading r.circuit (S.shows r.over.pairs.text) ≡ Ok r.over.pairs.value) × ArePairs r.circuit r.over.pairs.value) }
    ensures fault { ends_by_failure S.halt result ≡ true → Rose (S.faults outside.old) (S.faults outside.new) }
    ensures same { S.known outside.new ≡ S.known outside.old }
    ensures later { S.faults outside.old ≤ S.faults outside.new }
{
    let NamedCircuit { circuit, names } = named;
    let over = read_behind(alloc, source, outside, netlist, &circuit, &names);
    drop(names);
    match over {
        Ok(over) => Ok(DesignReadings { circuit, over }),
        Err(stop) => {
            drop(circuit);
            Err(stop)
        }
    }
}

// What a netlist and the texts behind it stand for. The names of its nets are taken together once, by the reader of the netlist.
fn read_over<O, S: TextSource<O>>(
    alloc: Global,
    source: &S,
    outside: &mut O,
    netlist: &S::Text,
) -> Result<DesignReadings<S::Text>, S::Stop>
    ensures told { (t : Source S.Name S.Cause) → S.tells source.now (S.known outside.old) t → t.netlist.text ≡ Ok (S.shows netlist.now)
        → ComesTo S.halt (λ r. shown_over t.profile S.shows (S.shows netlist.now, r.circuit) r.over) result (source_reading t) }
    ensures stands { IfOk result (λ r. netlist_reading (S.shows netlist.now) ≡ Ok r.circuit) }
    ensures fits { IfOk result (λ r. IsCircuit r.circuit) }
    ensures chains { IfOk result (λ r. (scan_reading r.circuit.nets (S.shows r.over.chains.text) ≡ Ok r.over.chains.value) × AreChains r.circuit r.over.chains.value) }
    ensures patterns { IfOk result (λ r. (pattern_reading (pattern_frame r.circuit r.over.chains.value) (S.shows r.over.patterns.text) ≡ Ok r.over.patterns.value)
        × ArePatterns r.circuit r.over.chains.value r.over.patterns.value) }
    ensures pairs { IfOk result (λ r. (pairs_reading r.circuit (S.shows r.over.pairs.text) ≡ Ok r.over.pairs.value) × ArePairs r.circuit r.over.pairs.value) }
    ensures fault { ends_by_failure S.halt result ≡ true → Rose (S.faults outside.old) (S.faults outside.new) }
    ensures same { S.known outside.new ≡ S.known outside.old }
    ensures later { S.faults outside.old ≤ S.faults outside.new }
{
    match read_netlist_named(alloc, source.bytes(netlist)) {
        Ok(named) => read_with(alloc, source, outside, netlist, named),
        Err(fault) => Err(stop_for(source, DesignText::Netlist, fault)),
    }
}

// The design of a netlist and of the texts that were read over its circuit.
fn whole<T: Drop>(
    alloc: Global,
    profile: Profile,
    netlist: T,
    readings: DesignReadings<T>,
) -> Result<ReadDesign<T>, NoMemory>
    requires circuit { IsCircuit readings.circuit }
    requires chains { AreChains readings.circuit readings.over.chains.value }
    requires patterns { ArePatterns readings.circuit readings.over.chains.value readings.over.patterns.value }
    requires pairs { ArePairs readings.circuit readings.over.pairs.value }
    ensures texts { IfOk result (λ d. (d.netlist ≡ netlist) × (d.scan ≡ readings.over.chains.text) × (d.patterns ≡ readings.over.patterns.text) × (d.neighbours ≡ readings.over.pairs.text)) }
    ensures parts { IfOk result (λ d. d.parts ≡ scan_test profile readings.circuit readings.over.chains.value readings.over.patterns.value readings.over.pairs.value) }
{
    let DesignReadings { circuit, over } = readings;
    let TestReadings {
        chains,
        patterns,
        pairs,
    } = over;
    let parts = Parts::make(
        alloc,
        profile,
        circuit,
        chains.value,
        patterns.value,
        pairs.value,
    )?;
    Ok(ReadDesign {
        netlist,
        scan: chains.text,
        patterns: patterns.text,
        neighbours: pairs.text,
        parts,
    })
}

/// The design of the texts that a source gives: the circuit of the netlist, then its chains, patterns for both, and the
/// neighbours of its nets.
pub fn read_from<O, S: TextSource<O>>(
    alloc: Global,
    source: &S,
    outside: &mut O,
) -> Result<ReadDesign<S::Text>, S::Stop>
    ensures told { (t : Source S.Name S.Cause) → S.tells source.now (S.known outside.old) t → ComesTo S.halt (shown_design S.shows) result (source_reading t) }
    ensures stands { IfOk result (λ d. texts_reading (shown_design S.shows d).texts ≡ Ok d.parts) }
    ensures fault { ends_by_failure S.halt result ≡ true → Rose (S.faults outside.old) (S.faults outside.new) }
    ensures same { S.known outside.new ≡ S.known outside.old }
    ensures later { S.faults outside.old ≤ S.faults outside.new }
{
    let netlist = source.text(alloc, outside, DesignText::Netlist)?;
    let readings = read_over(alloc, source, outside, &netlist)?;
    match whole(alloc, source.profile(), netlist, readings) {
        Ok(design) => Ok(design),
        Err(NoMemory) => Err(source.stop_for_memory()),
    }
}

/// The parts that four texts stand for, or the first fault of the first of them that breaks a rule.
pub fn read_texts(alloc: Global, texts: &Sections<'_>) -> Result<Parts, BundleFault>
    ensures stands { IfOk result (λ parts. texts_reading (four_texts texts.now) ≡ Ok parts) }
    ensures fault { IfErr result (RefusedBy (texts_reading (four_texts texts.now))) }
{
    let design = read_from(alloc, texts, &mut ())?;
    Ok(design.into_parts())
}

/// The parts that a profile and four texts, given one by one, stand for, or their first fault. The nets and the chains of the
/// parts have names that a log can name.
pub fn parts_of(
    alloc: Global,
    profile: Profile,
    netlist: &[u8],
    scan: &[u8],
    patterns: &[u8],
    neighbours: &[u8],
) -> Result<Parts, BundleFault>
    ensures stands { IfOk result (λ parts. texts_reading (four profile netlist.now scan.now patterns.now neighbours.now) ≡ Ok parts) }
    ensures names { IfOk result HasWordNames }
    ensures fault { IfErr result (RefusedBy (texts_reading (four profile netlist.now scan.now patterns.now neighbours.now))) }
{
    let texts = Sections {
        profile,
        netlist,
        scan,
        patterns,
        neighbours,
    };
    let parts = read_texts(alloc, &texts)?;
    Ok(parts)
}
