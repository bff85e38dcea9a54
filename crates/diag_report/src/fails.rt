//! The fail log that a fault predicts.
ghost use Rattle.std.specs.Prelude.{◌≡◌, ◌+◌, ◌*◌, ◌/◌, ◌++◌, ◌∷◌, [], ◌<◌, ◌≤◌, ◌==◌, length, map, All, Contains, Ok, IfOk, OnOk, IsTrue};
ghost use Rattle.std.specs.Int.{bit_at};
ghost use Rattle.scan_model.specs.declared.fault.Fault.{Fault};
ghost use Rattle.scan_model.specs.ScanTest.{points_of, IsScanTest};
ghost use Rattle.scan_model.specs.Universe.{universe};
ghost use Rattle.scan_model.specs.Coverage.{bit_of, bits_of};
ghost use Rattle.scan_model.specs.Words.{is_tag};
ghost use Rattle.scan_model.specs.LogText.{log_frame, log_reading};
ghost use Rattle.scan_model.specs.ReportText as text_of;
ghost use Rattle.packed_sim.specs.PackedParts.{BelongsTo, AreFails};
ghost use Rattle.report_lines.specs.LineEnds.{AddsLines};
ghost use Rattle.diag_report.specs.PredictedLog as log;
ghost use Rattle.diag_report.specs.WordFails.{points_with_fails, word_bits};

use crate::names::PartsNames;
use fault_universe::{fault_at, push_number};
use packed_sim::{PackedGood, Scratch};
use report_lines::{Draft, bit_line, end_line, name_line, new_draft};
use scan_model::{Bit, Fault, Name, NoMemory, Parts, Rows, Steps};
use std::alloc::Global;
use std::marker::Brand;
use std::sync::ledger::{Blank, Ledger};

fn push_tested(line: &mut Name, last: u32) -> Result<(), NoMemory>
    ensures { OnOk result (line.new ≡ line.old ++ text_of.spaced (log.tested_words last)) }
{
    line.append(b"tested")?;
    push_number(line, 0)?;
    push_number(line, u64::from(last))
}

/// Adds the line that says that the patterns up to the last are tested.
fn tested_line(draft: &mut Draft, last: u32) -> Result<(), NoMemory>
    ensures { OnOk result (AddsLines (text_of.line (log.tested_words last) ∷ []) draft.old draft.new) }
{
    push_tested(&mut draft.text, last)?;
    end_line(draft)
}

fn head(draft: &mut Draft, parts: &Parts, design: &[u8], die: &[u8]) -> Result<(), NoMemory>
    ensures lines { OnOk result (AddsLines (log.head_lines parts.now design.now die.now) draft.old draft.new) }
    ensures fits { IsScanTest parts.now }
{
    let last = parts.patterns().len() as u32 - 1;
    name_line(draft, b"FAILLOG", b"1")?;
    name_line(draft, b"die", die)?;
    name_line(draft, b"design", design)?;
    tested_line(draft, last)
}

/// The points that fail in some pattern of a word, in rising order.
fn failing_points(alloc: Global, fails: &[u64]) -> Result<Rows<u32>, NoMemory>
    requires { length fails.now ≤ 131072 }
    ensures { IfOk result (λ points. points ≡ points_with_fails fails.now) }
{
    let mut points = Rows::new(alloc);
    for point in 0..fails.len() {
        let word = fails[point];
        if word != 0 {
            points.push(point as u32)?;
        }
    }
    Ok(points)
}

/// Whether a word has a bit.
fn has_bit(word: u64, bit: u32) -> bool
    requires { bit < 64 }
    ensures { result ≡ (bit_at word bit == 1) }
{
    (word >> bit) & 1 == 1
}

/// Adds a line for each of some points that fails in a pattern.
fn pattern_fails(
    draft: &mut Draft,
    parts: &Parts,
    fails: &[u64],
    points: &[u32],
    pattern: u32,
) -> Result<(), NoMemory>
    requires fails { length fails.now ≡ length (points_of parts.now) }
    requires points { All (λ k. k < length (points_of parts.now)) points.now }
    requires pattern { pattern < length parts.now.patterns }
    ensures { OnOk result ((f : Fault) → AreFails parts.now f (pattern / 64) fails.now → AddsLines (log.fail_lines parts.now f (map (bit_of pattern) points.now)) draft.old draft.new) }
{
    let names = PartsNames { parts };
    for i in 0..points.len() {
        let point = points[i];
        if has_bit(fails[point as usize], pattern % 64) {
            bit_line(draft, &names, b"fail", &Bit { pattern, point })?;
        }
    }
    Ok(())
}

/// Adds a line for each fail in the patterns of a word.
fn word_fails(
    alloc: Global,
    draft: &mut Draft,
    parts: &Parts,
    fails: &[u64],
    word: u32,
) -> Result<(), NoMemory>
    requires fails { length fails.now ≡ length (points_of parts.now) }
    requires word { 64 * word < length parts.now.patterns }
    ensures { OnOk result ((f : Fault) → AreFails parts.now f word fails.now → AddsLines (log.fail_lines parts.now f (word_bits parts.now word)) draft.old draft.new) }
{
    let _ = parts.points();
    let patterns = parts.patterns().len() as u32;
    let points = failing_points(alloc, fails)?;
    let first = 64 * word;
    let end = (first + 64).min(patterns);
    for pattern in first..end {
        pattern_fails(draft, parts, fails, points.as_slice(), pattern)?;
    }
    Ok(())
}

/// Adds a line for each predicted fail of a fault, word by word. `fails` has room for a word of each point.
fn fails_by_word<L: Ledger>(
    alloc: Global,
    draft: &mut Draft,
    parts: &Parts,
    good: &PackedGood,
    fault: &Fault,
    fails: &mut [u64],
    steps: &mut Steps<L>,
) -> Result<(), NoMemory>
    requires good { BelongsTo parts.now good.now }
    requires fault { Contains (universe parts.now) fault.now }
    requires fails { length fails.old ≡ length (points_of parts.now) }
    ensures { OnOk result (AddsLines (log.fail_lines parts.now fault.now (bits_of parts.now)) draft.old draft.new) }
{
    let mut scratch = Scratch::make(alloc, good)?;
    let words = (parts.patterns().len() as u32 + 63) / 64;
    for word in 0..words {
        good.fails_of(parts, &mut scratch, fault, word, fails, steps);
        word_fails(alloc, draft, parts, fails, word)?;
    }
    Ok(())
}

/// Adds a line for each predicted fail of a fault, with a ledger for the steps of simulation.
fn fail_lines<L: Ledger>(
    alloc: Global,
    draft: &mut Draft,
    parts: &Parts,
    good: &PackedGood,
    fault: &Fault,
    blank: Blank,
) -> Result<(), NoMemory>
    requires good { BelongsTo parts.now good.now }
    requires fault { Contains (universe parts.now) fault.now }
    requires name { blank.name ≡ L.name }
    requires parts { blank.parts ≡ L.parts }
    requires some { 0 < blank.parts }
    ensures { OnOk result (AddsLines (log.fail_lines parts.now fault.now (bits_of parts.now)) draft.old draft.new) }
{
    let mut steps = Steps::<L>::open(blank);
    let mut fails = vec![in alloc; 0u64; parts.points().len()]?;
    fails_by_word(alloc, draft, parts, good, fault, &mut fails, &mut steps)
}

/// Adds the last line.
fn last_line(draft: &mut Draft) -> Result<(), NoMemory>
    ensures { OnOk result (AddsLines (log.end_line ∷ []) draft.old draft.new) }
{
    draft.text.append(b"end")?;
    end_line(draft)
}

/// Adds all lines of the log that a fault predicts.
fn log_lines(
    alloc: Global,
    draft: &mut Draft,
    parts: &Parts,
    good: &PackedGood,
    design: &[u8],
    die: &[u8],
    fault: &Fault,
) -> Result<(), NoMemory>
    requires good { BelongsTo parts.now good.now }
    requires fault { Contains (universe parts.now) fault.now }
    ensures lines { OnOk result (AddsLines (log.predicted_lines parts.now design.now die.now fault.now) draft.old draft.new) }
    ensures fits { IsScanTest parts.now }
{
    head(draft, parts, design, die)?;
    fail_lines::<Brand>(alloc, draft, parts, good, fault, Blank::new(1))?;
    last_line(draft)
}

/// The fail log that the fault at a place predicts, over fault-free values that are kept: all patterns are tested, and exactly
/// its predicted fails are listed. The fault is simulated in 64 patterns at a time; besides it takes time linear in the patterns
/// and points.
pub fn fails_text_over(
    alloc: Global,
    parts: &Parts,
    good: &PackedGood,
    design: &[u8],
    die: &[u8],
    place: u32,
) -> Result<Name, NoMemory>
    requires good { BelongsTo parts.now good.now }
    requires place { place < length (universe parts.now) }
    requires design { IsTrue (is_tag design.now) }
    requires die { IsTrue (is_tag die.now) }
    ensures text { IfOk result (λ text. text ≡ log.predicted_log parts.now design.now die.now (log.fault_of parts.now place)) }
    ensures reading { IfOk result (λ text. log.HasWordNames parts.now → log_reading (log_frame parts.now design.now die.now) text ≡ Ok (log.predicted_facts parts.now (log.fault_of parts.now place))) }
    ensures counts { log.ExplainsOwnLog parts.now (log.fault_of parts.now place) }
{
    let Some(fault) = fault_at(parts, place) else {
        unreachable!()
    };
    let mut draft = new_draft(alloc);
    log_lines(alloc, &mut draft, parts, good, design, die, &fault)?;
    let Draft { text, .. } = draft;
    Ok(text)
}

/// The fail log that the fault at a place predicts, over fault-free values that are made for it alone.
pub fn fails_text(
    alloc: Global,
    parts: &Parts,
    design: &[u8],
    die: &[u8],
    place: u32,
) -> Result<Name, NoMemory>
    requires place { place < length (universe parts.now) }
    requires design { IsTrue (is_tag design.now) }
    requires die { IsTrue (is_tag die.now) }
    ensures text { IfOk result (λ text. text ≡ log.predicted_log parts.now design.now die.now (log.fault_of parts.now place)) }
    ensures reading { IfOk result (λ text. log.HasWordNames parts.now → log_reading (log_frame parts.now design.now die.now) text ≡ Ok (log.predicted_facts parts.now (log.fault_of parts.now place))) }
    ensures counts { log.ExplainsOwnLog parts.now (log.fault_of parts.now place) }
{
    let good = PackedGood::make(alloc, parts)?;
    fails_text_over(alloc, parts, &good, design, die, place)
}
