//! The patterns of a whole text.

ghost use Rattle.std.specs.Prelude.{◌≡◌, ◌+◌, length, false, All, IfOk, OnOk, Ok, None, [], ◌∷◌, ◌++◌};
ghost use Rattle.scan_model.specs.declared.parts.PatternKind.TheVariants.{Capture};
ghost use Rattle.scan_model.specs.Netlist.{Netlist};
ghost use Rattle.scan_model.specs.Lines.{text_lines};
ghost use Rattle.scan_model.specs.TextFaults.{HasNoFault, IsFirstFault, lowest, first_fault, refused_or};
ghost use Rattle.scan_model.specs.PatternText.{pattern_frame, line_pattern, pattern_rule, pattern_rules, pattern_breaks, patterns_of, pattern_reading};
ghost use Rattle.scan_model.specs.ScanTest.{ArePatterns};
ghost use Rattle.text_parts.specs.ReadResults.{Gives, IfFault};
ghost use Rattle.scan_text.specs.Frames.{frame_view, kind_rules};
ghost use Rattle.text_parts.specs.Views.{nows};

use crate::pattern::{
    Frame, has_other_value, has_wrong_length, has_wrong_words, kind_of, pattern_of,
};
use scan_model::{Chain, Circuit, NoMemory, Pattern, PatternKind, Rows, rules};
use std::alloc::Global;
use text_parts::{ReadFault, TextFault, fill_words, has_refused_byte, lines_of};

/// The most patterns that a pattern text may have.
const PATTERN_LIMIT: usize = 4096;

// Takes the pattern of a line's words, or answers the lowest of rules 22 to 25 that the line breaks.
fn take_pattern(
    alloc: Global,
    frame: &Frame<'_>,
    patterns: &mut Rows<Pattern>,
    kind: PatternKind,
    words: &[&[u8]],
) -> Result<Option<u32>, NoMemory>
    ensures rule { IfOk result (λ r. r ≡ lowest (kind_rules (frame_view frame.now) (length patterns.old) kind (nows words.now))) }
    ensures taken { result ≡ Ok None → patterns.new ≡ patterns.old ++ line_pattern (frame_view frame.now) (nows words.now) ∷ [] }
{
    if has_wrong_words(frame, kind, words) {
        return Ok(Some(rules::WRONG_WORDS));
    }
    if has_wrong_length(frame, kind, words) {
        return Ok(Some(rules::WRONG_LENGTH));
    }
    if has_other_value(frame, kind, words) {
        return Ok(Some(rules::OTHER_VALUE));
    }
    if patterns.len() >= PATTERN_LIMIT {
        return Ok(Some(rules::TOO_MANY_PATTERNS));
    }
    patterns.push(pattern_of(alloc, frame, words)?)?;
    Ok(None)
}

// Takes the pattern of a line, or answers the lowest rule that the line breaks. The list is room for its words.
fn take_line<'a>(
    alloc: Global,
    frame: &Frame<'_>,
    patterns: &mut Rows<Pattern>,
    words: &mut Vec<&'a [u8]>,
    line: &'a [u8],
) -> Result<Option<u32>, NoMemory>
    ensures rule { IfOk result (λ r. r ≡ lowest (pattern_rules (frame_view frame.now) (length patterns.old) line.now)) }
    ensures taken { result ≡ Ok None → patterns.new ≡ patterns.old ++ patterns_of (frame_view frame.now) (line.now ∷ []) }
{
    if has_refused_byte(line) {
        return Ok(Some(rules::OTHER_KEYWORD));
    }
    fill_words(words, line)?;
    let words = words.as_slice();
    match kind_of(frame, words) {
        Some(kind) => take_pattern(alloc, frame, patterns, kind, words),
        None => Ok(if words.is_empty() {
            None
        } else {
            Some(rules::OTHER_KEYWORD)
        }),
    }
}

// Takes the patterns of a text's lines, up to its first fault.
fn take_lines(
    alloc: Global,
    frame: &Frame<'_>,
    patterns: &mut Rows<Pattern>,
    lines: &[&[u8]],
) -> Result<(), ReadFault>
    requires none { patterns.old ≡ [] }
    ensures reading { Gives (λ done. patterns.new) result (refused_or (first_fault (pattern_rule (frame_view frame.now) (nows lines.now)) (length (nows lines.now) + 1)) (patterns_of (frame_view frame.now) (nows lines.now))) }
    ensures fits { (c : Netlist) → length c.inputs ≡ frame.now.inputs → OnOk result (ArePatterns c frame.now.chains.now patterns.new) }
    ensures captures { frame.now.shifts ≡ false → OnOk result (All (λ w. w.kind ≡ Capture) patterns.new) }
{
    let mut words = Vec::new(alloc);
    for (i, line) in lines.iter().enumerate() {
        if let Some(rule) = take_line(alloc, frame, patterns, &mut words, line)? {
            let line = i as u64 + 1;
            return Err(ReadFault::Text(TextFault { line, rule }));
        }
    }
    if patterns.is_empty() {
        let line = lines.len() as u64 + 1;
        let rule = rules::NO_PATTERN;
        return Err(ReadFault::Text(TextFault { line, rule }));
    }
    Ok(())
}

/// The patterns that a text stands for in a frame, or its first fault by rules 21 to 26.
pub fn read_framed_patterns(
    alloc: Global,
    frame: &Frame<'_>,
    bytes: &[u8],
) -> Result<Rows<Pattern>, ReadFault>
    ensures reading { Gives (λ patterns. patterns) result (pattern_reading (frame_view frame.now) bytes.now) }
    ensures first { IfFault result (IsFirstFault (pattern_breaks (frame_view frame.now) (text_lines bytes.now)) (length (text_lines bytes.now) + 1)) }
    ensures none { IfOk result (λ patterns. HasNoFault (pattern_breaks (frame_view frame.now) (text_lines bytes.now)) (length (text_lines bytes.now) + 1)) }
    ensures fits { (c : Netlist) → length c.inputs ≡ frame.now.inputs → IfOk result (ArePatterns c frame.now.chains.now) }
    ensures captures { frame.now.shifts ≡ false → IfOk result (All (λ w. w.kind ≡ Capture)) }
{
    let lines = lines_of(alloc, bytes)?;
    let mut patterns = Rows::new(alloc);
    take_lines(alloc, frame, &mut patterns, &lines)?;
    Ok(patterns)
}

/// The patterns that a pattern text stands for, or its first fault by rules 21 to 26.
pub fn read_patterns(
    alloc: Global,
    circuit: &Circuit,
    chains: &Rows<Chain>,
    bytes: &[u8],
) -> Result<Rows<Pattern>, ReadFault>
    ensures reading { Gives (λ patterns. patterns) result (pattern_reading (pattern_frame circuit.now chains.now) bytes.now) }
    ensures first { IfFault result (IsFirstFault (pattern_breaks (pattern_frame circuit.now chains.now) (text_lines bytes.now)) (length (text_lines bytes.now) + 1)) }
    ensures none { IfOk result (λ patterns. HasNoFault (pattern_breaks (pattern_frame circuit.now chains.now) (text_lines bytes.now)) (length (text_lines bytes.now) + 1)) }
    ensures fits { IfOk result (ArePatterns circuit.now chains.now) }
{
    let frame = Frame {
        inputs: circuit.inputs().len(),
        chains: chains.as_slice(),
        keyword: b"CAPTURE",
        shifts: true,
    };
    read_framed_patterns(alloc, &frame, bytes)
}
