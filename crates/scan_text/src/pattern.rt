//! The pattern of a line, and the rules of its words.

ghost use Rattle.std.specs.Prelude.{◌≡◌, length, map, not, IfOk, Some, []};
ghost use Rattle.std.specs.List.{list_any, list_all};
ghost use Rattle.scan_model.specs.declared.parts.PatternKind.TheVariants.{Shift};
ghost use Rattle.scan_model.specs.PatternText.{is_value, character_value, kind_of, have_lengths, has_wrong_words, inputs_fit, has_wrong_length, has_other_value, input_values, line_pattern};
ghost use Rattle.text_parts.specs.Views.{nows};
ghost use Rattle.scan_text.specs.Frames.{frame_view};

use scan_model::{Chain, NoMemory, Pattern, PatternKind, Rows, Tri};
use std::alloc::{AllocError, Global};

/// What a pattern is for: so many inputs, and chains in file order. A line whose first word is the keyword captures.
#[derive(Clone, Copy)]
pub struct Frame<'a> {
    pub inputs: usize,
    pub chains: &'a [Chain],
    pub keyword: &'a [u8],
    /// Whether there may be SHIFT lines.
    pub shifts: bool,
}

/// The kind of a pattern, by the first word of its line.
pub fn kind_of(frame: &Frame<'_>, words: &[&[u8]]) -> Option<PatternKind>
    ensures { result ≡ kind_of (frame_view frame.now) (nows words.now) }
{
    let [word, ..] = words else {
        return None;
    };
    if *word == frame.keyword {
        return Some(PatternKind::Capture);
    }
    if frame.shifts && *word == b"SHIFT".as_slice() {
        return Some(PatternKind::Shift);
    }
    None
}

/// Whether a line has a wrong number of words.
pub fn has_wrong_words(frame: &Frame<'_>, kind: PatternKind, words: &[&[u8]]) -> bool
    ensures { result ≡ has_wrong_words (frame_view frame.now) (Some kind) (nows words.now) }
{
    let before_loads = match kind {
        PatternKind::Capture => 2,
        PatternKind::Shift => 1,
    };
    words.len() != before_loads + frame.chains.len()
}

fn inputs_fit(inputs: usize, word: &[u8]) -> bool
    ensures { result ≡ inputs_fit inputs word.now }
{
    if inputs == 0 {
        return word == b"-".as_slice();
    }
    word.len() == inputs
}

// Each word is as long as its chain.
fn have_lengths(chains: &[Chain], loads: &[&[u8]]) -> bool
    ensures { result ≡ have_lengths (map (λ h. length h.cells) chains.now) (nows loads.now) }
{
    for (chain, load) in chains.iter().zip(loads) {
        if load.len() != chain.cells.len() {
            return false;
        }
    }
    true
}

/// Whether a word of a line has a wrong length.
pub fn has_wrong_length(frame: &Frame<'_>, kind: PatternKind, words: &[&[u8]]) -> bool
    ensures { result ≡ has_wrong_length (frame_view frame.now) (Some kind) (nows words.now) }
{
    match kind {
        PatternKind::Capture => {
            let [_, inputs, loads @ ..] = words else {
                return false;
            };
            if !inputs_fit(frame.inputs, inputs) {
                return true;
            }
            !have_lengths(frame.chains, loads)
        }
        PatternKind::Shift => {
            let [_, loads @ ..] = words else {
                return false;
            };
            !have_lengths(frame.chains, loads)
        }
    }
}

fn is_value(b: u8) -> bool
    ensures { result ≡ is_value b }
{
    (b == b'0') | (b == b'1') | (b == b'X') | (b == b'x')
}

fn has_only_values(word: &[u8]) -> bool
    ensures { result ≡ list_all is_value word.now }
{
    let mut only = true;
    for b in word {
        // Without a branch, so that the processor compares many bytes at once.
        only &= is_value(*b);
    }
    only
}

fn has_other_load(loads: &[&[u8]]) -> bool
    ensures { result ≡ list_any (λ w. not (list_all is_value w)) (nows loads.now) }
{
    loads.iter().any(|w| !has_only_values(w))
}

/// Whether a word of a line has a character that stands for no value.
pub fn has_other_value(frame: &Frame<'_>, kind: PatternKind, words: &[&[u8]]) -> bool
    ensures { result ≡ has_other_value (frame_view frame.now) (Some kind) (nows words.now) }
{
    match kind {
        PatternKind::Capture => {
            let [_, inputs, loads @ ..] = words else {
                return false;
            };
            if frame.inputs > 0 && !has_only_values(inputs) {
                return true;
            }
            has_other_load(loads)
        }
        PatternKind::Shift => {
            let [_, loads @ ..] = words else {
                return false;
            };
            has_other_load(loads)
        }
    }
}

fn character_value(b: u8) -> Tri
    ensures { result ≡ character_value b }
{
    if b == b'0' {
        return Tri::Zero;
    }
    if b == b'1' {
        return Tri::One;
    }
    Tri::Unknown
}

// Writes the values of characters over as many values.
fn write_values(values: &mut [Tri], word: &[u8])
    requires { length values.old ≡ length word.now }
    ensures { values.new ≡ map character_value word.now }
{
    for (i, b) in word.iter().enumerate() {
        values[i] = character_value(*b);
    }
}

fn characters_values(alloc: Global, word: &[u8]) -> Result<Vec<Tri>, AllocError>
    ensures { IfOk result (λ values. values.items ≡ map character_value word.now) }
{
    let mut values = vec![in alloc; Tri::Unknown; word.len()]?;
    write_values(values.as_mut_slice(), word);
    Ok(values)
}

fn values_of(alloc: Global, word: &[u8]) -> Result<Rows<Tri>, NoMemory>
    ensures { IfOk result (λ values. values ≡ map character_value word.now) }
{
    let values = characters_values(alloc, word)?;
    Ok(Rows::from_vec(values))
}

fn loads_of(alloc: Global, words: &[&[u8]]) -> Result<Rows<Rows<Tri>>, NoMemory>
    ensures { IfOk result (λ loads. loads ≡ map (map character_value) (nows words.now)) }
{
    let mut loads = Vec::with_capacity(alloc, words.len())?;
    for word in words {
        loads.push_reserved(values_of(alloc, word)?);
    }
    Ok(Rows::from_vec(loads))
}

fn input_values(alloc: Global, inputs: usize, word: &[u8]) -> Result<Rows<Tri>, NoMemory>
    ensures { IfOk result (λ values. values ≡ input_values inputs word.now) }
{
    if inputs == 0 {
        return Ok(Rows::new(alloc));
    }
    values_of(alloc, word)
}

fn shift_pattern(alloc: Global, loads: &[&[u8]]) -> Result<Pattern, NoMemory>
    ensures { IfOk result (λ w. w ≡ record { kind = Shift; inputs = []; loads = map (map character_value) (nows loads.now) }) }
{
    Ok(Pattern {
        kind: PatternKind::Shift,
        inputs: Rows::new(alloc),
        loads: loads_of(alloc, loads)?,
    })
}

/// The pattern of a line's words.
pub fn pattern_of(alloc: Global, frame: &Frame<'_>, words: &[&[u8]]) -> Result<Pattern, NoMemory>
    ensures { IfOk result (λ w. w ≡ line_pattern (frame_view frame.now) (nows words.now)) }
{
    let [keyword, inputs, loads @ ..] = words else {
        // a SHIFT line where there are no chains
        return shift_pattern(alloc, &[]);
    };
    if *keyword != frame.keyword {
        return shift_pattern(alloc, &words[1..]);
    }
    Ok(Pattern {
        kind: PatternKind::Capture,
        inputs: input_values(alloc, frame.inputs, inputs)?,
        loads: loads_of(alloc, loads)?,
    })
}
