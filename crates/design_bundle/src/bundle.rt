//! The profile and the four texts in a bundle.
ghost use Rattle.std.specs.Prelude.{◌≡◌, ◌<◌, ◌≤◌, ◌^◌, ◌+◌, ℕ, List, true, [], ◌∷◌, ◌++◌, length, None, Some, IfOk, IfErr, IfSome, IfNone, OnOk};
ghost use Rattle.scan_model.specs.Lines.{text_lines, pieces};
ghost use Rattle.scan_model.specs.declared.rules.TheConstants.{WRONG_MARK};
ghost use Rattle.text_parts.specs.TextEnd.{is_ended, ended};
ghost use Rattle.design_bundle.specs.Bundle.{is_mark, sections, marks_fault, texts_in, behind_line, profile_of, marked_part, lines_before, bundle_fault, bundle_texts, named_text, bundle_text};
ghost use Rattle.design_bundle.specs.BundleRest.{marker, line_in, is_at_mark, is_due, rest_fault, rest_texts, HasRoom};
ghost use Rattle.design_bundle.specs.Sections.{four_texts};

use scan_model::{Name, NoMemory, Profile, rules};
use std::alloc::Global;
use text_parts::{TextFault, is_ended};

/// The profile of a design and its four texts, as they stand in its bundle or in files of their
/// own.
#[derive(Clone, Copy)]
pub struct Sections<'a> {
    pub profile: Profile,
    pub netlist: &'a [u8],
    pub scan: &'a [u8],
    pub patterns: &'a [u8],
    pub neighbours: &'a [u8],
}

// What is left of a bundle, from a line on.
#[derive(Clone, Copy)]
struct Rest<'a> {
    text: &'a [u8],
    line: u64,
}

// The marker of a number from 0.
fn marker(due: u32) -> &'static [u8]
    requires { due < 4 }
    ensures { result.now ≡ marker due }
{
    match due {
        0 => b"%netlist",
        1 => b"%scan",
        2 => b"%patterns",
        _ => b"%neighbours",
    }
}

fn is_mark(text: &[u8]) -> bool
    ensures { result ≡ is_mark text.now }
{
    matches!(text.first(), Some(b'%'))
}

// The first line of a text with its end, and what comes after it.
fn split_line(text: &[u8]) -> (&[u8], &[u8])
    requires some { 0 < length text.now }
    ensures pieces { pieces text.now ≡ result.0.now ∷ pieces result.1.now }
    ensures lines { text_lines text.now ≡ line_in result.0.now ∷ text_lines result.1.now }
    ensures whole { text.now ≡ result.0.now ++ result.1.now }
    ensures behind { result.1.now ≡ behind_line text.now }
    ensures some { 0 < length result.0.now }
{
    match text.iter().position(|b| *b == b'\n') {
        Some(i) => text.split_at(i + 1),
        None => text.split_at(text.len()),
    }
}

// A line without its end.
fn line_in(piece: &[u8]) -> &[u8]
    ensures { result.now ≡ line_in piece.now }
{
    match piece {
        [line @ .., b'\r', b'\n'] | [line @ .., b'\n'] => line,
        _ => piece,
    }
}

impl<'a> Rest<'a> {
    fn fault(&self) -> TextFault
        ensures line { result.line ≡ self.now.line }
        ensures rule { result.rule ≡ WRONG_MARK }
    {
        TextFault {
            line: self.line,
            rule: rules::WRONG_MARK,
        }
    }

    // What is left behind the marker that is due, if it stands there.
    fn behind_marker(&self, due: u32) -> Option<Rest<'a>>
        requires due { due < 4 }
        requires place { is_due self.now ≡ true }
        requires room { HasRoom self.now }
        ensures sections { IfSome result (λ rest. sections self.now.text.now ≡ [] ∷ sections rest.text.now) }
        ensures fault { IfSome result (λ rest. rest_fault due self.now ≡ rest_fault (due + 1) rest) }
        ensures line { IfSome result (λ rest. 0 < self.now.line → 1 < rest.line) }
        ensures room { IfSome result HasRoom }
        ensures none { IfNone result (rest_fault due self.now ≡ Some (self.now.line, WRONG_MARK)) }
    {
        if self.text.is_empty() {
            return None;
        }
        let (line, text) = split_line(self.text);
        if line_in(line) != marker(due) {
            return None;
        }
        Some(Rest {
            text,
            line: self.line + 1,
        })
    }

    // The text up to the next line that begins with `%`, and what is left from there.
    fn text_before_mark(&self) -> (&'a [u8], Rest<'a>)
        requires line { 1 < self.now.line }
        requires room { HasRoom self.now }
        ensures sections { sections self.now.text.now ≡ result.0.now ∷ rest_texts result.1 }
        ensures fault { (due : ℕ) → rest_fault due self.now ≡ rest_fault due result.1 }
        ensures line { 1 < result.1.line }
        ensures place { is_at_mark result.1.text.now ≡ true }
        ensures room { HasRoom result.1 }
    {
        let mut after = *self;
        while !after.text.is_empty() && !is_mark(after.text) {
            let (_, text) = split_line(after.text);
            after = Rest {
                text,
                line: after.line + 1,
            };
        }
        let len = self.text.len() - after.text.len();
        (&self.text[..len], after)
    }

    // The text behind the marker that is due, and what is left after it.
    fn section(&self, due: u32) -> Result<(&'a [u8], Rest<'a>), TextFault>
        requires due { due < 4 }
        requires line { 0 < self.now.line }
        requires place { is_due self.now ≡ true }
        requires room { HasRoom self.now }
        ensures texts { IfOk result (λ taken. rest_texts self.now ≡ taken.0.now ∷ rest_texts taken.1) }
        ensures fault { IfOk result (λ taken. rest_fault due self.now ≡ rest_fault (due + 1) taken.1) }
        ensures line { IfOk result (λ taken. 1 < taken.1.line) }
        ensures place { IfOk result (λ taken. is_at_mark taken.1.text.now ≡ true) }
        ensures room { IfOk result (λ taken. HasRoom taken.1) }
        ensures refused { IfErr result (λ f. rest_fault due self.now ≡ Some (f.line, f.rule)) }
        ensures small { IfErr result (λ f. f.line ≤ 2 ^ 63) }
    {
        match self.behind_marker(due) {
            Some(rest) => Ok(rest.text_before_mark()),
            None => Err(self.fault()),
        }
    }

    // That nothing is left, where no marker is due.
    fn end(&self) -> Result<(), TextFault>
        requires room { HasRoom self.now }
        requires place { is_at_mark self.now.text.now ≡ true }
        ensures texts { OnOk result (rest_texts self.now ≡ []) }
        ensures fault { OnOk result (rest_fault 4 self.now ≡ None) }
        ensures refused { IfErr result (λ f. rest_fault 4 self.now ≡ Some (f.line, f.rule)) }
        ensures small { IfErr result (λ f. f.line ≤ 2 ^ 63) }
    {
        if self.text.is_empty() {
            Ok(())
        } else {
            Err(self.fault())
        }
    }
}

// The profile of a bundle, and what stands behind the line that names it.
fn split_profile(bytes: &[u8]) -> (Profile, &[u8])
    ensures profile { result.0 ≡ profile_of bytes.now }
    ensures marked { result.1.now ≡ marked_part bytes.now }
{
    if bytes.is_empty() {
        return (Profile::One, bytes);
    }
    let (line, text) = split_line(bytes);
    if line_in(line) == b"%profile 2".as_slice() {
        (Profile::Two, text)
    } else {
        (Profile::One, bytes)
    }
}

// The texts behind the markers, or the first line at which they break rule 81.
#[tactic(auto, using(crate::proofs::BundleFaults::marks_fault_by_lines, crate::proofs::BundleFaults::texts_in_four))]
fn split_marked(profile: Profile, bytes: &[u8]) -> Result<Sections<'_>, TextFault>
    ensures good { IfOk result (λ texts. (marks_fault bytes.now ≡ None) × (four_texts texts ≡ texts_in profile bytes.now)) }
    ensures fault { IfErr result (λ fault. marks_fault bytes.now ≡ Some (fault.line, fault.rule)) }
    ensures room { IfErr result (λ fault. fault.line ≤ 2 ^ 63) }
{
    let whole = Rest {
        text: bytes,
        line: 1,
    };
    let (netlist, rest) = whole.section(0)?;
    let (scan, rest) = rest.section(1)?;
    let (patterns, rest) = rest.section(2)?;
    let (neighbours, rest) = rest.section(3)?;
    rest.end()?;
    Ok(Sections {
        profile,
        netlist,
        scan,
        patterns,
        neighbours,
    })
}

// How many lines stand before the first marker of a bundle.
fn lines_before(profile: Profile) -> u64
    ensures count { result ≡ lines_before profile }
    ensures few { result ≤ 1 }
{
    match profile {
        Profile::One => 0,
        Profile::Two => 1,
    }
}

/// The profile of a bundle and its texts, or the first line at which it breaks rule 81.
pub fn split(bytes: &[u8]) -> Result<Sections<'_>, TextFault>
    ensures good { IfOk result (λ texts. (bundle_fault bytes.now ≡ None) × (four_texts texts ≡ bundle_texts bytes.now)) }
    ensures fault { IfErr result (λ fault. bundle_fault bytes.now ≡ Some (fault.line, fault.rule)) }
{
    let (profile, text) = split_profile(bytes);
    match split_marked(profile, text) {
        Ok(texts) => Ok(texts),
        Err(TextFault { line, rule }) => Err(TextFault {
            line: line + lines_before(profile),
            rule,
        }),
    }
}

// Adds a section: its marker, and its text with LF at its end.
fn append_section(bundle: &mut Name, marker: &[u8], text: &[u8]) -> Result<(), NoMemory>
    ensures { OnOk result (bundle.new ≡ bundle.old ++ (marker.now ++ ended text.now)) }
{
    bundle.append(marker)?;
    bundle.append(text)?;
    if !is_ended(text) {
        bundle.append(b"\n")?;
    }
    Ok(())
}

// Adds the line that names a profile. Profile 1 has none.
fn append_profile(bundle: &mut Name, profile: Profile) -> Result<(), NoMemory>
    ensures { OnOk result ((rest : List ℕ) → bundle.new ++ rest ≡ bundle.old ++ named_text profile rest) }
{
    match profile {
        Profile::One => Ok(()),
        Profile::Two => bundle.append(b"%profile 2\n"),
    }
}

/// The bundle of a profile and four texts: each text behind its marker line. One that isn't empty
/// and doesn't end with LF is ended with it. Profile 2 is named by a line before the first marker.
pub fn bundle_text(alloc: Global, texts: &Sections<'_>) -> Result<Name, NoMemory>
    ensures { IfOk result (λ text. text ≡ bundle_text (four_texts texts.now)) }
{
    let mut bundle = Name::new(alloc);
    append_profile(&mut bundle, texts.profile)?;
    append_section(&mut bundle, b"%netlist\n", texts.netlist)?;
    append_section(&mut bundle, b"%scan\n", texts.scan)?;
    append_section(&mut bundle, b"%patterns\n", texts.patterns)?;
    append_section(&mut bundle, b"%neighbours\n", texts.neighbours)?;
    Ok(bundle)
}
