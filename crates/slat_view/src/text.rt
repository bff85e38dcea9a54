//! The texts of the counts and of one pattern's faults.
ghost use Rattle.std.specs.Prelude.{◌≡◌, ◌++◌, ◌∷◌, [], ◌<◌, length, map, decimal, codes, IfOk, OnOk};
ghost use Rattle.scan_model.specs.Universe.{universe};
ghost use Rattle.scan_model.specs.ReportText.{concatenated, spaced, line};
ghost use Rattle.slat_view.specs.SlatText as text_of;
ghost use Rattle.slat_view.specs.SlatText.{AddsText};
ghost use Rattle.slat_view.specs.Trials.{ArePlaces};

use crate::slat::{Slat, SlatCount};
use fault_universe::{fault_at, push_fault, push_number, push_word};
use scan_model::{Name, NoMemory, Parts};
use std::alloc::Global;

/// Adds a line of a word and a name.
fn name_line(text: &mut Name, word: &[u8], name: &[u8]) -> Result<(), NoMemory>
    ensures { OnOk result (AddsText (line (word.now ∷ name.now ∷ []) ∷ []) text.old text.new) }
{
    text.append(word)?;
    push_word(text, name)?;
    text.push(b'\n')
}

/// Adds a line of a word and a number.
fn number_line(text: &mut Name, word: &[u8], number: u64) -> Result<(), NoMemory>
    ensures { OnOk result (AddsText (line (word.now ∷ decimal number ∷ []) ∷ []) text.old text.new) }
{
    text.append(word)?;
    push_number(text, number)?;
    text.push(b'\n')
}

fn title(text: &mut Name, design: &[u8], die: &[u8], logs: u64) -> Result<(), NoMemory>
    ensures { OnOk result (AddsText (text_of.title_lines design.now die.now logs) text.old text.new) }
{
    number_line(text, b"SLAT", 1)?;
    name_line(text, b"design", design)?;
    name_line(text, b"die", die)?;
    number_line(text, b"logs", logs)
}

fn totals(text: &mut Name, failing: u64, explained: u64) -> Result<(), NoMemory>
    ensures { OnOk result (AddsText (text_of.total_lines failing explained) text.old text.new) }
{
    number_line(text, b"failing-patterns", failing)?;
    number_line(text, b"slat-patterns", explained)
}

/// Adds the words of a pattern that some faults fit.
fn push_count(text: &mut Name, count: SlatCount) -> Result<(), NoMemory>
    ensures { OnOk result (text.new ≡ text.old ++ spaced (text_of.count_words count)) }
{
    text.append(b"pattern")?;
    push_number(text, u64::from(count.pattern))?;
    push_word(text, b"faults")?;
    push_number(text, u64::from(count.faults))
}

fn count_line(text: &mut Name, count: SlatCount) -> Result<(), NoMemory>
    ensures { OnOk result (AddsText (text_of.count_line count ∷ []) text.old text.new) }
{
    push_count(text, count)?;
    text.push(b'\n')
}

fn count_lines(text: &mut Name, rows: &[SlatCount]) -> Result<(), NoMemory>
    ensures { OnOk result (AddsText (map text_of.count_line rows.now) text.old text.new) }
{
    for i in 0..rows.len() {
        count_line(text, rows[i])?;
    }
    Ok(())
}

/// The counts of a die, by the tags of design and die and the number of its logs.
pub fn slat_text(
    alloc: Global,
    design: &[u8],
    die: &[u8],
    logs: u64,
    slat: &Slat,
) -> Result<Name, NoMemory>
    ensures { IfOk result (λ text. text ≡ concatenated (text_of.count_lines design.now die.now logs slat.now.failing slat.now.rows)) }
{
    let rows = slat.rows.as_slice();
    let mut text = Name::new(alloc);
    title(&mut text, design, die, logs)?;
    totals(&mut text, u64::from(slat.failing), rows.len() as u64)?;
    count_lines(&mut text, rows)?;
    Ok(text)
}

fn place_line(text: &mut Name, parts: &Parts, place: u32) -> Result<(), NoMemory>
    requires { place < length (universe parts.now) }
    ensures { OnOk result (AddsText (text_of.place_line parts.now place ∷ []) text.old text.new) }
{
    let Some(fault) = fault_at(parts, place) else {
        unreachable!()
    };
    text.append(b"fault")?;
    push_number(text, u64::from(place))?;
    text.push(b' ')?;
    push_fault(text, parts, &fault)?;
    text.push(b'\n')
}

fn place_lines(text: &mut Name, parts: &Parts, places: &[u32]) -> Result<(), NoMemory>
    requires { ArePlaces parts.now places.now }
    ensures { OnOk result (AddsText (map (text_of.place_line parts.now) places.now) text.old text.new) }
{
    for i in 0..places.len() {
        place_line(text, parts, places[i])?;
    }
    Ok(())
}

/// The faults that fit a pattern, by their places.
pub fn pattern_text(
    alloc: Global,
    parts: &Parts,
    pattern: u32,
    places: &[u32],
) -> Result<Name, NoMemory>
    requires { ArePlaces parts.now places.now }
    ensures { IfOk result (λ text. text ≡ concatenated (text_of.place_lines parts.now pattern places.now)) }
{
    let mut text = Name::new(alloc);
    number_line(&mut text, b"pattern", u64::from(pattern))?;
    place_lines(&mut text, parts, places)?;
    Ok(text)
}
