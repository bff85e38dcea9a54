//! The lines of reports, each from its words.
ghost use Rattle.std.specs.Prelude.{◌≡◌, ◌+◌, ◌++◌, ◌∷◌, [], ◌<◌, ◌≤◌, ◌^◌, All, length, map, drop, decimal, OnOk};
ghost use Rattle.std.specs.List.{enumerate_from};
ghost use Rattle.scan_model.specs.ReportText as text_of;
ghost use Rattle.report_lines.specs.LineEnds.{AddsLines};
ghost use Rattle.report_lines.specs.ScoreWords.{score_words};
ghost use Rattle.report_lines.specs.Pieces.{lines_from};

use crate::draft::{Draft, end_line};
use crate::names::ReportNames;
use fault_universe::{push_number, push_word};
use itoa::write_digits;
use scan_model::{Bit, Name, NoMemory, Scored};

/// The most bytes that a candidate's words take up to its fault: those of five labels, and of five numbers of up to twenty
/// digits.
const SCORES_LEN: usize = 135;

/// Adds a line of a word and a name.
pub fn name_line(draft: &mut Draft, word: &[u8], name: &[u8]) -> Result<(), NoMemory>
    ensures { OnOk result (AddsLines (text_of.line (word.now ∷ name.now ∷ []) ∷ []) draft.old draft.new) }
{
    draft.text.append(word)?;
    push_word(&mut draft.text, name)?;
    end_line(draft)
}

/// Adds a line of a word and a number.
pub fn number_line(draft: &mut Draft, word: &[u8], number: u64) -> Result<(), NoMemory>
    ensures { OnOk result (AddsLines (text_of.line (word.now ∷ decimal number ∷ []) ∷ []) draft.old draft.new) }
{
    draft.text.append(word)?;
    push_number(&mut draft.text, number)?;
    end_line(draft)
}

/// Adds a line that names a bit.
pub fn bit_line<N: ReportNames>(
    draft: &mut Draft,
    names: &N,
    word: &[u8],
    bit: &Bit,
) -> Result<(), NoMemory>
    requires { bit.now.point < N.points names.now }
    ensures { OnOk result (AddsLines (text_of.named_bit_line (N.form names.now) word.now bit.now ∷ []) draft.old draft.new) }
{
    draft.text.append(word)?;
    push_number(&mut draft.text, u64::from(bit.pattern))?;
    names.push_point(&mut draft.text, bit.point)?;
    end_line(draft)
}

/// Adds a line for each of some bits.
pub fn bit_lines<N: ReportNames>(
    draft: &mut Draft,
    names: &N,
    word: &[u8],
    bits: &[Bit],
) -> Result<(), NoMemory>
    requires { All (λ b. b.point < N.points names.now) bits.now }
    ensures { OnOk result (AddsLines (map (text_of.named_bit_line (N.form names.now) word.now) bits.now) draft.old draft.new) }
{
    for i in 0..bits.len() {
        bit_line(draft, names, word, &bits[i])?;
    }
    Ok(())
}

/// Writes a label and a number behind it so that they end at a place, and returns where they begin. A number has up to twenty
/// digits. Inlined, so that the length of each label is known where it is copied.
#[inline(always)]
fn write_labelled(words: &mut [u8], end: usize, label: &[u8], number: u64) -> usize
    requires room { length label.now + 20 ≤ end }
    requires inside { end ≤ length words.old }
    ensures start { (result ≤ end) × (end ≤ result + (length label.now + 20)) }
    ensures written { drop result words.new ≡ label.now ++ (decimal number ++ drop end words.old) }
{
    let digits = write_digits(number, words, end);
    let start = digits - label.len();
    words[start..digits].copy_from_slice(label);
    start
}

/// Adds the words of a candidate, up to its fault. They are put together from the last to the first.
fn push_scores(line: &mut Name, rank: u64, row: &Scored) -> Result<(), NoMemory>
    ensures { OnOk result (line.new ≡ line.old ++ text_of.spaced (score_words rank row.now)) }
{
    let mut words = [0; SCORES_LEN];
    let at = write_labelled(&mut words, SCORES_LEN, b" tpsf ", row.counts.tpsf);
    let at = write_labelled(&mut words, at, b" tfsp ", row.counts.tfsp);
    let at = write_labelled(&mut words, at, b" tfsf ", row.counts.tfsf);
    let at = write_labelled(&mut words, at, b" fault ", u64::from(row.place));
    let at = write_labelled(&mut words, at, b"candidate ", rank);
    line.append(&words[at..])
}

/// Adds the line of a candidate of a rank.
fn candidate_line<N: ReportNames>(
    draft: &mut Draft,
    names: &N,
    rank: u64,
    row: &Scored,
) -> Result<(), NoMemory>
    requires { row.now.place < N.places names.now }
    ensures { OnOk result (AddsLines (text_of.named_candidate_line (N.form names.now) (rank, row.now) ∷ []) draft.old draft.new) }
{
    push_scores(&mut draft.text, rank, row)?;
    names.push_place(&mut draft.text, row.place)?;
    end_line(draft)
}

/// Adds the lines of candidates in their order, the first of a given rank.
pub(crate) fn candidate_lines_from<N: ReportNames>(
    draft: &mut Draft,
    names: &N,
    first: u64,
    rows: &[Scored],
) -> Result<(), NoMemory>
    requires places { All (λ row. row.place < N.places names.now) rows.now }
    requires first { first + length rows.now ≤ 2 ^ 64 }
    ensures { OnOk result (AddsLines (lines_from (N.form names.now) first rows.now) draft.old draft.new) }
{
    for i in 0..rows.len() {
        candidate_line(draft, names, first + i as u64, &rows[i])?;
    }
    Ok(())
}

/// Adds the lines of candidates in their order, the first of rank 1.
pub fn candidate_lines<N: ReportNames>(
    draft: &mut Draft,
    names: &N,
    rows: &[Scored],
) -> Result<(), NoMemory>
    requires { All (λ row. row.place < N.places names.now) rows.now }
    ensures { OnOk result (AddsLines (map (text_of.named_candidate_line (N.form names.now)) (enumerate_from 1 rows.now)) draft.old draft.new) }
{
    candidate_lines_from(draft, names, 1, rows)
}
