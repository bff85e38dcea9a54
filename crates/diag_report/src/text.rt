//! The text of a report, head first.
ghost use Rattle.std.specs.Prelude.{◌≡◌, ◌<◌, ◌≤◌, [], List, All, length, IfOk, OnOk};
ghost use Rattle.scan_model.specs.declared.logs.Bit.{Bit};
ghost use Rattle.scan_model.specs.declared.logs.BitClass.{BitClass};
ghost use Rattle.scan_model.specs.declared.logs.LogFacts.{LogFacts};
ghost use Rattle.scan_model.specs.ScanTest.{points_of};
ghost use Rattle.scan_model.specs.PatternText.{pattern_limit};
ghost use Rattle.scan_model.specs.Coverage.{bits_of, bits_over};
ghost use Rattle.scan_model.specs.Classes.{class_with};
ghost use Rattle.scan_model.specs.Universe.{universe};
ghost use Rattle.scan_model.specs.ReportText as text_of;
ghost use Rattle.log_join.specs.Joining.{StandsFor, FitsExpected};
ghost use Rattle.report_lines.specs.LineEnds.{AddsLines, HasLines};
ghost use Rattle.diag_report.specs.BitTally.{tally_over};
ghost use Rattle.diag_report.specs.Layout.{title_lines, total_lines, opening_lines, layout};

use crate::names::PartsNames;
use crate::report::{Report, finished};
use crate::tally::{Tally, tally_bits};
use log_join::Joined;
use report_lines::{
    CANDIDATE_BYTES, Draft, ReportNames, bit_lines, candidate_lines, candidate_lines_in_pieces,
    draft_with_room, name_line, number_line,
};
use scan_model::{Expected, Name, NoMemory, Parts, Rows, Scored};
use std::alloc::Global;
use std::thread::Threads;

/// About the bytes of a line that names a bit.
const BIT_BYTES: usize = 32;

/// What a report begins with: the tags of design and die, and the number of its logs.
#[derive(Drop)]
pub struct Head {
    pub design: Name,
    pub die: Name,
    pub logs: u64,
}

fn title_lines(draft: &mut Draft, title: &[u8], head: &Head) -> Result<(), NoMemory>
    ensures { OnOk result (AddsLines (title_lines title.now head.now.design head.now.die head.now.logs) draft.old draft.new) }
{
    number_line(draft, title, 1)?;
    name_line(draft, b"design", head.design.as_slice())?;
    name_line(draft, b"die", head.die.as_slice())?;
    number_line(draft, b"logs", head.logs)
}

fn totals(draft: &mut Draft, tally: &Tally, candidates: u64) -> Result<(), NoMemory>
    ensures { OnOk result (AddsLines (total_lines tally.now candidates) draft.old draft.new) }
{
    number_line(draft, b"failing", tally.failing)?;
    number_line(draft, b"passing", tally.passing)?;
    number_line(draft, b"conflicts", tally.conflict.len() as u64)?;
    number_line(draft, b"masked", tally.masked.len() as u64)?;
    number_line(draft, b"candidates", candidates)
}

/// An empty report, with about the room that so many lines of bits and of candidates take after the nine of its head.
fn report_draft(alloc: Global, bits: usize, candidates: usize) -> Result<Draft, NoMemory>
    ensures text { IfOk result (λ draft. draft.text ≡ []) }
    ensures ends { IfOk result (λ draft. draft.ends ≡ []) }
{
    let lines = bits.saturating_add(candidates).saturating_add(9);
    let more = candidates.saturating_mul(CANDIDATE_BYTES - BIT_BYTES);
    let bytes = lines.saturating_mul(BIT_BYTES).saturating_add(more);
    draft_with_room(alloc, bytes, lines)
}

// Writes the lines of a report before those of its candidates into a draft that has none.
fn write_opening<N: ReportNames>(
    draft: &mut Draft,
    names: &N,
    head: &Head,
    tally: &Tally,
    candidates: u64,
) -> Result<(), NoMemory>
    requires text { draft.old.text ≡ [] }
    requires ends { draft.old.ends ≡ [] }
    requires conflict { All (λ b. b.point < N.points names.now) tally.now.conflict }
    requires masked { All (λ b. b.point < N.points names.now) tally.now.masked }
    ensures { OnOk result (HasLines (opening_lines (N.form names.now) head.now.design head.now.die head.now.logs tally.now candidates) draft.new.text draft.new.ends) }
{
    title_lines(draft, names.title(), head)?;
    totals(draft, tally, candidates)?;
    bit_lines(draft, names, b"conflict", tally.conflict.as_slice())?;
    bit_lines(draft, names, b"masked", tally.masked.as_slice())
}

// A report up to its candidates, with room for their lines.
fn opened<N: ReportNames>(
    alloc: Global,
    names: &N,
    head: &Head,
    tally: &Tally,
    candidates: usize,
) -> Result<Draft, NoMemory>
    requires conflict { All (λ b. b.point < N.points names.now) tally.now.conflict }
    requires masked { All (λ b. b.point < N.points names.now) tally.now.masked }
    ensures { IfOk result (λ draft. HasLines (opening_lines (N.form names.now) head.now.design head.now.die head.now.logs tally.now candidates) draft.text draft.ends) }
{
    let bits = tally.conflict.len().saturating_add(tally.masked.len());
    let mut draft = report_draft(alloc, bits, candidates)?;
    write_opening(&mut draft, names, head, tally, candidates as u64)?;
    Ok(draft)
}

// The report of these lines.
fn written<N: ReportNames>(
    alloc: Global,
    names: &N,
    head: &Head,
    tally: &Tally,
    rows: &[Scored],
) -> Result<Report, NoMemory>
    requires conflict { All (λ b. b.point < N.points names.now) tally.now.conflict }
    requires masked { All (λ b. b.point < N.points names.now) tally.now.masked }
    requires places { All (λ row. row.place < N.places names.now) rows.now }
    ensures { IfOk result (λ r. r ≡ layout (N.form names.now) head.now.design head.now.die head.now.logs tally.now rows.now) }
{
    let mut draft = opened(alloc, names, head, tally, rows.len())?;
    candidate_lines(&mut draft, names, rows)?;
    Ok(finished(draft))
}

// The same report, whose candidates are written in pieces at the same time where there are many.
fn written_in_pieces<R: Threads + Sync, N: ReportNames + Sync>(
    rt: &R,
    alloc: Global,
    names: &N,
    head: &Head,
    tally: &Tally,
    rows: &[Scored],
) -> Result<Report, NoMemory>
    requires conflict { All (λ b. b.point < N.points names.now) tally.now.conflict }
    requires masked { All (λ b. b.point < N.points names.now) tally.now.masked }
    requires places { All (λ row. row.place < N.places names.now) rows.now }
    ensures { IfOk result (λ r. r ≡ layout (N.form names.now) head.now.design head.now.die head.now.logs tally.now rows.now) }
{
    let mut draft = opened(alloc, names, head, tally, rows.len())?;
    candidate_lines_in_pieces(rt, alloc, &mut draft, names, rows)?;
    Ok(finished(draft))
}

/// A report in given words: its head, the Conflict and the Masked bits in bit order, and its candidates in their order.
/// The classes are those that the given expected values make.
/// Takes time linear in the text and in the bits.
pub fn make_text_of<N: ReportNames>(
    alloc: Global,
    names: &N,
    head: &Head,
    expected: &Expected,
    joined: &Joined,
    ranked: &Rows<Scored>,
) -> Result<Report, NoMemory>
    requires expected { FitsExpected expected.now joined.now }
    requires patterns { joined.now.patterns ≤ pattern_limit }
    requires points { joined.now.points ≤ N.points names.now }
    requires places { All (λ row. row.place < N.places names.now) ranked.now }
    ensures { (logs : List LogFacts) → StandsFor logs joined.now → IfOk result (λ r. r ≡ text_of.layout_with (N.form names.now) (bits_over joined.now.patterns joined.now.points) head.now.design head.now.die head.now.logs (class_with expected.now logs) ranked.now) }
{
    let tally = tally_bits(alloc, expected, joined)?;
    written(alloc, names, head, &tally, ranked.as_slice())
}

/// The report of a die: its head, the Conflict and the Masked bits in bit order, and its candidates in their order. Where the
/// tally is that of all bits by some classes, the report is by these. Many candidates are written in pieces, one for each
/// processor. Takes time linear in the text.
pub fn make_text<R: Threads + Sync>(
    rt: &R,
    alloc: Global,
    parts: &Parts,
    head: &Head,
    tally: &Tally,
    ranked: &Rows<Scored>,
) -> Result<Report, NoMemory>
    requires conflict { All (λ b. b.point < length (points_of parts.now)) tally.now.conflict }
    requires masked { All (λ b. b.point < length (points_of parts.now)) tally.now.masked }
    requires places { All (λ row. row.place < length (universe parts.now)) ranked.now }
    ensures { (classes : Bit → BitClass) → tally.now ≡ tally_over classes (bits_of parts.now)
        → IfOk result (λ r. r ≡ text_of.layout_by_class (universe parts.now) parts.now head.now.design head.now.die head.now.logs classes ranked.now) }
{
    let names = PartsNames { parts };
    written_in_pieces(rt, alloc, &names, head, tally, ranked.as_slice())
}
