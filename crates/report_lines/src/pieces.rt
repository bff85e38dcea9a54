//! The lines of many candidates, in pieces that are written at the same time.
ghost use Rattle.std.specs.Prelude.{ℕ, ◌*◌, ◌<◌, List, All, length, map, IfOk, OnOk};
ghost use Rattle.std.specs.List.{enumerate_from};
ghost use Rattle.scan_model.specs.declared.logs.Scored.{Scored};
ghost use Rattle.scan_model.specs.ReportText as text_of;
ghost use Rattle.report_lines.specs.LineEnds.{AddsLines, HasLines, IsCut};
ghost use Rattle.report_lines.specs.Pieces.{lines_from, piece_lines, ArePieces};

use crate::draft::{Draft, append_draft, draft_with_room};
use crate::lines::{candidate_lines, candidate_lines_from};
use crate::names::ReportNames;
use rayon::current_num_threads;
use scan_model::{NoMemory, Scored};
use std::alloc::Global;
use std::thread::Threads;
use work_crew::{made_in_crew, piece_size};

/// Room for the line of a candidate: few lines have more bytes, and a text that outgrows its room is copied.
pub const CANDIDATE_BYTES: usize = 96;

/// How few candidates are worth a thread of their own.
const LEAST_PIECE: usize = 1024;

/// How many candidates a piece has at most where there are several processors.
const MOST_PIECE: usize = 8192;

/// The lines of the piece of a number, alone.
fn piece_draft<N: ReportNames>(
    alloc: Global,
    names: &N,
    rows: &[Scored],
    size: usize,
    piece: usize,
) -> Result<Draft, NoMemory>
    requires places { All (λ row. row.place < N.places names.now) rows.now }
    requires piece { piece * size < length rows.now }
    ensures { IfOk result (λ draft. HasLines (piece_lines (N.form names.now) rows.now size piece) draft.text draft.ends) }
{
    let start = piece * size;
    let end = start.saturating_add(size).min(rows.len());
    let part = &rows[start..end];
    let bytes = part.len().saturating_mul(CANDIDATE_BYTES);
    let mut draft = draft_with_room(alloc, bytes, part.len())?;
    candidate_lines_from(&mut draft, names, start as u64 + 1, part)?;
    Ok(draft)
}

/// The lines of each piece, written at the same time.
fn piece_drafts<R: Threads + Sync, N: ReportNames + Sync>(
    rt: &R,
    alloc: Global,
    names: &N,
    rows: &[Scored],
    size: usize,
) -> Result<Vec<Draft>, NoMemory>
    requires places { All (λ row. row.place < N.places names.now) rows.now }
    requires size { 0 < size }
    ensures { IfOk result (λ drafts. ArePieces (N.form names.now) rows.now size drafts.items) }
{
    let write = move |piece: usize| -> Result<Draft, NoMemory>
        requires { All (λ row. row.place < N.places names.now) rows.now × (piece * size < length rows.now) }
        ensures { IfOk result (λ draft. HasLines (piece_lines (N.form names.entry.now) rows.entry.now size piece) draft.text draft.ends) }
    { piece_draft(alloc, names, rows, size, piece) };
    let threads = current_num_threads(rt);
    made_in_crew(rt, alloc, threads, rows.len().div_ceil(size), &write)
}

/// Puts the lines of all pieces one behind the other.
fn append_all(draft: &mut Draft, pieces: &[Draft]) -> Result<(), NoMemory>
    requires { All IsCut pieces.now }
    ensures { OnOk result ((form : text_of.ReportForm) (rows : List Scored) (size : ℕ) → ArePieces form rows size pieces.now → AddsLines (lines_from form 1 rows) draft.old draft.new) }
{
    for piece in pieces {
        append_draft(draft, piece)?;
    }
    Ok(())
}

/// Adds the lines of candidates in their order, the first of rank 1, as `candidate_lines` does. Many candidates are written in
/// pieces, some for each processor.
pub fn candidate_lines_in_pieces<R: Threads + Sync, N: ReportNames + Sync>(
    rt: &R,
    alloc: Global,
    draft: &mut Draft,
    names: &N,
    rows: &[Scored],
) -> Result<(), NoMemory>
    requires { All (λ row. row.place < N.places names.now) rows.now }
    ensures { OnOk result (AddsLines (map (text_of.named_candidate_line (N.form names.now)) (enumerate_from 1 rows.now)) draft.old draft.new) }
{
    let size = piece_size(rt, rows.len(), LEAST_PIECE, MOST_PIECE);
    if rows.len() <= size {
        return candidate_lines(draft, names, rows);
    }
    let drafts = piece_drafts(rt, alloc, names, rows, size)?;
    append_all(draft, &drafts)
}
