//! A text in the making, with the ends of its lines.
ghost use Rattle.std.specs.Prelude.{◌≡◌, ◌+◌, ◌<◌, ◌^◌, ◌++◌, ◌∷◌, [], List, ℕ, length, map, All, IfOk, OnOk};
ghost use Rattle.report_lines.specs.LineEnds.{HasLines, AddsLines, IsCut};

use scan_model::{Name, NoMemory, Rows};
use std::alloc::Global;

/// A text while it is written, with the place behind each of its lines.
#[derive(Drop)]
pub struct Draft {
    pub text: Name,
    /// The place behind each line feed.
    pub ends: Rows<usize>,
}

/// An empty text.
pub fn new_draft(alloc: Global) -> Draft
    ensures text { result.text ≡ [] }
    ensures ends { result.ends ≡ [] }
{
    Draft {
        text: Rows::new(alloc),
        ends: Rows::new(alloc),
    }
}

/// An empty text with room for so many bytes and lines; more of either takes more memory.
pub fn draft_with_room(alloc: Global, bytes: usize, lines: usize) -> Result<Draft, NoMemory>
    ensures text { IfOk result (λ draft. draft.text ≡ []) }
    ensures ends { IfOk result (λ draft. draft.ends ≡ []) }
{
    let text = Vec::with_capacity(alloc, bytes)?;
    let ends = Vec::with_capacity(alloc, lines)?;
    Ok(Draft {
        text: Rows::from_vec(text),
        ends: Rows::from_vec(ends),
    })
}

/// Ends a line whose words are written.
pub fn end_line(draft: &mut Draft) -> Result<(), NoMemory>
    ensures text { OnOk result (draft.new.text ≡ draft.old.text ++ 10 ∷ []) }
    ensures ends { OnOk result (draft.new.ends ≡ draft.old.ends ++ length draft.new.text ∷ []) }
{
    draft.text.push(b'\n')?;
    let end = draft.text.len();
    draft.ends.push(end)
}

/// Adds places that were counted from a start.
fn append_ends(ends: &mut Rows<usize>, start: usize, more: &[usize]) -> Result<(), NoMemory>
    requires { All (λ e. start + e < 2 ^ 64) more.now }
    ensures { OnOk result (ends.new ≡ ends.old ++ map (λ e. start + e) more.now) }
{
    for end in more {
        ends.push(start + *end)?;
    }
    Ok(())
}

/// Puts the lines of a text behind those of another.
pub(crate) fn append_draft(draft: &mut Draft, piece: &Draft) -> Result<(), NoMemory>
    requires { IsCut piece.now }
    ensures { OnOk result ((lines : List (List ℕ)) → HasLines lines piece.now.text piece.now.ends → AddsLines lines draft.old draft.new) }
{
    draft.text.append(piece.text.as_slice())?;
    let start = draft.text.len() - piece.text.len();
    append_ends(&mut draft.ends, start, piece.ends.as_slice())
}
