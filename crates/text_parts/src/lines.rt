//! The lines of a text, without comments, and the bytes that a text may have.

ghost use Rattle.std.specs.Prelude.{◌≡◌, map, IfOk, ◌==◌, not, MatchOption};
ghost use Rattle.std.specs.List.{position_or_len, before_first};
ghost use Rattle.std.specs.Str.Lines.{strip_carriage_return};
ghost use Rattle.scan_model.specs.Lines.{text_lines, has_refused_byte, is_accepted, without_comment};
ghost use Rattle.text_parts.specs.TextEnd.{is_ended};
ghost use Rattle.text_parts.specs.FirstLine.{HasNoEnd, BeginsWith};
ghost use Rattle.text_parts.specs.Views.{nows};

use memchr::memchr;
use std::alloc::{AllocError, Global};

fn is_accepted(b: u8) -> bool
    ensures { result ≡ is_accepted b }
{
    matches!(b, 32..=126) || b == b'\t'
}

/// Whether the line has a byte that no text may have.
// Within a loop over lines it would take the registers of what else stands there.
#[inline(never)]
pub fn has_refused_byte(line: &[u8]) -> bool
    ensures { result ≡ has_refused_byte line.now }
{
    let mut found = false;
    for b in line {
        // Without a branch, so that the processor compares many bytes at once.
        found |= !is_accepted(*b);
    }
    found
}

// The place of the first byte that equals this one, or else the number of bytes.
#[inline(always)]
fn place_of(byte: u8, bytes: &[u8]) -> usize
    ensures { result ≡ position_or_len (λ b. b == byte) bytes.now }
{
    memchr(byte, bytes).unwrap_or(bytes.len())
}

/// The line without its comment.
pub fn without_comment(line: &[u8]) -> &[u8]
    ensures { result.now ≡ without_comment line.now }
{
    &line[..place_of(b'#', line)]
}

/// Whether a text is empty or ends with LF.
pub fn is_ended(text: &[u8]) -> bool
    ensures { result ≡ is_ended text.now }
{
    match text {
        [.., last] => *last == b'\n',
        [] => true,
    }
}

// The first line of a text that has an LF, and what follows it.
fn first_line(bytes: &[u8]) -> Option<(&[u8], &[u8])>
    ensures { MatchOption result (HasNoEnd bytes.now) (λ parts. BeginsWith bytes.now parts.0.now parts.1.now) }
{
    let end = place_of(b'\n', bytes);
    if end == bytes.len() {
        return None;
    }
    Some((without_return(&bytes[..end]), &bytes[end + 1..]))
}

/// The lines of a text.
pub fn lines_of(alloc: Global, bytes: &[u8]) -> Result<Vec<&[u8]>, AllocError>
    ensures { IfOk result (λ v. nows v.items ≡ text_lines bytes.now) }
{
    let mut lines = Vec::new(alloc);
    let mut rest = bytes;
    while let Some((line, after)) = first_line(rest) {
        lines.push(line)?;
        rest = after;
    }
    if !rest.is_empty() {
        lines.push(rest)?;
    }
    Ok(lines)
}

// The line without the CR at its end.
fn without_return(line: &[u8]) -> &[u8]
    ensures { result.now ≡ strip_carriage_return line.now }
{
    match line {
        [front @ .., b'\r'] => front,
        _ => line,
    }
}
