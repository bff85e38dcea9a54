//! Fail lines that break no rule.

ghost use Rattle.std.specs.Prelude.{◌≡◌, ◌≤◌, List, ℕ, length, false, Some, IfSome, slice_index_or};
ghost use Rattle.scan_model.specs.Words.{number_of};
ghost use Rattle.scan_model.specs.LogText.{LogLine, out_line, cell_line, pattern_named, has_all};
ghost use Rattle.fail_logs.specs.Frames.{frame_view, places_view, headers_view, IsSmall};
ghost use Rattle.fail_logs.specs.PlainLines.{IsReadAs};
ghost use Rattle.fail_logs.specs.GoodFails.{IsSoundAt, IsGoodAfter};

use crate::bits::bit_number;
use crate::frame::Frame;
use crate::plain::PlainFail;
use crate::rules::{Headers, is_untested};
use crate::target::{length_at, point_at};

// Whether no header is missing.
fn has_all(headers: &Headers) -> bool
    ensures { result ≡ has_all (headers_view headers.now) }
{
    headers.die && headers.design && headers.tested.has_some()
}

// Whether the pattern only shifts.
fn is_shift(frame: &Frame<'_>, pattern: u32) -> bool
    ensures { result ≡ slice_index_or frame.now.shifts.items pattern false }
{
    match frame.shifts.get(pattern as usize) {
        Some(shift) => *shift,
        None => false,
    }
}

// The point that a fail line of an output names, unless it is nowhere or the pattern only shifts.
fn output_point(frame: &Frame<'_>, pattern: u32, name: &[u8]) -> Option<u32>
    requires { length frame.now.outputs ≤ 131072 }
    ensures { (w : List ℕ) → number_of w ≡ Some pattern → IfSome result (IsSoundAt (frame_view frame.now) (places_view frame.now) (out_line w name.now)) }
{
    let place = frame.outputs.place(name)?;
    if is_shift(frame, pattern) {
        return None;
    }
    Some(place as u32)
}

// The point that a fail line of a cell names, unless it is nowhere.
fn cell_point(frame: &Frame<'_>, chain: &[u8], position: u32) -> Option<u32>
    ensures { (w v : List ℕ) → number_of v ≡ Some position → IfSome result (IsSoundAt (frame_view frame.now) (places_view frame.now) (cell_line w chain.now v)) }
{
    let chain = frame.chains.place_or_len(chain);
    if position as usize >= length_at(frame, chain) {
        return None;
    }
    Some(point_at(frame, chain, position))
}

// The point that a fail line names, if it can fail in the line's pattern.
fn good_point(frame: &Frame<'_>, fail: PlainFail<'_>) -> Option<u32>
    requires { IsSmall frame.now }
    ensures { (l : LogLine) → IsReadAs fail.entry l → IfSome result (IsSoundAt (frame_view frame.now) (places_view frame.now) l) }
{
    match fail {
        PlainFail::Out { pattern, name } => output_point(frame, pattern, name),
        PlainFail::Cell {
            chain,
            position,
            ..
        } => cell_point(frame, chain, position),
    }
}

fn pattern_of(fail: PlainFail<'_>) -> u32
    ensures { (l : LogLine) → IsReadAs fail.entry l → pattern_named l ≡ Some result }
{
    match fail {
        PlainFail::Out { pattern, .. } => pattern,
        PlainFail::Cell { pattern, .. } => pattern,
    }
}

/// The number of the bit that a fail line names, if it breaks no rule after these headers.
pub fn good_number(frame: &Frame<'_>, headers: &Headers, fail: PlainFail<'_>) -> Option<u64>
    requires { IsSmall frame.now }
    ensures { (l : LogLine) → IsReadAs fail.entry l → IfSome result (IsGoodAfter (frame_view frame.now) (places_view frame.now) (headers_view headers.now) l) }
{
    if !has_all(headers) {
        return None;
    }
    let pattern = pattern_of(fail);
    if is_untested(&headers.tested, Some(pattern)) {
        return None;
    }
    let point = good_point(frame, fail)?;
    Some(bit_number(frame.points.len(), pattern, point as usize))
}
