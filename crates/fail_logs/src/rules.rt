//! The rules of a line after the title and before the closing line.

ghost use Rattle.std.specs.Prelude.{◌≡◌};
ghost use Rattle.scan_model.specs.TextFaults.{lowest};
ghost use Rattle.scan_model.specs.LogText.{is_other, has_other_design, has_other_die, has_bad_range, is_untested, pattern_named, is_out_of_shift, is_first, is_misplaced, is_late, later_rules};
ghost use Rattle.fail_logs.specs.LogViews.{line_view};
ghost use Rattle.fail_logs.specs.Frames.{frame_view, places_view, headers_view};
ghost use Rattle.fail_logs.specs.LineTargets.{IsTarget};

use crate::frame::Frame;
use crate::line::LogLine;
use crate::number::number;
use crate::target::LineTarget;
use scan_model::{LogVersion, rules};
use tested_ranges::TestedRanges;

/// What the headers so far say: whether a `die` and a `design` line came, whether a fail or cut line came, and the tested
/// patterns.
#[derive(Drop)]
pub struct Headers {
    pub die: bool,
    pub design: bool,
    pub begun: bool,
    pub tested: TestedRanges,
}

fn is_other(line: LogLine<'_>) -> bool
    ensures { result ≡ is_other (line_view line.entry) }
{
    matches!(line, LogLine::Other)
}

fn has_other_design(frame: &Frame<'_>, line: LogLine<'_>) -> bool
    ensures { result ≡ has_other_design (frame_view frame.now) (line_view line.entry) }
{
    match line {
        LogLine::Design(w) => w != frame.design,
        _ => false,
    }
}

fn has_other_die(frame: &Frame<'_>, line: LogLine<'_>) -> bool
    ensures { result ≡ has_other_die (frame_view frame.now) (line_view line.entry) }
{
    match line {
        LogLine::Die(w) => w != frame.die,
        _ => false,
    }
}

fn has_bad_range(frame: &Frame<'_>, line: LogLine<'_>) -> bool
    ensures { result ≡ has_bad_range (frame_view frame.now) (line_view line.entry) }
{
    match line {
        LogLine::Tested(a, b) => {
            let first = number(a);
            let last = number(b);
            last < first || frame.shifts.len() <= last as usize
        }
        _ => false,
    }
}

/// Whether a range was named, and none holds the pattern.
pub fn is_untested(tested: &TestedRanges, pattern: Option<u32>) -> bool
    ensures { result ≡ is_untested tested.now pattern }
{
    match pattern {
        Some(p) => tested.has_some() && !tested.holds(p),
        None => false,
    }
}

// Rule 60: a fail line names an output at a SHIFT pattern.
fn is_out_of_shift(frame: &Frame<'_>, line: LogLine<'_>, pattern: Option<u32>) -> bool
    requires { pattern ≡ pattern_named (line_view line) }
    ensures { result ≡ is_out_of_shift (frame_view frame.now) (line_view line.entry) }
{
    match line {
        LogLine::Out(_, _) => match frame.shifts.get(pattern.unwrap_or(0) as usize) {
            Some(shift) => *shift,
            None => false,
        },
        _ => false,
    }
}

fn is_first(version: LogVersion) -> bool
    ensures { result ≡ is_first version }
{
    match version {
        LogVersion::First => true,
        LogVersion::Second => false,
    }
}

// Rule 63: a header comes twice, or another line before the headers. Version 1 has one `tested` line, version 2 any number.
fn is_misplaced(version: LogVersion, headers: &Headers, line: LogLine<'_>) -> bool
    ensures { result ≡ is_misplaced version (headers_view headers.now) (line_view line.entry) }
{
    match line {
        LogLine::Die(_) => headers.die,
        LogLine::Design(_) => headers.design,
        LogLine::Tested(_, _) => is_first(version) && headers.tested.has_some(),
        LogLine::Other => false,
        _ => !(headers.die && headers.design && headers.tested.has_some()),
    }
}

// Rule 64: in version 2, a `tested` line after a fail or cut line.
fn is_late(version: LogVersion, headers: &Headers, line: LogLine<'_>) -> bool
    ensures { result ≡ is_late version (headers_view headers.now) (line_view line.entry) }
{
    match line {
        LogLine::Tested(_, _) => !is_first(version) && headers.begun,
        _ => false,
    }
}

/// The lowest rule that a line with this target breaks, after these headers.
pub fn later_rule(
    frame: &Frame<'_>,
    version: LogVersion,
    headers: &Headers,
    line: LogLine<'_>,
    target: LineTarget,
) -> Option<u32>
    requires { IsTarget (frame_view frame.now) (places_view frame.now) (line_view line) target }
    ensures { result ≡ lowest (later_rules (frame_view frame.now) version (headers_view headers.now) (line_view line.entry)) }
{
    if is_other(line) {
        return Some(rules::OTHER_LINE);
    }
    if target.numberless {
        return Some(rules::NO_NUMBER);
    }
    if has_other_design(frame, line) {
        return Some(rules::OTHER_DESIGN);
    }
    if has_other_die(frame, line) {
        return Some(rules::OTHER_DIE);
    }
    if has_bad_range(frame, line) {
        return Some(rules::BAD_RANGE);
    }
    if target.nowhere {
        return Some(rules::NOWHERE);
    }
    if is_untested(&headers.tested, target.pattern) {
        return Some(rules::UNTESTED_PATTERN);
    }
    if is_out_of_shift(frame, line, target.pattern) {
        return Some(rules::OUT_OF_SHIFT);
    }
    if is_misplaced(version, headers, line) {
        return Some(rules::MISPLACED_LINE);
    }
    if is_late(version, headers, line) {
        return Some(rules::LATE_RANGE);
    }
    None
}
