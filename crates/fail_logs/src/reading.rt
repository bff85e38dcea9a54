//! A whole log.

ghost use Rattle.std.specs.Prelude.{◌≡◌, ◌≤◌, ◌+◌, [], length, is_some, true, IfOk};
ghost use Rattle.scan_model.specs.Lines.{text_lines};
ghost use Rattle.scan_model.specs.TextFaults.{HasNoFault, IsFirstFault, lowest, first_fault, refused_or};
ghost use Rattle.scan_model.specs.LogText.{log_frame, log_breaks, log_reading, log_rule, log_fault, log_end_rules, later_lines};
ghost use Rattle.scan_model.specs.LogTextV1.{is_version_1, log_v1};
ghost use Rattle.scan_model.specs.Coverage.{FitsLog};
ghost use Rattle.scan_model.specs.ScanTest.{points_of};
ghost use Rattle.text_parts.specs.ReadResults.{Gives, IfFault};
ghost use Rattle.text_parts.specs.Views.{nows};
ghost use Rattle.fail_logs.specs.ReadResultsV1.{GivesV1};
ghost use Rattle.fail_logs.specs.Frames.{frame_view, places_view, IsSmall};
ghost use Rattle.fail_logs.specs.FrameFacts.{IsFrameOf};
ghost use Rattle.fail_logs.specs.LineFacts.{facts_of, draft_facts};
ghost use Rattle.fail_logs.specs.LogDrafts.{IsAfter};

use crate::bits::bits_in_order;
use crate::frame::Frame;
use crate::groups::cut_points;
use crate::log_draft::LogDraft;
use crate::rules::Headers;
use scan_model::{LogFacts, Parts, rules};
use std::alloc::Global;
use text_parts::{ReadFault, TextFault, lines_of};

// The lowest rule that is broken at the end of a log.
fn end_rule(draft: &LogDraft) -> Option<u32>
    ensures { result ≡ lowest (log_end_rules (is_some draft.now.title) draft.now.closed) }
{
    if draft.title.is_none() {
        return Some(rules::NO_TITLE);
    }
    if !draft.closed {
        return Some(rules::NO_CLOSING_LINE);
    }
    None
}

// Takes the lines of a log, up to its first fault.
fn take_lines(
    alloc: Global,
    frame: &Frame<'_>,
    draft: &mut LogDraft,
    texts: &[&[u8]],
) -> Result<(), ReadFault>
    requires small { IsSmall frame.now }
    requires after { IsAfter (frame_view frame.now) (places_view frame.now) draft.old [] }
    ensures { Gives (λ done. draft_facts draft.new) result (refused_or (first_fault (log_rule (frame_view frame.now) (nows texts.now)) (length (nows texts.now) + 1)) (facts_of (frame_view frame.now) (places_view frame.now) (later_lines frame.now.form (nows texts.now)))) }
{
    let mut words = Vec::new(alloc);
    for (i, text) in texts.iter().enumerate() {
        if let Some(rule) = draft.take_line(&mut words, frame, text)? {
            let line = i as u64 + 1;
            return Err(ReadFault::Text(TextFault { line, rule }));
        }
    }
    if let Some(rule) = end_rule(draft) {
        let line = texts.len() as u64 + 1;
        return Err(ReadFault::Text(TextFault { line, rule }));
    }
    Ok(())
}

// What the lines of a log say, or its first fault.
fn read_lines(alloc: Global, frame: &Frame<'_>, bytes: &[u8]) -> Result<LogDraft, ReadFault>
    requires small { IsSmall frame.now }
    ensures { Gives draft_facts result (refused_or (log_fault (frame_view frame.now) bytes.now) (facts_of (frame_view frame.now) (places_view frame.now) (later_lines frame.now.form (text_lines bytes.now)))) }
{
    let texts = lines_of(alloc, bytes)?;
    let mut draft = LogDraft::new(alloc);
    take_lines(alloc, frame, &mut draft, &texts)?;
    Ok(draft)
}

/// What a log stands for that is read for a frame, or its first fault by the rules of logs of its form.
pub fn read_framed(alloc: Global, frame: &Frame<'_>, bytes: &[u8]) -> Result<LogFacts, ReadFault>
    requires { IsFrameOf frame.now }
    ensures reading { Gives (λ log. log) result (log_reading (frame_view frame.now) bytes.now) }
    ensures first { IfFault result (IsFirstFault (log_breaks (frame_view frame.now) (text_lines bytes.now)) (length (text_lines bytes.now) + 1)) }
    ensures none { IfOk result (λ log. HasNoFault (log_breaks (frame_view frame.now) (text_lines bytes.now)) (length (text_lines bytes.now) + 1)) }
    ensures fits { IfOk result (FitsLog (length frame.now.shifts.items) (length frame.now.points.now)) }
{
    let draft = read_lines(alloc, frame, bytes)?;
    let LogDraft {
        truncated,
        headers: Headers { tested, .. },
        fails,
        cuts,
        ..
    } = draft;
    let fails = bits_in_order(alloc, frame.points.len(), fails)?;
    let cuts = cut_points(alloc, frame.chains.len(), frame.points, &cuts)?;
    Ok(LogFacts {
        ranges: tested.into_rows(),
        truncated,
        fails,
        cuts,
    })
}

/// What a fail log of the design and the die stands for, or its first fault by rules 51 to 64. A log of version 1 is faulty
/// where it was before version 2 came, and else lists and covers the same bits.
pub fn read_log(
    alloc: Global,
    parts: &Parts,
    design: &[u8],
    die: &[u8],
    bytes: &[u8],
) -> Result<LogFacts, ReadFault>
    ensures reading { Gives (λ log. log) result (log_reading (log_frame parts.now design.now die.now) bytes.now) }
    ensures first { IfFault result (IsFirstFault (log_breaks (log_frame parts.now design.now die.now) (text_lines bytes.now)) (length (text_lines bytes.now) + 1)) }
    ensures v1 { is_version_1 (text_lines bytes.now) ≡ true → GivesV1 result (log_v1 (log_frame parts.now design.now die.now) bytes.now) }
    ensures none { IfOk result (λ log. HasNoFault (log_breaks (log_frame parts.now design.now die.now) (text_lines bytes.now)) (length (text_lines bytes.now) + 1)) }
    ensures fits { IfOk result (FitsLog (length parts.now.patterns) (length (points_of parts.now))) }
{
    let frame = Frame::of_parts(alloc, parts, design, die)?;
    read_framed(alloc, &frame, bytes)
}
