//! The draft of a log: what its lines so far say, and one more line.

ghost use Rattle.std.specs.Prelude.{◌≡◌, ◌++◌, [], IfOk, IfSome, OnOk, Ok, None, option_to_list};
ghost use Rattle.std.specs.Str.{bytes_eq};
ghost use Rattle.scan_model.specs.Words.{words};
ghost use Rattle.scan_model.specs.TextFaults.{lowest};
ghost use Rattle.scan_model.specs.LogText.{log_line, title_word, is_second, version_named, title_version, is_end, is_truncated, later_rules, rules_of_words, log_rules};
ghost use Rattle.text_parts.specs.Views.{nows};
ghost use Rattle.fail_logs.specs.LogViews.{line_view};
ghost use Rattle.fail_logs.specs.Frames.{frame_view, places_view, headers_view, IsSmall};
ghost use Rattle.fail_logs.specs.HeaderLines.{with_line, EndsBelow};

use crate::bits::number_named;
use crate::frame::Frame;
use crate::good_fail::good_number;
use crate::line::LogLine;
use crate::number::number;
use crate::plain::plain_fail;
use crate::rules::{Headers, later_rule};
use crate::target::LineTarget;
use scan_model::{CutGroup, LogForm, LogVersion, Range, rules};
use std::alloc::{AllocError, Global};
use tested_ranges::TestedRanges;
use text_parts::{fill_words, has_refused_byte};

fn is_title_word(form: LogForm, word: &[u8]) -> bool
    ensures { result ≡ bytes_eq word.now (title_word form) }
{
    match form {
        LogForm::FailLog => word == b"FAILLOG".as_slice(),
        LogForm::CompactLog => word == b"COMPLOG".as_slice(),
    }
}

fn is_second(form: LogForm, word: &[u8]) -> bool
    ensures { result ≡ is_second form word.now }
{
    match form {
        LogForm::FailLog => word == b"2".as_slice(),
        LogForm::CompactLog => false,
    }
}

fn version_named(form: LogForm, word: &[u8]) -> Option<LogVersion>
    ensures { result ≡ version_named form word.now }
{
    if word == b"1".as_slice() {
        return Some(LogVersion::First);
    }
    if is_second(form, word) {
        return Some(LogVersion::Second);
    }
    None
}

// The version that a title names.
fn title_version(form: LogForm, words: &[&[u8]]) -> Option<LogVersion>
    ensures { result ≡ title_version form (nows words.now) }
{
    match words {
        [word, version] => {
            if !is_title_word(form, *word) {
                return None;
            }
            version_named(form, *version)
        }
        _ => None,
    }
}

fn is_end(line: LogLine<'_>) -> bool
    ensures { result ≡ is_end (line_view line.entry) }
{
    match line {
        LogLine::End => true,
        LogLine::Truncated => true,
        _ => false,
    }
}

fn is_truncated(line: LogLine<'_>) -> bool
    ensures { result ≡ is_truncated (line_view line.entry) }
{
    matches!(line, LogLine::Truncated)
}

// Adds an item, if there is one.
fn push_some<T: Copy>(list: &mut Vec<T>, item: Option<T>) -> Result<(), AllocError>
    ensures { OnOk result (list.new.items ≡ list.old.items ++ option_to_list item) }
{
    if let Some(item) = item {
        list.push(item)?;
    }
    Ok(())
}

impl Headers {
    // The headers after one more line.
    fn add(&mut self, line: LogLine<'_>) -> Result<(), AllocError>
        requires { EndsBelow 4096 (line_view line) }
        ensures { OnOk result (headers_view self.new ≡ with_line (headers_view self.old) (line_view line.entry)) }
    {
        match line {
            LogLine::Die(_) => self.die = true,
            LogLine::Design(_) => self.design = true,
            LogLine::Tested(a, b) => {
                let range = Range {
                    first: number(a),
                    last: number(b),
                };
                self.tested.add(range)?;
            }
            LogLine::Out(_, _) => self.begun = true,
            LogLine::Cell(_, _, _) => self.begun = true,
            LogLine::CutOutputs => self.begun = true,
            LogLine::CutChain(_) => self.begun = true,
            _ => {}
        }
        Ok(())
    }
}

/// What the lines so far say: the version, once the title came, which of the headers and the closing line came, whether the
/// closing line is `truncated`, and, in the order of the lines, the numbers of the bits that fail lines name and the groups
/// that cut lines name.
#[derive(Drop)]
pub struct LogDraft {
    pub title: Option<LogVersion>,
    pub closed: bool,
    pub truncated: bool,
    pub headers: Headers,
    pub fails: Vec<u64>,
    pub cuts: Vec<CutGroup>,
}

impl LogDraft {
    ghost use Rattle.fail_logs.specs.LineTargets.{IsTarget};
    ghost use Rattle.fail_logs.specs.LogDrafts.{Takes, Adds, IsAfter};
    ghost use Rattle.fail_logs.specs.GoodFails.{IsGoodFail};

    pub fn new(alloc: Global) -> Self
        ensures { (frame : _) → (rows : _) → IsAfter frame rows result [] }
    {
        LogDraft {
            title: None,
            closed: false,
            truncated: false,
            headers: Headers {
                die: false,
                design: false,
                begun: false,
                tested: TestedRanges::new(alloc),
            },
            fails: Vec::new(alloc),
            cuts: Vec::new(alloc),
        }
    }

    // Adds a line with this target, which breaks no rule.
    fn add(
        &mut self,
        frame: &Frame<'_>,
        line: LogLine<'_>,
        target: LineTarget,
    ) -> Result<(), AllocError>
        requires target { IsTarget (frame_view frame.now) (places_view frame.now) (line_view line) target }
        requires range { EndsBelow 4096 (line_view line) }
        requires small { IsSmall frame.now }
        ensures { OnOk result (Adds (frame_view frame.now) (places_view frame.now) self.old self.new (line_view line.entry)) }
    {
        push_some(&mut self.fails, number_named(frame.points.len(), target))?;
        push_some(&mut self.cuts, target.cut)?;
        self.headers.add(line)?;
        self.truncated = self.truncated || is_truncated(line);
        self.closed = is_end(line);
        Ok(())
    }

    // Takes a line after the title and before the closing line, by its words.
    fn take_later(
        &mut self,
        frame: &Frame<'_>,
        version: LogVersion,
        words: &[&[u8]],
    ) -> Result<Option<u32>, AllocError>
        requires { IsSmall frame.now }
        ensures rule { IfOk result (λ r. r ≡ lowest (later_rules (frame_view frame.now) version (headers_view self.old.headers) (log_line frame.now.form version (nows words.now)))) }
        ensures added { result ≡ Ok None → Adds (frame_view frame.now) (places_view frame.now) self.old self.new (log_line frame.now.form version (nows words.now)) }
    {
        let line = LogLine::of_words(frame.form, version, words);
        let target = LineTarget::of_line(frame, line);
        let rule = later_rule(frame, version, &self.headers, line, target);
        if rule.is_none() {
            self.add(frame, line, target)?;
        }
        Ok(rule)
    }

    // Takes a line whose bytes may stand in a log, by its words.
    fn take_words(&mut self, frame: &Frame<'_>, words: &[&[u8]]) -> Result<Option<u32>, AllocError>
        requires { IsSmall frame.now }
        ensures rule { IfOk result (λ r. r ≡ lowest (rules_of_words (frame_view frame.now) self.old.title self.old.closed (headers_view self.old.headers) (nows words.now))) }
        ensures taken { result ≡ Ok None → Takes (frame_view frame.now) (places_view frame.now) self.old self.new (nows words.now) }
    {
        if words.is_empty() {
            return Ok(None);
        }
        let Some(version) = self.title else {
            self.title = title_version(frame.form, words);
            return Ok(if self.title.is_none() {
                Some(rules::NO_TITLE)
            } else {
                None
            });
        };
        if self.closed {
            return Ok(Some(rules::AFTER_CLOSING_LINE));
        }
        self.take_later(frame, version, words)
    }

    // The number of the bit that a line names, if it is a plain fail line that breaks no rule.
    fn good_fail(&self, frame: &Frame<'_>, bytes: &[u8]) -> Option<u64>
        requires { IsSmall frame.now }
        ensures { IfSome result (IsGoodFail (frame_view frame.now) (places_view frame.now) self.now bytes.now) }
    {
        if self.title.is_none() {
            return None;
        }
        if self.closed {
            return None;
        }
        let fail = plain_fail(frame.form, bytes)?;
        good_number(frame, &self.headers, fail)
    }

    /// Takes a line, or answers the lowest rule that it breaks. The list is room for its words.
    pub fn take_line<'a>(
        &mut self,
        list: &mut Vec<&'a [u8]>,
        frame: &Frame<'_>,
        bytes: &'a [u8],
    ) -> Result<Option<u32>, AllocError>
        requires { IsSmall frame.now }
        ensures rule { IfOk result (λ r. r ≡ lowest (log_rules (frame_view frame.now) self.old.title self.old.closed (headers_view self.old.headers) bytes.now)) }
        ensures taken { result ≡ Ok None → Takes (frame_view frame.now) (places_view frame.now) self.old self.new (words bytes.now) }
    {
        if let Some(number) = self.good_fail(frame, bytes) {
            self.fails.push(number)?;
            self.headers.begun = true;
            return Ok(None);
        }
        fill_words(list, bytes)?;
        if has_refused_byte(bytes) {
            return Ok(Some(rules::REFUSED_LOG_BYTE));
        }
        self.take_words(frame, list)
    }
}
