//! A report, and its pages of a hundred lines.
ghost use Rattle.std.specs.Prelude.{◌≡◌, ◌<◌, ◌≤◌, ◌+◌, ◌-◌, ◌*◌, ◌↔◌, List, ℕ, length, take, drop, map, slice_index, IsOk, IfOk, IfErr};
ghost use Rattle.std.specs.List.{range_with_len};
ghost use Rattle.scan_model.specs.ReportText as text_of;
ghost use Rattle.report_lines.specs.LineEnds.{HasLines};

use report_lines::Draft;
use scan_model::{Name, Rows};
use std::marker::Model;

/// The lines of a page.
const PAGE_LINES: usize = 100;

/// A page was asked for that begins at no line of the report.
#[derive(Clone, Copy, PartialEq, Eq)]
pub struct PastEnd {
    /// The number of lines.
    pub lines: u64,
}

/// The report of a die. Contracts see its lines, each with its LF.
#[derive(Drop)]
pub struct Report {
    text: Name,
    ends: Rows<usize>,
}

impl Model for Report {
    ghost use Rattle.std.specs.Prelude.{List, ℕ};
    ghost use Rattle.report_lines.specs.LineEnds.{cut_at, HasLines};

    ghost Value = { List (List ℕ) };

    ghost view = { λ r. cut_at 0 r.ends r.text };

    ghost invariant = { λ r. HasLines (cut_at 0 r.ends r.text) r.text r.ends };
}

/// The report whose lines are written.
pub(crate) fn finished(draft: Draft) -> Report
    requires { (lines : List (List ℕ)) × HasLines lines draft.text draft.ends }
    ensures { (lines : List (List ℕ)) → HasLines lines draft.text draft.ends → result ≡ lines }
{
    let Draft { text, ends } = draft;
    Report { text, ends }
}

impl Report {
    /// The whole text.
    pub fn bytes(&self) -> &[u8]
        ensures { result.now ≡ text_of.concatenated self.now }
    {
        self.text.as_slice()
    }

    /// The whole text, given away.
    pub fn into_text(self) -> Name
        ensures { result ≡ text_of.concatenated self }
    {
        let Report { text, .. } = self;
        text
    }

    /// The number of lines.
    pub fn lines(&self) -> u64
        ensures { result ≡ length self.now }
    {
        self.ends.len() as u64
    }

    /// The place behind the first lines.
    fn end_of(&self, lines: usize) -> usize
        requires { lines ≤ length self.now }
        ensures { result ≡ length (text_of.concatenated (take lines self.now)) }
    {
        end_behind(self.ends.as_slice(), lines)
    }

    /// The hundred lines from line number `from` on, counted from 1, or those that are left. An error where there is
    /// no such line.
    pub fn page(&self, from: u64) -> Result<&[u8], PastEnd>
        ensures page { IfOk result (λ bytes. bytes.now ≡ text_of.page_of self.now from) }
        ensures there { IsOk result ↔ ((1 ≤ from) × (from ≤ length self.now)) }
        ensures past { IfErr result (λ past. past.lines ≡ length self.now) }
    {
        let lines = self.lines();
        if from == 0 || from > lines {
            return Err(PastEnd { lines });
        }
        let before = from as usize - 1;
        let count = PAGE_LINES.min(lines as usize - before);
        let start = self.end_of(before);
        let end = self.end_of(before + count);
        Ok(piece(self.text.as_slice(), start, end))
    }

    /// The number of pages. Those from lines 1, 101, 201 and so on, laid end to end, are the whole text.
    pub fn pages(&self) -> u64
        ensures whole { text_of.concatenated (map (λ k. text_of.page_of self.now (100 * k + 1)) (range_with_len 0 result)) ≡ text_of.concatenated self.now }
        ensures none_empty { 100 * result < length self.now + 100 }
    {
        let lines = self.lines();
        if lines % 100 == 0 {
            lines / 100
        } else {
            lines / 100 + 1
        }
    }
}

fn piece(text: &[u8], start: usize, end: usize) -> &[u8]
    requires start { start ≤ end }
    requires end { end ≤ length text.now }
    ensures { result.now ≡ take (end - start) (drop start text.now) }
{
    &text[start..end]
}

/// The place behind the first lines, from the places behind each.
fn end_behind(ends: &[usize], lines: usize) -> usize
    requires { lines ≤ length ends.now }
    ensures none { lines ≡ 0 → result ≡ 0 }
    ensures some { 0 < lines → result ≡ slice_index ends.now (lines - 1) }
{
    if lines == 0 { 0 } else { ends[lines - 1] }
}
