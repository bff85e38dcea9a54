//! The form of a log's line.

ghost use Rattle.std.specs.Prelude.{◌≡◌};
ghost use Rattle.std.specs.Str.{bytes_eq};
ghost use Rattle.scan_model.specs.LogText.{one_word, is_cut_word, two_words, three_words, four_words, cell_word, five_words, log_line};
ghost use Rattle.text_parts.specs.Views.{nows};

use scan_model::{LogForm, LogVersion};

/// A line with words, after the title.
#[derive(Clone, Copy)]
pub enum LogLine<'a> {
    /// The die's name.
    Die(&'a [u8]),
    /// The design's name.
    Design(&'a [u8]),
    /// The first and the last pattern of a tested range.
    Tested(&'a [u8], &'a [u8]),
    /// A fail: its pattern and its output.
    Out(&'a [u8], &'a [u8]),
    /// A fail: its pattern, its chain and its position.
    Cell(&'a [u8], &'a [u8], &'a [u8]),
    /// The outputs are cut on their own.
    CutOutputs,
    /// A chain is cut on its own.
    CutChain(&'a [u8]),
    End,
    Truncated,
    /// A line of no form.
    Other,
}

// `cut` is known in version 2 alone.
fn is_cut_word(version: LogVersion, word: &[u8]) -> bool
    ensures { result ≡ is_cut_word version word.now }
{
    match version {
        LogVersion::First => false,
        LogVersion::Second => word == b"cut".as_slice(),
    }
}

// What stands before a chain's name in a fail line.
fn is_cell_word(form: LogForm, word: &[u8]) -> bool
    ensures { result ≡ bytes_eq word.now (cell_word form) }
{
    match form {
        LogForm::FailLog => word == b"cell".as_slice(),
        LogForm::CompactLog => word == b"chan".as_slice(),
    }
}

impl<'a> LogLine<'a> {
    ghost use Rattle.fail_logs.specs.LogViews.{line_view};

    fn of_one(word: &'a [u8]) -> Self
        ensures { line_view result ≡ one_word word.now }
    {
        if word == b"end".as_slice() {
            return LogLine::End;
        }
        if word == b"truncated".as_slice() {
            return LogLine::Truncated;
        }
        LogLine::Other
    }

    fn of_two(version: LogVersion, word: &'a [u8], name: &'a [u8]) -> Self
        ensures { line_view result ≡ two_words version word.now name.now }
    {
        if word == b"die".as_slice() {
            return LogLine::Die(name);
        }
        if word == b"design".as_slice() {
            return LogLine::Design(name);
        }
        if is_cut_word(version, word) && name == b"out".as_slice() {
            return LogLine::CutOutputs;
        }
        LogLine::Other
    }

    fn of_three(version: LogVersion, word: &'a [u8], first: &'a [u8], last: &'a [u8]) -> Self
        ensures { line_view result ≡ three_words version word.now first.now last.now }
    {
        if word == b"tested".as_slice() {
            return LogLine::Tested(first, last);
        }
        if is_cut_word(version, word) && first == b"chain".as_slice() {
            return LogLine::CutChain(last);
        }
        LogLine::Other
    }

    fn of_four(word: &'a [u8], pattern: &'a [u8], kind: &'a [u8], name: &'a [u8]) -> Self
        ensures { line_view result ≡ four_words word.now pattern.now kind.now name.now }
    {
        if word != b"fail".as_slice() {
            return LogLine::Other;
        }
        if kind != b"out".as_slice() {
            return LogLine::Other;
        }
        LogLine::Out(pattern, name)
    }

    fn of_five(
        form: LogForm,
        word: &'a [u8],
        pattern: &'a [u8],
        kind: &'a [u8],
        chain: &'a [u8],
        position: &'a [u8],
    ) -> Self
        ensures { line_view result ≡ five_words form word.now pattern.now kind.now chain.now position.now }
    {
        if word != b"fail".as_slice() {
            return LogLine::Other;
        }
        if !is_cell_word(form, kind) {
            return LogLine::Other;
        }
        LogLine::Cell(pattern, chain, position)
    }

    /// The form of a line, by its words.
    pub fn of_words(form: LogForm, version: LogVersion, words: &[&'a [u8]]) -> Self
        ensures { line_view result ≡ log_line form version (nows words.now) }
    {
        match words {
            [word] => LogLine::of_one(*word),
            [word, name] => LogLine::of_two(version, *word, *name),
            [word, first, last] => LogLine::of_three(version, *word, *first, *last),
            [word, pattern, kind, name] => LogLine::of_four(*word, *pattern, *kind, *name),
            [word, pattern, kind, chain, position] => {
                LogLine::of_five(form, *word, *pattern, *kind, *chain, *position)
            }
            _ => LogLine::Other,
        }
    }
}
