//! Fail lines in their plain spelling, which almost all lines of a log have: one space between two words, and no comment.

ghost use Rattle.std.specs.Prelude.{◌≡◌, ◌≤◌, ◌<◌, ◌^◌, List, ℕ, length, take, true, Some, IfSome, codes};
ghost use Rattle.std.specs.List.{list_all};
ghost use Rattle.scan_model.specs.Words.{is_digit, is_numeral, digits_number, number_of};
ghost use Rattle.scan_model.specs.LogText.{LogLine, cell_word};
ghost use Rattle.fail_logs.specs.PlainLines.{is_plain, EndsWord, BeginsWith, IsPlainFail, IsReadAs};

use scan_model::LogForm;

/// A fail line with its numbers read.
#[derive(Clone, Copy)]
pub enum PlainFail<'a> {
    Out {
        pattern: u32,
        name: &'a [u8],
    },
    Cell {
        pattern: u32,
        chain: &'a [u8],
        position: u32,
    },
}

// Whether a byte can only stand in a word.
fn is_plain(b: u8) -> bool
    ensures { result ≡ is_plain b }
{
    b > b'#' && b <= b'~'
}

// The number of plain bytes at the front.
fn plain_len(line: &[u8]) -> usize
    ensures within { result ≤ length line.now }
    ensures plain { list_all is_plain (take result line.now) ≡ true }
{
    for (i, b) in line.iter().enumerate() {
        if !is_plain(*b) {
            return i;
        }
    }
    line.len()
}

// The number of digits at the front, at most nine, and the number that they stand for.
fn front_digits(line: &[u8]) -> (usize, u32)
    ensures within { result.0 ≤ length line.now }
    ensures digits { list_all is_digit (take result.0 line.now) ≡ true }
    ensures number { result.1 ≡ digits_number (take result.0 line.now) }
    ensures small { result.1 < 2 ^ 32 }
{
    let mut number: u32 = 0;
    for (i, b) in line.iter().enumerate() {
        let digit = b.wrapping_sub(b'0');
        if digit > 9 || number > 99_999_999 {
            return (i, number);
        }
        number = number * 10 + digit as u32;
    }
    (line.len(), number)
}

// Whether digits are a number word: some, and no needless zero.
fn is_numeral(digits: &[u8]) -> bool
    requires { list_all is_digit digits.now ≡ true }
    ensures { result ≡ is_numeral digits.now }
{
    match digits {
        [] => false,
        [_] => true,
        [first, ..] => *first != b'0',
    }
}

// What follows the space behind a word, or nothing where the line ends.
fn behind_space(rest: &[u8]) -> Option<&[u8]>
    ensures { IfSome result (λ after. EndsWord rest.now after.now) }
{
    match rest {
        [b' ', after @ ..] => Some(after),
        [] => Some(rest),
        _ => None,
    }
}

// The first word of a line, and what follows it.
fn plain_word(line: &[u8]) -> Option<(&[u8], &[u8])>
    ensures { IfSome result (λ parts. BeginsWith line.now parts.0.now parts.1.now) }
{
    let end = plain_len(line);
    if end == 0 {
        return None;
    }
    let (word, rest) = line.split_at(end);
    let after = behind_space(rest)?;
    Some((word, after))
}

// The number of the first word of a line, and what follows it.
fn plain_number(line: &[u8]) -> Option<(u32, &[u8])>
    ensures { IfSome result (λ parts. (word : List ℕ) × (number_of word ≡ Some parts.0) × BeginsWith line.now word parts.1.now) }
{
    let (end, number) = front_digits(line);
    let (word, rest) = line.split_at(end);
    if !is_numeral(word) {
        return None;
    }
    let after = behind_space(rest)?;
    Some((number, after))
}

// What follows `fail` and a space.
fn behind_fail(line: &[u8]) -> Option<&[u8]>
    ensures { IfSome result (λ after. BeginsWith line.now (codes "fail") after.now) }
{
    match line {
        [b'f', b'a', b'i', b'l', b' ', after @ ..] => Some(after),
        _ => None,
    }
}

// What follows `out` and a space.
fn behind_out(line: &[u8]) -> Option<&[u8]>
    ensures { IfSome result (λ after. BeginsWith line.now (codes "out") after.now) }
{
    match line {
        [b'o', b'u', b't', b' ', after @ ..] => Some(after),
        _ => None,
    }
}

// What follows the word before a chain's name and a space.
fn behind_cell(form: LogForm, line: &[u8]) -> Option<&[u8]>
    ensures { IfSome result (λ after. BeginsWith line.now (cell_word form) after.now) }
{
    match (form, line) {
        (LogForm::FailLog, [b'c', b'e', b'l', b'l', b' ', after @ ..]) => Some(after),
        (LogForm::CompactLog, [b'c', b'h', b'a', b'n', b' ', after @ ..]) => Some(after),
        _ => None,
    }
}

/// The fail line that a line is, if its spelling is plain.
pub fn plain_fail(form: LogForm, line: &[u8]) -> Option<PlainFail<'_>>
    ensures { IfSome result (λ fail. (l : LogLine) × IsReadAs fail l × IsPlainFail form line.now l) }
{
    let rest = behind_fail(line)?;
    let (pattern, rest) = plain_number(rest)?;
    if let Some(rest) = behind_out(rest) {
        let (name, rest) = plain_word(rest)?;
        if !rest.is_empty() {
            return None;
        }
        return Some(PlainFail::Out { pattern, name });
    }
    let rest = behind_cell(form, rest)?;
    let (chain, rest) = plain_word(rest)?;
    let (position, rest) = plain_number(rest)?;
    if !rest.is_empty() {
        return None;
    }
    Some(PlainFail::Cell {
        pattern,
        chain,
        position,
    })
}
