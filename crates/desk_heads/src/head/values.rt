//! Tests of the texts in a head.
ghost use Rattle.std.specs.Prelude.{◌≡◌, ◌<◌, ◌≤◌, ◌==◌, ◌||◌, ◌&&◌, length, codes, nat_lt, reverse, MatchOption, IfSome, IsAscii};
ghost use Rattle.std.specs.Bool.{OnTrue};
ghost use Rattle.std.specs.List.{list_all, list_any};
ghost use Rattle.std.specs.Str.{str_eq_ignore_ascii_case};
ghost use Rattle.httparse.specs.Grammar.{skip_ows, trim_ows};
ghost use Rattle.scan_model.specs.Words.{is_digit, is_tag_byte, digits_number};
ghost use Rattle.desk_heads.specs.Heads.{is_length, is_target, names_close, method_of, body_limit};

use crate::head::method::Method;

/// The longest body, in bytes.
pub(crate) const BODY_LIMIT: usize = 16_777_216;

/// Whether two texts are equal but for the case of their ASCII letters.
pub(crate) fn is_same_word(word: &[u8], other: &[u8]) -> bool
    ensures { result ≡ str_eq_ignore_ascii_case word.now other.now }
{
    word.eq_ignore_ascii_case(other)
}

// The bytes from the first that is no space and no tab.
fn without_front_blanks(bytes: &[u8]) -> &[u8]
    ensures { result.now ≡ skip_ows bytes.now }
{
    let mut rest = bytes;
    while let [b' ' | b'\t', after @ ..] = rest {
        rest = after;
    }
    rest
}

// The bytes up to the last that is no space and no tab.
fn without_back_blanks(bytes: &[u8]) -> &[u8]
    ensures { result.now ≡ reverse (skip_ows (reverse bytes.now)) }
{
    let mut rest = bytes;
    while let [before @ .., b' ' | b'\t'] = rest {
        rest = before;
    }
    rest
}

// The bytes without the spaces and tabs at both ends.
fn trimmed(bytes: &[u8]) -> &[u8]
    ensures { result.now ≡ trim_ows bytes.now }
{
    without_back_blanks(without_front_blanks(bytes))
}

/// Whether a value, a list with commas, has the element `close`.
pub(crate) fn names_close(value: &[u8]) -> bool
    ensures { result ≡ names_close value.now }
{
    value
        .split(|byte| *byte == b',')
        .any(|part| is_same_word(trimmed(part), b"close"))
}

fn is_digit(byte: u8) -> bool
    ensures { result ≡ is_digit byte }
{
    byte.is_ascii_digit()
}

fn are_digits(bytes: &[u8]) -> bool
    ensures { result ≡ list_all is_digit bytes.now }
{
    bytes.iter().all(|byte| is_digit(*byte))
}

/// Whether a value is one digit or more and nothing else.
pub(crate) fn is_length(value: &[u8]) -> bool
    ensures { result ≡ is_length value.now }
{
    !value.is_empty() && are_digits(value)
}

/// The number that digits stand for, where it isn't above the longest body.
pub(crate) fn number_within_limit(digits: &[u8]) -> Option<usize>
    ensures number { MatchOption result (body_limit < digits_number digits.now) (λ n. n ≡ digits_number digits.now) }
    ensures within { IfSome result (λ n. n ≤ body_limit) }
{
    let mut number = 0;
    for digit in digits {
        number = number * 10 + usize::from(digit.saturating_sub(b'0'));
        if number > BODY_LIMIT {
            return None;
        }
    }
    Some(number)
}

fn is_target_byte(byte: u8) -> bool
    ensures { result ≡ is_tag_byte byte || (byte == 47) }
{
    byte.is_ascii_alphanumeric() || matches!(byte, b'_' | b'-' | b'.' | b'/')
}

fn are_target_bytes(bytes: &[u8]) -> bool
    ensures { result ≡ list_all (λ b. is_tag_byte b || (b == 47)) bytes.now }
{
    bytes.iter().all(|byte| is_target_byte(*byte))
}

/// Whether a target is `/`, and then letters, digits, `_`, `-`, `.` and `/`.
pub(crate) fn is_target(target: &[u8]) -> bool
    ensures test { result ≡ is_target target.now }
    ensures ascii { OnTrue result (IsAscii target.now) }
{
    match target {
        [b'/', rest @ ..] => are_target_bytes(rest),
        _ => false,
    }
}

/// The method of this name.
pub(crate) fn method_of(name: &[u8]) -> Method
    ensures { result ≡ method_of name.now }
{
    match name {
        b"GET" => Method::Get,
        b"PUT" => Method::Put,
        b"POST" => Method::Post,
        b"HEAD" => Method::Head,
        _ => Method::Other,
    }
}
