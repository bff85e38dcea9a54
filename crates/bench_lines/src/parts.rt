//! The parts of a line: its names and signs, taken from its front one after another.

ghost use Rattle.std.specs.Prelude.{◌≡◌, ◌≤◌, length, true, false, MatchOption};
ghost use Rattle.scan_model.specs.Lines.{has_refused_byte};
ghost use Rattle.scan_model.specs.Words.{is_sign};
ghost use Rattle.scan_model.specs.NetlistLines.{name, sign_of};
ghost use Rattle.text_parts.specs.FirstWord.{begins_blank};
ghost use Rattle.bench_lines.specs.Parts.{line_tokens, begins_name, begins_sign, is_over, IsFirst, IsOver};

use crate::name_bytes::name_len;
use text_parts::is_blank;

// The line from its first byte that is no blank.
#[inline(always)]
fn without_blanks(line: &[u8]) -> &[u8]
    ensures same { line_tokens result.now ≡ line_tokens line.now }
    ensures refused { has_refused_byte result.now ≡ has_refused_byte line.now }
    ensures first { begins_blank result.now ≡ false }
    ensures within { length result.now ≤ length line.now }
{
    let mut rest = line;
    while let [first, after @ ..] = rest {
        // Most bytes are above the blanks: one comparison tells them.
        if *first > b' ' || !is_blank(*first) {
            return rest;
        }
        rest = after;
    }
    rest
}

/// The name at the front, and what follows it.
#[inline(always)]
pub fn front_name(line: &[u8]) -> Option<(&[u8], &[u8])>
    ensures { MatchOption result (begins_name (line_tokens line.now) ≡ false) (λ parts. IsFirst line.now (name parts.0.now) parts.1.now) }
{
    let rest = without_blanks(line);
    let len = name_len(rest);
    if len == 0 {
        return None;
    }
    Some(rest.split_at(len))
}

/// What follows this sign, if it is at the front.
#[inline(always)]
pub fn behind_sign(sign: u8, line: &[u8]) -> Option<&[u8]>
    requires { is_sign sign ≡ true }
    ensures { MatchOption result (begins_sign sign (line_tokens line.now) ≡ false) (λ after. IsFirst line.now (sign_of sign) after.now) }
{
    let rest = without_blanks(line);
    let [first, after @ ..] = rest else {
        return None;
    };
    if *first != sign {
        return None;
    }
    Some(after)
}

/// What is left, if it is nothing but a comment.
#[inline(always)]
pub fn comment_alone(line: &[u8]) -> Option<&[u8]>
    ensures { MatchOption result (is_over (line_tokens line.now) ≡ false) (λ comment. IsOver line.now comment.now) }
{
    let rest = without_blanks(line);
    let [first, ..] = rest else {
        return Some(rest);
    };
    if *first != b'#' {
        return None;
    }
    Some(rest)
}
