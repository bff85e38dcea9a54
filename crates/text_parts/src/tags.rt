//! Tags.
ghost use Rattle.std.specs.Prelude.{◌≡◌};
ghost use Rattle.std.specs.List.{list_all};
ghost use Rattle.scan_model.specs.Words.{is_letter, is_tag_byte, is_tag};

use crate::numbers::is_digit;

fn is_letter(byte: u8) -> bool
    ensures { result ≡ is_letter byte }
{
    matches!(byte, b'A'..=b'Z' | b'a'..=b'z')
}

fn is_tag_byte(byte: u8) -> bool
    ensures { result ≡ is_tag_byte byte }
{
    is_letter(byte) || is_digit(byte) || matches!(byte, b'_' | b'-' | b'.')
}

fn are_tag_bytes(bytes: &[u8]) -> bool
    ensures { result ≡ list_all is_tag_byte bytes.now }
{
    bytes.iter().all(|&byte| is_tag_byte(byte))
}

/// Whether the bytes are a tag: 1 to 64 of letters, digits, `_`, `-` and `.`, of which the first is a letter or a digit.
pub fn is_tag(word: &[u8]) -> bool
    ensures { result ≡ is_tag word.now }
{
    let [first, rest @ ..] = word else {
        return false;
    };
    if !(is_letter(*first) || is_digit(*first)) {
        return false;
    }
    are_tag_bytes(rest) && rest.len() < 64
}
