//! Number words of a log's lines.
ghost use Rattle.std.specs.Prelude.{◌≡◌};
ghost use Rattle.scan_model.specs.LogText.{is_number, number};

use text_parts::number_of;

/// Whether a word is a number word.
pub fn is_number(word: &[u8]) -> bool
    ensures { result ≡ is_number word.now }
{
    number_of(word).is_some()
}

/// The number of a number word, and 0 for any other word.
pub fn number(word: &[u8]) -> u32
    ensures { result ≡ number word.now }
{
    number_of(word).unwrap_or(0)
}
