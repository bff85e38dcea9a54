//! The words of a line, and which words are names.

ghost use Rattle.std.specs.Prelude.{◌≡◌, [], ◌≤◌, length, false, IfOk, OnOk, MatchOption};
ghost use Rattle.std.specs.List.{list_all, position_or_len};
ghost use Rattle.scan_model.specs.Lines.{is_blank};
ghost use Rattle.scan_model.specs.Words.{words, is_name_byte, is_short_name};
ghost use Rattle.text_parts.specs.FirstWord.{is_word_end, begins_blank, IsFirstWord};
ghost use Rattle.text_parts.specs.Views.{nows};

use memchr::memchr3;
use std::alloc::{AllocError, Global};

pub fn is_blank(b: u8) -> bool
    ensures { result ≡ is_blank b }
{
    b == b' ' || b == b'\t'
}

// The line from its first byte that is no blank.
fn without_blanks(line: &[u8]) -> &[u8]
    ensures same { words result.now ≡ words line.now }
    ensures first { begins_blank result.now ≡ false }
    ensures within { length result.now ≤ length line.now }
{
    let mut rest = line;
    while let [first, after @ ..] = rest {
        if !is_blank(*first) {
            return rest;
        }
        rest = after;
    }
    rest
}

// The place of the first byte that ends a word, or else the number of bytes.
fn word_end(line: &[u8]) -> usize
    ensures place { result ≡ position_or_len is_word_end line.now }
    ensures within { result ≤ length line.now }
{
    memchr3(b' ', b'\t', b'#', line).unwrap_or(line.len())
}

// The first word of a line, and what follows it.
fn first_word(line: &[u8]) -> Option<(&[u8], &[u8])>
    ensures { MatchOption result (words line.now ≡ []) (λ parts. IsFirstWord line.now parts.0.now parts.1.now) }
{
    let rest = without_blanks(line);
    let end = word_end(rest);
    if end == 0 {
        return None;
    }
    Some(rest.split_at(end))
}

/// Puts the words of a line in place of what the list has. Where memory runs out, the list has some of them.
pub fn fill_words<'a>(list: &mut Vec<&'a [u8]>, line: &'a [u8]) -> Result<(), AllocError>
    ensures { OnOk result (nows list.new.items ≡ words line.now) }
{
    list.clear();
    let mut rest = line;
    while let Some((word, after)) = first_word(rest) {
        list.push(word)?;
        rest = after;
    }
    Ok(())
}

/// The words of a line.
pub fn words_of(alloc: Global, line: &[u8]) -> Result<Vec<&[u8]>, AllocError>
    ensures { IfOk result (λ v. nows v.items ≡ words line.now) }
{
    let mut list = Vec::new(alloc);
    fill_words(&mut list, line)?;
    Ok(list)
}

/// Whether a byte may stand in a name: a printable one, but no blank and none of `"`, `#`, `%`, `(`, `)`, `,` and `=`.
pub fn is_name_byte(b: u8) -> bool
    ensures { result ≡ is_name_byte b }
{
    // Most bytes of names are letters or digits: the first two comparisons tell them.
    if b >= b'>' {
        return b <= b'~';
    }
    if b >= b'-' {
        return b != b'=';
    }
    matches!(b, b'*' | b'+' | b'&' | b'\'' | b'$' | b'!')
}

fn is_name(word: &[u8]) -> bool
    ensures { result ≡ list_all is_name_byte word.now }
{
    word.iter().all(|b| is_name_byte(*b))
}

/// Whether a word is a name of at most 64 bytes.
pub fn is_short_name(word: &[u8]) -> bool
    ensures { result ≡ is_short_name word.now }
{
    is_name(word) && word.len() <= 64
}
