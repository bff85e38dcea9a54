//! The fields of a head.
ghost use Rattle.std.specs.Prelude.{◌≡◌, ◌≤◌, ◌<◌, ◌==◌, ◌&&◌, [], ◌∷◌, length, map, codes, nat_lt, slice_get, All, IfSome, MatchOption};
ghost use Rattle.std.specs.List.{list_all, list_any};
ghost use Rattle.std.specs.Option.{option_map};
ghost use Rattle.std.specs.Str.{bytes_eq, str_eq_ignore_ascii_case};
ghost use Rattle.httparse.specs.Spans.{header_bytes, IsHeaderWithin};
ghost use Rattle.desk_heads.specs.Heads.{is_length, are_alike, body_length, body_limit, names_close};
ghost use Rattle.desk_heads.specs.Fields.{named, content_lengths};

use crate::head::values::{is_length, is_same_word, names_close, number_within_limit};
use httparse::spans::HeaderSpan;
use std::marker::Model;

// Names of fields (RFC 9110, sections 7.6.1, 8.6 and 10.1.1, and RFC 9112, section 6.1).
const CONNECTION: &[u8] = b"Connection";

pub(crate) const CONTENT_LENGTH: &[u8] = b"Content-Length";

const EXPECT: &[u8] = b"Expect";

pub(crate) const TRANSFER_ENCODING: &[u8] = b"Transfer-Encoding";

/// The fields of a head: its bytes, and where in them the names and the values stand.
#[derive(Drop)]
pub(crate) struct Fields<'a> {
    head: &'a [u8],
    spans: &'a [HeaderSpan],
}

impl<'a> Model for Fields<'a> {
    ghost use Rattle.std.specs.Prelude.{ℕ, List, map, length, All};
    ghost use Rattle.httparse.specs.Spans.{header_bytes, IsHeaderWithin};

    ghost Value = { List (List ℕ × List ℕ) };

    ghost view = { λ f. map (header_bytes f.head.now) f.spans.now };

    ghost invariant = { λ f. All (IsHeaderWithin (length f.head.now)) f.spans.now };
}

// The value of a field, if the field has this name.
fn value_if_named<'a>(head: &'a [u8], span: HeaderSpan, name: &[u8]) -> Option<&'a [u8]>
    requires { IsHeaderWithin (length head.now) span }
    ensures { option_map (λ v. v.now) result ≡ slice_get (named name.now (header_bytes head.now span ∷ [])) 0 }
{
    if is_same_word(span.name.of(head), name) {
        Some(span.value.of(head))
    } else {
        None
    }
}

impl<'a> Fields<'a> {
    /// The fields that these spans mark.
    pub(crate) fn of(head: &'a [u8], spans: &'a [HeaderSpan]) -> Self
        requires { All (IsHeaderWithin (length head.now)) spans.now }
        ensures { result ≡ map (header_bytes head.now) spans.now }
    {
        Fields { head, spans }
    }

    /// The value of the first field of this name.
    pub(crate) fn first(&self, name: &[u8]) -> Option<&'a [u8]>
        ensures { option_map (λ v. v.now) result ≡ slice_get (named name.now self.now) 0 }
    {
        for span in self.spans {
            if let Some(value) = value_if_named(self.head, *span, name) {
                return Some(value);
            }
        }
        None
    }

    /// Whether there is a field of this name.
    pub(crate) fn has(&self, name: &[u8]) -> bool
        ensures { result ≡ nat_lt 0 (length (named name.now self.now)) }
    {
        self.first(name).is_some()
    }

    // Whether each value of the fields of this name is that one.
    fn are_all(&self, name: &[u8], value: &[u8]) -> bool
        ensures { result ≡ list_all (bytes_eq value.now) (named name.now self.now) }
    {
        for span in self.spans {
            if let Some(other) = value_if_named(self.head, *span, name) {
                if value != other {
                    return false;
                }
            }
        }
        true
    }

    /// Whether each Content-Length is one digit or more and nothing else, and no two differ.
    pub(crate) fn has_right_lengths(&self) -> bool
        ensures { result ≡ (list_all is_length (content_lengths self.now) && are_alike (content_lengths self.now)) }
    {
        let Some(length) = self.first(CONTENT_LENGTH) else {
            return true;
        };
        is_length(length) && self.are_all(CONTENT_LENGTH, length)
    }

    /// Whether a Connection field names `close`.
    pub(crate) fn has_close(&self) -> bool
        ensures { result ≡ list_any names_close (named (codes "Connection") self.now) }
    {
        for span in self.spans {
            if let Some(value) = value_if_named(self.head, *span, CONNECTION) {
                if names_close(value) {
                    return true;
                }
            }
        }
        false
    }

    /// Whether the value of an Expect field is `100-continue`.
    pub(crate) fn expects_interim(&self) -> bool
        ensures { result ≡ list_any (λ value. str_eq_ignore_ascii_case value (codes "100-continue")) (named (codes "Expect") self.now) }
    {
        for span in self.spans {
            if let Some(value) = value_if_named(self.head, *span, EXPECT) {
                if is_same_word(value, b"100-continue") {
                    return true;
                }
            }
        }
        false
    }

    /// The length of the body, where it isn't above the longest: the number of the first Content-Length, or 0.
    pub(crate) fn body_length(&self) -> Option<usize>
        ensures length { MatchOption result (body_limit < body_length (content_lengths self.now)) (λ n. n ≡ body_length (content_lengths self.now)) }
        ensures within { IfSome result (λ n. n ≤ body_limit) }
    {
        match self.first(CONTENT_LENGTH) {
            Some(digits) => number_within_limit(digits),
            None => Some(0),
        }
    }
}
