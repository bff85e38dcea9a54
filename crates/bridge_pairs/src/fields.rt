//! The fields of a record: two names of nets, or the header.

ghost use Rattle.std.specs.Prelude.{◌≡◌, map, option_map};
ghost use Rattle.csv.specs.Records.{fields_of};
ghost use Rattle.bridge_pairs.specs.PairText.{after_blanks, trimmed, two_names, is_header};
ghost use Rattle.std.specs.Prelude.{reverse};

use csv::ByteRecord;
use text_parts::is_blank;

/// The two names of a record.
#[derive(Clone, Copy)]
pub struct NetNames<'a> {
    pub a: &'a [u8],
    pub b: &'a [u8],
}

fn without_leading_blanks(field: &[u8]) -> &[u8]
    ensures { result.now ≡ after_blanks field.now }
{
    let mut rest = field;
    while let [first, after @ ..] = rest {
        if !is_blank(*first) {
            return rest;
        }
        rest = after;
    }
    rest
}

fn without_trailing_blanks(field: &[u8]) -> &[u8]
    ensures { result.now ≡ reverse (after_blanks (reverse field.now)) }
{
    let mut rest = field;
    while let [before @ .., last] = rest {
        if !is_blank(*last) {
            return rest;
        }
        rest = before;
    }
    rest
}

fn trim(field: &[u8]) -> &[u8]
    ensures { result.now ≡ trimmed field.now }
{
    without_trailing_blanks(without_leading_blanks(field))
}

impl<'a> NetNames<'a> {
    ghost use Rattle.bridge_pairs.specs.FieldViews.{names_view};

    /// The names of a record, if it has two fields.
    pub fn of_record(row: &'a ByteRecord) -> Option<Self>
        ensures { option_map names_view result ≡ two_names (map trimmed (fields_of row.now)) }
    {
        if row.len() != 2 {
            return None;
        }
        let a = row.get(0)?;
        let b = row.get(1)?;
        Some(NetNames {
            a: trim(a),
            b: trim(b),
        })
    }
}

/// Whether a record is the header.
pub fn is_header(row: &ByteRecord) -> bool
    ensures { result ≡ is_header (two_names (map trimmed (fields_of row.now))) }
{
    match NetNames::of_record(row) {
        Some(names) => names.a == b"net_a".as_slice() && names.b == b"net_b".as_slice(),
        None => false,
    }
}
