//! The form of a line.

ghost use Rattle.std.specs.Prelude.{◌≡◌, List, ℕ, None, Some, IfOk, IfSome, MatchOption, false};
ghost use Rattle.std.specs.Str.{str_eq_ignore_ascii_case};
ghost use Rattle.scan_model.specs.Lines.{has_refused_byte};
ghost use Rattle.scan_model.specs.NetlistLines.{no_form, listed_names, operand_names, definition_of, port_of, form_of_tokens, form_of};
ghost use Rattle.text_parts.specs.Views.{nows};
ghost use Rattle.bench_lines.specs.Parts.{line_tokens, is_over, IsListed};

use crate::driver::driver_named;
use crate::parts::{behind_sign, comment_alone, front_name};
use scan_model::Driver;
use std::alloc::AllocError;

/// What a line is, but for its operands.
#[derive(Clone, Copy)]
pub enum Kind<'a> {
    Nothing,
    Input(&'a [u8]),
    Output(&'a [u8]),
    // The driver is what the word names, looked up once.
    Definition {
        net: &'a [u8],
        word: &'a [u8],
        driver: Option<Driver>,
    },
    NoForm,
}

// Puts the names of `name , name , .. )` in place of what the list has, and answers the comment behind; nothing where
// something else is left.
fn listed<'a>(names: &mut Vec<&'a [u8]>, line: &'a [u8]) -> Result<Option<&'a [u8]>, AllocError>
    ensures { IfOk result (λ found. MatchOption found (listed_names (line_tokens line.now) ≡ None) (λ comment. IsListed line.now (listed_names (line_tokens line.now)) (nows names.new.items) comment.now)) }
{
    names.clear();
    let mut rest = line;
    while let Some((name, after)) = front_name(rest) {
        names.push(name)?;
        if let Some(behind) = behind_sign(b')', after) {
            return Ok(comment_alone(behind));
        }
        let Some(more) = behind_sign(b',', after) else {
            return Ok(None);
        };
        rest = more;
    }
    Ok(None)
}

// Puts the operands of a definition, `name , name , .. )` or `)` alone, in place of what the list has, and answers the
// comment behind; nothing where something else is left.
fn operands<'a>(names: &mut Vec<&'a [u8]>, line: &'a [u8]) -> Result<Option<&'a [u8]>, AllocError>
    ensures { IfOk result (λ found. MatchOption found (operand_names (line_tokens line.now) ≡ None) (λ comment. IsListed line.now (operand_names (line_tokens line.now)) (nows names.new.items) comment.now)) }
{
    if let Some(comment) = listed(names, line)? {
        return Ok(Some(comment));
    }
    let Some(behind) = behind_sign(b')', line) else {
        return Ok(None);
    };
    names.clear();
    Ok(comment_alone(behind))
}

impl<'a> Kind<'a> {
    ghost use Rattle.bench_lines.specs.Lines.{kind_view, HasItsDriver};

    // What `name =` with what follows it is, and the comment behind; nothing where it is of no form.
    fn of_definition(
        names: &mut Vec<&'a [u8]>,
        net: &'a [u8],
        line: &'a [u8],
    ) -> Result<Option<(Self, &'a [u8])>, AllocError>
        ensures form { IfOk result (λ found. MatchOption found (definition_of net.now (line_tokens line.now) ≡ no_form) (λ f. kind_view (nows names.new.items) f.0 ≡ definition_of net.now (line_tokens line.now))) }
        ensures driver { IfOk result (λ found. IfSome found (λ f. HasItsDriver f.0)) }
        ensures comment { IfOk result (λ found. IfSome found (λ f. has_refused_byte f.1.now ≡ has_refused_byte line.now)) }
    {
        let Some((word, rest)) = front_name(line) else {
            return Ok(None);
        };
        let Some(rest) = behind_sign(b'(', rest) else {
            return Ok(None);
        };
        let Some(comment) = operands(names, rest)? else {
            return Ok(None);
        };
        let driver = driver_named(word);
        Ok(Some((Kind::Definition { net, word, driver }, comment)))
    }

    // What `word (` with what follows it is, and the comment behind; nothing where it is of no form.
    fn of_port(word: &[u8], line: &'a [u8]) -> Option<(Self, &'a [u8])>
        ensures form { (names : List (List ℕ)) → MatchOption result (port_of word.now (line_tokens line.now) ≡ no_form) (λ f. kind_view names f.0 ≡ port_of word.now (line_tokens line.now)) }
        ensures driver { IfSome result (λ f. HasItsDriver f.0) }
        ensures comment { IfSome result (λ f. has_refused_byte f.1.now ≡ has_refused_byte line.now) }
    {
        let (net, rest) = front_name(line)?;
        let rest = behind_sign(b')', rest)?;
        let comment = comment_alone(rest)?;
        if word.eq_ignore_ascii_case(b"INPUT") {
            return Some((Kind::Input(net), comment));
        }
        if word.eq_ignore_ascii_case(b"OUTPUT") {
            return Some((Kind::Output(net), comment));
        }
        None
    }

    // What a line with a name at its front is, and its comment; nothing where it is of no form.
    fn of_named(
        names: &mut Vec<&'a [u8]>,
        line: &'a [u8],
    ) -> Result<Option<(Self, &'a [u8])>, AllocError>
        ensures form { IfOk result (λ found. MatchOption found (is_over (line_tokens line.now) ≡ false → form_of line.now ≡ no_form) (λ f. kind_view (nows names.new.items) f.0 ≡ form_of line.now)) }
        ensures driver { IfOk result (λ found. IfSome found (λ f. HasItsDriver f.0)) }
        ensures comment { IfOk result (λ found. IfSome found (λ f. has_refused_byte f.1.now ≡ has_refused_byte line.now)) }
    {
        let Some((name, rest)) = front_name(line) else {
            return Ok(None);
        };
        if let Some(rest) = behind_sign(b'=', rest) {
            return Kind::of_definition(names, name, rest);
        }
        if let Some(rest) = behind_sign(b'(', rest) {
            return Ok(Kind::of_port(name, rest));
        }
        Ok(None)
    }

    /// What a line is, and its comment, which in a line of no form is the whole line. The operands of a definition take
    /// the place of those found before.
    pub fn of_line(
        names: &mut Vec<&'a [u8]>,
        line: &'a [u8],
    ) -> Result<(Self, &'a [u8]), AllocError>
        ensures form { IfOk result (λ f. kind_view (nows names.new.items) f.0 ≡ form_of line.now) }
        ensures driver { IfOk result (λ f. HasItsDriver f.0) }
        ensures comment { IfOk result (λ f. has_refused_byte f.1.now ≡ has_refused_byte line.now) }
    {
        if let Some(found) = Kind::of_named(names, line)? {
            return Ok(found);
        }
        match comment_alone(line) {
            Some(comment) => Ok((Kind::Nothing, comment)),
            None => Ok((Kind::NoForm, line)),
        }
    }
}
