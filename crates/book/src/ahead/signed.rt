//! What is seen of a die in answers of a keeper.
use super::asking::Answer;
use desk_outside::DeedKind;

/// A die at a revision, of which a row signs the report.
#[derive(Clone, Copy)]
pub(super) struct Signed<'a> {
    pub(super) design: &'a [u8],
    pub(super) die: &'a [u8],
    pub(super) revision: u64,
}

// What was done in a row, where there is one.
fn done_in(answer: &Answer) -> Option<&DeedKind> {
    match answer {
        Ok(Some(deed)) => Some(&deed.what),
        Ok(None) | Err(_) => None,
    }
}

/// The die that the row signs.
pub(super) fn signed_in(answer: &Answer) -> Option<Signed<'_>> {
    match done_in(answer)? {
        DeedKind::Sign {
            design,
            die,
            revision,
            ..
        } => Some(Signed {
            design: design.as_slice(),
            die: die.as_slice(),
            revision: *revision,
        }),
        _ => None,
    }
}

impl<'a> Signed<'a> {
    fn is_of(&self, design: &[u8], die: &[u8]) -> bool {
        self.die == die && self.design == design
    }

    /// Whether the row signs the same report.
    pub(super) fn is_signed_in(&self, answer: &Answer) -> bool {
        match signed_in(answer) {
            Some(other) => self.revision == other.revision && self.is_of(other.design, other.die),
            None => false,
        }
    }

    /// The text of a log of this die, where the row puts one.
    pub(super) fn text_in<'b>(&self, answer: &'b Answer) -> Option<&'b [u8]> {
        match done_in(answer)? {
            DeedKind::Log { design, die, text } if self.is_of(design.as_slice(), die.as_slice()) =>
                { Some(text.as_slice()) }
            _ => None,
        }
    }
}
