//! The book, and its changes.
ghost use Rattle.std.specs.Prelude.{◌≡◌, ◌≤◌, ◌<◌, length, true, OnOk, IfOk, IfErr, IfSome};
ghost use Rattle.std.specs.Str.{bytes_eq};
ghost use Rattle.std.specs.Arc.{arc_value};
ghost use Rattle.sha2.specs.Sha256.{sha256};
ghost use Rattle.scan_model.specs.Words.{is_tag};
ghost use Rattle.book.specs.declared.answers.PutFault.{PutFault};
ghost use Rattle.diagnosis.specs.Designs.{view_report};
ghost use Rattle.die_entries.specs.Entries.{is_signed_by, put_where};
ghost use Rattle.book.specs.Deeds.{die_logs, die_signs};
ghost use Rattle.book.specs.ChangeParts.{beside};
ghost use Rattle.book.specs.Answers.{design_answer, log_answer, sign_answer};
ghost use Rattle.book.specs.Changes.{IsBook, Changed, StandsIn, IsViewIn};
ghost use Rattle.book.specs.Kinds.{design_deed, log_deed, sign_deed};

use crate::answers::PutFault;
use crate::recording::{record_design, record_log, record_sign};
use crate::state::{BookState, NumberedDesign};
use desk_outside::{Deed, Keeper};
use diagnosis::{CheckedView, Design, Put, ReadLog};
use die_entries::{Sign, is_same_digest, put_sign, put_text};
use scan_model::{Digest, Name, NoMemory};
use std::alloc::Global;
use std::marker::Model;
use std::sync::Arc;

/// The designs, logs and sign-offs of a desk, with the keeper of their deeds. Contracts see the deeds, the most that there
/// may be, the keeper's rows where they are told, and the keeper's count of faults. The deeds are legal, and the rows
/// equal them.
#[derive(Drop)]
pub struct Book<K: Keeper> {
    pub(crate) alloc: Global,
    pub(crate) keeper: K,
    pub(crate) limit: u32,
    pub(crate) kept: BookState,
}

impl<K: Keeper> Model for Book<K> {
    ghost use Rattle.book.specs.Changes.{BookFacts, IsBook};

    ghost Value = { BookFacts };

    ghost view = { λ b. record { deeds = b.kept.deeds; limit = b.limit; rows = K.rows b.keeper; faults = K.faults b.keeper } };

    ghost invariant = { λ b. IsBook (record { deeds = b.kept.deeds; limit = b.limit; rows = K.rows b.keeper; faults = K.faults b.keeper }) };
}

// What a text finds whose name has a design.
fn put_beside(found: &NumberedDesign<'_>, text: &[u8]) -> Result<Put, PutFault>
    ensures { result ≡ beside found.now.number (arc_value found.now.design.now).text text.now }
{
    if found.design.text() == text {
        return Ok(Put::Same {
            number: found.number,
        });
    }
    Err(PutFault::NameTaken {
        kept: *found.design.digest(),
    })
}

impl<K: Keeper> Book<K> {
    /// The number of deeds.
    pub fn deeds(&self) -> u64
        ensures number { result ≡ length self.now.deeds }
        ensures book { IsBook self.now }
    {
        self.kept.deeds()
    }

    /// The keeper's count of faults.
    pub fn faults(&self) -> u64
        ensures { result ≡ self.now.faults }
    {
        self.keeper.count()
    }

    /// Gives back the keeper as it is.
    pub fn close(self) -> K
        ensures rows { K.rows result ≡ self.rows }
        ensures faults { K.faults result ≡ self.faults }
    {
        let Book { keeper, .. } = self;
        keeper
    }

    // The log of that text among those of the die.
    fn log_among(&self, design: &[u8], die: &[u8], text: &[u8]) -> Result<Put, NoMemory>
        ensures { IfOk result (λ put. put ≡ put_where (bytes_eq text.now) (die_logs self.now.deeds design.now die.now)) }
    {
        match self.kept.die(design, die)? {
            Some(die) => Ok(put_text(die.logs(), text)),
            None => Ok(Put::Created { number: 1 }),
        }
    }

    // The sign-off of the die at that revision by that signer.
    fn sign_among(
        &self,
        design: &[u8],
        die: &[u8],
        revision: u64,
        signer: &[u8],
    ) -> Result<Put, NoMemory>
        ensures { IfOk result (λ put. put ≡ put_where (is_signed_by revision signer.now) (die_signs self.now.deeds design.now die.now)) }
    {
        match self.kept.die(design, die)? {
            Some(die) => Ok(put_sign(die.signs(), revision, signer)),
            None => Ok(Put::Created { number: 1 }),
        }
    }

    // Whether one more deed may be added.
    fn has_room(&self) -> Result<(), PutFault>
        ensures room { OnOk result (length self.now.deeds < self.now.limit) }
        ensures full { IfErr result (λ fault. (fault ≡ PutFault.Full self.now.limit) × (self.now.limit ≤ length self.now.deeds)) }
    {
        if self.kept.deeds() >= u64::from(self.limit) {
            return Err(PutFault::Full { limit: self.limit });
        }
        Ok(())
    }

    /// Puts a design. `Same` where its name has an equal text, `NameTaken` where it has another.
    pub fn put_design(&mut self, by: u32, design: &Arc<Design>) -> Result<Put, PutFault>
        ensures { Changed (design_answer self.old.limit self.old.deeds (arc_value design.now).name (arc_value design.now).text)
            (design_deed by (arc_value design.now)) result self.old self.new }
    {
        self.put_design_with(by, design, None)
    }

    /// Puts a design, as `put_design` does, by its deed: none is made where it was made before the book is at hand.
    pub fn put_design_with(
        &mut self,
        by: u32,
        design: &Arc<Design>,
        deed: Option<Deed>,
    ) -> Result<Put, PutFault>
        requires { IfSome deed (λ made. made ≡ design_deed by (arc_value design.now)) }
        ensures { Changed (design_answer self.old.limit self.old.deeds (arc_value design.now).name (arc_value design.now).text)
            (design_deed by (arc_value design.now)) result self.old self.new }
    {
        if let Some(found) = self.kept.design(design.name()) {
            return put_beside(&found, design.text());
        }
        self.has_room()?;
        let number = self.kept.designs() + 1;
        record_design(&mut self.kept, &mut self.keeper, by, design, deed)?;
        Ok(Put::Created { number })
    }

    /// Puts a log. `UnknownDesign` where its design isn't there, `Same` where its die has an equal text. The number is the
    /// revision that the text made.
    pub fn put_log(&mut self, by: u32, log: &Arc<ReadLog>) -> Result<Put, PutFault>
        requires { StandsIn self.old.deeds (arc_value log.now) }
        ensures { Changed (log_answer self.old.limit self.old.deeds (arc_value log.now).design (arc_value log.now).die (arc_value log.now).text)
            (log_deed by (arc_value log.now)) result self.old self.new }
    {
        self.put_log_with(by, log, None)
    }

    /// Puts a log, as `put_log` does, by its deed: none is made where it was made before the book is at hand.
    pub fn put_log_with(
        &mut self,
        by: u32,
        log: &Arc<ReadLog>,
        deed: Option<Deed>,
    ) -> Result<Put, PutFault>
        requires stands { StandsIn self.old.deeds (arc_value log.now) }
        requires deed { IfSome deed (λ made. made ≡ log_deed by (arc_value log.now)) }
        ensures { Changed (log_answer self.old.limit self.old.deeds (arc_value log.now).design (arc_value log.now).die (arc_value log.now).text)
            (log_deed by (arc_value log.now)) result self.old self.new }
    {
        if self.kept.design(log.design()).is_none() {
            return Err(PutFault::UnknownDesign);
        }
        let number = match self.log_among(log.design(), log.die(), log.text())? {
            Put::Created { number } => number,
            same => return Ok(same),
        };
        self.has_room()?;
        record_log(&mut self.kept, &mut self.keeper, by, log, deed)?;
        Ok(Put::Created { number })
    }

    /// Signs the report of a die at the revision that was checked. `DigestDiffers` where the digest isn't the checked one,
    /// `Same` where the signer signed that revision before.
    pub fn sign(
        &mut self,
        by: u32,
        checked: &CheckedView,
        signer: &Name,
        digest: &Digest,
    ) -> Result<Put, PutFault>
        requires view { IsViewIn self.old.deeds checked.now }
        requires signer { is_tag signer.now ≡ true }
        ensures { Changed
            (sign_answer self.old.limit self.old.deeds checked.now.design.name checked.now.die (length checked.now.logs) (sha256 (view_report checked.now)) signer.now digest.now)
            (sign_deed by checked.now.design.name checked.now.die (record { revision = length checked.now.logs; signer = signer.now; digest = digest.now }))
            result self.old self.new }
    {
        let right = *checked.digest();
        let (view, revision) = (checked.view(), checked.view().revision());
        let (design, die) = (view.design().name(), view.die());
        let place = self.sign_among(design, die, revision, signer.as_slice())?;
        if !is_same_digest(digest, &right) {
            return Err(PutFault::DigestDiffers { right });
        }
        let number = match place {
            Put::Created { number } => number,
            same => return Ok(same),
        };
        self.has_room()?;
        let sign = Sign {
            revision,
            signer: Name::copy_of(self.alloc, signer.as_slice())?,
            digest: *digest,
        };
        record_sign(&mut self.kept, &mut self.keeper, by, design, die, sign)?;
        Ok(Put::Created { number })
    }
}
