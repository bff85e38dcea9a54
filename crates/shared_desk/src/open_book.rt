//! The book of a desk, with the faults of its keeper.
ghost use Rattle.std.specs.Prelude.{◌≡◌, ◌<◌, [], length, true, is_some, IfOk, IfSome, OnOk, OnErr, vec_len, vec_capacity};
ghost use Rattle.std.specs.Arc.{arc_value};
ghost use Rattle.sha2.specs.Sha256.{sha256};
ghost use Rattle.scan_model.specs.Words.{is_tag};
ghost use Rattle.diagnosis.specs.Designs.{view_report, texts_of};
ghost use Rattle.book.specs.Answers.{design_answer, log_answer, sign_answer, design_look, die_look, sign_look};
ghost use Rattle.book.specs.Changes.{IsBook, Changed, Looked, StandsIn, IsViewIn};
ghost use Rattle.book.specs.Kinds.{design_deed, log_deed, sign_deed, text_behind};
ghost use Rattle.shared_desk.specs.OpenBooks.{OpenBookFacts, AreCounted, faults_after};

use book::{Book, CheckedView, Design, DieView, LookFault, Put, PutFault, ReadLog, Sign};
use desk_outside::{Deed, Keeper};
use scan_model::{Digest, Name};
use std::alloc::Global;
use std::marker::Model;
use std::sync::Arc;

/// A book, the numbers of the seats that were answered `Failed`, in order, and the keeper's count at the end of the
/// opening. There are at most as many faults as that count rose since, or it stands at its last value.
#[derive(Drop)]
pub struct OpenBook<K: Keeper> {
    book: Book<K>,
    faults: Vec<u32>,
    opened: u64,
}

impl<K: Keeper> Model for OpenBook<K> {
    ghost use Rattle.std.specs.Prelude.{length};
    ghost use Rattle.shared_desk.specs.OpenBooks.{OpenBookFacts, AreCounted};

    ghost Value = { OpenBookFacts };

    ghost view = { λ b. record { book = b.book; faults = b.faults.items; opened = b.opened } };

    ghost invariant = { λ b. AreCounted b.opened (length b.faults.items) b.book.faults };
}

// A refusal of the keeper is a fault of the seat.
fn note_fault(faults: &mut Vec<u32>, by: u32, answer: &Result<Put, PutFault>)
    requires room { vec_len faults.old < vec_capacity faults.old }
    ensures { faults.new.items ≡ faults_after answer.now faults.old.items by }
{
    if let Err(PutFault::Failed) = answer {
        if faults.push(by).is_err() {
            unreachable!()
        }
    }
}

impl<K: Keeper> OpenBook<K> {
    /// The book as it was opened.
    pub fn of(alloc: Global, book: Book<K>) -> OpenBook<K>
        ensures { result ≡ record { book = book; faults = []; opened = book.faults } }
    {
        let opened = book.faults();
        OpenBook {
            book,
            faults: Vec::new(alloc),
            opened,
        }
    }

    /// The number of deeds.
    pub fn deeds(&self) -> u64
        ensures number { result ≡ length self.now.book.deeds }
        ensures book { IsBook self.now.book }
    {
        self.book.deeds()
    }

    /// The book.
    pub fn into_book(self) -> Book<K>
        ensures book { result ≡ self.book }
        ensures whole { IsBook self.book }
        ensures counted { AreCounted self.opened (length self.faults) self.book.faults }
    {
        let _deeds = self.book.deeds();
        let OpenBook { book, .. } = self;
        book
    }

    /// Puts a design, as the book does, by its deed where one was made.
    pub fn put_design(
        &mut self,
        by: u32,
        design: &Arc<Design>,
        deed: Option<Deed>,
    ) -> Result<Put, PutFault>
        requires { IfSome deed (λ made. made ≡ design_deed by (arc_value design.now)) }
        ensures changed { Changed (design_answer self.old.book.limit self.old.book.deeds (arc_value design.now).name (arc_value design.now).text)
            (design_deed by (arc_value design.now)) result self.old.book self.new.book }
        ensures faults { self.new.faults ≡ faults_after result self.old.faults by }
        ensures opened { self.new.opened ≡ self.old.opened }
        ensures tells { is_some self.new.book.rows ≡ is_some self.old.book.rows }
    {
        // The book's deeds are legal, also where there is no room for a fault.
        let _deeds = self.book.deeds();
        if self.faults.reserve(1).is_err() {
            return Err(PutFault::NoMemory);
        }
        let answer = self.book.put_design_with(by, design, deed);
        note_fault(&mut self.faults, by, &answer);
        answer
    }

    /// Puts a log, as the book does, by its deed where one was made.
    pub fn put_log(
        &mut self,
        by: u32,
        log: &Arc<ReadLog>,
        deed: Option<Deed>,
    ) -> Result<Put, PutFault>
        requires stands { StandsIn self.old.book.deeds (arc_value log.now) }
        requires deed { IfSome deed (λ made. made ≡ log_deed by (arc_value log.now)) }
        ensures changed { Changed (log_answer self.old.book.limit self.old.book.deeds (arc_value log.now).design (arc_value log.now).die (arc_value log.now).text)
            (log_deed by (arc_value log.now)) result self.old.book self.new.book }
        ensures faults { self.new.faults ≡ faults_after result self.old.faults by }
        ensures opened { self.new.opened ≡ self.old.opened }
        ensures tells { is_some self.new.book.rows ≡ is_some self.old.book.rows }
    {
        let _deeds = self.book.deeds();
        if self.faults.reserve(1).is_err() {
            return Err(PutFault::NoMemory);
        }
        let answer = self.book.put_log_with(by, log, deed);
        note_fault(&mut self.faults, by, &answer);
        answer
    }

    /// Puts a sign-off, as the book does.
    pub fn sign(
        &mut self,
        by: u32,
        checked: &CheckedView,
        signer: &Name,
        digest: &Digest,
    ) -> Result<Put, PutFault>
        requires view { IsViewIn self.old.book.deeds checked.now }
        requires signer { is_tag signer.now ≡ true }
        ensures changed { Changed
            (sign_answer self.old.book.limit self.old.book.deeds checked.now.design.name checked.now.die (length checked.now.logs) (sha256 (view_report checked.now)) signer.now digest.now)
            (sign_deed by checked.now.design.name checked.now.die (record { revision = length checked.now.logs; signer = signer.now; digest = digest.now }))
            result self.old.book self.new.book }
        ensures faults { self.new.faults ≡ faults_after result self.old.faults by }
        ensures opened { self.new.opened ≡ self.old.opened }
        ensures tells { is_some self.new.book.rows ≡ is_some self.old.book.rows }
    {
        let _deeds = self.book.deeds();
        if self.faults.reserve(1).is_err() {
            return Err(PutFault::NoMemory);
        }
        let answer = self.book.sign(by, checked, signer, digest);
        note_fault(&mut self.faults, by, &answer);
        answer
    }

    /// The book, to be looked into.
    pub fn book(&self) -> &Book<K>
        ensures { result.now ≡ self.now.book }
    {
        &self.book
    }
}
