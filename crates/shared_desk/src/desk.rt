//! A desk, and its changes.
ghost use Rattle.std.specs.Prelude.{◌≡◌, true, length, IsSome};
ghost use Rattle.std.specs.Arc.{arc_value};
ghost use Rattle.sha2.specs.Sha256.{sha256};
ghost use Rattle.scan_model.specs.Words.{is_tag};
ghost use Rattle.diagnosis.specs.Designs.{view_report};
ghost use Rattle.book.specs.Deeds.{design_text};
ghost use Rattle.book.specs.Changes.{StandsIn, IsViewIn};
ghost use Rattle.book.specs.Answers.{design_answer, log_answer, sign_answer};
ghost use Rattle.book.specs.Kinds.{design_deed, log_deed, sign_deed};
ghost use Rattle.shared_desk.specs.Calls.{Changes};
ghost use Rattle.shared_desk.specs.OpenBooks.{is_counted};

use crate::seat::DeskSeat;
use crate::steps::{give_book, take_book};
use crate::turns::DeskTable;
use atomic_table::Badge;
use book::{CheckedView, Design, Put, PutFault, ReadLog, made_design_deed, made_log_deed};
use desk_outside::Keeper;
use scan_model::{Digest, Name};
use std::alloc::Global;
use std::marker::Model;
use std::mem;
use std::sync::{Arc, Wait};

/// An answer, and its mark: the number of deeds of the history at which it is the book's.
#[derive(Drop)]
pub struct Marked<T> {
    pub mark: u64,
    pub answer: T,
}

/// A desk: a book under a turn, which its seats share. Contracts see which desk it is, and what its seats have in common.
#[derive(Drop)]
pub struct Desk<K: Keeper> {
    pub(crate) alloc: Global,
    pub(crate) table: DeskTable<K>,
}

impl<K: Keeper> Model for Desk<K> {
    ghost use Rattle.std.specs.Prelude.{◌≡◌, ◌<◌};
    ghost use Rattle.shared_desk.specs.Seats.{DeskFacts, desk_facts};
    ghost use Rattle.shared_desk.specs.Turns.{terms_of};

    ghost Value = { DeskFacts };

    ghost view = { λ d. desk_facts d.table.shared.table_id (terms_of d.table.shared.key.seats d.table.shared.key.book.value) };

    ghost invariant = { λ d. (d.table.shared.table_id.words ≡ 3) × (d.table.shared.table_id.slots ≡ 1) × (0 < d.table.shared.key.seats) };
}

// Whether a deed was created or the keeper failed.
fn is_one_more(answer: &Result<Put, PutFault>) -> bool
    ensures { result ≡ is_counted answer.now }
{
    matches!(answer, Ok(Put::Created { .. }) | Err(PutFault::Failed))
}

impl<K: Keeper> Desk<K> {
    /// Puts a design, as the book does, in the seat's turn. Its deed is made before.
    pub fn put_design<R: Wait>(
        &self,
        rt: &R,
        seat: &mut DeskSeat,
        design: &Arc<Design>,
    ) -> Marked<Result<Put, PutFault>>
        requires { seat.old.desk ≡ self.now }
        ensures { Changes (λ deeds. design_answer self.now.limit deeds (arc_value design.now).name (arc_value design.now).text)
            (design_deed seat.old.number (arc_value design.now)) seat.old seat.new result.mark result.answer }
    {
        let deed = made_design_deed(self.alloc, seat.number, design);
        let mut at = mem::replace(&mut seat.badge, Badge::blank()).into_seat();
        let mut book = take_book(rt, &self.table.shared, &mut at);
        let answer = book.put_design(seat.number, design, deed);
        let mark = book.deeds();
        give_book(&self.table.shared, &mut at, book, is_one_more(&answer));
        seat.badge = at.into_badge();
        seat.mark = mark;
        Marked { mark, answer }
    }

    /// Puts a log, as the book does, in the seat's turn. Its deed is made before.
    pub fn put_log<R: Wait>(
        &self,
        rt: &R,
        seat: &mut DeskSeat,
        log: &Arc<ReadLog>,
    ) -> Marked<Result<Put, PutFault>>
        requires seat { seat.old.desk ≡ self.now }
        requires design { IsSome (design_text seat.old.seen (arc_value log.now).design) }
        requires stands { StandsIn seat.old.seen (arc_value log.now) }
        ensures { Changes (λ deeds. log_answer self.now.limit deeds (arc_value log.now).design (arc_value log.now).die (arc_value log.now).text)
            (log_deed seat.old.number (arc_value log.now)) seat.old seat.new result.mark result.answer }
    {
        let deed = made_log_deed(self.alloc, seat.number, log);
        let mut at = mem::replace(&mut seat.badge, Badge::blank()).into_seat();
        let mut book = take_book(rt, &self.table.shared, &mut at);
        let answer = book.put_log(seat.number, log, deed);
        let mark = book.deeds();
        give_book(&self.table.shared, &mut at, book, is_one_more(&answer));
        seat.badge = at.into_badge();
        seat.mark = mark;
        Marked { mark, answer }
    }

    /// Puts a sign-off, as the book does, in the seat's turn. What was checked is a die that the seat has seen, at a
    /// revision.
    pub fn sign<R: Wait>(
        &self,
        rt: &R,
        seat: &mut DeskSeat,
        checked: &CheckedView,
        signer: &Name,
        digest: &Digest,
    ) -> Marked<Result<Put, PutFault>>
        requires seat { seat.old.desk ≡ self.now }
        requires view { IsViewIn seat.old.seen checked.now }
        requires signer { is_tag signer.now ≡ true }
        ensures { Changes
            (λ deeds. sign_answer self.now.limit deeds checked.now.design.name checked.now.die (length checked.now.logs) (sha256 (view_report checked.now)) signer.now digest.now)
            (sign_deed seat.old.number checked.now.design.name checked.now.die (record { revision = length checked.now.logs; signer = signer.now; digest = digest.now }))
            seat.old seat.new result.mark result.answer }
    {
        let mut at = mem::replace(&mut seat.badge, Badge::blank()).into_seat();
        let mut book = take_book(rt, &self.table.shared, &mut at);
        let answer = book.sign(seat.number, checked, signer, digest);
        let mark = book.deeds();
        give_book(&self.table.shared, &mut at, book, is_one_more(&answer));
        seat.badge = at.into_badge();
        seat.mark = mark;
        Marked { mark, answer }
    }
}
