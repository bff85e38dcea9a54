//! Looks of a seat.
ghost use Rattle.std.specs.Prelude.{◌≡◌, ◌++◌, ℕ, List, Some, Ok, IfOk};
ghost use Rattle.std.specs.Arc.{arc_value};
ghost use Rattle.sha2.specs.Sha256.{sha256};
ghost use Rattle.desk_outside.specs.declared.deed.Deed.{Deed};
ghost use Rattle.diagnosis.specs.Designs.{texts_of};
ghost use Rattle.book.specs.Deeds.{report_at};
ghost use Rattle.book.specs.Answers.{design_look, die_look, sign_look};
ghost use Rattle.book.specs.Changes.{Looked, IsViewIn};
ghost use Rattle.book.specs.Kinds.{text_behind};
ghost use Rattle.shared_desk.specs.Calls.{Looks};

use crate::desk::{Desk, Marked};
use crate::seat::DeskSeat;
use crate::steps::{give_book, take_book};
use atomic_table::Badge;
use book::{Design, DieView, LookFault, Sign};
use desk_outside::Keeper;
use std::mem;
use std::sync::{Arc, Wait};

impl<K: Keeper> Desk<K> {
    /// The design of that name, at the seat's turn.
    pub fn look_design<R: Wait>(
        &self,
        rt: &R,
        seat: &mut DeskSeat,
        name: &[u8],
    ) -> Marked<Result<Arc<Design>, LookFault>>
        requires { seat.old.desk ≡ self.now }
        ensures looks { Looks seat.old seat.new result.mark }
        ensures looked { Looked text_behind (design_look seat.new.seen name.now) result.answer }
        ensures name { IfOk result.answer (λ design. (arc_value design).name ≡ name.now) }
    {
        let mut at = mem::replace(&mut seat.badge, Badge::blank()).into_seat();
        let book = take_book(rt, &self.table.shared, &mut at);
        let answer = book.book().look_design(name);
        let mark = book.deeds();
        give_book(&self.table.shared, &mut at, book, false);
        seat.badge = at.into_badge();
        seat.mark = mark;
        Marked { mark, answer }
    }

    /// The die with its first `revision` logs, or with all, at the seat's turn.
    pub fn look_die<R: Wait>(
        &self,
        rt: &R,
        seat: &mut DeskSeat,
        design: &[u8],
        die: &[u8],
        revision: Option<u64>,
    ) -> Marked<Result<DieView, LookFault>>
        requires { seat.old.desk ≡ self.now }
        ensures looks { Looks seat.old seat.new result.mark }
        ensures looked { Looked (λ view. texts_of view.logs) (die_look seat.new.seen design.now die.now revision) result.answer }
        ensures view { IfOk result.answer (IsViewIn seat.new.seen) }
        ensures design { IfOk result.answer (λ view. view.design.name ≡ design.now) }
        ensures die { IfOk result.answer (λ view. view.die ≡ die.now) }
        ensures stays { (more : List Deed) (r : ℕ) → revision ≡ Some r → IfOk result.answer (λ view. (die_look (seat.new.seen ++ more) design.now die.now revision ≡ Ok (texts_of view.logs))
            × (report_at (seat.new.seen ++ more) design.now die.now r ≡ report_at seat.new.seen design.now die.now r)) }
    {
        let mut at = mem::replace(&mut seat.badge, Badge::blank()).into_seat();
        let book = take_book(rt, &self.table.shared, &mut at);
        let answer = book.book().look_die(design, die, revision);
        let mark = book.deeds();
        give_book(&self.table.shared, &mut at, book, false);
        seat.badge = at.into_badge();
        seat.mark = mark;
        Marked { mark, answer }
    }

    /// A sign-off of the die, by its number from 1, at the seat's turn.
    pub fn look_sign<R: Wait>(
        &self,
        rt: &R,
        seat: &mut DeskSeat,
        design: &[u8],
        die: &[u8],
        number: u64,
    ) -> Marked<Result<Sign, LookFault>>
        requires { seat.old.desk ≡ self.now }
        ensures looks { Looks seat.old seat.new result.mark }
        ensures looked { Looked (λ sign. sign) (sign_look seat.new.seen design.now die.now number) result.answer }
        ensures right { IfOk result.answer (λ sign. sign.digest ≡ sha256 (report_at seat.new.seen design.now die.now sign.revision)) }
        ensures stays { (more : List Deed) → IfOk result.answer (λ sign. (sign_look (seat.new.seen ++ more) design.now die.now number ≡ Ok sign)
            × (report_at (seat.new.seen ++ more) design.now die.now sign.revision ≡ report_at seat.new.seen design.now die.now sign.revision)) }
    {
        let mut at = mem::replace(&mut seat.badge, Badge::blank()).into_seat();
        let book = take_book(rt, &self.table.shared, &mut at);
        let answer = book.book().look_sign(design, die, number);
        let mark = book.deeds();
        give_book(&self.table.shared, &mut at, book, false);
        seat.badge = at.into_badge();
        seat.mark = mark;
        Marked { mark, answer }
    }
}
