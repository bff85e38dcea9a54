//! A seat at a desk: it asks for changes and looks, and marks how many deeds it has seen.
ghost use Rattle.std.specs.Prelude.{◌≡◌, [], length, true, IfOk};
ghost use Rattle.std.specs.Arc.{arc_value};
ghost use Rattle.sha2.specs.Sha256.{sha256};
ghost use Rattle.scan_model.specs.Words.{is_tag};
ghost use Rattle.diagnosis.specs.Designs.{view_report, texts_of};
ghost use Rattle.book.specs.Answers.{design_answer, log_answer, sign_answer, design_look, die_look, sign_look};
ghost use Rattle.book.specs.Changes.{IsViewIn, Looked};
ghost use Rattle.book.specs.Kinds.{design_deed, log_deed, sign_deed, text_behind};
ghost use Rattle.book.specs.LegalDeeds.{is_legal};
ghost use Rattle.desk_answers.specs.Seats.{SeatFacts, SeatChanged, Did, IsLogIn};

use book::{CheckedView, Design, DieView, LookFault, Put, PutFault, ReadLog, Sign};
use scan_model::{Digest, Name};
use std::sync::Arc;

/// A seat at a desk. It sees the desk's deeds up to its last call, others' among them. A change that it made is the last
/// deed that it then has seen.
pub trait SeatAt<R, D> {
    /// The deeds that it has seen, how many there may be, its number, and who was told that the keeper failed.
    ghost facts: { Self → D → SeatFacts };

    /// It is a seat of the desk.
    ghost belongs: { Self → D → Type 0 };

    /// The number of deeds that it has seen. These are legal.
    fn mark(&self, desk: &D) -> u64
        requires { belongs self.now desk.now }
        ensures number { result ≡ length (facts self.now desk.now).seen }
        ensures legal { is_legal (facts self.now desk.now).limit (facts self.now desk.now).seen ≡ true };

    /// Puts a design.
    fn put_design(&mut self, rt: &R, desk: &D, design: &Arc<Design>) -> Result<Put, PutFault>
        requires { belongs self.old desk.now }
        ensures stays { belongs self.new desk.now }
        ensures changed { let s = facts self.old desk.now in SeatChanged
            (λ deeds. design_answer s.limit deeds (arc_value design.now).name (arc_value design.now).text)
            (design_deed s.number (arc_value design.now)) result s (facts self.new desk.now) };

    /// Puts a log.
    fn put_log(&mut self, rt: &R, desk: &D, log: &Arc<ReadLog>) -> Result<Put, PutFault>
        requires belongs { belongs self.old desk.now }
        requires log { IsLogIn (facts self.old desk.now).seen (arc_value log.now) }
        ensures stays { belongs self.new desk.now }
        ensures changed { let s = facts self.old desk.now in SeatChanged
            (λ deeds. log_answer s.limit deeds (arc_value log.now).design (arc_value log.now).die (arc_value log.now).text)
            (log_deed s.number (arc_value log.now)) result s (facts self.new desk.now) };

    /// Signs the report that was checked.
    fn sign(
        &mut self,
        rt: &R,
        desk: &D,
        checked: &CheckedView,
        signer: &Name,
        digest: &Digest,
    ) -> Result<Put, PutFault>
        requires belongs { belongs self.old desk.now }
        requires view { IsViewIn (facts self.old desk.now).seen checked.now }
        requires signer { is_tag signer.now ≡ true }
        ensures stays { belongs self.new desk.now }
        ensures changed { let s = facts self.old desk.now in SeatChanged
            (λ deeds. sign_answer s.limit deeds checked.now.design.name checked.now.die (length checked.now.logs) (sha256 (view_report checked.now)) signer.now digest.now)
            (sign_deed s.number checked.now.design.name checked.now.die (record { revision = length checked.now.logs; signer = signer.now; digest = digest.now }))
            result s (facts self.new desk.now) };

    /// The design of that name.
    fn look_design(&mut self, rt: &R, desk: &D, name: &[u8]) -> Result<Arc<Design>, LookFault>
        requires { belongs self.old desk.now }
        ensures stays { belongs self.new desk.now }
        ensures did { Did [] 0 (facts self.old desk.now) (facts self.new desk.now) }
        ensures looked { Looked text_behind (design_look (facts self.new desk.now).seen name.now) result }
        ensures name { IfOk result (λ design. (arc_value design).name ≡ name.now) };

    /// The die with its first `revision` logs, or with all.
    fn look_die(
        &mut self,
        rt: &R,
        desk: &D,
        design: &[u8],
        die: &[u8],
        revision: Option<u64>,
    ) -> Result<DieView, LookFault>
        requires { belongs self.old desk.now }
        ensures stays { belongs self.new desk.now }
        ensures did { Did [] 0 (facts self.old desk.now) (facts self.new desk.now) }
        ensures looked { Looked (λ view. texts_of view.logs) (die_look (facts self.new desk.now).seen design.now die.now revision) result }
        ensures view { IfOk result (IsViewIn (facts self.new desk.now).seen) }
        ensures design { IfOk result (λ view. view.design.name ≡ design.now) }
        ensures die { IfOk result (λ view. view.die ≡ die.now) };

    /// A sign-off of the die, by its number from 1.
    fn look_sign(
        &mut self,
        rt: &R,
        desk: &D,
        design: &[u8],
        die: &[u8],
        number: u64,
    ) -> Result<Sign, LookFault>
        requires { belongs self.old desk.now }
        ensures stays { belongs self.new desk.now }
        ensures did { Did [] 0 (facts self.old desk.now) (facts self.new desk.now) }
        ensures looked { Looked (λ sign. sign) (sign_look (facts self.new desk.now).seen design.now die.now number) result };
}
