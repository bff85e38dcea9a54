//! Looks into the book.
ghost use Rattle.std.specs.Prelude.{◌≡◌, ◌++◌, ℕ, List, Some, Ok, IfOk, option_map};
ghost use Rattle.std.specs.Arc.{arc_value};
ghost use Rattle.sha2.specs.Sha256.{sha256};
ghost use Rattle.desk_outside.specs.declared.deed.Deed.{Deed};
ghost use Rattle.diagnosis.specs.Designs.{texts_of};
ghost use Rattle.book.specs.Deeds.{report_at};
ghost use Rattle.book.specs.Answers.{design_look, die_look, sign_look};
ghost use Rattle.book.specs.Changes.{Looked, IsViewIn};
ghost use Rattle.book.specs.Kinds.{text_behind};

use crate::answers::LookFault;
use crate::book::Book;
use crate::dies::{logs_up_to, sign_of};
use desk_outside::Keeper;
use diagnosis::{Design, DieView};
use die_entries::{Sign, view_of};
use std::sync::Arc;

impl<K: Keeper> Book<K> {
    /// The design of that name.
    pub fn look_design(&self, name: &[u8]) -> Result<Arc<Design>, LookFault>
        ensures looked { Looked text_behind (design_look self.now.deeds name.now) result }
        ensures name { IfOk result (λ design. (arc_value design).name ≡ name.now) }
    {
        let Some(found) = self.kept.design(name) else {
            return Err(LookFault::UnknownDesign);
        };
        match Arc::try_clone(found.design) {
            Ok(design) => Ok(design),
            Err(_) => Err(LookFault::NoMemory),
        }
    }

    /// The die with its first `revision` logs, or with all.
    pub fn look_die(
        &self,
        design: &[u8],
        die: &[u8],
        revision: Option<u64>,
    ) -> Result<DieView, LookFault>
        ensures looked { Looked (λ view. texts_of view.logs) (die_look self.now.deeds design.now die.now revision) result }
        ensures view { IfOk result (IsViewIn self.now.deeds) }
        ensures design { IfOk result (λ view. view.design.name ≡ design.now) }
        ensures die { IfOk result (λ view. view.die ≡ die.now) }
        ensures stays { (more : List Deed) (r : ℕ) → revision ≡ Some r → IfOk result (λ view. (die_look (self.now.deeds ++ more) design.now die.now revision ≡ Ok (texts_of view.logs))
            × (report_at (self.now.deeds ++ more) design.now die.now r ≡ report_at self.now.deeds design.now die.now r)) }
    {
        let found = self.look_design(design)?;
        let Some(kept) = self.kept.die(found.name(), die)? else {
            return Err(LookFault::UnknownDie);
        };
        let logs = logs_up_to(kept.logs(), revision)?;
        Ok(view_of(self.alloc, &found, die, logs)?)
    }

    /// A sign-off of the die, by its number from 1.
    pub fn look_sign(&self, design: &[u8], die: &[u8], number: u64) -> Result<Sign, LookFault>
        ensures looked { Looked (λ sign. sign) (sign_look self.now.deeds design.now die.now number) result }
        ensures right { IfOk result (λ sign. sign.digest ≡ sha256 (report_at self.now.deeds design.now die.now sign.revision)) }
        ensures stays { (more : List Deed) → IfOk result (λ sign. (sign_look (self.now.deeds ++ more) design.now die.now number ≡ Ok sign)
            × (report_at (self.now.deeds ++ more) design.now die.now sign.revision ≡ report_at self.now.deeds design.now die.now sign.revision)) }
    {
        let found = self.look_design(design)?;
        let Some(kept) = self.kept.die(found.name(), die)? else {
            return Err(LookFault::UnknownDie);
        };
        sign_of(self.alloc, kept.signs(), number)
    }
}
