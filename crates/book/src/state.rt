//! What the book keeps of its deeds: designs and dies, found by their names.
ghost use Rattle.std.specs.Prelude.{◌≡◌, ◌∷◌, ◌++◌, [], length, true, None, IfOk, IfSome, IfNone};
ghost use Rattle.std.specs.Arc.{arc_value};
ghost use Rattle.book.specs.Deeds.{designs, design_text, die_logs, die_signs};
ghost use Rattle.book.specs.LegalDeeds.{fits, each_fits};
ghost use Rattle.book.specs.Changes.{StandsIn};
ghost use Rattle.book.specs.Kinds.{design_deed, log_deed, sign_deed};
ghost use Rattle.book.specs.Lookups.{IsFound, IsDieIn};
ghost use Rattle.book.specs.ReadyChanges.{IsReadyDesign, IsReadyLog, IsReadySign};

mod deeds;
mod designs;
mod die;
mod dies;
mod making;
mod places;
mod ready;
mod room;

use self::deeds::Deeds;
use self::designs::Designs;
use self::die::Die;
use self::dies::Dies;
use self::making::{deed_of_sign, design_deed, log_deed};
pub use self::making::{made_design_deed, made_log_deed};
use self::ready::{ReadyDesign, ReadyLog, ReadySign};
use self::room::{log_room, sign_room};
use desk_outside::Deed;
use diagnosis::{Design, ReadLog};
use die_entries::Sign;
use scan_model::NoMemory;
use std::alloc::Global;
use std::marker::Model;
use std::sync::Arc;

/// A design that was found, with its number from 1.
#[derive(Clone, Copy)]
pub struct NumberedDesign<'a> {
    pub number: u64,
    pub design: &'a Arc<Design>,
}

/// Designs and dies. Contracts see the deeds that they come from, and what room is ready.
#[derive(Drop)]
pub struct BookState {
    alloc: Global,
    deeds: Deeds,
    designs: Designs,
    dies: Dies,
}

impl Model for BookState {
    ghost use Rattle.book.specs.State.{StateFacts, IsState};

    ghost Value = { StateFacts };

    ghost view = { λ k. record { deeds = k.deeds.list; room = k.deeds.room; designs = k.designs; dies = k.dies } };

    ghost invariant = { λ k. IsState k.deeds.list k.designs.list k.dies };
}

impl BookState {
    /// Nothing yet.
    pub fn new(alloc: Global) -> BookState
        ensures { result.deeds ≡ [] }
    {
        BookState {
            alloc,
            deeds: Deeds::new(alloc),
            designs: Designs::new(alloc),
            dies: Dies::new(alloc),
        }
    }

    /// The number of deeds.
    pub fn deeds(&self) -> u64
        ensures number { result ≡ length self.now.deeds }
        ensures fit { each_fits [] self.now.deeds ≡ true }
    {
        self.deeds.len() as u64
    }

    /// The number of designs.
    pub fn designs(&self) -> u64
        ensures { result ≡ length (designs self.now.deeds) }
    {
        self.designs.len() as u64
    }

    /// The design of that name.
    pub fn design(&self, name: &[u8]) -> Option<NumberedDesign<'_>>
        ensures some { IfSome result (λ found. IsFound self.now.deeds name.now found.number (arc_value found.design.now)) }
        ensures none { IfNone result (design_text self.now.deeds name.now ≡ None) }
    {
        let place = self.designs.place(name)?;
        Some(NumberedDesign {
            number: place as u64 + 1,
            design: self.designs.at(place),
        })
    }

    /// The die of that name, where it has a log.
    pub fn die(&self, design: &[u8], die: &[u8]) -> Result<Option<&Die>, NoMemory>
        ensures some { IfOk result (λ r. IfSome r (λ kept. IsDieIn self.now.deeds design.now die.now kept.now.logs kept.now.signs)) }
        ensures none { IfOk result (λ r. IfNone r ((die_logs self.now.deeds design.now die.now ≡ []) × (die_signs self.now.deeds design.now die.now ≡ []))) }
    {
        let Some(place) = self.dies.find(design, die)? else {
            return Ok(None);
        };
        let kept = self.dies.at(place);
        if kept.logs().is_empty() {
            return Ok(None);
        }
        Ok(Some(kept))
    }

    /// Takes all memory that a design and its deed need, which may be made already.
    pub fn ready_design(
        &mut self,
        by: u32,
        design: &Arc<Design>,
        made: Option<Deed>,
    ) -> Result<ReadyDesign, NoMemory>
        requires fits { fits self.old.deeds (design_deed by (arc_value design.now)).what ≡ true }
        requires made { IfSome made (λ deed. deed ≡ design_deed by (arc_value design.now)) }
        ensures deeds { self.new.deeds ≡ self.old.deeds }
        ensures deed { IfOk result (λ ready. ready.deed ≡ design_deed by (arc_value design.now)) }
        ensures ready { IfOk result (IsReadyDesign self.new) }
    {
        let deed = design_deed(self.alloc, by, design, made)?;
        self.deeds.reserve()?;
        let design = self.designs.ready(design)?;
        Ok(ReadyDesign { deed, design })
    }

    /// Adds a design with its deed.
    pub fn add_design(&mut self, ready: ReadyDesign)
        requires { IsReadyDesign self.old ready }
        ensures { self.new.deeds ≡ self.old.deeds ++ ready.deed ∷ [] }
    {
        self.deeds.add(&ready.deed);
        self.designs.add(ready.design);
    }

    /// Takes all memory that a log and its deed need, which may be made already.
    pub fn ready_log(
        &mut self,
        by: u32,
        log: &Arc<ReadLog>,
        made: Option<Deed>,
    ) -> Result<ReadyLog, NoMemory>
        requires fits { fits self.old.deeds (log_deed by (arc_value log.now)).what ≡ true }
        requires stands { StandsIn self.old.deeds (arc_value log.now) }
        requires made { IfSome made (λ deed. deed ≡ log_deed by (arc_value log.now)) }
        ensures deeds { self.new.deeds ≡ self.old.deeds }
        ensures deed { IfOk result (λ ready. ready.deed ≡ log_deed by (arc_value log.now)) }
        ensures ready { IfOk result (IsReadyLog self.new) }
    {
        let deed = log_deed(self.alloc, by, log, made)?;
        let kept = Arc::try_clone(log)?;
        let place = log_room(&mut self.deeds, &mut self.dies, log.design(), log.die())?;
        Ok(ReadyLog {
            deed,
            place,
            log: kept,
        })
    }

    /// Adds a log with its deed.
    pub fn add_log(&mut self, ready: ReadyLog)
        requires { IsReadyLog self.old ready }
        ensures { self.new.deeds ≡ self.old.deeds ++ ready.deed ∷ [] }
    {
        self.deeds.add(&ready.deed);
        self.dies.add_log(ready.place, ready.log);
    }

    /// Takes all memory that a sign-off and its deed need. Its die is there, since it has a log.
    pub fn ready_sign(
        &mut self,
        by: u32,
        design: &[u8],
        die: &[u8],
        sign: Sign,
    ) -> Result<ReadySign, NoMemory>
        requires { fits self.old.deeds (sign_deed by design.now die.now sign).what ≡ true }
        ensures deeds { self.new.deeds ≡ self.old.deeds }
        ensures deed { IfOk result (λ ready. ready.deed ≡ sign_deed by design.now die.now sign) }
        ensures ready { IfOk result (IsReadySign self.new) }
    {
        let deed = deed_of_sign(self.alloc, by, design, die, &sign)?;
        let place = sign_room(&mut self.deeds, &mut self.dies, design, die)?;
        Ok(ReadySign { deed, place, sign })
    }

    /// Adds a sign-off with its deed.
    pub fn add_sign(&mut self, ready: ReadySign)
        requires { IsReadySign self.old ready }
        ensures { self.new.deeds ≡ self.old.deeds ++ ready.deed ∷ [] }
    {
        self.deeds.add(&ready.deed);
        self.dies.add_sign(ready.place, ready.sign);
    }
}
