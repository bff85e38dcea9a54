//! Rows that are asked for ahead of their turn, so that the reports which they sign are made side by side.
ghost use Rattle.std.specs.Prelude.{◌≡◌, ◌≤◌, ◌∷◌, ℕ, List, [], All, Option, OnOk};
ghost use Rattle.desk_outside.specs.declared.deed.Deed.{Deed};
ghost use Rattle.book.specs.RowsAhead.{AreAnswers, IsDesignIn};

mod asking;
mod signed;
mod views;

pub use self::asking::Answer;
use self::asking::ask;
use self::views::foreseen_of;
use crate::state::BookState;
use desk_outside::Keeper;
use die_entries::{Foreseen, processors};
use scan_model::NoMemory;
use std::alloc::Global;
use std::collections::VecDeque;
use std::thread::Threads;

/// What a keeper answered about the rows to come, in order, and the dies whose reports these rows may sign.
#[derive(Drop)]
pub struct RowsAhead {
    alloc: Global,
    // With one processor nothing is gained, and no row is asked for ahead.
    looks: bool,
    answers: VecDeque<Answer>,
    foreseen: Vec<Foreseen>,
}

impl RowsAhead {
    /// Nothing ahead.
    pub fn none<R: Threads>(rt: &R, alloc: Global) -> RowsAhead
        ensures answers { result.answers.items ≡ [] }
        ensures foreseen { result.foreseen.items ≡ [] }
    {
        RowsAhead {
            alloc,
            looks: processors(rt) > 1,
            answers: VecDeque::new(alloc),
            foreseen: Vec::new(alloc),
        }
    }

    /// The dies whose reports were made ahead.
    pub fn foreseen(&self) -> &[Foreseen]
        ensures { result.now ≡ self.now.foreseen.items }
    {
        &self.foreseen
    }

    /// Asks the keeper about the rows from one on, where nothing is ahead.
    pub fn look<K: Keeper, R: Threads + Sync>(
        &mut self,
        rt: &R,
        keeper: &mut K,
        kept: &BookState,
        row: u64,
        end: u64,
    ) -> Result<(), NoMemory>
        ensures answers { (told : Option (List Deed)) (before : ℕ) → K.rows keeper.old ≡ told → before ≤ K.faults keeper.old → AreAnswers told before (K.faults keeper.old) row self.old.answers.items
            → OnOk result (AreAnswers told before (K.faults keeper.new) row self.new.answers.items) }
        ensures foreseen { All (λ die. IsDesignIn kept.now.deeds die.design) self.old.foreseen.items → OnOk result (All (λ die. IsDesignIn kept.now.deeds die.design) self.new.foreseen.items) }
        ensures same { K.rows keeper.new ≡ K.rows keeper.old }
        ensures later { K.faults keeper.old ≤ K.faults keeper.new }
    {
        if !self.looks || !self.answers.is_empty() {
            return Ok(());
        }
        self.answers = ask(self.alloc, keeper, row, end)?;
        let (rows, _) = self.answers.as_slices();
        self.foreseen = foreseen_of(rt, self.alloc, kept, rows)?;
        Ok(())
    }

    /// What the keeper answered ahead about the row, or else what it answers now.
    pub fn next<K: Keeper>(&mut self, keeper: &mut K, row: u64) -> Answer
        ensures answers { (told : Option (List Deed)) (before : ℕ) → K.rows keeper.old ≡ told → before ≤ K.faults keeper.old → AreAnswers told before (K.faults keeper.old) row self.old.answers.items
            → AreAnswers told before (K.faults keeper.new) row (result ∷ self.new.answers.items) }
        ensures foreseen { self.new.foreseen.items ≡ self.old.foreseen.items }
        ensures same { K.rows keeper.new ≡ K.rows keeper.old }
        ensures later { K.faults keeper.old ≤ K.faults keeper.new }
    {
        match self.answers.pop_front() {
            Some(answer) => answer,
            None => keeper.row(row),
        }
    }
}
