//! A book is opened over its keeper.
ghost use Rattle.std.specs.Prelude.{◌≡◌, ◌≤◌, ℕ, List, true, Some, None, IsSome, IfSome, IfOk, IfErr, IsErrOf, OnOk, [], length, is_some};
ghost use Rattle.desk_outside.specs.declared.deed.Deed.{Deed};
ghost use Rattle.desk_outside.specs.Faults.{Rose};
ghost use Rattle.book.specs.declared.opening.StartFault.{StartFault};
ghost use Rattle.book.specs.LegalDeeds.{each_fits, spoiled_row};
ghost use Rattle.book.specs.Rows.{start_fault_of};

use crate::ahead::RowsAhead;
use crate::book::Book;
use crate::row::add_row;
use crate::state::BookState;
use desk_outside::{Deed, KeepFault, Keeper};
use std::alloc::Global;
use std::thread::Threads;
use thiserror::Error;

/// Why a book wasn't opened.
#[derive(Debug, Drop, Error)]
pub enum StartFault {
    /// This row, counted from 0, is the first that isn't the deed which its call would append to the rows before it.
    #[error("a kept row is spoiled")]
    Spoiled { row: u64 },
    /// The keeper failed.
    #[error("the keeper failed")]
    Failed,
    /// Memory ran out.
    #[error("memory ran out")]
    NoMemory,
}

/// A book that wasn't opened, and its keeper, which comes back whatever the fault.
#[derive(Drop)]
pub struct UnopenedBook<K> {
    pub fault: StartFault,
    pub keeper: Option<K>,
}

impl From<KeepFault> for StartFault {
    ghost from_gives = { λ fault e. e ≡ start_fault_of fault };

    fn from(fault: KeepFault) -> Self {
        match fault {
            KeepFault::Failed => StartFault::Failed,
            KeepFault::NoMemory => StartFault::NoMemory,
        }
    }
}

impl From<scan_model::NoMemory> for StartFault {
    ghost from_gives = { λ _ e. e ≡ StartFault.NoMemory };

    fn from(_: scan_model::NoMemory) -> Self {
        StartFault::NoMemory
    }
}

// Whether no row stands here.
fn is_past_end(row: &Option<Deed>, end: u64) -> Result<(), StartFault>
    ensures none { OnOk result (row.now ≡ None) }
    ensures some { IfErr result (λ fault. (fault ≡ StartFault.Spoiled end) × (is_some row.now ≡ true)) }
{
    match row {
        Some(_) => Err(StartFault::Spoiled { row: end }),
        None => Ok(()),
    }
}

// Reads the rows from 0 on, and keeps each that fits those before it.
fn read_rows<K: Keeper, R: Threads + Sync>(
    rt: &R,
    alloc: Global,
    keeper: &mut K,
    kept: &mut BookState,
    limit: u32,
) -> Result<(), StartFault>
    requires { kept.old.deeds ≡ [] }
    ensures fit { OnOk result (each_fits [] kept.new.deeds ≡ true) }
    ensures few { OnOk result (length kept.new.deeds ≤ limit) }
    ensures rows { (rows : List Deed) → K.rows keeper.old ≡ Some rows → OnOk result (kept.new.deeds ≡ rows) }
    ensures spoiled { (rows : List Deed) (row : ℕ) → K.rows keeper.old ≡ Some rows → IsErrOf result (StartFault.Spoiled row) → spoiled_row limit rows ≡ Some row }
    ensures same { K.rows keeper.new ≡ K.rows keeper.old }
    ensures later { K.faults keeper.old ≤ K.faults keeper.new }
    ensures failed { IsErrOf result StartFault.Failed → Rose (K.faults keeper.old) (K.faults keeper.new) }
{
    let end = u64::from(limit);
    let mut ahead = RowsAhead::none(rt, alloc);
    for row in 0..end {
        ahead.look(rt, keeper, kept, row, end)?;
        let Some(deed) = ahead.next(keeper, row)? else {
            return Ok(());
        };
        if !add_row(rt, alloc, kept, deed, ahead.foreseen())? {
            return Err(StartFault::Spoiled { row });
        }
    }
    let past = keeper.row(end)?;
    is_past_end(&past, end)
}

impl<K: Keeper> Book<K> {
    /// The book of the keeper's rows, which are read from 0 to the end: at most `max_deeds` of them and one more. Each is
    /// judged by the rules of the call that would append it.
    pub fn open_from<R: Threads + Sync>(
        rt: &R,
        alloc: Global,
        keeper: K,
        max_deeds: u32,
    ) -> Result<Book<K>, UnopenedBook<K>>
        ensures limit { IfOk result (λ book. book.limit ≡ max_deeds) }
        ensures rows { IfOk result (λ book. book.rows ≡ K.rows keeper) }
        ensures deeds { (rows : List Deed) → K.rows keeper ≡ Some rows → IfOk result (λ book. book.deeds ≡ rows) }
        ensures legal { (rows : List Deed) → K.rows keeper ≡ Some rows → IfOk result (λ book. spoiled_row max_deeds rows ≡ None) }
        ensures later { IfOk result (λ book. K.faults keeper ≤ book.faults) }
        ensures spoiled { (rows : List Deed) (row : ℕ) → K.rows keeper ≡ Some rows → IfErr result (λ refused. refused.fault ≡ StartFault.Spoiled row → spoiled_row max_deeds rows ≡ Some row) }
        ensures home { IfErr result (λ refused. IsSome refused.keeper) }
        ensures same { IfErr result (λ refused. IfSome refused.keeper (λ k. (K.rows k ≡ K.rows keeper) × (K.faults keeper ≤ K.faults k))) }
        ensures failed { IfErr result (λ refused. refused.fault ≡ StartFault.Failed → IfSome refused.keeper (λ k. Rose (K.faults keeper) (K.faults k))) }
    {
        let (mut keeper, mut kept) = (keeper, BookState::new(alloc));
        match read_rows(rt, alloc, &mut keeper, &mut kept, max_deeds) {
            Ok(()) => Ok(Book {
                alloc,
                keeper,
                limit: max_deeds,
                kept,
            }),
            Err(fault) => Err(UnopenedBook {
                fault,
                keeper: Some(keeper),
            }),
        }
    }
}
