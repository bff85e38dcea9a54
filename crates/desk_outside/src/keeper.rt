//! Where deeds are kept.
ghost use Rattle.std.specs.Prelude.{◌≡◌, ◌≤◌, ◌↔◌, ℕ, List, Option, Some, None, [], ◌∷◌, ◌++◌, IfOk, IsOk, OnOk, OnErr, IsErrOf, IsTrue, slice_get};
ghost use Rattle.std.specs.Option.{option_map};
ghost use Rattle.desk_outside.specs.declared.deed.Deed.{Deed};
ghost use Rattle.desk_outside.specs.declared.keeper.KeepFault.{KeepFault};
ghost use Rattle.desk_outside.specs.Faults.{Rose};
ghost use Rattle.desk_outside.specs.Schedule.{fresh_calls, fails_next, after_call};
ghost use Rattle.desk_outside.specs.KeeperMemory.{sure_rows};

use crate::cabinet::KeeperHome;
use crate::calls::Calls;
use crate::deed::Deed;
use scan_model::{NoMemory, Rows};
use std::alloc::Global;

/// Why a keeper gave no answer.
#[derive(Clone, Copy, Debug, PartialEq, Eq)]
pub enum KeepFault {
    /// The keeper failed, and its count of faults rose.
    Failed,
    /// Memory ran out.
    NoMemory,
}

/// Where deeds are kept, one in a row. An error of a call changes nothing that is kept.
pub trait Keeper: Drop {
    ghost use Rattle.desk_outside.specs.declared.deed.Deed.{Deed};

    /// The deeds, where the keeper tells them.
    ghost rows: { Self → Option (List Deed) };

    /// How often it has failed. The count never falls, and stays at 2^64 - 1 once it is there.
    ghost faults: { Self → ℕ };

    /// Adds a deed at the end.
    fn append(&mut self, deed: &Deed) -> Result<(), KeepFault>
        ensures added { OnOk result (rows self.new ≡ option_map (λ deeds. deeds ++ deed.now ∷ []) (rows self.old)) }
        ensures same { OnErr result (rows self.new ≡ rows self.old) }
        ensures later { faults self.old ≤ faults self.new }
        ensures failed { IsErrOf result KeepFault.Failed → Rose (faults self.old) (faults self.new) };

    /// The deed in a row, counted from 0, or nothing past the end.
    fn row(&mut self, i: u64) -> Result<Option<Deed>, KeepFault>
        ensures told { (deeds : List Deed) → rows self.old ≡ Some deeds → IfOk result (λ row. row ≡ slice_get deeds i) }
        ensures same { rows self.new ≡ rows self.old }
        ensures later { faults self.old ≤ faults self.new }
        ensures failed { IsErrOf result KeepFault.Failed → Rose (faults self.old) (faults self.new) };

    /// The count of faults.
    fn count(&self) -> u64
        ensures { result ≡ faults self.now };
}

fn copy_deeds(alloc: Global, deeds: &[Deed]) -> Result<Rows<Deed>, NoMemory>
    ensures { IfOk result (λ rows. rows ≡ deeds.now) }
{
    let mut rows = Rows::new(alloc);
    let mut rest = deeds;
    while let [deed, others @ ..] = rest {
        rows.push(deed.copy_in(alloc)?)?;
        rest = others;
    }
    Ok(rows)
}

// Adds a copy of the deed.
fn append_copy(alloc: Global, deeds: &mut Rows<Deed>, deed: &Deed) -> Result<(), NoMemory>
    ensures ok { OnOk result (deeds.new ≡ deeds.old ++ deed.now ∷ []) }
    ensures err { OnErr result (deeds.new ≡ deeds.old) }
{
    let copy = deed.copy_in(alloc)?;
    deeds.push(copy)
}

// The deed in a row.
fn deed_at(alloc: Global, deeds: &[Deed], i: u64) -> Result<Option<Deed>, NoMemory>
    ensures { IfOk result (λ row. row ≡ slice_get deeds.now i) }
{
    match deeds.get(i as usize) {
        Some(deed) => Ok(Some(deed.copy_in(alloc)?)),
        None => Ok(None),
    }
}

/// Deeds in memory. The calls that are listed fail.
#[derive(Drop)]
pub struct MemKeeper {
    alloc: Global,
    deeds: Rows<Deed>,
    calls: Calls,
}

impl MemKeeper {
    ghost use Rattle.desk_outside.specs.KeeperMemory.{keeper_rows, keeper_calls};

    /// A keeper of which no call fails.
    pub fn make(alloc: Global, deeds: Rows<Deed>) -> Result<MemKeeper, NoMemory>
        ensures ok { IsOk result }
        ensures rows { IfOk result (λ k. keeper_rows k ≡ deeds) }
        ensures calls { IfOk result (λ k. keeper_calls k ≡ fresh_calls []) }
    {
        Ok(MemKeeper {
            alloc,
            deeds,
            calls: Calls::sure(alloc),
        })
    }

    /// A keeper whose calls of `append` and `row` with these numbers fail, counted from 1.
    pub fn make_failing(
        alloc: Global,
        deeds: Rows<Deed>,
        calls: Rows<u64>,
    ) -> Result<MemKeeper, NoMemory>
        ensures ok { IsOk result }
        ensures rows { IfOk result (λ k. keeper_rows k ≡ deeds) }
        ensures calls { IfOk result (λ k. keeper_calls k ≡ fresh_calls calls) }
    {
        Ok(MemKeeper {
            alloc,
            deeds,
            calls: Calls::failing(calls),
        })
    }

    /// A copy of the deeds.
    pub fn copy_rows(&self) -> Result<Rows<Deed>, NoMemory>
        ensures { IfOk result (λ rows. rows ≡ keeper_rows self.now) }
    {
        copy_deeds(self.alloc, self.deeds.as_slice())
    }

    // Its deeds, and its count of faults.
    pub(crate) fn into_home(self) -> KeeperHome
        ensures rows { result.rows ≡ keeper_rows self }
        ensures faults { result.faults ≡ (keeper_calls self).faults }
    {
        let MemKeeper { deeds, calls, .. } = self;
        KeeperHome {
            rows: deeds,
            faults: calls.faults,
        }
    }
}

impl Keeper for MemKeeper {
    ghost use Rattle.desk_outside.specs.declared.deed.Deed.{Deed};
    ghost use Rattle.desk_outside.specs.KeeperMemory.{keeper_rows, keeper_calls};

    ghost rows = { λ k. Some (keeper_rows k) };

    ghost faults = { λ k. (keeper_calls k).faults };

    fn append(&mut self, deed: &Deed) -> Result<(), KeepFault>
        ensures added { OnOk result (Some (keeper_rows self.new) ≡ option_map (λ deeds. deeds ++ deed.now ∷ []) (Some (keeper_rows self.old))) }
        ensures same { OnErr result (Some (keeper_rows self.new) ≡ Some (keeper_rows self.old)) }
        ensures later { (keeper_calls self.old).faults ≤ (keeper_calls self.new).faults }
        ensures failed { IsErrOf result KeepFault.Failed → Rose (keeper_calls self.old).faults (keeper_calls self.new).faults }

        // It fails, and its count rises, in the calls that are listed and in no other.
        ensures listed { IsErrOf result KeepFault.Failed ↔ IsTrue (fails_next (keeper_calls self.old)) }
        ensures counted { keeper_calls self.new ≡ after_call (keeper_calls self.old) }
    {
        if self.calls.fails() {
            return Err(KeepFault::Failed);
        }
        match append_copy(self.alloc, &mut self.deeds, deed) {
            Ok(()) => Ok(()),
            Err(NoMemory) => Err(KeepFault::NoMemory),
        }
    }

    fn row(&mut self, i: u64) -> Result<Option<Deed>, KeepFault>
        ensures told { (deeds : List Deed) → Some (keeper_rows self.old) ≡ Some deeds → IfOk result (λ row. row ≡ slice_get deeds i) }
        ensures same { Some (keeper_rows self.new) ≡ Some (keeper_rows self.old) }
        ensures later { (keeper_calls self.old).faults ≤ (keeper_calls self.new).faults }
        ensures failed { IsErrOf result KeepFault.Failed → Rose (keeper_calls self.old).faults (keeper_calls self.new).faults }

        // It fails, and its count rises, in the calls that are listed and in no other.
        ensures listed { IsErrOf result KeepFault.Failed ↔ IsTrue (fails_next (keeper_calls self.old)) }
        ensures counted { keeper_calls self.new ≡ after_call (keeper_calls self.old) }
    {
        if self.calls.fails() {
            return Err(KeepFault::Failed);
        }
        match deed_at(self.alloc, self.deeds.as_slice(), i) {
            Ok(row) => Ok(row),
            Err(NoMemory) => Err(KeepFault::NoMemory),
        }
    }

    fn count(&self) -> u64 {
        self.calls.faults
    }
}

/// Deeds in memory. No call fails.
#[derive(Drop)]
pub struct SureKeeper {
    alloc: Global,
    deeds: Rows<Deed>,
}

impl SureKeeper {
    /// A keeper with these deeds.
    pub fn make(alloc: Global, deeds: Rows<Deed>) -> Result<SureKeeper, NoMemory>
        ensures ok { IsOk result }
        ensures rows { IfOk result (λ k. sure_rows k ≡ deeds) }
    {
        Ok(SureKeeper { alloc, deeds })
    }
}

impl Keeper for SureKeeper {
    ghost use Rattle.desk_outside.specs.declared.deed.Deed.{Deed};
    ghost use Rattle.desk_outside.specs.KeeperMemory.{sure_rows};

    ghost rows = { λ k. Some (sure_rows k) };

    ghost faults = { λ _. 0 };

    fn append(&mut self, deed: &Deed) -> Result<(), KeepFault> {
        match append_copy(self.alloc, &mut self.deeds, deed) {
            Ok(()) => Ok(()),
            Err(NoMemory) => Err(KeepFault::NoMemory),
        }
    }

    fn row(&mut self, i: u64) -> Result<Option<Deed>, KeepFault> {
        match deed_at(self.alloc, self.deeds.as_slice(), i) {
            Ok(row) => Ok(row),
            Err(NoMemory) => Err(KeepFault::NoMemory),
        }
    }

    fn count(&self) -> u64 {
        0
    }
}
