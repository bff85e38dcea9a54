//! A cabinet in memory.
ghost use Rattle.std.specs.Prelude.{◌≡◌, ◌≤◌, ◌<◌, ◌+◌, ◌∷◌, ◌++◌, ◌↔◌, List, Option, Some, None, IfOk, IsOk, OnOk, OnErr, IsErrOf, IsTrue, [], length, vec_len, vec_capacity, All, ◌==◌, if◌then◌else◌};
ghost use Rattle.desk_outside.specs.Cabinets.{CabinetTold, keeper_handed, keeper_home, fresh_cabinet};
ghost use Rattle.desk_outside.specs.Faults.{Rose, raised};
ghost use Rattle.desk_outside.specs.KeeperMemory.{keeper_rows, keeper_calls, HasNotFailed, IsEmptyKeeper};
ghost use Rattle.desk_outside.specs.Schedule.{fresh_calls, fails_next, after_call, after_fault};
ghost use Rattle.desk_outside.specs.declared.deed.Deed.{Deed};
ghost use Rattle.desk_outside.specs.declared.keeper.KeepFault.{KeepFault};

use crate::cabinet::{Cabinet, HandedKeeper, KeeperHome};
use crate::calls::Calls;
use crate::deed::Deed;
use crate::keeper::{KeepFault, MemKeeper};
use scan_model::{Name, NoMemory, Rows};
use std::alloc::Global;

/// Keepers in memory, which are handed out in order whatever the name, and after the last of them keepers without deeds.
/// The calls of `keeper` that are listed fail.
#[derive(Drop)]
pub struct MemCabinet {
    alloc: Global,
    keepers: Vec<MemKeeper>,
    given: Vec<HandedKeeper>,
    home: Vec<KeeperHome>,
    out: usize,
    calls: Calls,
    ghost room: { vec_len home + out ≤ vec_capacity home },
    ghost unfailed: { All HasNotFailed keepers.items },
}

// Notes a keeper that is handed out by this name with these deeds.
fn note(
    alloc: Global,
    name: &str,
    rows: Rows<Deed>,
    given: &mut Vec<HandedKeeper>,
) -> Result<(), NoMemory>
    ensures ok { OnOk result (given.new.items ≡ given.old.items ++ record { name = name.now; rows = rows } ∷ []) }
    ensures err { OnErr result (given.new.items ≡ given.old.items) }
{
    let name = Name::copy_of(alloc, name.as_bytes())?;
    given.push(HandedKeeper { name, rows })?;
    Ok(())
}

// Takes out the next keeper, or makes one without deeds after the last, and notes its name and its deeds.
fn next_keeper(
    alloc: Global,
    name: &str,
    keepers: &mut Vec<MemKeeper>,
    given: &mut Vec<HandedKeeper>,
) -> Result<MemKeeper, NoMemory>
    requires unfailed { All HasNotFailed keepers.old.items }
    ensures unfailed { IfOk result HasNotFailed }
    ensures in_order { IfOk result (λ keeper. 0 < length keepers.old.items → keepers.old.items ≡ keeper ∷ keepers.new.items) }
    ensures after_last { IfOk result (λ keeper. keepers.old.items ≡ [] → IsEmptyKeeper keeper × (keepers.new.items ≡ [])) }
    ensures kept { OnErr result (keepers.new.items ≡ keepers.old.items) }
    ensures others { All HasNotFailed keepers.new.items }
    ensures given { IfOk result (λ keeper. given.new.items ≡ given.old.items ++ record { name = name.now; rows = keeper_rows keeper } ∷ []) }
    ensures same { OnErr result (given.new.items ≡ given.old.items) }
{
    if keepers.is_empty() {
        note(alloc, name, Rows::new(alloc), given)?;
        return MemKeeper::make(alloc, Rows::new(alloc));
    }
    let rows = keepers[0].copy_rows()?;
    note(alloc, name, rows, given)?;
    Ok(keepers.remove(0))
}

// Hands out the next keeper, notes its name and its deeds, and takes the room for its coming home.
fn hand_out(
    alloc: Global,
    name: &str,
    keepers: &mut Vec<MemKeeper>,
    given: &mut Vec<HandedKeeper>,
    home: &mut Vec<KeeperHome>,
    out: usize,
) -> Result<MemKeeper, NoMemory>
    requires unfailed { All HasNotFailed keepers.old.items }
    requires room { vec_len home.old + out ≤ vec_capacity home.old }
    ensures unfailed { IfOk result HasNotFailed }
    ensures in_order { IfOk result (λ keeper. 0 < length keepers.old.items → keepers.old.items ≡ keeper ∷ keepers.new.items) }
    ensures after_last { IfOk result (λ keeper. keepers.old.items ≡ [] → IsEmptyKeeper keeper × (keepers.new.items ≡ [])) }
    ensures kept { OnErr result (keepers.new.items ≡ keepers.old.items) }
    ensures others { All HasNotFailed keepers.new.items }
    ensures given { IfOk result (λ keeper. given.new.items ≡ given.old.items ++ record { name = name.now; rows = keeper_rows keeper } ∷ []) }
    ensures same { OnErr result (given.new.items ≡ given.old.items) }
    ensures home { home.new.items ≡ home.old.items }
    ensures room { vec_len home.new + out ≤ vec_capacity home.new }
    ensures more_room { OnOk result (vec_len home.new + out + 1 ≤ vec_capacity home.new) }
{
    home.reserve(out + 1)?;
    next_keeper(alloc, name, keepers, given)
}

impl MemCabinet {
    ghost use Rattle.desk_outside.specs.CabinetMemory.{cabinet_keepers, cabinet_told, cabinet_calls};

    /// A cabinet with these keepers, whose counts are 0, and of which no call is listed.
    pub fn make(alloc: Global, keepers: Rows<MemKeeper>) -> Result<MemCabinet, NoMemory>
        requires { All HasNotFailed keepers }
        ensures ok { IsOk result }
        ensures keepers { IfOk result (λ c. cabinet_keepers c ≡ keepers) }
        ensures told { IfOk result (λ c. cabinet_told c ≡ fresh_cabinet) }
        ensures calls { IfOk result (λ c. cabinet_calls c ≡ fresh_calls []) }
    {
        Ok(MemCabinet {
            alloc,
            keepers: keepers.into_vec(),
            given: Vec::new(alloc),
            home: Vec::new(alloc),
            out: 0,
            calls: Calls::sure(alloc),
        })
    }

    /// A cabinet with these keepers, whose counts are 0, and whose calls of `keeper` with these numbers fail, counted
    /// from 1.
    pub fn make_failing(
        alloc: Global,
        keepers: Rows<MemKeeper>,
        calls: Rows<u64>,
    ) -> Result<MemCabinet, NoMemory>
        requires { All HasNotFailed keepers }
        ensures ok { IsOk result }
        ensures keepers { IfOk result (λ c. cabinet_keepers c ≡ keepers) }
        ensures told { IfOk result (λ c. cabinet_told c ≡ fresh_cabinet) }
        ensures calls { IfOk result (λ c. cabinet_calls c ≡ fresh_calls calls) }
    {
        Ok(MemCabinet {
            alloc,
            keepers: keepers.into_vec(),
            given: Vec::new(alloc),
            home: Vec::new(alloc),
            out: 0,
            calls: Calls::failing(calls),
        })
    }

    /// The keepers as they were handed out, in that order.
    pub fn given(&self) -> &[HandedKeeper]
        ensures { result.now ≡ (cabinet_told self.now).given }
    {
        &self.given
    }

    /// The keepers that are home, in the order of coming home.
    pub fn home(&self) -> &[KeeperHome]
        ensures { result.now ≡ (cabinet_told self.now).home }
    {
        &self.home
    }
}

impl Cabinet for MemCabinet {
    ghost use Rattle.desk_outside.specs.CabinetMemory.{cabinet_keepers, cabinet_told, cabinet_calls};

    type K = MemKeeper;

    ghost told = { λ c. Some (cabinet_told c) };

    ghost faults = { λ c. (cabinet_calls c).faults };

    fn keeper(&mut self, name: &str) -> Result<MemKeeper, KeepFault>
        ensures unfailed { IfOk result (λ keeper. (keeper_calls keeper).faults ≡ 0) }
        ensures handed { IfOk result (λ keeper. (told_old : CabinetTold) → Some (cabinet_told self.old) ≡ Some told_old
            → (rows : List Deed) × (Some (keeper_rows keeper) ≡ Some rows) × (Some (cabinet_told self.new) ≡ Some (keeper_handed told_old name.now rows))) }
        ensures same { OnErr result (Some (cabinet_told self.new) ≡ Some (cabinet_told self.old)) }
        ensures silent { Some (cabinet_told self.old) ≡ None → Some (cabinet_told self.new) ≡ None }
        ensures later { (cabinet_calls self.old).faults ≤ (cabinet_calls self.new).faults }
        ensures failed { IsErrOf result KeepFault.Failed → Rose (cabinet_calls self.old).faults (cabinet_calls self.new).faults }

        // The keepers are handed out in order, and after the last come keepers without deeds.
        ensures in_order { IfOk result (λ keeper. 0 < length (cabinet_keepers self.old) → cabinet_keepers self.old ≡ keeper ∷ cabinet_keepers self.new) }
        ensures after_last { IfOk result (λ keeper. cabinet_keepers self.old ≡ [] → IsEmptyKeeper keeper × (cabinet_keepers self.new ≡ [])) }
        ensures kept { OnErr result (cabinet_keepers self.new ≡ cabinet_keepers self.old) }

        // It fails, and its count rises, in the calls that are listed and in no other.
        ensures listed { IsErrOf result KeepFault.Failed ↔ IsTrue (fails_next (cabinet_calls self.old)) }
        ensures counted { cabinet_calls self.new ≡ after_call (cabinet_calls self.old) }
    {
        if self.calls.fails() {
            return Err(KeepFault::Failed);
        }
        let made = hand_out(
            self.alloc,
            name,
            &mut self.keepers,
            &mut self.given,
            &mut self.home,
            self.out,
        );
        match made {
            Ok(keeper) => {
                self.out += 1;
                Ok(keeper)
            }
            Err(NoMemory) => Err(KeepFault::NoMemory),
        }
    }

    fn back(&mut self, keeper: MemKeeper)
        requires { (told_old : CabinetTold) → Some (cabinet_told self.old) ≡ Some told_old → 0 < told_old.out }
        ensures home { (told_old : CabinetTold) (rows : List Deed) → Some (cabinet_told self.old) ≡ Some told_old → Some (keeper_rows keeper) ≡ Some rows
            → Some (cabinet_told self.new) ≡ Some (keeper_home told_old rows (keeper_calls keeper).faults) }
        ensures silent { Some (cabinet_told self.old) ≡ None → Some (cabinet_told self.new) ≡ None }
        ensures count { (cabinet_calls self.new).faults ≡ (if (keeper_calls keeper).faults == 0 then (cabinet_calls self.old).faults else raised (cabinet_calls self.old).faults) }
        ensures later { (cabinet_calls self.old).faults ≤ (cabinet_calls self.new).faults }
        ensures kept { cabinet_keepers self.new ≡ cabinet_keepers self.old }
        ensures calls { cabinet_calls self.new ≡ (if (keeper_calls keeper).faults == 0 then cabinet_calls self.old else after_fault (cabinet_calls self.old)) }
    {
        let home = keeper.into_home();
        if home.faults != 0 {
            self.calls.fault();
        }
        // The room was taken when a keeper was handed out.
        let _ = self.home.push(home);
        self.out -= 1;
    }
}
