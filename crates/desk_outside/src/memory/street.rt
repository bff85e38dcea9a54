//! A street in memory.
ghost use Rattle.std.specs.Prelude.{◌≡◌, ◌≤◌, ◌<◌, ◌+◌, ◌∷◌, ◌++◌, Option, Some, None, IfOk, IsOk, OnOk, OnErr, [], length, vec_len, vec_capacity, All, false, ◌==◌, if◌then◌else◌};
ghost use Rattle.desk_outside.specs.DoorMemory.{door_told, door_calls, IsUnusedDoor, IsEmptyDoor};
ghost use Rattle.desk_outside.specs.Doors.{DoorTold, fresh_door};
ghost use Rattle.desk_outside.specs.Faults.{Rose, raised};
ghost use Rattle.desk_outside.specs.Schedule.{fresh_calls, fails_next, after_call, after_failure, after_fault};
ghost use Rattle.desk_outside.specs.Streets.{StreetTold, door_handed, door_home, fresh_street};

use super::door::MemDoor;
use crate::calls::{Calls, Failed};
use crate::street::{DoorHome, Street};
use scan_model::{NoMemory, Rows};
use std::alloc::Global;

/// Doors in memory, which are handed out in order whatever the port, and after the last of them doors without links.
/// The calls of `door` that are listed fail, and so does one for which there is no memory.
#[derive(Drop)]
pub struct MemStreet {
    alloc: Global,
    doors: Vec<MemDoor>,
    ports: Vec<u16>,
    home: Vec<DoorHome>,
    out: usize,
    calls: Calls,
    ghost room: { vec_len home + out ≤ vec_capacity home },
    ghost unused: { All IsUnusedDoor doors.items },
}

// Takes out the next door, or makes one without links after the last.
fn next_door(alloc: Global, doors: &mut Vec<MemDoor>) -> MemDoor
    requires unused { All IsUnusedDoor doors.old.items }
    ensures unused { IsUnusedDoor result }
    ensures in_order { 0 < length doors.old.items → doors.old.items ≡ result ∷ doors.new.items }
    ensures after_last { doors.old.items ≡ [] → IsEmptyDoor result × (doors.new.items ≡ []) }
    ensures others { All IsUnusedDoor doors.new.items }
{
    if doors.is_empty() {
        return MemDoor::empty(alloc);
    }
    doors.remove(0)
}

// Hands out the next door, notes its port, and takes the room for its coming home.
fn hand_out(
    alloc: Global,
    port: u16,
    doors: &mut Vec<MemDoor>,
    ports: &mut Vec<u16>,
    home: &mut Vec<DoorHome>,
    out: usize,
) -> Result<MemDoor, NoMemory>
    requires unused { All IsUnusedDoor doors.old.items }
    requires room { vec_len home.old + out ≤ vec_capacity home.old }
    ensures unused { IfOk result IsUnusedDoor }
    ensures in_order { IfOk result (λ door. 0 < length doors.old.items → doors.old.items ≡ door ∷ doors.new.items) }
    ensures after_last { IfOk result (λ door. doors.old.items ≡ [] → IsEmptyDoor door × (doors.new.items ≡ [])) }
    ensures kept { OnErr result (doors.new.items ≡ doors.old.items) }
    ensures others { All IsUnusedDoor doors.new.items }
    ensures ports { OnOk result (ports.new.items ≡ ports.old.items ++ port ∷ []) }
    ensures same { OnErr result (ports.new.items ≡ ports.old.items) }
    ensures home { home.new.items ≡ home.old.items }
    ensures room { vec_len home.new + out ≤ vec_capacity home.new }
    ensures more_room { OnOk result (vec_len home.new + out + 1 ≤ vec_capacity home.new) }
{
    home.reserve(out + 1)?;
    ports.push(port)?;
    Ok(next_door(alloc, doors))
}

impl MemStreet {
    ghost use Rattle.desk_outside.specs.StreetMemory.{street_doors, street_told, street_calls};

    /// A street with these doors, which are unused, and of which no call is listed.
    pub fn make(alloc: Global, doors: Rows<MemDoor>) -> Result<MemStreet, NoMemory>
        requires { All IsUnusedDoor doors }
        ensures ok { IsOk result }
        ensures doors { IfOk result (λ s. street_doors s ≡ doors) }
        ensures told { IfOk result (λ s. street_told s ≡ fresh_street) }
        ensures calls { IfOk result (λ s. street_calls s ≡ fresh_calls []) }
    {
        Ok(MemStreet {
            alloc,
            doors: doors.into_vec(),
            ports: Vec::new(alloc),
            home: Vec::new(alloc),
            out: 0,
            calls: Calls::sure(alloc),
        })
    }

    /// A street with these doors, which are unused, and whose calls of `door` with these numbers fail, counted from 1.
    pub fn make_failing(
        alloc: Global,
        doors: Rows<MemDoor>,
        calls: Rows<u64>,
    ) -> Result<MemStreet, NoMemory>
        requires { All IsUnusedDoor doors }
        ensures ok { IsOk result }
        ensures doors { IfOk result (λ s. street_doors s ≡ doors) }
        ensures told { IfOk result (λ s. street_told s ≡ fresh_street) }
        ensures calls { IfOk result (λ s. street_calls s ≡ fresh_calls calls) }
    {
        Ok(MemStreet {
            alloc,
            doors: doors.into_vec(),
            ports: Vec::new(alloc),
            home: Vec::new(alloc),
            out: 0,
            calls: Calls::failing(calls),
        })
    }

    /// The port of each door that was handed out, in that order.
    pub fn ports(&self) -> &[u16]
        ensures { result.now ≡ (street_told self.now).ports }
    {
        &self.ports
    }

    /// The doors that are home, in the order of coming home.
    pub fn home(&self) -> &[DoorHome]
        ensures { result.now ≡ (street_told self.now).home }
    {
        &self.home
    }
}

impl Street for MemStreet {
    ghost use Rattle.desk_outside.specs.StreetMemory.{street_doors, street_told, street_calls};

    type D = MemDoor;

    ghost told = { λ s. Some (street_told s) };

    ghost faults = { λ s. (street_calls s).faults };

    fn door(&mut self, port: u16) -> Result<MemDoor, Failed>
        ensures unfailed { IfOk result (λ door. (door_calls door).faults ≡ 0) }
        ensures unused { IfOk result (λ door. (told_door : DoorTold) → Some (door_told door) ≡ Some told_door → told_door ≡ fresh_door) }
        ensures handed { IfOk result (λ door. (told_old : StreetTold) → Some (street_told self.old) ≡ Some told_old
            → (Some (door_told door) ≡ Some fresh_door) × (Some (street_told self.new) ≡ Some (door_handed told_old port))) }
        ensures same { OnErr result (Some (street_told self.new) ≡ Some (street_told self.old)) }
        ensures silent { Some (street_told self.old) ≡ None → Some (street_told self.new) ≡ None }
        ensures later { (street_calls self.old).faults ≤ (street_calls self.new).faults }
        ensures failed { OnErr result (Rose (street_calls self.old).faults (street_calls self.new).faults) }

        // The doors are handed out in order, and after the last come doors without links.
        ensures in_order { IfOk result (λ door. 0 < length (street_doors self.old) → street_doors self.old ≡ door ∷ street_doors self.new) }
        ensures after_last { IfOk result (λ door. street_doors self.old ≡ [] → IsEmptyDoor door × (street_doors self.new ≡ [])) }
        ensures kept { OnErr result (street_doors self.new ≡ street_doors self.old) }

        // Its count rises in a call that is listed, or that finds no memory, and in no other.
        ensures listed { OnOk result (fails_next (street_calls self.old) ≡ false) }
        ensures counted { OnOk result (street_calls self.new ≡ after_call (street_calls self.old)) }
        ensures refused { OnErr result (street_calls self.new ≡ after_failure (street_calls self.old)) }
    {
        if self.calls.fails() {
            return Err(Failed);
        }
        let made = hand_out(
            self.alloc,
            port,
            &mut self.doors,
            &mut self.ports,
            &mut self.home,
            self.out,
        );
        match made {
            Ok(door) => {
                self.out += 1;
                Ok(door)
            }
            Err(NoMemory) => {
                self.calls.fault();
                Err(Failed)
            }
        }
    }

    fn back(&mut self, door: MemDoor)
        requires { (told_old : StreetTold) → Some (street_told self.old) ≡ Some told_old → 0 < told_old.out }
        ensures home { (told_old : StreetTold) (told_door : DoorTold) → Some (street_told self.old) ≡ Some told_old → Some (door_told door) ≡ Some told_door
            → Some (street_told self.new) ≡ Some (door_home told_old told_door (door_calls door).faults) }
        ensures silent { Some (street_told self.old) ≡ None → Some (street_told self.new) ≡ None }
        ensures count { (street_calls self.new).faults ≡ (if (door_calls door).faults == 0 then (street_calls self.old).faults else raised (street_calls self.old).faults) }
        ensures later { (street_calls self.old).faults ≤ (street_calls self.new).faults }
        ensures kept { street_doors self.new ≡ street_doors self.old }
        ensures calls { street_calls self.new ≡ (if (door_calls door).faults == 0 then street_calls self.old else after_fault (street_calls self.old)) }
    {
        let home = door.into_home();
        if home.failed {
            self.calls.fault();
        }
        // The room was taken when a door was handed out.
        let _ = self.home.push(home);
        self.out -= 1;
    }
}
