//! Doors of a street: all are asked for before the first connection, and each comes home.
ghost use Rattle.std.specs.Prelude.{◌≡◌, ◌≤◌, ◌<◌, [], true, length, map, All, Some, None, OnOk, OnErr, vec_capacity};
ghost use Rattle.std.specs.List.{list_any};
ghost use Rattle.desk_outside.specs.Faults.{Rose};
ghost use Rattle.desk_outside.specs.Streets.{StreetTold};
ghost use Rattle.desk_serve.specs.Doors.{IsFreshDoor, Tells, has_failed, with_doors_out, with_doors_home};

use desk_outside::{Door, Failed, Street};

/// Asks for so many doors of a port, for which there is room. Those before a failure are there.
pub fn take_doors<S: Street>(
    street: &mut S,
    port: u16,
    count: u32,
    doors: &mut Vec<S::D>,
) -> Result<(), Failed>
    requires none { doors.old.items ≡ [] }
    requires room { count ≤ vec_capacity doors.old }
    ensures all { OnOk result (length doors.new.items ≡ count) }
    ensures few { OnErr result (length doors.new.items < count) }
    ensures fresh { All (λ door. IsFreshDoor (record { told = S.D.told door; faults = S.D.faults door })) doors.new.items }
    ensures out { (told : StreetTold) → S.told street.old ≡ Some told → S.told street.new ≡ Some (with_doors_out told port (length doors.new.items)) }
    ensures telling { (told : StreetTold) → S.told street.old ≡ Some told → All (λ door. Tells (record { told = S.D.told door; faults = S.D.faults door })) doors.new.items }
    ensures silent { S.told street.old ≡ None → S.told street.new ≡ None }
    ensures later { S.faults street.old ≤ S.faults street.new }
    ensures failed { OnErr result (Rose (S.faults street.old) (S.faults street.new)) }
{
    while doors.len() < count as usize {
        let door = match street.door(port) {
            Ok(door) => door,
            Err(Failed) => return Err(Failed),
        };
        if doors.push(door).is_err() {
            unreachable!()
        }
    }
    Ok(())
}

/// Hands the doors back, in their order.
pub fn hand_back<S: Street>(street: &mut S, doors: Vec<S::D>)
    requires out { (told : StreetTold) → S.told street.old ≡ Some told → length doors.items ≤ told.out }
    requires telling { (told : StreetTold) → S.told street.old ≡ Some told → All (λ door. Tells (record { told = S.D.told door; faults = S.D.faults door })) doors.items }
    ensures home { (told : StreetTold) → S.told street.old ≡ Some told → S.told street.new ≡ Some (with_doors_home told (map (λ door. record { told = S.D.told door; faults = S.D.faults door }) doors.items)) }
    ensures silent { S.told street.old ≡ None → S.told street.new ≡ None }
    ensures later { S.faults street.old ≤ S.faults street.new }
    ensures failed { list_any has_failed (map (λ door. record { told = S.D.told door; faults = S.D.faults door }) doors.items) ≡ true → Rose (S.faults street.old) (S.faults street.new) }
{
    for door in doors {
        street.back(door);
    }
}
