//! Where doors come from.
ghost use Rattle.std.specs.Prelude.{◌≡◌, ◌≤◌, ◌<◌, ◌==◌, ℕ, Option, Some, None, IfOk, OnErr, if◌then◌else◌};
ghost use Rattle.desk_outside.specs.Faults.{Rose, raised};
ghost use Rattle.desk_outside.specs.Doors.{DoorTold, fresh_door};
ghost use Rattle.desk_outside.specs.Streets.{StreetTold, door_handed, door_home};

use crate::calls::Failed;
use crate::door::{Door, LinkHome};
use scan_model::{Name, Rows};

/// A door that is home: the bytes that each of its links had left when it was handed out, the links that came home to
/// it, and whether the door has failed.
#[derive(Drop)]
pub struct DoorHome {
    pub given: Rows<Name>,
    pub done: Rows<LinkHome>,
    pub failed: bool,
}

/// A street, which hands out doors and takes each home.
pub trait Street: Drop {
    type D: Door;

    ghost use Rattle.desk_outside.specs.Streets.{StreetTold};

    /// What was handed out and what came home, where the street tells it.
    ghost told: { Self → Option StreetTold };

    /// How often it has failed. The count never falls, and stays at 2^64 - 1 once it is there.
    ghost faults: { Self → ℕ };

    /// A door of this port. It has handed out nothing, nothing came home to it, and its count of faults is 0. Where the
    /// street tells what it hands out, the door tells its connections too.
    fn door(&mut self, port: u16) -> Result<Self::D, Failed>
        ensures unfailed { IfOk result (λ door. Self.D.faults door ≡ 0) }
        ensures unused { IfOk result (λ door. (told_door : DoorTold) → Self.D.told door ≡ Some told_door → told_door ≡ fresh_door) }
        ensures handed { IfOk result (λ door. (told_old : StreetTold) → told self.old ≡ Some told_old
            → (Self.D.told door ≡ Some fresh_door) × (told self.new ≡ Some (door_handed told_old port))) }
        ensures same { OnErr result (told self.new ≡ told self.old) }
        ensures silent { told self.old ≡ None → told self.new ≡ None }
        ensures later { faults self.old ≤ faults self.new }
        ensures failed { OnErr result (Rose (faults self.old) (faults self.new)) };

    /// Takes a door home. The street's count rises where the door's isn't 0, and nowhere else.
    fn back(&mut self, door: Self::D)
        requires { (told_old : StreetTold) → told self.old ≡ Some told_old → 0 < told_old.out }
        ensures home { (told_old : StreetTold) (told_door : DoorTold) → told self.old ≡ Some told_old → Self.D.told door ≡ Some told_door
            → told self.new ≡ Some (door_home told_old told_door (Self.D.faults door)) }
        ensures silent { told self.old ≡ None → told self.new ≡ None }
        ensures count { faults self.new ≡ (if Self.D.faults door == 0 then faults self.old else raised (faults self.old)) }
        ensures later { faults self.old ≤ faults self.new };
}
