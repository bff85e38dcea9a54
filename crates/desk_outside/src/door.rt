//! Where connections come from.
ghost use Rattle.std.specs.Prelude.{◌≡◌, ◌≤◌, ◌<◌, ℕ, List, Option, Some, None, IfOk, OnErr, []};
ghost use Rattle.desk_outside.specs.Faults.{Rose};
ghost use Rattle.desk_outside.specs.Doors.{DoorTold, handed, came_home};

use crate::calls::Failed;
use crate::link::Link;
use scan_model::Name;

/// A connection that is home: the bytes that were sent, and whether it has failed.
#[derive(Drop)]
pub struct LinkHome {
    pub sent: Name,
    pub failed: bool,
}

/// A door, which hands out connections and takes each home.
pub trait Door: Drop {
    type L: Link + Send;

    ghost use Rattle.desk_outside.specs.Doors.{DoorTold};

    /// What was handed out and what came home, where the door tells it.
    ghost told: { Self → Option DoorTold };

    /// How often it has failed. The count never falls, and stays at 2^64 - 1 once it is there.
    ghost faults: { Self → ℕ };

    /// The next connection. Nothing was sent to it, and its count of faults is 0. Where the door tells what it hands
    /// out, the link tells its bytes too.
    fn next(&mut self) -> Result<Self::L, Failed>
        ensures unfailed { IfOk result (λ link. Self.L.faults link ≡ 0) }
        ensures unsent { IfOk result (λ link. (sent : List ℕ) → Self.L.sent link ≡ Some sent → sent ≡ []) }
        ensures handed { IfOk result (λ link. (told_old : DoorTold) → told self.old ≡ Some told_old
            → (left : List ℕ) × (Self.L.left link ≡ Some left) × (Self.L.sent link ≡ Some []) × (told self.new ≡ Some (handed told_old left))) }
        ensures same { OnErr result (told self.new ≡ told self.old) }
        ensures silent { told self.old ≡ None → told self.new ≡ None }
        ensures later { faults self.old ≤ faults self.new }
        ensures failed { OnErr result (Rose (faults self.old) (faults self.new)) };

    /// Takes a connection home. The door's own count stays, even where the connection has failed.
    fn back(&mut self, link: Self::L)
        requires { (told_old : DoorTold) → told self.old ≡ Some told_old → 0 < told_old.out }
        ensures home { (told_old : DoorTold) (sent : List ℕ) → told self.old ≡ Some told_old → Self.L.sent link ≡ Some sent
            → told self.new ≡ Some (came_home told_old sent (Self.L.faults link)) }
        ensures silent { told self.old ≡ None → told self.new ≡ None }
        ensures count { faults self.new ≡ faults self.old }
        ensures later { faults self.old ≤ faults self.new };
}
