//! Where keepers come from.
ghost use Rattle.std.specs.Prelude.{◌≡◌, ◌≤◌, ◌<◌, ◌==◌, ℕ, List, Option, Some, None, IfOk, OnErr, IsErrOf, if◌then◌else◌};
ghost use Rattle.desk_outside.specs.declared.deed.Deed.{Deed};
ghost use Rattle.desk_outside.specs.declared.keeper.KeepFault.{KeepFault};
ghost use Rattle.desk_outside.specs.Faults.{Rose, raised};
ghost use Rattle.desk_outside.specs.Cabinets.{CabinetTold, keeper_handed, keeper_home};

use crate::deed::Deed;
use crate::keeper::{KeepFault, Keeper};
use scan_model::{Name, Rows};

/// A keeper as it was handed out: the name that it was asked for by, and its deeds.
#[derive(Drop)]
pub struct HandedKeeper {
    pub name: Name,
    pub rows: Rows<Deed>,
}

/// A keeper that is home: its deeds, and its count of faults.
#[derive(Drop)]
pub struct KeeperHome {
    pub rows: Rows<Deed>,
    pub faults: u64,
}

/// A cabinet, which hands out keepers and takes each home.
pub trait Cabinet: Drop {
    type K: Keeper;

    ghost use Rattle.desk_outside.specs.Cabinets.{CabinetTold};

    /// What was handed out and what came home, where the cabinet tells it.
    ghost told: { Self → Option CabinetTold };

    /// How often it has failed. The count never falls, and stays at 2^64 - 1 once it is there.
    ghost faults: { Self → ℕ };

    /// A keeper for this name. Its count of faults is 0. Where the cabinet tells what it hands out, the keeper tells its
    /// deeds too.
    fn keeper(&mut self, name: &str) -> Result<Self::K, KeepFault>
        ensures unfailed { IfOk result (λ keeper. Self.K.faults keeper ≡ 0) }
        ensures handed { IfOk result (λ keeper. (told_old : CabinetTold) → told self.old ≡ Some told_old
            → (rows : List Deed) × (Self.K.rows keeper ≡ Some rows) × (told self.new ≡ Some (keeper_handed told_old name.now rows))) }
        ensures same { OnErr result (told self.new ≡ told self.old) }
        ensures silent { told self.old ≡ None → told self.new ≡ None }
        ensures later { faults self.old ≤ faults self.new }
        ensures failed { IsErrOf result KeepFault.Failed → Rose (faults self.old) (faults self.new) };

    /// Takes a keeper home. The cabinet's count rises where the keeper's isn't 0, and nowhere else.
    fn back(&mut self, keeper: Self::K)
        requires { (told_old : CabinetTold) → told self.old ≡ Some told_old → 0 < told_old.out }
        ensures home { (told_old : CabinetTold) (rows : List Deed) → told self.old ≡ Some told_old → Self.K.rows keeper ≡ Some rows
            → told self.new ≡ Some (keeper_home told_old rows (Self.K.faults keeper)) }
        ensures silent { told self.old ≡ None → told self.new ≡ None }
        ensures count { faults self.new ≡ (if Self.K.faults keeper == 0 then faults self.old else raised (faults self.old)) }
        ensures later { faults self.old ≤ faults self.new };
}
