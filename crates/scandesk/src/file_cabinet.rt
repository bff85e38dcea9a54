//! The real cabinet: database files. Its objects count their faults and tell nothing of what the files hold.
// (Round those of `keeper_sqlite`, since a call that sends their keepers to threads by their type is more than the check of a
// function may compute.)
ghost use Rattle.std.specs.Prelude.{◌≡◌, ◌≤◌, None};
ghost use Rattle.desk_outside.specs.Faults.{Rose};

use desk_outside::{Cabinet, Deed, KeepFault, Keeper};
use keeper_sqlite::{SqliteCabinet, SqliteKeeper};
use std::alloc::Global;
use std::rt::HostRuntime;

/// Keeps deeds in a database file.
#[derive(Drop)]
pub struct FileKeeper {
    keeper: SqliteKeeper,
    faults: u64,
}

impl FileKeeper {
    // Counts a fault.
    fn failed(&mut self, fault: KeepFault) -> KeepFault
        ensures rose { Rose self.old.faults self.new.faults }
        ensures later { self.old.faults ≤ self.new.faults }
        ensures same { result ≡ fault }
    {
        self.faults = self.faults.saturating_add(1);
        fault
    }
}

impl Keeper for FileKeeper {
    ghost rows = { λ _. None };

    ghost faults = { λ s. s.faults };

    fn append(&mut self, deed: &Deed) -> Result<(), KeepFault> {
        match self.keeper.append(deed) {
            Ok(()) => Ok(()),
            Err(fault) => Err(self.failed(fault)),
        }
    }

    fn row(&mut self, i: u64) -> Result<Option<Deed>, KeepFault> {
        match self.keeper.row(i) {
            Ok(deed) => Ok(deed),
            Err(fault) => Err(self.failed(fault)),
        }
    }

    fn count(&self) -> u64 {
        self.faults
    }
}

/// Opens a database file for each keeper that it is asked for.
#[derive(Drop)]
pub struct FileCabinet {
    cabinet: SqliteCabinet,
    faults: u64,
}

impl FileCabinet {
    /// A cabinet of the files where the program runs, with no fault yet.
    pub fn make(rt: &HostRuntime, alloc: Global) -> Self
        ensures { result.faults ≡ 0 }
    {
        FileCabinet {
            cabinet: SqliteCabinet::make(rt, alloc),
            faults: 0,
        }
    }
}

impl Cabinet for FileCabinet {
    type K = FileKeeper;

    ghost told = { λ _. None };

    ghost faults = { λ c. c.faults };

    fn keeper(&mut self, name: &str) -> Result<FileKeeper, KeepFault> {
        match self.cabinet.keeper(name) {
            Ok(keeper) => Ok(FileKeeper { keeper, faults: 0 }),
            Err(fault) => {
                self.faults = self.faults.saturating_add(1);
                Err(fault)
            }
        }
    }

    fn back(&mut self, keeper: FileKeeper) {
        let FileKeeper { keeper, faults } = keeper;
        if faults != 0 {
            self.faults = self.faults.saturating_add(1);
        }
        self.cabinet.back(keeper);
    }
}
