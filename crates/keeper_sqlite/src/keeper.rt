//! A keeper of deeds over an open database.
ghost use Rattle.std.specs.Prelude.{◌≡◌, ◌≤◌, ◌↔◌, None};
ghost use Rattle.desk_outside.specs.Faults.{Rose};

use crate::reading::{ReadStop, deed_at};
use crate::writing::insert;
use desk_outside::{Deed, KeepFault, Keeper};
use sqlite::{Alter, Connection, Error, ErrorCode, File, FileStore};

/// Keeps deeds in a database, one in a transaction, and counts its faults. It tells nothing of the rows. A statement that the
/// database refuses, and a number without a deed below the number of deeds, are faults.
// (Generic in the store, since a struct of no parameter round a file isn't found to be one that may be sent to a thread.)
#[derive(Drop)]
pub struct SqliteKeeper<S: Alter = FileStore<File>> {
    pub(crate) conn: Connection<S>,
    // The number that the next deed takes.
    pub(crate) next: i64,
    pub(crate) faults: u64,
}

/// What a refusal of the database is answered: want of memory where it says so, and else a fault.
pub fn fault_of(error: &Error) -> KeepFault
    ensures { (result ≡ KeepFault.NoMemory) ↔ (error.now ≡ Error.SqliteFailure ErrorCode.OutOfMemory) }
{
    match error {
        Error::SqliteFailure(ErrorCode::OutOfMemory) => KeepFault::NoMemory,
        _ => KeepFault::Failed,
    }
}

impl<S: Alter> SqliteKeeper<S> {
    // Counts a fault.
    fn failed(&mut self, fault: KeepFault) -> KeepFault
        ensures rose { Rose self.old.faults self.new.faults }
        ensures later { self.old.faults ≤ self.new.faults }
        ensures same { result ≡ fault }
    {
        self.faults = self.faults.saturating_add(1);
        fault
    }
}

impl<S: Alter + Drop> Keeper for SqliteKeeper<S> {
    ghost rows = { λ _. None };

    ghost faults = { λ s. s.faults };

    fn append(&mut self, deed: &Deed) -> Result<(), KeepFault> {
        let n = self.next;
        match insert(&mut self.conn, n, deed) {
            Ok(()) => {
                self.next = n.saturating_add(1);
                Ok(())
            }
            Err(error) => Err(self.failed(fault_of(&error))),
        }
    }

    fn row(&mut self, i: u64) -> Result<Option<Deed>, KeepFault> {
        let Ok(n) = i64::try_from(i) else {
            return Ok(None);
        };
        if n >= self.next {
            return Ok(None);
        }
        match deed_at(&mut self.conn, n) {
            Ok(Some(deed)) => Ok(Some(deed)),
            Err(ReadStop::Refused(error)) => Err(self.failed(fault_of(&error))),
            Ok(None) | Err(ReadStop::NoDeed) => Err(self.failed(KeepFault::Failed)),
        }
    }

    fn count(&self) -> u64 {
        self.faults
    }
}
