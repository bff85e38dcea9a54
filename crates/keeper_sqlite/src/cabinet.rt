//! A cabinet of database files.
ghost use Rattle.std.specs.Prelude.{◌≡◌, None, IfOk};

use crate::form::{StoreForm, form_of, make_ready};
use crate::keeper::{SqliteKeeper, fault_of};
use crate::tables::next_number;
use desk_outside::{Cabinet, KeepFault};
use sqlite::{Alter, Connection, Error, File, FileStore};
use std::alloc::Global;
use std::rt::HostRuntime;

/// Opens a database file for each keeper that it is asked for, makes its tables where they aren't
/// there, and takes the logs of an older program over. A later program's file is a fault, and is
/// left as it is. It counts its faults and tells nothing of the files.
#[derive(Drop)]
pub struct SqliteCabinet {
    rt: HostRuntime,
    faults: u64,
}

impl SqliteCabinet {
    /// A cabinet of the files where the program runs, with no fault yet.
    pub fn make(rt: &HostRuntime, _alloc: Global) -> Self
        ensures { result.faults ≡ 0 }
    {
        SqliteCabinet { rt: *rt, faults: 0 }
    }
}

// Makes an open store ready, and answers the number of its next deed, or nothing where it is a
// later program's.
fn prepared<S: Alter>(conn: &mut Connection<S>) -> Result<Option<i64>, Error> {
    let form = form_of(conn)?;
    if form == StoreForm::Later {
        return Ok(None);
    }
    make_ready(conn, form)?;
    Ok(Some(next_number(conn)?))
}

// The number of the next deed of an open store.
fn number_in<S: Alter>(conn: &mut Connection<S>) -> Result<i64, KeepFault> {
    match prepared(conn) {
        Ok(Some(next)) => Ok(next),
        Ok(None) => Err(KeepFault::Failed),
        Err(error) => Err(fault_of(&error)),
    }
}

// A keeper over an open database, with its tables.
fn keeper_over<S: Alter + Drop>(conn: Connection<S>) -> Result<SqliteKeeper<S>, KeepFault>
    ensures { IfOk result (λ keeper. keeper.faults ≡ 0) }
{
    let mut conn = conn;
    // Where it isn't made ready it is let go and not closed, since that would write into its file
    // what is beside it.
    let next = number_in(&mut conn)?;
    Ok(SqliteKeeper {
        conn,
        next,
        faults: 0,
    })
}

// A keeper over a database, where it was opened.
fn keeper_of<S: Alter + Drop>(
    opened: Result<Connection<S>, Error>,
) -> Result<SqliteKeeper<S>, KeepFault>
    ensures { IfOk result (λ keeper. keeper.faults ≡ 0) }
{
    match opened {
        Ok(conn) => keeper_over(conn),
        Err(error) => Err(fault_of(&error)),
    }
}

// A keeper over the database in a file. (The type of a file's database is long: what is done with one is said for any.)
fn opened(rt: &HostRuntime, name: &str) -> Result<SqliteKeeper, KeepFault>
    ensures { IfOk result (λ keeper. keeper.faults ≡ 0) }
{
    keeper_of(Connection::open(rt, name))
}

// What the database wrote beside its file goes into it here; where that fails, the next opening does it.
fn close(conn: Connection<FileStore<File>>) {
    let _ = conn.close();
}

impl Cabinet for SqliteCabinet {
    type K = SqliteKeeper;

    ghost told = { λ _. None };

    ghost faults = { λ c. c.faults };

    fn keeper(&mut self, name: &str) -> Result<SqliteKeeper, KeepFault> {
        match opened(&self.rt, name) {
            Ok(keeper) => Ok(keeper),
            Err(fault) => {
                self.faults = self.faults.saturating_add(1);
                Err(fault)
            }
        }
    }

    fn back(&mut self, keeper: SqliteKeeper) {
        let SqliteKeeper {
            conn,
            next: _,
            faults,
        } = keeper;
        if faults != 0 {
            self.faults = self.faults.saturating_add(1);
        }
        close(conn);
    }
}
