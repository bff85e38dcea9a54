//! The form of a store: whose tables it has, and how the logs of an older program are taken over.
use crate::statements::{rows_of, run_in};
use crate::tables::make_tables;
use sqlite::{Alter, Connection, Error, ErrorCode, Row, Transaction, params};

// The one row of `desk_schema` in a store of this program.
const FORM: i64 = 2;

/// Which program a store is of, by its table `desk_schema`.
#[derive(Clone, Copy, PartialEq, Eq)]
pub enum StoreForm {
    /// New, or of a program before `desk_schema`: its logs are in `logs`.
    Older,
    /// This program's.
    Ours,
    /// Of a later program, which may have put anything elsewhere.
    Later,
}

// Whether there is a table `desk_schema`.
fn has_form<S: Alter>(conn: &mut Connection<S>) -> Result<bool, Error> {
    let rows = rows_of(
        conn,
        "SELECT name FROM sqlite_schema WHERE lower(name) = 'desk_schema'",
        params![],
    )?;
    Ok(!rows.is_empty())
}

// The form that the rows of `desk_schema` tell.
fn form_in(rows: &[Row]) -> Result<StoreForm, Error> {
    match rows {
        [] => Ok(StoreForm::Older),
        [row] if row.get::<i64>(0)? == FORM => Ok(StoreForm::Ours),
        _ => Ok(StoreForm::Later),
    }
}

/// Looks which program the store is of, and writes nothing.
pub fn form_of<S: Alter>(conn: &mut Connection<S>) -> Result<StoreForm, Error> {
    if !has_form(conn)? {
        return Ok(StoreForm::Older);
    }
    let rows = rows_of(conn, "SELECT n FROM desk_schema", params![])?;
    form_in(&rows)
}

// Moves the logs of an older program to where this one has them.
fn take_logs_over<S: Alter>(change: &mut Transaction<'_, S>) -> Result<(), Error> {
    run_in(
        change,
        "INSERT INTO logs2 (n, seat, design, die, body, version) SELECT n, seat, design, die, body, 1 FROM logs",
        params![],
    )?;
    run_in(change, "DELETE FROM logs", params![])?;
    run_in(
        change,
        "INSERT INTO desk_schema (n) VALUES (?1)",
        params![FORM],
    )
}

fn change_to_ours<S: Alter>(change: &mut Transaction<'_, S>, form: StoreForm) -> Result<(), Error> {
    make_tables(change)?;
    if form == StoreForm::Older {
        take_logs_over(change)?;
    }
    Ok(())
}

/// Makes the tables that aren't there, and takes the logs of an older program over: all in one
/// transaction, or nothing of it.
pub fn make_ready<S: Alter>(conn: &mut Connection<S>, form: StoreForm) -> Result<(), Error> {
    if !conn.is_autocommit() {
        return Err(Error::SqliteFailure(ErrorCode::TransactionState));
    }
    let mut change = conn.transaction();
    change_to_ours(&mut change, form)?;
    change.commit()
}
