//! Statements that a store is asked to run. Each call tells nothing of the store, as the keeper does: what the database says of a
//! statement stays here, and no function above carries it through its proof.
use sqlite::types::ValueRef;
use sqlite::{Alter, Connection, Error, Row, Transaction};

/// The rows that a query shows.
pub fn rows_of<S: Alter>(
    conn: &mut Connection<S>,
    query: &str,
    values: &[ValueRef<'_>],
) -> Result<Vec<Row>, Error> {
    conn.query_all(query, values)
}

/// Runs a statement in a transaction of its own.
pub fn run<S: Alter>(
    conn: &mut Connection<S>,
    statement: &str,
    values: &[ValueRef<'_>],
) -> Result<(), Error> {
    conn.execute(statement, values)?;
    Ok(())
}

/// Runs a statement in an open transaction.
pub fn run_in<S: Alter>(
    change: &mut Transaction<'_, S>,
    statement: &str,
    values: &[ValueRef<'_>],
) -> Result<(), Error> {
    change.execute(statement, values)?;
    Ok(())
}
