//! The tables of a store. The number of a deed, from 0, runs over three of them together:
//! `designs`, `logs2` and `signoffs`.
use crate::statements::rows_of;
use sqlite::{Alter, Connection, Error, Transaction, params};

const TABLES: &str =
    "CREATE TABLE IF NOT EXISTS designs (n INTEGER PRIMARY KEY, seat INTEGER NOT NULL, name BLOB NOT NULL, body BLOB NOT NULL);
CREATE TABLE IF NOT EXISTS logs (n INTEGER PRIMARY KEY, seat INTEGER NOT NULL, design BLOB NOT NULL, die BLOB NOT NULL, body BLOB NOT NULL);
CREATE TABLE IF NOT EXISTS logs2 (n INTEGER PRIMARY KEY, seat INTEGER NOT NULL, design BLOB NOT NULL, die BLOB NOT NULL, body BLOB NOT NULL, version INTEGER NOT NULL);
CREATE TABLE IF NOT EXISTS signoffs (n INTEGER PRIMARY KEY, seat INTEGER NOT NULL, design BLOB NOT NULL, die BLOB NOT NULL, revision INTEGER NOT NULL, signer BLOB NOT NULL, digest BLOB NOT NULL);
CREATE TABLE IF NOT EXISTS desk_schema (n INTEGER PRIMARY KEY)";

/// Makes the tables that aren't there.
pub fn make_tables<S: Alter>(change: &mut Transaction<'_, S>) -> Result<(), Error> {
    change.execute_batch(TABLES)
}

// The greatest number of a table, by its query.
fn greatest<S: Alter>(conn: &mut Connection<S>, query: &str) -> Result<Option<i64>, Error> {
    let rows = rows_of(conn, query, params![])?;
    match rows.first() {
        Some(row) => row.get::<Option<i64>>(0),
        None => Ok(None),
    }
}

/// The number that the next deed takes: one more than the greatest.
pub fn next_number<S: Alter>(conn: &mut Connection<S>) -> Result<i64, Error> {
    let designs = greatest(conn, "SELECT max(n) FROM designs")?;
    let logs = greatest(conn, "SELECT max(n) FROM logs2")?;
    let signs = greatest(conn, "SELECT max(n) FROM signoffs")?;
    Ok(
        designs
            .unwrap_or(-1)
            .max(logs.unwrap_or(-1))
            .max(signs.unwrap_or(-1))
            .saturating_add(1),
    )
}
