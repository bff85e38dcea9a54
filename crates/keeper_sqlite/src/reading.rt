//! Reading of deeds by their numbers.
use crate::statements::rows_of;
use desk_outside::{Deed, DeedKind};
use scan_model::{Digest, Name, Rows};
use sqlite::{Alter, Connection, Error, Row, params};

/// Why a number gave no deed.
#[derive(Drop)]
pub enum ReadStop {
    /// The database refused a statement.
    Refused(Error),
    /// What stands there is no deed: a seat outside u32, a digest that isn't 32 bytes, a revision below 0, or a number in two tables.
    NoDeed,
}

impl From<Error> for ReadStop {
    ghost from_gives = { λ _ _. Unit {0} };

    fn from(error: Error) -> Self {
        ReadStop::Refused(error)
    }
}

fn seat_of(row: &Row, at: usize) -> Result<u32, ReadStop> {
    match u32::try_from(row.get::<i64>(at)?) {
        Ok(seat) => Ok(seat),
        Err(_) => Err(ReadStop::NoDeed),
    }
}

fn revision_of(row: &Row, at: usize) -> Result<u64, ReadStop> {
    match u64::try_from(row.get::<i64>(at)?) {
        Ok(revision) => Ok(revision),
        Err(_) => Err(ReadStop::NoDeed),
    }
}

fn bytes_of(row: &Row, at: usize) -> Result<Name, ReadStop> {
    Ok(Rows::from_vec(row.get::<Vec<u8>>(at)?))
}

fn digest_of(bytes: &[u8]) -> Result<Digest, ReadStop> {
    match <[u8; 32]>::try_from(bytes) {
        Ok(bytes) => Ok(Digest::from_bytes(bytes)),
        Err(_) => Err(ReadStop::NoDeed),
    }
}

// The two columns of bytes after the seat: the name of a design, and its text or the name of a die.
fn both_of(row: &Row) -> Result<(Name, Name), ReadStop> {
    let first = bytes_of(row, 1)?;
    let second = bytes_of(row, 2)?;
    Ok((first, second))
}

// The deed of a row of `designs`, where there is one.
fn design_of(row: Option<&Row>) -> Result<Option<Deed>, ReadStop> {
    let Some(row) = row else {
        return Ok(None);
    };
    let by = seat_of(row, 0)?;
    let (name, text) = both_of(row)?;
    let what = DeedKind::Design { name, text };
    Ok(Some(Deed { by, what }))
}

// The deed of a row of `logs2`, where there is one.
fn log_of(row: Option<&Row>) -> Result<Option<Deed>, ReadStop> {
    let Some(row) = row else {
        return Ok(None);
    };
    let by = seat_of(row, 0)?;
    let (design, die) = both_of(row)?;
    let text = bytes_of(row, 3)?;
    let what = DeedKind::Log { design, die, text };
    Ok(Some(Deed { by, what }))
}

// What a row of `signoffs` says after the seat.
fn signed_of(row: &Row) -> Result<DeedKind, ReadStop> {
    let (design, die) = both_of(row)?;
    let revision = revision_of(row, 3)?;
    let signer = bytes_of(row, 4)?;
    let digest = digest_of(bytes_of(row, 5)?.as_slice())?;
    Ok(DeedKind::Sign {
        design,
        die,
        revision,
        signer,
        digest,
    })
}

// The deed of a row of `signoffs`, where there is one.
fn sign_of(row: Option<&Row>) -> Result<Option<Deed>, ReadStop> {
    let Some(row) = row else {
        return Ok(None);
    };
    let by = seat_of(row, 0)?;
    let what = signed_of(row)?;
    Ok(Some(Deed { by, what }))
}

// The design deed of a number.
fn design_at<S: Alter>(conn: &mut Connection<S>, n: i64) -> Result<Option<Deed>, ReadStop> {
    let query = "SELECT seat, name, body FROM designs WHERE n = ?1";
    let rows = rows_of(conn, query, params![n])?;
    design_of(rows.first())
}

// The log deed of a number.
fn log_at<S: Alter>(conn: &mut Connection<S>, n: i64) -> Result<Option<Deed>, ReadStop> {
    let query = "SELECT seat, design, die, body FROM logs2 WHERE n = ?1";
    let rows = rows_of(conn, query, params![n])?;
    log_of(rows.first())
}

// The sign-off deed of a number.
fn sign_at<S: Alter>(conn: &mut Connection<S>, n: i64) -> Result<Option<Deed>, ReadStop> {
    let query = "SELECT seat, design, die, revision, signer, digest FROM signoffs WHERE n = ?1";
    let rows = rows_of(conn, query, params![n])?;
    sign_of(rows.first())
}

// The deed, where no other was found.
fn alone(other: Option<Deed>, deed: Deed) -> Result<Option<Deed>, ReadStop> {
    match other {
        None => Ok(Some(deed)),
        Some(_) => Err(ReadStop::NoDeed),
    }
}

// The one that is there of two at most, of which the second was sought last.
fn one_of(
    first: Option<Deed>,
    second: Result<Option<Deed>, ReadStop>,
) -> Result<Option<Deed>, ReadStop> {
    match second {
        Ok(Some(deed)) => alone(first, deed),
        Ok(None) => Ok(first),
        Err(stop) => Err(stop),
    }
}

/// The deed of a number, sought in the three tables.
pub fn deed_at<S: Alter>(conn: &mut Connection<S>, n: i64) -> Result<Option<Deed>, ReadStop> {
    let design = design_at(conn, n)?;
    let design_or_log = one_of(design, log_at(conn, n))?;
    one_of(design_or_log, sign_at(conn, n))
}
