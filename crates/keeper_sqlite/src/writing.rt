//! Writing of deeds, each in a transaction of its own.
use crate::statements::run;
use desk_outside::{Deed, DeedKind};
use scan_model::{Digest, Name};
use sqlite::{Alter, Connection, Error, ErrorCode, params};

fn insert_design<S: Alter>(
    conn: &mut Connection<S>,
    n: i64,
    seat: u32,
    name: &Name,
    text: &Name,
) -> Result<(), Error> {
    run(
        conn,
        "INSERT INTO designs (n, seat, name, body) VALUES (?1, ?2, ?3, ?4)",
        params![n, seat, name.as_slice(), text.as_slice()],
    )
}

// The log is one of this program, in `version`.
fn insert_log<S: Alter>(
    conn: &mut Connection<S>,
    n: i64,
    seat: u32,
    design: &Name,
    die: &Name,
    text: &Name,
) -> Result<(), Error> {
    run(
        conn,
        "INSERT INTO logs2 (n, seat, design, die, body, version) VALUES (?1, ?2, ?3, ?4, ?5, 2)",
        params![n, seat, design.as_slice(), die.as_slice(), text.as_slice()],
    )
}

// A sign-off's fields.
#[derive(Clone, Copy)]
struct SignFields<'a> {
    design: &'a Name,
    die: &'a Name,
    revision: i64,
    signer: &'a Name,
    digest: &'a Digest,
}

fn insert_sign<S: Alter>(
    conn: &mut Connection<S>,
    n: i64,
    seat: u32,
    sign: &SignFields<'_>,
) -> Result<(), Error> {
    run(
        conn,
        "INSERT INTO signoffs (n, seat, design, die, revision, signer, digest) VALUES (?1, ?2, ?3, ?4, ?5, ?6, ?7)",
        params![
            n,
            seat,
            sign.design.as_slice(),
            sign.die.as_slice(),
            sign.revision,
            sign.signer.as_slice(),
            sign.digest.as_bytes().as_slice()
        ],
    )
}

/// Writes a deed under a number. A revision that is no number of the database is refused as one out of its range.
pub fn insert<S: Alter>(conn: &mut Connection<S>, n: i64, deed: &Deed) -> Result<(), Error> {
    let seat = deed.by;
    match &deed.what {
        DeedKind::Design { name, text } => insert_design(conn, n, seat, name, text),
        DeedKind::Log { design, die, text } => insert_log(conn, n, seat, design, die, text),
        DeedKind::Sign {
            design,
            die,
            revision,
            signer,
            digest,
        } => {
            let Ok(revision) = i64::try_from(*revision) else {
                return Err(Error::SqliteFailure(ErrorCode::TooBig));
            };
            let sign = SignFields {
                design,
                die,
                revision,
                signer,
                digest,
            };
            insert_sign(conn, n, seat, &sign)
        }
    }
}
