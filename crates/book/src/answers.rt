//! What the calls of a book answer.
ghost use Rattle.std.specs.Prelude.{◌≡◌};
ghost use Rattle.book.specs.declared.answers.PutFault.TheVariants as put_fault;
ghost use Rattle.book.specs.ChangeParts.{put_fault_of};
ghost use Rattle.book.specs.declared.answers.LookFault.TheVariants as look_fault;

use desk_outside::KeepFault;
use scan_model::Digest;
use thiserror::Error;

/// Why a change was refused. The book is as before.
#[derive(Debug, Drop, Error)]
pub enum PutFault {
    /// Rule 82: the name has another text, with this digest.
    #[error("the name has another text")]
    NameTaken { kept: Digest },
    /// Rule 83: no design has the name.
    #[error("no design has the name")]
    UnknownDesign,
    /// Rule 86: the report has another digest, which is this one.
    #[error("the report has another digest")]
    DigestDiffers { right: Digest },
    /// Rule 88: the book has as many deeds as it may have.
    #[error("the book is full")]
    Full { limit: u32 },
    /// The keeper failed.
    #[error("the keeper failed")]
    Failed,
    /// Memory ran out.
    #[error("memory ran out")]
    NoMemory,
}

impl From<scan_model::NoMemory> for PutFault {
    ghost from_gives = { λ _ e. e ≡ put_fault.NoMemory };

    fn from(_: scan_model::NoMemory) -> Self {
        PutFault::NoMemory
    }
}

impl From<KeepFault> for PutFault {
    ghost from_gives = { λ fault e. e ≡ put_fault_of fault };

    fn from(fault: KeepFault) -> Self {
        match fault {
            KeepFault::Failed => PutFault::Failed,
            KeepFault::NoMemory => PutFault::NoMemory,
        }
    }
}

/// Why nothing was found.
#[derive(Debug, Drop, Error)]
pub enum LookFault {
    /// Rule 83: no design has the name.
    #[error("no design has the name")]
    UnknownDesign,
    /// Rule 84: the die has no log.
    #[error("the die has no log")]
    UnknownDie,
    /// Rule 85: the die has no such revision, but those from 1 to `have`.
    #[error("the die has no such revision")]
    UnknownRevision { have: u64 },
    /// Rule 87: the die has no such sign-off, but those from 1 to `have`.
    #[error("the die has no such sign-off")]
    UnknownSign { have: u64 },
    /// Memory ran out.
    #[error("memory ran out")]
    NoMemory,
}

impl From<scan_model::NoMemory> for LookFault {
    ghost from_gives = { λ _ e. e ≡ look_fault.NoMemory };

    fn from(_: scan_model::NoMemory) -> Self {
        LookFault::NoMemory
    }
}
