//! What a look shows of a die: its first logs, or a sign-off.
ghost use Rattle.std.specs.Prelude.{◌≡◌, length, take, Ok, Err, IfOk, IfErr};
ghost use Rattle.diagnosis.specs.Designs.{texts_of};
ghost use Rattle.die_entries.specs.Entries.{arc_values};
ghost use Rattle.book.specs.Answers.{sign_numbered, up_to};
ghost use Rattle.book.specs.Changes.{Looked};

use crate::answers::LookFault;
use diagnosis::ReadLog;
use die_entries::Sign;
use scan_model::Name;
use std::alloc::Global;
use std::sync::Arc;

/// The first so many logs, or all.
pub fn logs_up_to(
    logs: &[Arc<ReadLog>],
    revision: Option<u64>,
) -> Result<&[Arc<ReadLog>], LookFault>
    ensures ok { IfOk result (λ part. up_to (texts_of (arc_values logs.now)) revision ≡ Ok (texts_of (arc_values part.now))) }
    ensures part { IfOk result (λ part. part.now ≡ take (length part.now) logs.now) }
    ensures err { IfErr result (λ fault. up_to (texts_of (arc_values logs.now)) revision ≡ Err fault) }
{
    let Some(revision) = revision else {
        return Ok(logs);
    };
    let have = logs.len() as u64;
    if revision == 0 || revision > have {
        return Err(LookFault::UnknownRevision { have });
    }
    Ok(&logs[..revision as usize])
}

/// A sign-off by its number from 1.
pub fn sign_of(alloc: Global, signs: &[Sign], number: u64) -> Result<Sign, LookFault>
    ensures { Looked (λ sign. sign) (sign_numbered signs.now number) result }
{
    let have = signs.len() as u64;
    if number == 0 || number > have {
        return Err(LookFault::UnknownSign { have });
    }
    let sign = &signs[number as usize - 1];
    Ok(Sign {
        revision: sign.revision,
        signer: Name::copy_of(alloc, sign.signer.as_slice())?,
        digest: sign.digest,
    })
}
