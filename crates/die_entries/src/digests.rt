//! Digests of the reports of a die.
ghost use Rattle.std.specs.Prelude.{◌≡◌, ◌&&◌, ℕ, List, length, All, is_some, nat_le, IfOk, IfSome};
ghost use Rattle.std.specs.Str.{bytes_eq};
ghost use Rattle.std.specs.Arc.{arc_value};
ghost use Rattle.sha2.specs.Sha256.{sha256};
ghost use Rattle.diagnosis.specs.Designs.{view_report};
ghost use Rattle.die_entries.specs.Entries.{arc_values};
ghost use Rattle.die_entries.specs.Revisions.{IsShowable, IsOneByName, SignsReport, revision_report};

use crate::ahead::{Foreseen, foreseen_digest};
use crate::sign::Sign;
use crate::views::view_of;
use diagnosis::{Design, ReadLog, check_report};
use die_revisions::logs_at;
use scan_model::{Digest, NoMemory};
use std::alloc::Global;
use std::sync::Arc;
use std::thread::Threads;

/// Whether two digests have the same bytes.
pub fn is_same_digest(digest: &Digest, other: &Digest) -> bool
    ensures { result ≡ bytes_eq digest.now other.now }
{
    digest.as_bytes().as_slice() == other.as_bytes().as_slice()
}

// The digest of a sign-off of that revision, where there is one.
fn known_digest(signs: &[Sign], revision: u64) -> Option<Digest>
    ensures { (report : ℕ → List ℕ) → All (λ sign. sign.digest ≡ sha256 (report sign.revision)) signs.now → IfSome result (λ digest. digest ≡ sha256 (report revision)) }
{
    for sign in signs {
        if sign.revision == revision {
            return Some(sign.digest);
        }
    }
    None
}

// The digest of the report of a die with these logs: the one that was made ahead, or else of a report that is made now.
fn digest_of<R: Threads + Sync>(
    rt: &R,
    alloc: Global,
    design: &Arc<Design>,
    die: &[u8],
    logs: &[Arc<ReadLog>],
    foreseen: &[Foreseen],
) -> Result<Digest, NoMemory>
    requires showable { IsShowable (arc_value design.now) die.now (arc_values logs.now) }
    requires foreseen { All (IsOneByName (arc_value design.now)) foreseen.now }
    ensures { IfOk result (λ digest. digest ≡ sha256 (view_report (record { design = arc_value design.now; die = die.now; logs = arc_values logs.now }))) }
{
    if let Some(digest) = foreseen_digest(foreseen, design, die, logs) {
        return Ok(digest);
    }
    let view = view_of(alloc, design, die, logs)?;
    let checked = check_report(rt, alloc, &view)?;
    Ok(*checked.digest())
}

/// The digest of the report of a die at a revision, where it has that revision. A sign-off of the revision has it, or it was
/// made ahead; else the report is made.
pub fn digest_at<R: Threads + Sync>(
    rt: &R,
    alloc: Global,
    design: &Arc<Design>,
    die: &[u8],
    logs: &[Arc<ReadLog>],
    signs: &[Sign],
    revision: u64,
    foreseen: &[Foreseen],
) -> Result<Option<Digest>, NoMemory>
    requires showable { IsShowable (arc_value design.now) die.now (arc_values logs.now) }
    requires signed { All (SignsReport (arc_value design.now) die.now (arc_values logs.now)) signs.now }
    requires foreseen { All (IsOneByName (arc_value design.now)) foreseen.now }
    ensures right { IfOk result (λ r. IfSome r (λ digest. digest ≡ sha256 (revision_report (arc_value design.now) die.now (arc_values logs.now) revision))) }
    ensures within { IfOk result (λ r. is_some r ≡ (nat_le 1 revision && nat_le revision (length logs.now))) }
{
    if revision == 0 || revision > logs.len() as u64 {
        return Ok(None);
    }
    if let Some(digest) = known_digest(signs, revision) {
        return Ok(Some(digest));
    }
    let right = digest_of(rt, alloc, design, die, logs_at(logs, revision), foreseen)?;
    Ok(Some(right))
}
