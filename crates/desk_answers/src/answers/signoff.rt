//! The body of a sign-off: JSON (RFC 8259), as serde_json reads it.
ghost use Rattle.std.specs.Prelude.{◌≡◌, ℕ, List, Some, None, IfOk, IfErr, IfSome, IfNone, IsUtf8};
ghost use Rattle.serde_json.specs.Read.{read};
ghost use Rattle.serde_json.specs.View.{view};
ghost use Rattle.desk_answers.specs.declared.answers.signoff.BodyFault.TheVariants as fault;
ghost use Rattle.die_entries.specs.declared.sign.Sign.{Sign};
ghost use Rattle.desk_answers.specs.SignBodies.{HasParts, IsSign, IsSignBody};

use book::Sign;
use hex::FromHex;
use scan_model::{Digest, Name, NoMemory};
use serde_json::Value;
use std::alloc::Global;
use text_parts::is_tag;

/// Why a body wasn't taken.
#[derive(Clone, Copy, PartialEq, Eq)]
pub enum BodyFault {
    /// Rule 91: it isn't an object of just the members `revision`, `signer` and `digest`: a whole number from 0 to 2^64 - 1 in
    /// digits alone, a tag, and 64 hexadecimal digits.
    NotASign,
    /// Memory ran out.
    NoMemory,
}

impl From<NoMemory> for BodyFault {
    ghost from_gives = { λ _ e. e ≡ fault.NoMemory };

    fn from(_: NoMemory) -> Self {
        BodyFault::NoMemory
    }
}

/// The sign-off that a body asks for. Of a member that comes twice the last value counts.
pub fn sign_body(alloc: Global, bytes: &[u8]) -> Result<Sign, BodyFault>
    ensures sign { IfOk result (λ body. IsSignBody bytes.now body) }
    ensures refused { IfErr result (λ e. e ≡ fault.NotASign → (body : Sign) → ¬ (IsSignBody bytes.now body)) }
{
    let value = value_of(alloc, bytes)?;
    sign_of(alloc, &value)
}

// The value of a JSON text.
fn value_of(alloc: Global, bytes: &[u8]) -> Result<Value, BodyFault>
    ensures value { IfOk result (λ v. IsUtf8 bytes.now × (read bytes.now ≡ Some (view v))) }
    ensures refused { IfErr result (λ e. e ≡ fault.NotASign → IsUtf8 bytes.now → read bytes.now ≡ None) }
{
    match Value::from_slice(alloc, bytes) {
        Ok(value) => Ok(value),
        Err(error) if error.is_memory() => Err(BodyFault::NoMemory),
        Err(_) => Err(BodyFault::NotASign),
    }
}

// The sign-off that a value stands for.
fn sign_of(alloc: Global, value: &Value) -> Result<Sign, BodyFault>
    ensures sign { IfOk result (λ body. IsSign (view value.now) body) }
    ensures refused { IfErr result (λ e. e ≡ fault.NotASign → (body : Sign) → ¬ (IsSign (view value.now) body)) }
{
    let Some(parts) = parts_of(value) else {
        return Err(BodyFault::NotASign);
    };
    if !is_tag(parts.signer.as_bytes()) {
        return Err(BodyFault::NotASign);
    }
    let Ok(digest) = <[u8; 32] as FromHex>::from_hex(parts.digest) else {
        return Err(BodyFault::NotASign);
    };
    Ok(Sign {
        revision: parts.revision,
        signer: Name::copy_of(alloc, parts.signer.as_bytes())?,
        digest: Digest::from_bytes(digest),
    })
}

// How many members the object has.
const MEMBERS: usize = 3;

// The members of a sign-off, as they are written.
#[derive(Clone, Copy)]
struct Parts<'v> {
    revision: u64,
    signer: &'v str,
    digest: &'v str,
}

// The parts of an object of just the three members.
fn parts_of(value: &Value) -> Option<Parts<'_>>
    ensures parts { IfSome result (λ p. HasParts (view value.now) p.revision p.signer.now p.digest.now) }
    ensures none { IfNone result ((r : ℕ) (s d : List ℕ) → ¬ (HasParts (view value.now) r s d)) }
{
    let members = value.as_object()?;
    if members.len() != MEMBERS {
        return None;
    }
    let revision = value.get("revision")?.as_u64()?;
    let signer = value.get("signer")?.as_str()?;
    let digest = value.get("digest")?.as_str()?;
    Some(Parts {
        revision,
        signer,
        digest,
    })
}
