//! What a keeper keeps.
ghost use Rattle.std.specs.Prelude.{◌≡◌, IfOk};

use scan_model::{Digest, Name, NoMemory};
use std::alloc::Global;

/// One accepted change of the book, and the number of the seat that made it.
#[derive(Drop)]
pub struct Deed {
    pub by: u32,
    pub what: DeedKind,
}

/// What was accepted.
#[derive(Drop)]
pub enum DeedKind {
    /// A design by its name, and the text of its bundle.
    Design {
        name: Name,
        text: Name,
    },
    /// The text of a fail log of a die of a design.
    Log {
        design: Name,
        die: Name,
        text: Name,
    },
    /// A sign-off of a die's report over its first `revision` logs, with the SHA-256 digest of that report.
    Sign {
        design: Name,
        die: Name,
        revision: u64,
        signer: Name,
        digest: Digest,
    },
}

// Copies of two names.
fn copy_both(alloc: Global, first: &Name, second: &Name) -> Result<(Name, Name), NoMemory>
    ensures { IfOk result (λ both. (both.0 ≡ first.now) × (both.1 ≡ second.now)) }
{
    let first = Name::copy_of(alloc, first.as_slice())?;
    let second = Name::copy_of(alloc, second.as_slice())?;
    Ok((first, second))
}

fn copy_of_log(alloc: Global, design: &Name, die: &Name, text: &Name) -> Result<DeedKind, NoMemory>
    ensures { IfOk result (λ what. what ≡ DeedKind.Log design.now die.now text.now) }
{
    let (design, die) = copy_both(alloc, design, die)?;
    let text = Name::copy_of(alloc, text.as_slice())?;
    Ok(DeedKind::Log { design, die, text })
}

fn copy_of_sign(
    alloc: Global,
    design: &Name,
    die: &Name,
    revision: u64,
    signer: &Name,
    digest: Digest,
) -> Result<DeedKind, NoMemory>
    ensures { IfOk result (λ what. what ≡ DeedKind.Sign design.now die.now revision signer.now digest) }
{
    let (design, die) = copy_both(alloc, design, die)?;
    let signer = Name::copy_of(alloc, signer.as_slice())?;
    Ok(DeedKind::Sign {
        design,
        die,
        revision,
        signer,
        digest,
    })
}

impl DeedKind {
    ghost use Rattle.std.specs.Prelude.{◌≡◌, IfOk};

    /// A copy.
    pub fn copy_in(&self, alloc: Global) -> Result<DeedKind, NoMemory>
        ensures { IfOk result (λ what. what ≡ self.now) }
    {
        match self {
            DeedKind::Design { name, text } => {
                let (name, text) = copy_both(alloc, name, text)?;
                Ok(DeedKind::Design { name, text })
            }
            DeedKind::Log { design, die, text } => copy_of_log(alloc, design, die, text),
            DeedKind::Sign {
                design,
                die,
                revision,
                signer,
                digest,
            } => copy_of_sign(alloc, design, die, *revision, signer, *digest),
        }
    }
}

impl Deed {
    ghost use Rattle.std.specs.Prelude.{◌≡◌, IfOk};

    /// A copy.
    pub fn copy_in(&self, alloc: Global) -> Result<Deed, NoMemory>
        ensures { IfOk result (λ deed. deed ≡ self.now) }
    {
        Ok(Deed {
            by: self.by,
            what: self.what.copy_in(alloc)?,
        })
    }
}
