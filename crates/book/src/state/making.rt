//! Deeds that are made.
ghost use Rattle.std.specs.Prelude.{◌≡◌, IfOk, IfSome};
ghost use Rattle.std.specs.Arc.{arc_value};
ghost use Rattle.book.specs.Kinds.{design_deed, log_deed, sign_deed};

use desk_outside::{Deed, DeedKind};
use diagnosis::{Design, ReadLog};
use die_entries::Sign;
use scan_model::{Name, NoMemory};
use std::alloc::Global;
use std::sync::Arc;

// The deed of a design.
fn deed_of_design(alloc: Global, by: u32, design: &Design) -> Result<Deed, NoMemory>
    ensures { IfOk result (λ deed. deed ≡ design_deed by design.now) }
{
    let what = DeedKind::Design {
        name: Name::copy_of(alloc, design.name())?,
        text: Name::copy_of(alloc, design.text())?,
    };
    Ok(Deed { by, what })
}

// The deed of a log.
fn deed_of_log(alloc: Global, by: u32, log: &ReadLog) -> Result<Deed, NoMemory>
    ensures { IfOk result (λ deed. deed ≡ log_deed by log.now) }
{
    let what = DeedKind::Log {
        design: Name::copy_of(alloc, log.design())?,
        die: Name::copy_of(alloc, log.die())?,
        text: Name::copy_of(alloc, log.text())?,
    };
    Ok(Deed { by, what })
}

/// The deed of a design: the one that was made before, or else one that is made now.
pub(super) fn design_deed(
    alloc: Global,
    by: u32,
    design: &Design,
    made: Option<Deed>,
) -> Result<Deed, NoMemory>
    requires { IfSome made (λ deed. deed ≡ design_deed by design.now) }
    ensures { IfOk result (λ deed. deed ≡ design_deed by design.now) }
{
    match made {
        Some(deed) => Ok(deed),
        None => deed_of_design(alloc, by, design),
    }
}

/// The deed of a log: the one that was made before, or else one that is made now.
pub(super) fn log_deed(
    alloc: Global,
    by: u32,
    log: &ReadLog,
    made: Option<Deed>,
) -> Result<Deed, NoMemory>
    requires { IfSome made (λ deed. deed ≡ log_deed by log.now) }
    ensures { IfOk result (λ deed. deed ≡ log_deed by log.now) }
{
    match made {
        Some(deed) => Ok(deed),
        None => deed_of_log(alloc, by, log),
    }
}

/// The deed of a design, where there is memory for it.
pub fn made_design_deed(alloc: Global, by: u32, design: &Arc<Design>) -> Option<Deed>
    ensures { IfSome result (λ deed. deed ≡ design_deed by (arc_value design.now)) }
{
    match deed_of_design(alloc, by, design) {
        Ok(deed) => Some(deed),
        Err(NoMemory) => None,
    }
}

/// The deed of a log, where there is memory for it.
pub fn made_log_deed(alloc: Global, by: u32, log: &Arc<ReadLog>) -> Option<Deed>
    ensures { IfSome result (λ deed. deed ≡ log_deed by (arc_value log.now)) }
{
    match deed_of_log(alloc, by, log) {
        Ok(deed) => Some(deed),
        Err(NoMemory) => None,
    }
}

/// The deed of a sign-off.
pub(super) fn deed_of_sign(
    alloc: Global,
    by: u32,
    design: &[u8],
    die: &[u8],
    sign: &Sign,
) -> Result<Deed, NoMemory>
    ensures { IfOk result (λ deed. deed ≡ sign_deed by design.now die.now sign.now) }
{
    let what = DeedKind::Sign {
        design: Name::copy_of(alloc, design)?,
        die: Name::copy_of(alloc, die)?,
        revision: sign.revision,
        signer: Name::copy_of(alloc, sign.signer.as_slice())?,
        digest: sign.digest,
    };
    Ok(Deed { by, what })
}
