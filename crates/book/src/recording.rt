//! The one way of each change: what takes memory, then the keeper's one call, and then what takes none.
ghost use Rattle.std.specs.Prelude.{◌≡◌, true, IfSome};
ghost use Rattle.std.specs.Arc.{arc_value};
ghost use Rattle.book.specs.LegalDeeds.{fits};
ghost use Rattle.book.specs.Changes.{StandsIn};
ghost use Rattle.book.specs.Kinds.{design_deed, log_deed, sign_deed};
ghost use Rattle.book.specs.ChangeParts.{Recorded};

use crate::state::BookState;
use desk_outside::{Deed, KeepFault, Keeper};
use diagnosis::{Design, ReadLog};
use die_entries::Sign;
use std::sync::Arc;

/// Adds a design whose deed the keeper takes. The deed may be made already.
pub fn record_design<K: Keeper>(
    kept: &mut BookState,
    keeper: &mut K,
    by: u32,
    design: &Arc<Design>,
    made: Option<Deed>,
) -> Result<(), KeepFault>
    requires fits { fits kept.old.deeds (design_deed by (arc_value design.now)).what ≡ true }
    requires made { IfSome made (λ deed. deed ≡ design_deed by (arc_value design.now)) }
    ensures { Recorded (design_deed by (arc_value design.now)) result
        (record { deeds = kept.old.deeds; rows = K.rows keeper.old; faults = K.faults keeper.old })
        (record { deeds = kept.new.deeds; rows = K.rows keeper.new; faults = K.faults keeper.new }) }
{
    let Ok(ready) = kept.ready_design(by, design, made) else {
        return Err(KeepFault::NoMemory);
    };
    keeper.append(&ready.deed)?;
    kept.add_design(ready);
    Ok(())
}

/// Adds a log whose deed the keeper takes. The deed may be made already.
pub fn record_log<K: Keeper>(
    kept: &mut BookState,
    keeper: &mut K,
    by: u32,
    log: &Arc<ReadLog>,
    made: Option<Deed>,
) -> Result<(), KeepFault>
    requires fits { fits kept.old.deeds (log_deed by (arc_value log.now)).what ≡ true }
    requires stands { StandsIn kept.old.deeds (arc_value log.now) }
    requires made { IfSome made (λ deed. deed ≡ log_deed by (arc_value log.now)) }
    ensures { Recorded (log_deed by (arc_value log.now)) result
        (record { deeds = kept.old.deeds; rows = K.rows keeper.old; faults = K.faults keeper.old })
        (record { deeds = kept.new.deeds; rows = K.rows keeper.new; faults = K.faults keeper.new }) }
{
    let Ok(ready) = kept.ready_log(by, log, made) else {
        return Err(KeepFault::NoMemory);
    };
    keeper.append(&ready.deed)?;
    kept.add_log(ready);
    Ok(())
}

/// Adds a sign-off whose deed the keeper takes.
pub fn record_sign<K: Keeper>(
    kept: &mut BookState,
    keeper: &mut K,
    by: u32,
    design: &[u8],
    die: &[u8],
    sign: Sign,
) -> Result<(), KeepFault>
    requires fits { fits kept.old.deeds (sign_deed by design.now die.now sign).what ≡ true }
    ensures { Recorded (sign_deed by design.now die.now sign) result
        (record { deeds = kept.old.deeds; rows = K.rows keeper.old; faults = K.faults keeper.old })
        (record { deeds = kept.new.deeds; rows = K.rows keeper.new; faults = K.faults keeper.new }) }
{
    let Ok(ready) = kept.ready_sign(by, design, die, sign) else {
        return Err(KeepFault::NoMemory);
    };
    keeper.append(&ready.deed)?;
    kept.add_sign(ready);
    Ok(())
}
