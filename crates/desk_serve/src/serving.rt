//! The run of `serve`, from the store's opening to its last line.
ghost use Rattle.std.specs.Prelude.{◌≡◌, ◌⊎◌, ◌≤◌, ◌<◌, List, Some, None, IfSome};
ghost use Rattle.desk_outside.specs.declared.deed.Deed.{Deed};
ghost use Rattle.desk_outside.specs.Cabinets.{CabinetTold, keeper_home};
ghost use Rattle.desk_outside.specs.Faults.{Rose};
ghost use Rattle.run_ends.specs.Endings.{Writes};
ghost use Rattle.desk_serve.specs.Lines.{line_of};
ghost use Rattle.desk_serve.specs.Refusals.{ending_of};
ghost use Rattle.desk_serve.specs.Runs.{HasEnded, order_of};

use crate::lines::ended;
use crate::sessions::serve_desk;
use book::{StartFault, UnopenedBook};
use desk_outside::{Cabinet, KeepFault, Sink, Street};
use run_ends::Ending;
use shared_desk::start;
use std::alloc::Global;
use std::sync::Wait;
use std::thread::Threads;

/// The most deeds that a store may have.
const MAX_DEEDS: u32 = 1_000_000;

/// What `serve` is asked for.
#[derive(Clone, Copy)]
pub struct ServiceOrder<'a> {
    pub port: u16,
    /// From 1 to 64.
    pub workers: u32,
    /// How many connections each worker serves.
    pub sessions: u32,
    /// The name of the store.
    pub store: &'a str,
}

// The ending where no keeper is handed out.
fn refusal(fault: KeepFault) -> Ending
    ensures failed { result ≡ Ending.StoreFault → fault ≡ KeepFault.Failed }
    ensures one_of { (result ≡ Ending.StoreFault) ⊎ (result ≡ Ending.NoMemory) }
{
    match fault {
        KeepFault::Failed => Ending::StoreFault,
        KeepFault::NoMemory => Ending::NoMemory,
    }
}

// The ending where the store isn't opened.
fn start_refusal(fault: StartFault) -> Ending
    ensures { result ≡ ending_of fault }
{
    match fault {
        StartFault::Spoiled { row } => Ending::Spoiled { row },
        StartFault::Failed => Ending::StoreFault,
        StartFault::NoMemory => Ending::NoMemory,
    }
}

// Hands a keeper back, if it is there.
fn keeper_back<C: Cabinet>(cabinet: &mut C, keeper: Option<C::K>)
    requires out { (told : CabinetTold) → C.told cabinet.old ≡ Some told → 0 < told.out }
    ensures home { (told : CabinetTold) (rows : List Deed) → C.told cabinet.old ≡ Some told → IfSome keeper (λ k. C.K.rows k ≡ Some rows → C.told cabinet.new ≡ Some (keeper_home told rows (C.K.faults k))) }
    ensures failed { IfSome keeper (λ k. 0 < C.K.faults k → Rose (C.faults cabinet.old) (C.faults cabinet.new)) }
    ensures later { C.faults cabinet.old ≤ C.faults cabinet.new }
{
    if let Some(keeper) = keeper {
        cabinet.back(keeper);
    }
}

// The end where the store isn't opened.
fn turned_away<O: Sink, C: Cabinet>(
    out: &mut O,
    cabinet: &mut C,
    refused: UnopenedBook<C::K>,
) -> Ending
    requires out { (told : CabinetTold) → C.told cabinet.old ≡ Some told → 0 < told.out }
    ensures wrote { Writes (ending_of refused.fault) (line_of (ending_of refused.fault)) result (O.written out.old) (O.written out.new) (Rose (O.faults out.old) (O.faults out.new)) }
    ensures home { (told : CabinetTold) (rows : List Deed) → C.told cabinet.old ≡ Some told → IfSome refused.keeper (λ k. C.K.rows k ≡ Some rows → C.told cabinet.new ≡ Some (keeper_home told rows (C.K.faults k))) }
    ensures failed { IfSome refused.keeper (λ k. 0 < C.K.faults k → Rose (C.faults cabinet.old) (C.faults cabinet.new)) }
    ensures cabinet_later { C.faults cabinet.old ≤ C.faults cabinet.new }
    ensures sink_later { O.faults out.old ≤ O.faults out.new }
{
    let UnopenedBook { fault, keeper } = refused;
    keeper_back(cabinet, keeper);
    ended(out, start_refusal(fault))
}

/// Opens the store and serves the connections of a port with so many workers, each over its own seat of one desk. After a
/// refusal too, all that was handed out is handed back.
pub fn serve<R: Threads + Wait + Sync, O: Sink, S: Street, C: Cabinet>(
    rt: &R,
    alloc: Global,
    asked: &ServiceOrder<'_>,
    out: &mut O,
    street: &mut S,
    cabinet: &mut C,
) -> Ending
where
    S::D: Send,
    C::K: Send,
    requires some { 0 < asked.now.workers }
    requires few { asked.now.workers ≤ 64 }
    ensures ended { HasEnded (order_of asked.now)
        (record { written = O.written out.old; street = S.told street.old; cabinet = C.told cabinet.old; sink_faults = O.faults out.old; street_faults = S.faults street.old; cabinet_faults = C.faults cabinet.old })
        (record { written = O.written out.new; street = S.told street.new; cabinet = C.told cabinet.new; sink_faults = O.faults out.new; street_faults = S.faults street.new; cabinet_faults = C.faults cabinet.new })
        (street.new ≡ street.old) result }
    ensures sink_later { O.faults out.old ≤ O.faults out.new }
    ensures street_later { S.faults street.old ≤ S.faults street.new }
    ensures cabinet_later { C.faults cabinet.old ≤ C.faults cabinet.new }
{
    let keeper = match cabinet.keeper(asked.store) {
        Ok(keeper) => keeper,
        Err(fault) => return ended(out, refusal(fault)),
    };
    let (desk, seats) = match start(rt, alloc, keeper, MAX_DEEDS, asked.workers) {
        Ok(made) => made,
        Err(refused) => return turned_away(out, cabinet, refused),
    };
    let (book, instead) = serve_desk(rt, alloc, asked, out, street, desk, seats);
    let last = Ending::Done {
        sessions: u64::from(asked.workers) * u64::from(asked.sessions),
        deeds: book.deeds(),
    };
    cabinet.back(book.close());
    ended(out, instead.unwrap_or(last))
}
