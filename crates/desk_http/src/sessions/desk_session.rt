//! Sessions over a shared desk.
ghost use Rattle.std.specs.Prelude.{◌≡◌, ◌≤◌, ◌⊎◌, length, true, Some};
ghost use Rattle.desk_outside.specs.Doors.{DoorTold};
ghost use Rattle.desk_outside.specs.Faults.{Rose};
ghost use Rattle.book.specs.LegalDeeds.{is_legal};
ghost use Rattle.report_cache.specs.Truth.{IsTrueFor};
ghost use Rattle.final_replies.specs.declared.ends.SessionEnd.{SessionEnd};
ghost use Rattle.desk_http.specs.Sessions.{IsSession, Rise};
ghost use Rattle.desk_http.specs.ServedConnections.{DidSome, Serves};
ghost use Rattle.desk_answers.specs.DeskSeats.{of_desk, IsSeatOf};

use crate::sessions::requests::{SessionNote, session_at};
use crate::sessions::serve::{Served, serve_door_at};
use desk_outside::{Door, Gate, Keeper, Link};
use report_cache::ReportCache;
use shared_desk::{Desk, DeskSeat};
use std::alloc::Global;
use std::sync::Wait;
use std::thread::Threads;

/// Serves the requests of a connection over a seat of a desk, until a reply closes, the input ends or the connection fails.
pub fn session<R: Threads + Wait + Sync, K: Keeper, L: Link, G: Gate>(
    rt: &R,
    alloc: Global,
    desk: &Desk<K>,
    seat: &mut DeskSeat,
    cache: &mut ReportCache,
    link: &mut L,
    gate: &mut G,
) -> SessionNote
    requires belongs { IsSeatOf seat.old desk.now }
    requires cache { IsTrueFor cache.old seat.old.seen }
    ensures stays { IsSeatOf seat.new desk.now }
    ensures cache { IsTrueFor cache.new seat.new.seen }
    ensures legal { is_legal seat.new.desk.limit seat.new.seen ≡ true }
    ensures session { IsSession result.end result.marks (of_desk seat.old) (of_desk seat.new) (L.left link.old) (L.sent link.old) (L.sent link.new) }
    ensures marks { Rise (length seat.old.seen) result.marks (length seat.new.seen) }
    ensures nothing { result.end ≡ SessionEnd.NoMemory → (link.new ≡ link.old) × (seat.new ≡ seat.old) }
    ensures later { L.faults link.old ≤ L.faults link.new }
    ensures failed { result.end ≡ SessionEnd.LinkFault → Rose (L.faults link.old) (L.faults link.new) }
{
    session_at(rt, alloc, desk, seat, cache, link, gate)
}

/// Serves so many connections of a door over a seat of a desk, one after another, each handed back before the next. A door
/// that fails ends it.
pub fn serve_door<R: Threads + Wait + Sync, K: Keeper, O: Door, G: Gate>(
    rt: &R,
    alloc: Global,
    desk: &Desk<K>,
    seat: &mut DeskSeat,
    cache: &mut ReportCache,
    door: &mut O,
    gate: &mut G,
    sessions: u32,
) -> Served
    requires belongs { IsSeatOf seat.old desk.now }
    requires cache { IsTrueFor cache.old seat.old.seen }
    ensures stays { IsSeatOf seat.new desk.now }
    ensures cache { IsTrueFor cache.new seat.new.seen }
    ensures did { DidSome (of_desk seat.old) (of_desk seat.new) }
    ensures ended { (result.door_failed ≡ true) ⊎ (result.ended ≡ sessions) }
    ensures served { (told : DoorTold) → O.told door.old ≡ Some told
        → Serves told (O.told door.new) (of_desk seat.old) (of_desk seat.new) result.ended result.unserved }
    ensures later { O.faults door.old ≤ O.faults door.new }
    ensures failed { result.door_failed ≡ true → Rose (O.faults door.old) (O.faults door.new) }
{
    serve_door_at(rt, alloc, desk, seat, cache, door, gate, sessions)
}
