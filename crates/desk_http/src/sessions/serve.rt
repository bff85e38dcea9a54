//! Serving the connections of a door, one after another.
ghost use Rattle.std.specs.Prelude.{◌≡◌, ◌⊎◌, ◌≤◌, ◌∷◌, [], List, ℕ, true, Some, IfOk, OnErr, if◌then◌else◌};
ghost use Rattle.desk_outside.specs.Doors.{DoorTold};
ghost use Rattle.desk_outside.specs.Faults.{Rose};
ghost use Rattle.desk_outside.specs.declared.door.LinkHome.{LinkHome};
ghost use Rattle.report_cache.specs.Truth.{IsTrueFor};
ghost use Rattle.desk_http.specs.ServedConnections.{DidSome, IsServed, Serves, is_unserved, with_served};

use crate::sessions::requests::session_at;
use desk_answers::SeatAt;
use desk_outside::{Door, Failed, Gate};
use final_replies::SessionEnd;
use report_cache::ReportCache;
use std::alloc::Global;
use std::thread::Threads;

/// What became of the sessions of a door: how many ended, how many of these had no memory to begin with, and whether the
/// door failed.
#[derive(Clone, Copy, PartialEq, Eq)]
pub struct Served {
    pub ended: u32,
    pub unserved: u32,
    pub door_failed: bool,
}

// Serves the next connection and hands it back.
fn serve_next<R: Threads + Sync, D, S: SeatAt<R, D>, O: Door, G: Gate>(
    rt: &R,
    alloc: Global,
    desk: &D,
    seat: &mut S,
    cache: &mut ReportCache,
    door: &mut O,
    gate: &mut G,
) -> Result<SessionEnd, Failed>
    requires belongs { S.belongs seat.old desk.now }
    requires cache { IsTrueFor cache.old (S.facts seat.old desk.now).seen }
    ensures stays { S.belongs seat.new desk.now }
    ensures cache { IsTrueFor cache.new (S.facts seat.new desk.now).seen }
    ensures did { DidSome (S.facts seat.old desk.now) (S.facts seat.new desk.now) }
    ensures served { IfOk result (λ end. (told : DoorTold) → O.told door.old ≡ Some told → (left : List ℕ) × (home : LinkHome)
        × (O.told door.new ≡ Some (with_served told (left ∷ []) (home ∷ []))) × IsServed (S.facts seat.old desk.now) (S.facts seat.new desk.now) left home end) }
    ensures same { OnErr result ((O.told door.new ≡ O.told door.old) × (seat.new ≡ seat.old)) }
    ensures later { O.faults door.old ≤ O.faults door.new }
    ensures failed { OnErr result (Rose (O.faults door.old) (O.faults door.new)) }
{
    let mut link = match door.next() {
        Ok(link) => link,
        Err(Failed) => return Err(Failed),
    };
    let note = session_at(rt, alloc, desk, seat, cache, &mut link, gate);
    door.back(link);
    Ok(note.end)
}

fn count_of(end: SessionEnd) -> u32
    ensures { result ≡ (if is_unserved end then 1 else 0) }
{
    match end {
        SessionEnd::NoMemory => 1,
        _ => 0,
    }
}

/// Serves so many connections of a door, one after another, each handed back before the next. A door that fails ends it.
pub fn serve_door_at<R: Threads + Sync, D, S: SeatAt<R, D>, O: Door, G: Gate>(
    rt: &R,
    alloc: Global,
    desk: &D,
    seat: &mut S,
    cache: &mut ReportCache,
    door: &mut O,
    gate: &mut G,
    sessions: u32,
) -> Served
    requires belongs { S.belongs seat.old desk.now }
    requires cache { IsTrueFor cache.old (S.facts seat.old desk.now).seen }
    ensures stays { S.belongs seat.new desk.now }
    ensures cache { IsTrueFor cache.new (S.facts seat.new desk.now).seen }
    ensures did { DidSome (S.facts seat.old desk.now) (S.facts seat.new desk.now) }
    ensures ended { (result.door_failed ≡ true) ⊎ (result.ended ≡ sessions) }
    ensures served { (told : DoorTold) → O.told door.old ≡ Some told
        → Serves told (O.told door.new) (S.facts seat.old desk.now) (S.facts seat.new desk.now) result.ended result.unserved }
    ensures later { O.faults door.old ≤ O.faults door.new }
    ensures failed { result.door_failed ≡ true → Rose (O.faults door.old) (O.faults door.new) }
{
    let (mut ended, mut unserved) = (0, 0);
    while ended < sessions {
        let Ok(end) = serve_next(rt, alloc, desk, seat, cache, door, gate) else {
            return Served {
                ended,
                unserved,
                door_failed: true,
            };
        };
        ended += 1;
        unserved += count_of(end);
    }
    Served {
        ended,
        unserved,
        door_failed: false,
    }
}
