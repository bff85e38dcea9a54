//! Workers: each serves the connections of its door over its seat, in a thread of its own.
ghost use Rattle.std.specs.Prelude.{◌≡◌, ◌≤◌, ◌<◌, ℕ, [], length, map, nat_lt, All, slice_index_or, vec_capacity};
ghost use Rattle.std.specs.List.{list_any};
ghost use Rattle.report_cache.specs.Truth.{fresh_cache};
ghost use Rattle.desk_serve.specs.Work.{CanWork, HasWorked, cache_entries};

use desk_http::{ReportCache, Served, serve_door};
use desk_outside::{Door, Keeper, OpenGate};
use shared_desk::{Desk, DeskSeat};
use std::alloc::Global;
use std::sync::Wait;
use std::thread;
use std::thread::Threads;

/// A seat of the desk with a door, and what became of the door's sessions.
#[derive(Drop)]
pub struct Worker<D: Door> {
    pub seat: DeskSeat,
    pub door: D,
    pub cache: ReportCache,
    pub served: Served,
}

/// A worker for each seat, with the door at the seat's place. There is room for so many, and a cache for each.
pub fn workers_of<D: Door>(
    seats: Vec<DeskSeat>,
    doors: Vec<D>,
    caches: Vec<ReportCache>,
    room: Vec<Worker<D>>,
) -> Vec<Worker<D>>
    requires doors { length doors.items ≡ length seats.items }
    requires caches { length seats.items ≤ length caches.items }
    requires fresh { All (λ cache. cache ≡ fresh_cache cache_entries) caches.items }
    requires none { room.items ≡ [] }
    requires room { length seats.items ≤ vec_capacity room }
    ensures seats { map (λ w. w.seat) result.items ≡ seats.items }
    ensures fresh { All (λ w. w.cache ≡ fresh_cache cache_entries) result.items }
    ensures doors { map (λ w. w.door) result.items ≡ doors.items }
{
    let (mut workers, mut doors, mut caches) = (room, doors.into_iter(), caches);
    for seat in seats {
        let Some(door) = doors.next() else {
            unreachable!()
        };
        let Some(cache) = caches.pop() else {
            unreachable!()
        };
        let worker = Worker {
            seat,
            door,
            cache,
            served: Served {
                ended: 0,
                unserved: 0,
                door_failed: false,
            },
        };
        if workers.push(worker).is_err() {
            unreachable!()
        }
    }
    workers
}

// Serves the connections of a worker's door.
fn work<R: Threads + Wait + Sync, K: Keeper + Send, D: Door>(
    rt: &R,
    alloc: Global,
    desk: &Desk<K>,
    worker: &mut Worker<D>,
    sessions: u32,
)
    requires { CanWork desk.now worker.old.seat worker.old.cache }
    ensures { HasWorked desk.now sessions (record { seat_before = worker.old.seat; seat = worker.new.seat; door_before = record { told = D.told worker.old.door; faults = D.faults worker.old.door }; door = record { told = D.told worker.new.door; faults = D.faults worker.new.door }; served = worker.new.served }) }
{
    let Worker {
        seat,
        door,
        cache,
        ..
    } = worker;
    let served = serve_door(rt, alloc, desk, seat, cache, door, &mut OpenGate, sessions);
    worker.served = served;
}

/// Each worker serves so many connections of its door, in a thread of its own.
pub fn serve_all<R: Threads + Wait + Sync, K: Keeper + Send, D: Door + Send>(
    rt: &R,
    alloc: Global,
    desk: &Desk<K>,
    workers: &mut [Worker<D>],
    sessions: u32,
)
    requires { All (λ w. CanWork desk.now w.seat w.cache) workers.old }
    ensures each { (i : ℕ) (w : _) → i < length workers.old → let a = slice_index_or workers.old i w in let b = slice_index_or workers.new i w in
        HasWorked desk.now sessions (record { seat_before = a.seat; seat = b.seat; door_before = record { told = D.told a.door; faults = D.faults a.door }; door = record { told = D.told b.door; faults = D.faults b.door }; served = b.served }) }
{
    let threads = workers.len().max(1);
    let serve = |_: usize, worker: &mut Worker<D>|
        requires { CanWork desk.now worker.now.seat worker.now.cache }
        ensures { HasWorked desk.entry.now sessions (record { seat_before = worker.entry.now.seat; seat = worker.exit.now.seat; door_before = record { told = D.told worker.entry.now.door; faults = D.faults worker.entry.now.door }; door = record { told = D.told worker.exit.now.door; faults = D.faults worker.exit.now.door }; served = worker.exit.now.served }) }
    { work(rt, alloc, desk, worker, sessions) };
    thread::for_each_mut(rt, workers, threads, &serve);
}

/// Whether a door failed.
pub fn any_failed<D: Door>(workers: &[Worker<D>]) -> bool
    ensures { result ≡ list_any (λ w. w.served.door_failed) workers.now }
{
    workers.iter().any(|worker| worker.served.door_failed)
}

/// Whether a session had no memory to begin with.
pub fn any_unserved<D: Door>(workers: &[Worker<D>]) -> bool
    ensures { result ≡ list_any (λ w. nat_lt 0 w.served.unserved) workers.now }
{
    workers.iter().any(|worker| worker.served.unserved > 0)
}

/// The seats and the doors of the workers, in their order. There is room for both.
pub fn parted<D: Door>(
    workers: Vec<Worker<D>>,
    seats: Vec<DeskSeat>,
    doors: Vec<D>,
) -> (Vec<DeskSeat>, Vec<D>)
    requires no_seats { seats.items ≡ [] }
    requires no_doors { doors.items ≡ [] }
    requires seats { length workers.items ≤ vec_capacity seats }
    requires doors { length workers.items ≤ vec_capacity doors }
    ensures seats { result.0.items ≡ map (λ w. w.seat) workers.items }
    ensures doors { result.1.items ≡ map (λ w. w.door) workers.items }
{
    let (mut seats, mut doors) = (seats, doors);
    for worker in workers {
        if seats.push(worker.seat).is_err() {
            unreachable!()
        }
        if doors.push(worker.door).is_err() {
            unreachable!()
        }
    }
    (seats, doors)
}
