//! A desk serves the doors of a street with all its seats, and is finished.
ghost use Rattle.std.specs.Prelude.{◌≡◌, ◌≤◌, ◌<◌, [], true, nat_lt, All, length, map, vec_capacity, IfOk, None, Some};
ghost use Rattle.std.specs.List.{list_any};
ghost use Rattle.desk_outside.specs.Faults.{Rose};
ghost use Rattle.desk_outside.specs.Streets.{StreetTold};
ghost use Rattle.desk_serve.specs.Doors.{with_doors_out};
ghost use Rattle.desk_serve.specs.StreetEnd.{StreetServed, IsOver, IsOpened, opened_deeds};
ghost use Rattle.desk_serve.specs.Runs.{order_of};
ghost use Rattle.desk_serve.specs.Work.{HasServed, instead_of};

use crate::doors::{hand_back, take_doors};
use crate::lines::first_line;
use crate::room::Room;
use crate::serving::ServiceOrder;
use crate::workers::{Worker, any_failed, any_unserved, parted, serve_all, workers_of};
use book::Book;
use desk_outside::{Door, Keeper, Sink, Street, write_all};
use run_ends::Ending;
use scan_model::{NoMemory, Rows};
use shared_desk::{Desk, DeskSeat};
use std::alloc::Global;
use std::sync::Wait;
use std::thread::Threads;

/// The seats and the doors when the sessions are over, and the ending that takes the place of the last line, if any does.
#[derive(Drop)]
pub struct SessionsEnd<D: Door> {
    pub seats: Vec<DeskSeat>,
    pub doors: Vec<D>,
    pub instead: Option<Ending>,
}

// What takes the place of the last line.
fn instead_of<D: Door>(workers: &[Worker<D>]) -> Option<Ending>
    ensures { result ≡ instead_of (list_any (λ w. w.served.door_failed) workers.now) (list_any (λ w. nat_lt 0 w.served.unserved) workers.now) }
{
    if any_failed(workers) {
        return Some(Ending::StreetFault);
    }
    if any_unserved(workers) {
        return Some(Ending::NoMemory);
    }
    None
}

// Serves the connections of all doors, each over the seat at its place.
fn serve_doors<R: Threads + Wait + Sync, K: Keeper + Send, D: Door + Send>(
    rt: &R,
    alloc: Global,
    desk: &Desk<K>,
    sessions: u32,
    seats: Vec<DeskSeat>,
    doors: Vec<D>,
    room: Room<D>,
) -> SessionsEnd<D>
    requires room { room.count ≡ length seats.items }
    requires doors { length doors.items ≡ length seats.items }
    requires seats { All (λ seat. seat.desk ≡ desk.now) seats.items }
    ensures { HasServed desk.now sessions seats.items (map (λ door. record { told = D.told door; faults = D.faults door }) doors.items)
        result.seats.items (map (λ door. record { told = D.told door; faults = D.faults door }) result.doors.items) result.instead }
{
    let mut workers = workers_of(seats, doors, room.caches, room.workers);
    serve_all(rt, alloc, desk, workers.as_mut_slice(), sessions);
    let instead = instead_of(&workers);
    let (seats, doors) = parted(workers, room.seats, room.doors);
    SessionsEnd {
        seats,
        doors,
        instead,
    }
}

// Asks for the doors, writes the first line and serves the connections. Without a door or the line nothing is served.
fn serve_street<R: Threads + Wait + Sync, K: Keeper + Send, O: Sink, S: Street>(
    rt: &R,
    alloc: Global,
    asked: &ServiceOrder<'_>,
    out: &mut O,
    street: &mut S,
    desk: &Desk<K>,
    seats: Vec<DeskSeat>,
    doors: Vec<S::D>,
    room: Room<S::D>,
) -> SessionsEnd<S::D>
where
    S::D: Send,
    requires none { doors.items ≡ [] }
    requires doors { asked.now.workers ≤ vec_capacity doors }
    requires room { room.count ≡ asked.now.workers }
    requires all { length seats.items ≡ asked.now.workers }
    requires seats { All (λ seat. seat.desk ≡ desk.now) seats.items }
    ensures served { StreetServed (order_of asked.now) ((told : StreetTold) × (S.told street.old ≡ Some told)) (Rose (S.faults street.old) (S.faults street.new)) (Rose (O.faults out.old) (O.faults out.new))
        desk.now seats.items (O.written out.old) (O.written out.new) result.seats.items (map (λ door. record { told = S.D.told door; faults = S.D.faults door }) result.doors.items) result.instead }
    ensures out { (told : StreetTold) → S.told street.old ≡ Some told → S.told street.new ≡ Some (with_doors_out told asked.now.port (length result.doors.items)) }
    ensures silent { S.told street.old ≡ None → S.told street.new ≡ None }
    ensures street_later { S.faults street.old ≤ S.faults street.new }
    ensures sink_later { O.faults out.old ≤ O.faults out.new }
{
    let mut doors = doors;
    if take_doors(street, asked.port, asked.workers, &mut doors).is_err() {
        return SessionsEnd {
            seats,
            doors,
            instead: Some(Ending::StreetFault),
        };
    }
    if write_all(out, first_line(asked.port).as_slice()).is_err() {
        return SessionsEnd {
            seats,
            doors,
            instead: Some(Ending::SinkFault),
        };
    }
    serve_doors(rt, alloc, desk, asked.sessions, seats, doors, room)
}

fn take_memory<D: Door>(alloc: Global, count: usize) -> Result<(Vec<D>, Room<D>), NoMemory>
    ensures none { IfOk result (λ r. r.0.items ≡ []) }
    ensures doors { IfOk result (λ r. count ≤ vec_capacity r.0) }
    ensures room { IfOk result (λ r. r.1.count ≡ count) }
{
    let doors = Vec::with_capacity(alloc, count)?;
    Ok((doors, Room::make(alloc, count)?))
}

/// Serves the street with all seats of a desk over these deeds, which are those of its opening. Gives the book at the end, and the ending that takes the place
/// of the last line, if any does.
pub fn serve_desk<R: Threads + Wait + Sync, K: Keeper + Send, O: Sink, S: Street>(
    rt: &R,
    alloc: Global,
    asked: &ServiceOrder<'_>,
    out: &mut O,
    street: &mut S,
    desk: Desk<K>,
    seats: Rows<DeskSeat>,
) -> (Book<K>, Option<Ending>)
where
    S::D: Send,
    requires some { 0 < asked.now.workers }
    requires opened { IsOpened asked.now.workers desk seats }
    ensures over { IsOver (order_of asked.now) (street.new ≡ street.old) (Rose (S.faults street.old) (S.faults street.new)) (Rose (O.faults out.old) (O.faults out.new))
        (S.told street.old) (S.told street.new) (O.written out.old) (O.written out.new) (opened_deeds seats) result.1 result.0 }
    ensures rows { desk.tells ≡ true → result.0.rows ≡ Some result.0.deeds }
    ensures street_later { S.faults street.old ≤ S.faults street.new }
    ensures sink_later { O.faults out.old ≤ O.faults out.new }
{
    let Ok((doors, room)) = take_memory(alloc, asked.workers as usize) else {
        let book = desk.finish(seats);
        let _deeds = book.deeds();
        return (book, Some(Ending::NoMemory));
    };
    let over = serve_street(
        rt,
        alloc,
        asked,
        out,
        street,
        &desk,
        seats.into_vec(),
        doors,
        room,
    );
    let book = desk.finish(Rows::from_vec(over.seats));
    // The deeds at the end are legal.
    let _deeds = book.deeds();
    hand_back(street, over.doors);
    (book, over.instead)
}
