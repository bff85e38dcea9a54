//! A desk is started over its keeper.
ghost use Rattle.std.specs.Prelude.{◌≡◌, ◌≤◌, ◌<◌, ◌+◌, ℕ, true, List, [], ◌∷◌, length, Some, None, IsSome, IfSome, IfOk, IfErr, slice_get, vec_len, vec_capacity};
ghost use Rattle.desk_outside.specs.declared.deed.Deed.{Deed};
ghost use Rattle.desk_outside.specs.Faults.{Rose};
ghost use Rattle.book.specs.declared.opening.StartFault.{StartFault};
ghost use Rattle.book.specs.LegalDeeds.{is_legal, spoiled_row};
ghost use Rattle.shared_desk.specs.Turns.{terms_of, fresh_view};
ghost use Rattle.shared_desk.specs.Stages.{IsAt};
ghost use Rattle.shared_desk.specs.Seats.{SeatFacts, desk_facts, IsOpening};
ghost use Rattle.shared_desk.specs.StartAndEnd.{fresh_seat, IsStarted};

use crate::desk::Desk;
use crate::open_book::OpenBook;
use crate::seat::DeskSeat;
use crate::steps::make_seat;
use crate::turns::{OpenedBook, Place, PlaceSeat};
use atomic_table::Table;
use book::{Book, StartFault, UnopenedBook};
use desk_outside::Keeper;
use scan_model::Rows;
use std::alloc::Global;
use std::snapshot::Snapshot;
use std::thread::Threads;

// Want of memory, with the keeper of a book that was opened.
fn without_memory<K: Keeper>(slot: Option<OpenBook<K>>) -> UnopenedBook<K>
    ensures fault { result.fault ≡ StartFault.NoMemory }
    ensures keeper { IfSome result.keeper (λ k. IfSome slot (λ b. (K.rows k ≡ b.book.rows) × (K.faults k ≡ b.book.faults))) }
    ensures home { IsSome slot → IsSome result.keeper }
{
    UnopenedBook {
        fault: StartFault::NoMemory,
        keeper: slot.map(|open| open.into_book().close()),
    }
}

// A desk with the book in its slot, and its first seat. A refusal hands the book back.
fn lay_table<K: Keeper>(
    alloc: Global,
    book: OpenBook<K>,
    seats: u32,
) -> Result<(Desk<K>, PlaceSeat<K>), Option<OpenBook<K>>>
    requires some { 0 < seats }
    requires fresh { book.faults ≡ [] }
    ensures desk { IfOk result (λ r. r.0 ≡ desk_facts r.1.table_id (terms_of seats book)) }
    ensures fits { IfOk result (λ r. IsAt r.1.table_id r.1.table_id) }
    ensures first { IfOk result (λ r. r.1.me ≡ (fresh_view (terms_of seats book) book.book.deeds 0 1, [])) }
    ensures opened { IfOk result (λ r. IsOpening (length book.book.deeds) r.1.me.0) }
    ensures refused { IfErr result (λ slot. slot ≡ Some book) }
{
    let deeds = book.deeds();
    let about = OpenedBook {
        seats,
        book: Snapshot::of(&book),
    };
    let mut slots = Vec::new(alloc);
    if let Err(refused) = slots.push(Some(book)) {
        return Err(refused.value);
    }
    match Table::new(alloc, &[deeds, 0, 0], slots, &about) {
        Ok((table, seat)) => Ok((Desk { alloc, table }, seat)),
        Err(refused) => {
            let mut slots = refused.slots;
            match slots.pop() {
                Some(slot) => Err(slot),
                None => Err(None),
            }
        }
    }
}

// The seats of the numbers from 1 on.
fn make_others<K: Keeper>(
    place: &Place<K>,
    first: &mut PlaceSeat<K>,
    list: &mut Vec<DeskSeat>,
    seats: u32,
    mark: u64,
)
    requires fits { IsAt place.now.table_id first.old.table_id }
    requires first { first.old.me ≡ (fresh_view first.old.me.0.about first.old.me.0.seen 0 1, []) }
    requires opened { IsOpening mark first.old.me.0 }
    requires some { 0 < seats }
    requires few { seats ≤ 64 }
    requires none { list.old.items ≡ [] }
    requires room { seats ≤ vec_capacity list.old }
    ensures same { first.new.table_id ≡ first.old.table_id }
    ensures first { first.new.me ≡ (fresh_view first.old.me.0.about first.old.me.0.seen 0 seats, []) }
    ensures count { vec_len list.new + 1 ≡ seats }
    ensures capacity { vec_capacity list.old ≤ vec_capacity list.new }
    ensures each { (i : ℕ) (seat : SeatFacts) → slice_get list.new.items i ≡ Some seat → seat ≡ fresh_seat (desk_facts place.now.table_id first.old.me.0.about) first.old.me.0.seen (i + 1) }
{
    for number in 1..seats {
        let made = make_seat(place, first);
        let seat = DeskSeat {
            number,
            mark,
            badge: made.into_badge(),
        };
        if list.push(seat).is_err() {
            unreachable!()
        }
    }
}

// The desk with all its seats.
fn with_seats<K: Keeper>(
    desk: Desk<K>,
    first: PlaceSeat<K>,
    list: Vec<DeskSeat>,
    seats: u32,
    mark: u64,
) -> (Desk<K>, Rows<DeskSeat>)
    requires desk { desk ≡ desk_facts first.table_id first.me.0.about }
    requires seats { first.me.0.about.seats ≡ seats }
    requires first { first.me ≡ (fresh_view first.me.0.about first.me.0.seen 0 1, []) }
    requires opened { IsOpening mark first.me.0 }
    requires some { 0 < seats }
    requires few { seats ≤ 64 }
    requires none { list.items ≡ [] }
    requires room { seats ≤ vec_capacity list }
    ensures desk { result.0 ≡ desk }
    ensures count { length result.1 ≡ seats }
    ensures each { (i : ℕ) (seat : SeatFacts) → slice_get result.1 i ≡ Some seat → seat ≡ fresh_seat desk first.me.0.seen i }
{
    let (mut first, mut list) = (first, list);
    make_others(&desk.table.shared, &mut first, &mut list, seats, mark);
    let seat = DeskSeat {
        number: 0,
        mark,
        badge: first.into_badge(),
    };
    if list.insert(0, seat).is_err() {
        unreachable!()
    }
    (desk, Rows::from_vec(list))
}

/// Opens the book and makes all seats, numbered from 0. A refusal hands the keeper back as `Book::open_from` does.
pub fn start<R: Threads + Sync, K: Keeper>(
    rt: &R,
    alloc: Global,
    keeper: K,
    max_deeds: u32,
    seats: u32,
) -> Result<(Desk<K>, Rows<DeskSeat>), UnopenedBook<K>>
    requires some { 0 < seats }
    requires few { seats ≤ 64 }
    ensures started { IfOk result (λ r. IsStarted (K.rows keeper) max_deeds seats (K.faults keeper) r.0 r.1) }
    ensures fit { (rows : List Deed) → K.rows keeper ≡ Some rows → IfOk result (λ r. spoiled_row max_deeds rows ≡ None) }
    ensures spoiled { (rows : List Deed) (row : ℕ) → K.rows keeper ≡ Some rows → IfErr result (λ refused. refused.fault ≡ StartFault.Spoiled row → spoiled_row max_deeds rows ≡ Some row) }
    ensures home { IfErr result (λ refused. IsSome refused.keeper) }
    ensures same { IfErr result (λ refused. IfSome refused.keeper (λ k. (K.rows k ≡ K.rows keeper) × (K.faults keeper ≤ K.faults k))) }
    ensures failed { IfErr result (λ refused. refused.fault ≡ StartFault.Failed → IfSome refused.keeper (λ k. Rose (K.faults keeper) (K.faults k))) }
{
    let Ok(list) = Vec::with_capacity(alloc, seats as usize) else {
        return Err(UnopenedBook {
            fault: StartFault::NoMemory,
            keeper: Some(keeper),
        });
    };
    let book = match Book::open_from(rt, alloc, keeper, max_deeds) {
        Ok(book) => book,
        Err(refused) => return Err(refused),
    };
    let mark = book.deeds();
    match lay_table(alloc, OpenBook::of(alloc, book), seats) {
        Ok((desk, first)) => Ok(with_seats(desk, first, list, seats, mark)),
        Err(slot) => Err(without_memory(slot)),
    }
}
