//! Desks with one seat or two.
ghost use Rattle.std.specs.Prelude.{◌≡◌};
ghost use Rattle.shared_desk.specs.StartAndEnd.{AreAllSeats};

use book::Book;
use desk_outside::MemKeeper;
use scan_model::Rows;
use shared_desk::{Desk, DeskSeat, start};
use std::alloc::Global;
use std::process::Abort;
use std::thread::Threads;

/// A desk over this keeper, and its one seat.
pub(super) fn start_one<R: Abort + Threads + Sync>(
    rt: &R,
    alloc: Global,
    keeper: MemKeeper,
    max_deeds: u32,
) -> (Desk<MemKeeper>, DeskSeat)
    ensures seats { result.0.seats ≡ 1 }
    ensures desk { result.1.desk ≡ result.0 }
    ensures number { result.1.number ≡ 0 }
{
    match start(rt, alloc, keeper, max_deeds, 1) {
        Ok((desk, seats)) => {
            let mut list = seats.into_vec();
            let seat = list.remove(0);
            (desk, seat)
        }
        Err(_) => rt.panic("a desk is started"),
    }
}

// A desk with its two seats, each for itself.
fn with_both(desk: Desk<MemKeeper>, seats: Rows<DeskSeat>) -> (Desk<MemKeeper>, DeskSeat, DeskSeat)
    requires all { AreAllSeats desk seats }
    requires two { desk.seats ≡ 2 }
    ensures desk { result.0 ≡ desk }
    ensures desks { (result.1.desk ≡ desk) × (result.2.desk ≡ desk) }
    ensures numbers { (result.1.number ≡ 0) × (result.2.number ≡ 1) }
{
    let mut list = seats.into_vec();
    let first = list.remove(0);
    let second = list.remove(0);
    (desk, first, second)
}

/// A desk over this keeper, and its two seats.
pub(super) fn start_two<R: Abort + Threads + Sync>(
    rt: &R,
    alloc: Global,
    keeper: MemKeeper,
    max_deeds: u32,
) -> (Desk<MemKeeper>, DeskSeat, DeskSeat)
    ensures seats { result.0.seats ≡ 2 }
    ensures desks { (result.1.desk ≡ result.0) × (result.2.desk ≡ result.0) }
    ensures numbers { (result.1.number ≡ 0) × (result.2.number ≡ 1) }
{
    match start(rt, alloc, keeper, max_deeds, 2) {
        Ok((desk, seats)) => with_both(desk, seats),
        Err(_) => rt.panic("a desk is started"),
    }
}

/// The book, when the one seat came home.
pub(super) fn finish_one(
    rt: &impl Abort,
    alloc: Global,
    desk: Desk<MemKeeper>,
    seat: DeskSeat,
) -> Book<MemKeeper>
    requires seats { desk.seats ≡ 1 }
    requires desk { seat.desk ≡ desk }
    requires number { seat.number ≡ 0 }
{
    let mut seats = Rows::new(alloc);
    seats.push(seat).expect(rt, "memory");
    desk.finish(seats)
}

/// The book, when both seats came home.
pub(super) fn finish_two(
    rt: &impl Abort,
    alloc: Global,
    desk: Desk<MemKeeper>,
    first: DeskSeat,
    second: DeskSeat,
) -> Book<MemKeeper>
    requires seats { desk.seats ≡ 2 }
    requires desks { (first.desk ≡ desk) × (second.desk ≡ desk) }
    requires numbers { (first.number ≡ 0) × (second.number ≡ 1) }
{
    let mut seats = Rows::new(alloc);
    seats.push(first).expect(rt, "memory");
    seats.push(second).expect(rt, "memory");
    desk.finish(seats)
}
