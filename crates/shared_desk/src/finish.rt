//! A desk is finished.
ghost use Rattle.std.specs.Prelude.{◌≡◌, All, Contains};
ghost use Rattle.shared_desk.specs.Turns.{IsJoined, AllNoted, IsLast};
ghost use Rattle.shared_desk.specs.Stages.{IsAt, IsIdle};
ghost use Rattle.shared_desk.specs.Seats.{seat_note};
ghost use Rattle.shared_desk.specs.StartAndEnd.{AreAllSeats, IsFinished};

use crate::desk::Desk;
use crate::open_book::OpenBook;
use crate::seat::DeskSeat;
use crate::steps::join_seat;
use crate::turns::{DeskTable, Place, PlaceSeat};
use book::Book;
use desk_outside::Keeper;
use scan_model::Rows;

// Joins the other seats into the first, which notes each.
fn join_others<K: Keeper>(place: &Place<K>, first: &mut PlaceSeat<K>, others: Vec<DeskSeat>)
    requires fits { IsAt place.now.table_id first.old.table_id }
    requires idle { IsIdle first.old.me }
    requires first { first.old.me.0.number ≡ 0 }
    requires others { All (λ seat. seat.desk.place ≡ place.now.table_id) others.items }
    ensures same { first.new.table_id ≡ first.old.table_id }
    ensures idle { IsIdle first.new.me }
    ensures joined { IsJoined first.old.me.0 first.new.me.0 }
    ensures noted { All (λ seat. Contains first.new.me.0.joined (seat_note seat)) others.items }
{
    let mut others = others;
    while let Some(other) = others.pop() {
        let DeskSeat { badge, .. } = other;
        join_seat(place, first, badge.into_seat());
    }
}

// The book at the end, when all seats were joined into the first.
fn close_table<K: Keeper>(table: DeskTable<K>, first: PlaceSeat<K>) -> OpenBook<K>
    requires fits { IsAt table.shared.table_id first.table_id }
    requires idle { IsIdle first.me }
    requires first { first.me.0.number ≡ 0 }
    requires noted { AllNoted first.me.0 }
    ensures { IsLast first.me.0 result }
{
    let mut closed = table.close_with(first);
    let slot = closed.take(0);
    closed.free();
    let Some(book) = slot else { unreachable!() };
    book
}

impl<K: Keeper> Desk<K> {
    /// Gives back the book. These are all seats of the desk, in the order of their numbers.
    pub fn finish(self, seats: Rows<DeskSeat>) -> Book<K>
        requires { AreAllSeats self seats }
        ensures { IsFinished self seats result }
    {
        let Desk { table, .. } = self;
        let mut others = seats.into_vec();
        let DeskSeat { badge, .. } = others.remove(0);
        let mut first = badge.into_seat();
        join_others(&table.shared, &mut first, others);
        close_table(table, first).into_book()
    }
}
