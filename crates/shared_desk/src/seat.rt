//! A seat of a desk.
ghost use Rattle.std.specs.Prelude.{◌≡◌, ◌≤◌, true, length};
ghost use Rattle.book.specs.LegalDeeds.{is_legal};

use crate::turns::SeatView;
use atomic_table::Badge;
use std::marker::Model;

/// A seat of a desk. Contracts see the desk, the seat's number, and the deeds and the faults that it has seen.
#[derive(Drop)]
pub struct DeskSeat {
    pub(crate) number: u32,
    pub(crate) mark: u64,
    pub(crate) badge: Badge<SeatView>,
}

impl Model for DeskSeat {
    ghost use Rattle.shared_desk.specs.Seats.{SeatFacts, seat_facts, IsDeskSeat};

    ghost Value = { SeatFacts };

    ghost view = { λ s. seat_facts s.badge.table_id s.badge.views };

    ghost invariant = { λ s. IsDeskSeat s.number s.mark s.badge.views };
}

impl DeskSeat {
    /// The number of deeds that it has seen. These are legal, and the deeds of the opening are among them.
    pub fn mark(&self) -> u64
        ensures number { result ≡ length self.now.seen }
        ensures base { self.now.desk.base ≤ length self.now.seen }
        ensures legal { is_legal self.now.desk.limit self.now.seen ≡ true }
    {
        self.mark
    }
}
