//! What the seats of a desk know, and the rule of its table.
use crate::open_book::OpenBook;
use atomic_table::{Join, Play, Seat, Shared, Split, Table, TableRule};
use desk_outside::{Deed, Keeper};
use std::alloc::Global;
use std::collections::LinkedList;
use std::snapshot::Snapshot;

/// What is one for all seats of a desk: their number, and of the book the most deeds, the deeds at the opening, the
/// keeper's count then, and whether the keeper tells its rows. No value of it is made.
pub struct DeskTerms {
    pub seats: u32,
    pub limit: u32,
    pub base: u64,
    pub opened: u64,
    pub tells: bool,
}

/// What a seat had seen when it was joined. No value of it is made.
pub struct JoinedSeat {
    pub number: u32,
    pub seen: LinkedList<Deed>,
    pub faults: LinkedList<u32>,
}

/// What a seat knows: the deeds and the faults that it has seen, and of these its own. No value of it is made.
pub struct SeatView {
    pub about: DeskTerms,
    pub number: u32,
    pub seen: LinkedList<Deed>,
    pub faults: LinkedList<u32>,
    pub mine: LinkedList<Deed>,
    pub failed: u64,
    pub waits: bool,
    pub ticket: u64,
    pub holds: bool,
    pub spent: bool,
    pub given: u32,
    pub joined: LinkedList<JoinedSeat>,
}

/// What a table is told when it is made: the number of its seats, and the book as it was opened.
#[derive(Drop)]
pub struct OpenedBook<K: Keeper> {
    pub seats: u32,
    pub book: Snapshot<OpenBook<K>>,
}

/// The rule of a desk's table.
pub struct Turns;

impl<K: Keeper> TableRule<Option<OpenBook<K>>, SeatView, OpenedBook<K>> for Turns {
    ghost use Rattle.shared_desk.specs.Turns.{IsDeskTable, terms_of, first_view};

    ghost holds = { λ k s. IsDeskTable (terms_of k.seats k.book.value) s };

    ghost first = { λ k. first_view (terms_of k.seats k.book.value) k.book.value.book.deeds };
}

/// A ticket was drawn.
pub struct TicketDraw;

impl<K: Keeper> Play<Option<OpenBook<K>>, SeatView> for TicketDraw {
    ghost use Rattle.shared_desk.specs.Turns.{Draws};

    ghost then = { λ _ v n w. Draws v n w };
}

/// The served word was read.
pub struct ServedRead;

impl<K: Keeper> Play<Option<OpenBook<K>>, SeatView> for ServedRead {
    ghost use Rattle.shared_desk.specs.Turns.{Asks};

    ghost then = { λ _ v n w. Asks v n w };
}

/// A deed or a fault counts.
pub struct EntryCount;

impl<K: Keeper> Play<Option<OpenBook<K>>, SeatView> for EntryCount {
    ghost use Rattle.shared_desk.specs.Turns.{Counts};

    ghost then = { λ _ v n w. Counts v n w };
}

/// The turn was given up.
pub struct TurnRelease;

impl<K: Keeper> Play<Option<OpenBook<K>>, SeatView> for TurnRelease {
    ghost use Rattle.shared_desk.specs.Turns.{Leaves};

    ghost then = { λ _ v n w. Leaves v n w };
}

/// A seat of the next number was made.
pub struct SeatSplit;

impl Split<SeatView> for SeatSplit {
    ghost use Rattle.shared_desk.specs.Turns.{with_given, next_view};

    ghost left = { with_given };

    ghost right = { next_view };
}

/// A seat was joined into the first.
pub struct SeatJoin;

impl Join<SeatView> for SeatJoin {
    ghost use Rattle.shared_desk.specs.Turns.{with_note, spent_view};

    ghost both = { with_note };

    ghost spent = { spent_view };
}

pub type DeskTable<K> = Table<Option<OpenBook<K>>, SeatView, OpenedBook<K>, Turns, Global>;

pub type Place<K> = Shared<Option<OpenBook<K>>, SeatView, OpenedBook<K>, Turns>;

pub type PlaceSeat<K> = Seat<Option<OpenBook<K>>, SeatView>;
