//! What each place shows under a fault of a chain, with what an observer makes of the rows of all places.
ghost use Rattle.std.specs.Prelude.{◌≡◌, ◌≢◌, ℕ, ◌<◌, false, OnOk};
ghost use Rattle.lane_rows.specs.Lanes.{lane};
ghost use Rattle.fault_effects.specs.Tables.{row_at, table_of};
ghost use Rattle.fault_effects.specs.Notes.{AreNotes};

use crate::observer::ChainObserver;
use lane_rows::Row;
use scan_model::NoMemory;
use std::alloc::Global;

/// A row for each place, and what they come to.
#[derive(Drop)]
pub(crate) struct Notes<S> {
    alloc: Global,
    pub rows: Vec<Row>,
    pub sum: S,
}

/// Notes of no place.
pub(crate) fn no_notes<O: ChainObserver>(
    alloc: Global,
    observer: &O,
) -> Result<Notes<O::Sum>, NoMemory> {
    Ok(Notes {
        alloc,
        rows: Vec::new(alloc),
        sum: observer.new_sum(alloc)?,
    })
}

/// Notes no fail at any place.
pub(crate) fn clear_notes<O: ChainObserver>(
    observer: &O,
    notes: &mut Notes<O::Sum>,
) -> Result<(), NoMemory>
    ensures notes { OnOk result (AreNotes (O.sums observer.now) (O.model observer.now).places notes.new) }
    ensures none { OnOk result ((q j : ℕ) → q < (O.model observer.now).places → j < 512 → table_of notes.new.rows.items q j ≡ false) }
{
    notes.rows.clear();
    notes.rows.resize(observer.places(), Row::none())?;
    notes.sum = observer.new_sum(notes.alloc)?;
    Ok(())
}

/// Notes a row at a place. The observer is told of it where it is another than before.
pub(crate) fn note_row<O: ChainObserver>(
    observer: &O,
    notes: &mut Notes<O::Sum>,
    place: u32,
    row: Row,
)
    requires notes { AreNotes (O.sums observer.now) (O.model observer.now).places notes.old }
    requires place { place < (O.model observer.now).places }
    ensures notes { AreNotes (O.sums observer.now) (O.model observer.now).places notes.new }
    ensures here { (j : ℕ) → j < 512 → table_of notes.new.rows.items place j ≡ lane row j }
    ensures others { (q : ℕ) → q ≢ place → row_at notes.new.rows.items q ≡ row_at notes.old.rows.items q }
{
    let old = notes.rows[place as usize];
    if old.xor(row).is_empty() {
        return;
    }
    observer.change(&mut notes.sum, place, old, row);
    notes.rows[place as usize] = row;
}
