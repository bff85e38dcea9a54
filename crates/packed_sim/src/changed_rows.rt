//! The rows of a block under a change: those that the change gave to nets, else the fault-free ones.
ghost use Rattle.std.specs.Prelude.{◌≡◌, ℕ, ◌<◌, ◌==◌, true, length};
ghost use Rattle.std.specs.Int.{bit_at};
ghost use Rattle.scan_model.specs.Values.{is_one};
ghost use Rattle.lane_rows.specs.Planes.{held};
ghost use Rattle.packed_sim.specs.Rows.{rows_at, slots_of, row_now, AreFound};

use crate::overlay::OWN;
use lane_rows::{NetRows, Packed};
use std::marker::Model;

/// The rows of a block, with those that a change gave to nets in their place. A place says which list a row is in and where
/// there, so that no row is looked for by a test: whether a net has changed can't be foreseen.
#[derive(Drop)]
pub(crate) struct ChangedRows<'a> {
    places: &'a [u32],
    lists: [&'a [Packed]; 2],
}

impl<'a> Model for ChangedRows<'a> {
    ghost use Rattle.packed_sim.specs.Rows.{RowsOver, rows_at, slots_of, lent_at, AreFound};

    ghost Value = { RowsOver };

    ghost view = { λ c. record { own = rows_at (lent_at c.lists 1) (slots_of c.places.now); good = (lent_at c.lists 0) } };

    ghost invariant = { λ c. AreFound c.places.now (lent_at c.lists 0) (lent_at c.lists 1) };
}

impl<'a> ChangedRows<'a> {
    /// The rows of a block and those of a change, of which places name one for each net.
    pub(crate) fn make(places: &'a [u32], good: &'a [Packed], own: &'a [Packed]) -> ChangedRows<'a>
        requires { AreFound places.now good.now own.now }
        ensures { result ≡ record { own = rows_at own.now (slots_of places.now); good = good.now } }
    {
        ChangedRows {
            places,
            lists: [good, own],
        }
    }

    /// The row of a net: that of the change, else that of the block.
    pub(crate) fn now(&self, net: u32) -> Packed
        requires { net < length self.now.good }
        ensures { result ≡ row_now self.now.own self.now.good net }
    {
        let place = self.places[net as usize];
        let lists = &self.lists[..];
        let list = lists[(place / OWN) as usize];
        list[(place % OWN) as usize]
    }

    /// The first 64 lanes in which a net is 1.
    pub(crate) fn first_word(&self, net: u32) -> u64
        requires { net < length self.now.good }
        ensures { (i : ℕ) → i < 64 → (bit_at result i == 1) ≡ is_one (held (row_now self.now.own self.now.good net) i) }
    {
        self.now(net).ones().word(0)
    }

    /// Whether a row is that of a net, whose first word is at hand. Where the row is another, the word mostly tells, and the rest
    /// of the net's row isn't read.
    pub(crate) fn has_row(&self, net: u32, word: u64, row: Packed) -> bool
        requires { net < length self.now.good }
        ensures { result ≡ true → (j : ℕ) → j < 512 → held row j ≡ held (row_now self.now.own self.now.good net) j }
    {
        row.ones().word(0) == word && row.is_same(self.now(net))
    }
}

impl NetRows for ChangedRows<'_> {
    ghost use Rattle.std.specs.Prelude.{length};
    ghost use Rattle.packed_sim.specs.Propagation.{lane_now};

    ghost nets = { λ rows. length rows.good };

    ghost value = { λ rows n j. lane_now rows.own rows.good j n };

    fn row(&self, net: u32) -> Packed {
        self.now(net)
    }
}
