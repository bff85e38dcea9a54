//! Rows that stand over those of a block, for the few nets that a change reaches.
ghost use Rattle.std.specs.Prelude.{◌≡◌, ◌≢◌, ◌↔◌, ℕ, ◌<◌, ◌≤◌, ◌^◌, Some, None, Contains, length, nat_eq, All, IfOk, slice_set, slice_index_or};
ghost use Rattle.std.specs.List.{IsDistinct};
ghost use Rattle.packed_sim.specs.Rows.{IsClean, row_now, at_home};

use crate::changed_rows::ChangedRows;
use lane_rows::Packed;
use scan_model::NoMemory;
use std::alloc::Global;
use std::marker::Model;

/// Where the places of a change's own rows begin. Those below are places in the rows of the block.
pub(crate) const OWN: u32 = 2_147_483_648;

/// Rows that stand for those of a block, net by net. The place of a net is its own number, where the row of the block stands
/// for it, or `OWN` more than a place in the lists.
#[derive(Drop)]
pub struct Overlay {
    places: Vec<u32>,
    nets: Vec<u32>,
    rows: Vec<Packed>,
}

impl Model for Overlay {
    ghost use Rattle.std.specs.Prelude.{List, Option};
    ghost use Rattle.lane_rows.specs.Planes.{Planes};

    ghost Value = { List (Option Planes) };

    ghost use Rattle.std.specs.Prelude.{vec_capacity};
    ghost use Rattle.packed_sim.specs.Rows.{rows_at, slots_of, IsLaid};

    ghost view = { λ o. rows_at o.rows.items (slots_of o.places.items) };

    ghost invariant = { λ o. IsLaid o.places.items o.nets.items o.rows.items (vec_capacity o.nets) (vec_capacity o.rows) };
}

/// Gives each net its place in the rows of the block.
fn send_all_home(places: &mut [u32])
    requires { length places.old ≤ 2 ^ 31 }
    ensures { (n : ℕ) → n < length places.new → slice_index_or places.new n 0 ≡ n }
{
    for net in 0..places.len() {
        places[net] = net as u32;
    }
}

/// Gives nets their places in the rows of the block back.
fn send_home(places: &mut [u32], nets: &[u32])
    requires { All (λ n. n < length places.old) nets.now }
    ensures { (n : ℕ) → slice_index_or places.new n 0 ≡ at_home nets.now places.old n }
{
    for net in nets {
        places[*net as usize] = *net;
    }
}

impl Overlay {
    /// No rows, with room for one of each net. More nets than there are places of the block's rows are too many for any memory.
    pub fn make(alloc: Global, nets: usize) -> Result<Overlay, NoMemory>
        requires { nets < 2 ^ 32 }
        ensures len { IfOk result (λ o. length o ≡ nets) }
        ensures clean { IfOk result IsClean }
    {
        if nets > OWN as usize {
            return Err(NoMemory);
        }
        let mut places = vec![in alloc; 0u32; nets]?;
        send_all_home(&mut places);
        Ok(Overlay {
            places,
            nets: Vec::with_capacity(alloc, nets)?,
            rows: Vec::with_capacity(alloc, nets)?,
        })
    }

    /// The row of a net: its own, else that of the block.
    pub fn row(&self, good: &[Packed], net: u32) -> Packed
        requires good { length good.now ≡ length self.now }
        requires net { net < length self.now }
        ensures { result ≡ row_now self.now good.now net }
    {
        self.over(good).now(net)
    }

    /// The rows of a block with those of the change in their place.
    pub(crate) fn over<'a>(&'a self, good: &'a [Packed]) -> ChangedRows<'a>
        requires { length good.now ≡ length self.now }
        ensures { result ≡ record { own = self.now; good = good.now } }
    {
        ChangedRows::make(&self.places, good, &self.rows)
    }

    /// The row of its own that a net has, if any.
    pub fn own(&self, net: u32) -> Option<Packed>
        requires { net < length self.now }
        ensures { result ≡ slice_index_or self.now net None }
    {
        let place = self.places[net as usize];
        if place < OWN {
            None
        } else {
            Some(self.rows[(place - OWN) as usize])
        }
    }

    /// The nets that have a row of their own.
    pub fn nets(&self) -> &[u32]
        ensures all { (n : ℕ) → Contains result.now n ↔ (slice_index_or self.now n None ≢ None) }
        ensures differ { IsDistinct nat_eq result.now }
    {
        &self.nets
    }

    /// Gives a net a row of its own.
    pub fn write(&mut self, net: u32, row: Packed)
        requires { net < length self.old }
        ensures { self.new ≡ slice_set self.old net (Some row) }
    {
        let place = self.places[net as usize];
        if place < OWN {
            self.places[net as usize] = OWN + self.nets.len() as u32;
            self.nets.push_reserved(net);
            self.rows.push_reserved(row);
        } else {
            self.rows[(place - OWN) as usize] = row;
        }
    }

    /// Takes all rows out.
    pub fn clear(&mut self)
        ensures len { length self.new ≡ length self.old }
        ensures clean { IsClean self.new }
    {
        send_home(&mut self.places, &self.nets);
        self.nets.clear();
        self.rows.clear();
    }
}
