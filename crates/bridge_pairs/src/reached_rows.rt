//! Rows for the few nets that lanes reach.

ghost use Rattle.std.specs.Prelude.{◌≡◌, ℕ, ◌<◌, ◌^◌, OnOk, Some, All, IfOk, length, slice_set, slice_index_or};
ghost use Rattle.bit_rows.specs.Lanes.{lane};
ghost use Rattle.bridge_pairs.specs.PairRows.{has_row, has_pair, IsBlank, emptied};

use bit_rows::Row;
use scan_model::NoMemory;
use std::alloc::Global;
use std::marker::Model;

/// The rows of the nets that a lane reaches. A slot is 0, or one more than the place in the lists.
#[derive(Drop)]
pub struct ReachedRows {
    slots: Vec<u32>,
    nets: Vec<u32>,
    rows: Vec<Row>,
}

impl Model for ReachedRows {
    ghost use Rattle.std.specs.Prelude.{ℕ, List, Option};

    ghost Value = { List (Option (List ℕ)) };

    ghost use Rattle.bridge_pairs.specs.PairRows.{rows_at, HaveSlots};

    ghost view = { λ r. rows_at r.rows.items r.slots.items };

    ghost invariant = { λ r. HaveSlots r.slots.items r.nets.items r.rows.items };
}

/// Empties the slots of nets.
fn empty_slots(slots: &mut [u32], nets: &[u32])
    requires { All (λ n. n < length slots.old) nets.now }
    ensures { (n : ℕ) → slice_index_or slots.new n 0 ≡ emptied nets.now slots.old n }
{
    for net in nets {
        slots[*net as usize] = 0;
    }
}

impl ReachedRows {
    /// No row of so many nets.
    pub fn make(alloc: Global, nets: usize) -> Result<ReachedRows, NoMemory>
        requires { nets < 2 ^ 32 }
        ensures len { IfOk result (λ r. length r ≡ nets) }
    {
        Ok(ReachedRows {
            slots: vec![in alloc; 0u32; nets]?,
            nets: Vec::new(alloc),
            rows: Vec::new(alloc),
        })
    }

    /// Whether a net has a row.
    pub fn has_row(&self, net: u32) -> bool
        requires { net < length self.now }
        ensures { result ≡ has_row self.now net }
    {
        self.slots[net as usize] != 0
    }

    /// The lanes of a net: those of its row, else none.
    pub fn lanes(&self, net: u32) -> Row
        requires { net < length self.now }
        ensures { (j : ℕ) → j < 512 → lane result j ≡ has_pair self.now j net }
    {
        let slot = self.slots[net as usize];
        if slot == 0 {
            Row::none()
        } else {
            self.rows[slot as usize - 1]
        }
    }

    /// Gives a net a row.
    pub fn write(&mut self, net: u32, row: Row) -> Result<(), NoMemory>
        requires { net < length self.old }
        ensures len { length self.new ≡ length self.old }
        ensures written { OnOk result (self.new ≡ slice_set self.old net (Some row)) }
    {
        let slot = self.slots[net as usize];
        if slot != 0 {
            self.rows[slot as usize - 1] = row;
            return Ok(());
        }
        self.nets.reserve(1)?;
        self.rows.reserve(1)?;
        self.nets.push_reserved(net);
        self.rows.push_reserved(row);
        self.slots[net as usize] = self.nets.len() as u32;
        Ok(())
    }

    /// Takes all rows out.
    pub fn clear(&mut self)
        ensures len { length self.new ≡ length self.old }
        ensures blank { IsBlank self.new }
    {
        empty_slots(&mut self.slots, &self.nets);
        self.nets.clear();
        self.rows.clear();
    }
}
