//! Rows by net, where most nets have no lanes.
ghost use Rattle.std.specs.Prelude.{◌≡◌, ℕ, ◌<◌, [], length, true, false, slice_index_or, slice_set, IfOk, OnOk};
ghost use Rattle.explained_lanes.specs.Traces.{lane_at};

use lane_rows::Row;
use scan_model::NoMemory;
use std::alloc::Global;
use std::marker::Model;

/// A row for each net, where most nets have none. Nets without lanes share the first row. Contracts see a row for each net.
#[derive(Drop)]
pub struct NetRows {
    slots: Vec<usize>,
    rows: Vec<Row>,
}

impl Model for NetRows {
    ghost use Rattle.std.specs.Prelude.{ℕ, List};

    ghost Value = { List (List ℕ) };

    ghost use Rattle.explained_lanes.specs.Slots.{rows_at, AreSlots};

    ghost view = { λ r. rows_at r.rows.items r.slots.items };

    ghost invariant = { λ r. AreSlots r.slots.items r.rows.items };
}

impl NetRows {
    /// No lanes, for so many nets.
    pub fn make(alloc: Global, nets: usize) -> Result<NetRows, NoMemory>
        ensures len { IfOk result (λ rows. length rows ≡ nets) }
        ensures none { IfOk result (λ rows. (j n : ℕ) → j < 512 → n < nets → lane_at rows j n ≡ false) }
    {
        let slots = vec![in alloc; 0; nets]?;
        let mut rows = Vec::new(alloc);
        rows.push(Row::none())?;
        Ok(NetRows { slots, rows })
    }

    /// The row of a net.
    pub fn row(&self, net: usize) -> Row
        requires { net < length self.now }
        ensures { result ≡ slice_index_or self.now net [] }
    {
        self.rows[self.slots[net]]
    }

    /// Whether a net has no lane.
    pub fn is_empty_at(&self, net: usize) -> bool
        requires { net < length self.now }
        ensures empty { result ≡ true → (j : ℕ) → j < 512 → lane_at self.now j net ≡ false }
        ensures some { ((j : ℕ) → j < 512 → lane_at self.now j net ≡ false) → result ≡ true }
    {
        self.slots[net] == 0 || self.row(net).is_empty()
    }

    /// Gives a net its row.
    pub fn write(&mut self, net: usize, row: Row) -> Result<(), NoMemory>
        requires { net < length self.old }
        ensures len { length self.new ≡ length self.old }
        ensures rows { OnOk result (self.new ≡ slice_set self.old net row) }
    {
        let slot = self.slots[net];
        if slot != 0 {
            self.rows[slot] = row;
            return Ok(());
        }
        let fresh = self.rows.len();
        self.rows.push(row)?;
        self.slots[net] = fresh;
        Ok(())
    }
}
