//! A number in each of 512 lanes.
ghost use Rattle.std.specs.Prelude.{◌≡◌, ℕ, ◌+◌, ◌*◌, ◌^◌, ◌<◌, ◌≤◌, ◌==◌, true, length, IfOk};
ghost use Rattle.bit_rows.specs.Lanes.{lane};
ghost use Rattle.pattern_fits.specs.LaneNumbers.{value, weight, one, rows_with};

use bit_rows::Row;
use scan_model::NoMemory;
use std::alloc::Global;
use std::marker::Model;

/// How many bits a number has: more than the faults of a list take, and the points of a pattern.
const SLICES: usize = 24;

/// A number below 2^24 in each of 512 lanes: slice i has the lanes whose number has bit i. Contracts see the slices.
#[derive(Drop)]
pub struct LaneCounter {
    slices: Vec<Row>,
}

impl Model for LaneCounter {
    ghost use Rattle.std.specs.Prelude.{◌≡◌, ℕ, List, length};

    ghost Value = { List (List ℕ) };

    ghost view = { λ c. c.slices.items };

    ghost invariant = { λ c. length c.slices.items ≡ 24 };
}

impl LaneCounter {
    /// 0 in each lane.
    pub fn make(alloc: Global) -> Result<LaneCounter, NoMemory>
        ensures { IfOk result (λ counter. (j : ℕ) → j < 512 → value counter j ≡ 0) }
    {
        let slices = vec![in alloc; Row::none(); SLICES]?;
        Ok(LaneCounter { slices })
    }

    /// One more in some lanes.
    pub fn add(&mut self, lanes: Row)
        requires { (j : ℕ) → j < 512 → value self.old j + one (lane lanes j) < 2 ^ 24 }
        ensures { (j : ℕ) → j < 512 → value self.new j ≡ value self.old j + one (lane lanes j) }
    {
        add_from(&mut self.slices, lanes);
    }

    /// One less in some lanes, none of which has 0.
    pub fn sub(&mut self, lanes: Row)
        requires { (j : ℕ) → j < 512 → one (lane lanes j) ≤ value self.old j }
        ensures { (j : ℕ) → j < 512 → value self.new j + one (lane lanes j) ≡ value self.old j }
    {
        sub_from(&mut self.slices, lanes);
    }

    /// One more for each of some rows, in its lanes.
    pub fn add_rows(&mut self, rows: &[Row])
        requires { (j : ℕ) → j < 512 → value self.old j + rows_with rows.now j < 2 ^ 24 }
        ensures { (j : ℕ) → j < 512 → value self.new j ≡ value self.old j + rows_with rows.now j }
    {
        for row in rows {
            self.add(*row);
        }
    }

    /// One less for each of some rows, in its lanes.
    pub fn sub_rows(&mut self, rows: &[Row])
        requires { (j : ℕ) → j < 512 → rows_with rows.now j ≤ value self.old j }
        ensures { (j : ℕ) → j < 512 → value self.new j + rows_with rows.now j ≡ value self.old j }
    {
        for row in rows {
            self.sub(*row);
        }
    }

    /// The numbers of another counter.
    pub fn set(&mut self, other: &LaneCounter)
        ensures { self.new ≡ other.now }
    {
        self.slices.copy_from_slice(&other.slices);
    }

    /// The lanes that have 0.
    pub fn zeros(&self) -> Row
        ensures { (j : ℕ) → j < 512 → lane result j ≡ (value self.now j == 0) }
    {
        let mut some = Row::none();
        for slice in &self.slices {
            some = some.or(*slice);
        }
        some.not()
    }

    /// The number of lane j.
    pub fn at(&self, j: u32) -> u32
        requires { j < 512 }
        ensures { result ≡ value self.now j }
    {
        let mut number = 0;
        for k in 0..SLICES {
            let slice = self.slices[SLICES - 1 - k];
            number = 2 * number + u32::from(slice.has(j as usize));
        }
        number
    }
}

// One more in some lanes, from the lowest slice on, until nothing is carried.
fn add_from(slices: &mut [Row], lanes: Row)
    requires { (j : ℕ) → j < 512 → value slices.old j + one (lane lanes j) < weight (length slices.old) }
    ensures { (j : ℕ) → j < 512 → value slices.new j ≡ value slices.old j + one (lane lanes j) }
{
    let mut carry = lanes;
    for i in 0..slices.len() {
        if carry.is_empty() {
            return;
        }
        let slice = slices[i];
        slices[i] = slice.xor(carry);
        carry = slice.and(carry);
    }
}

// One less in some lanes, from the lowest slice on, until nothing is borrowed.
fn sub_from(slices: &mut [Row], lanes: Row)
    requires { (j : ℕ) → j < 512 → one (lane lanes j) ≤ value slices.old j }
    ensures { (j : ℕ) → j < 512 → value slices.new j + one (lane lanes j) ≡ value slices.old j }
{
    let mut borrow = lanes;
    for i in 0..slices.len() {
        if borrow.is_empty() {
            return;
        }
        let slice = slices[i];
        slices[i] = slice.xor(borrow);
        borrow = slice.not().and(borrow);
    }
}
