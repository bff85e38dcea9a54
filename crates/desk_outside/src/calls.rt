//! The calls of an object in memory, some of which fail.
ghost use Rattle.std.specs.Prelude.{◌≡◌, ◌≤◌, []};

use scan_model::Rows;
use std::alloc::Global;

/// A call of the outside failed, and the count of faults rose.
#[derive(Clone, Copy, Debug, PartialEq, Eq)]
pub struct Failed;

// How many calls there were, which of them fail, and how often a call failed.
#[derive(Drop)]
pub struct Calls {
    pub made: u64,
    pub failing: Rows<u64>,
    pub faults: u64,
}

impl Calls {
    ghost use Rattle.desk_outside.specs.Schedule.{fresh_calls, fails_next, after_call, after_fault};

    /// Calls that all succeed.
    pub fn sure(alloc: Global) -> Self
        ensures { result ≡ fresh_calls [] }
    {
        Calls {
            made: 0,
            failing: Rows::new(alloc),
            faults: 0,
        }
    }

    /// Calls that fail where these numbers say so, counted from 1.
    pub fn failing(failing: Rows<u64>) -> Self
        ensures { result ≡ fresh_calls failing }
    {
        Calls {
            made: 0,
            failing,
            faults: 0,
        }
    }

    /// Counts a call, and says whether it fails.
    pub fn fails(&mut self) -> bool
        ensures listed { result ≡ fails_next self.old }
        ensures counted { self.new ≡ after_call self.old }
        ensures later { self.old.faults ≤ self.new.faults }
    {
        self.made = self.made.saturating_add(1);
        let fails = self.failing.as_slice().contains(&self.made);
        if fails {
            self.faults = self.faults.saturating_add(1);
        }
        fails
    }

    /// Counts a fault.
    pub fn fault(&mut self)
        ensures counted { self.new ≡ after_fault self.old }
        ensures later { self.old.faults ≤ self.new.faults }
    {
        self.faults = self.faults.saturating_add(1);
    }
}
