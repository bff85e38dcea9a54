//! Where a flip shows, as rows of lanes.
ghost use Rattle.std.specs.Prelude.{◌≡◌, []};

use lane_rows::Row;

/// Where a flip of a net shows, a row for each place: the lanes whose bits are Failing, and those whose bits are Passing.
/// Rows without a lane are left out.
#[derive(Drop)]
pub struct FlipRows {
    pub failing: Vec<Row>,
    pub passing: Vec<Row>,
}

impl FlipRows {
    /// Drops what was kept.
    pub fn clear(&mut self)
        ensures failing { self.new.failing.items ≡ [] }
        ensures passing { self.new.passing.items ≡ [] }
    {
        self.failing.clear();
        self.passing.clear();
    }
}
