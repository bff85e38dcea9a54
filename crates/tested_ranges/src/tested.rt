//! The tested patterns of a log.

ghost use Rattle.std.specs.Prelude.{◌≡◌, ◌++◌, ◌∷◌, [], ◌<◌, OnOk};
ghost use Rattle.scan_model.specs.Coverage.{some_holds};
ghost use Rattle.scan_model.specs.LogText.{has_ranges};

use scan_model::{Range, Rows, bit, mark_patterns};
use std::alloc::{AllocError, Global};
use std::marker::Model;

/// Ranges of patterns in the order of their lines, with a mark for each of the at most 4,096 patterns that a range holds.
#[derive(Drop)]
pub struct TestedRanges {
    ranges: Vec<Range>,
    marks: [u64; 64],
}

impl Model for TestedRanges {
    ghost use Rattle.std.specs.Prelude.{◌≡◌, List, length};
    ghost use Rattle.scan_model.specs.declared.logs.Range.{Range};
    ghost use Rattle.tested_ranges.specs.TestedMarks.{AreMarked};

    ghost Value = { List Range };

    ghost view = { λ t. t.ranges.items };

    ghost invariant = { λ t. (length t.marks ≡ 64) × AreMarked t.marks t.ranges.items };
}

impl TestedRanges {
    pub fn new(alloc: Global) -> Self
        ensures { result ≡ [] }
    {
        TestedRanges {
            ranges: Vec::new(alloc),
            marks: [0; 64],
        }
    }

    pub fn add(&mut self, range: Range) -> Result<(), AllocError>
        requires { range.last < 4096 }
        ensures { OnOk result (self.new ≡ self.old ++ range ∷ []) }
    {
        self.ranges.push(range)?;
        mark_patterns(&mut self.marks, range.first as usize, range.last as usize);
        Ok(())
    }

    pub fn has_some(&self) -> bool
        ensures { result ≡ has_ranges self.now }
    {
        !self.ranges.is_empty()
    }

    /// Whether a range holds the pattern.
    pub fn holds(&self, pattern: u32) -> bool
        ensures { result ≡ some_holds self.now pattern }
    {
        let pattern = pattern as usize;
        pattern < 4096 && bit(&self.marks, 1, pattern, 0)
    }

    pub fn into_rows(self) -> Rows<Range>
        ensures { result ≡ self }
    {
        let TestedRanges { ranges, .. } = self;
        Rows::from_vec(ranges)
    }
}
