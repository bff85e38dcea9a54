//! The Failing and the Passing lanes of all points in a block.
ghost use Rattle.std.specs.Prelude.{◌≡◌, ◌^◌, ◌<◌, List, length, IfOk};
ghost use Rattle.scan_model.specs.declared.logs.LogFacts.{LogFacts};
ghost use Rattle.scan_model.specs.ScanTest.{points_of};
ghost use Rattle.scan_model.specs.Response.{expected_rows};
ghost use Rattle.log_join.specs.Joining.{StandsFor, IsJoinedOf, FitsExpected};
ghost use Rattle.log_rows.specs.PointRows.{ArePointRows};
ghost use Rattle.log_rows.specs.PlaceRows.{ArePlaceRows};

use crate::point_row::PointRow;
use crate::side::Side;
use crate::sides::side_row;
use log_join::Joined;
use scan_model::{Expected, NoMemory, Parts, Rows};
use std::alloc::Global;

/// The Failing and the Passing lanes of each place of the joined logs in a block, by rows of expected values.
pub fn rows_of_places(
    alloc: Global,
    joined: &Joined,
    expected: &Expected,
    block: u32,
) -> Result<Rows<PointRow>, NoMemory>
    requires expected { FitsExpected expected.now joined.now }
    requires block { block < 2 ^ 16 }
    ensures len { IfOk result (λ rows. length rows ≡ joined.now.points) }
    ensures rows { (logs : List LogFacts) → StandsFor logs joined.now → IfOk result (ArePlaceRows logs expected.now joined.now.patterns joined.now.points block) }
{
    let patterns = joined.patterns();
    let mut rows = Rows::new(alloc);
    for place in 0..joined.points() {
        let failing = side_row(joined, expected, patterns, Side::Failing, block, place);
        let passing = side_row(joined, expected, patterns, Side::Passing, block, place);
        rows.push(PointRow { failing, passing })?;
    }
    Ok(rows)
}

/// The Failing and the Passing lanes of each point of a test in a block, by the test's expected values.
pub fn rows_of_points(
    alloc: Global,
    parts: &Parts,
    joined: &Joined,
    expected: &Expected,
    block: u32,
) -> Result<Rows<PointRow>, NoMemory>
    requires expected { expected.now ≡ expected_rows parts.now }
    requires joined { IsJoinedOf (length parts.now.patterns) (length (points_of parts.now)) joined.now }
    requires block { block < 2 ^ 16 }
    ensures len { IfOk result (λ rows. length rows ≡ length (points_of parts.now)) }
    ensures rows { (logs : List LogFacts) → StandsFor logs joined.now → IfOk result (ArePointRows parts.now logs block) }
{
    let _ = parts.points();
    rows_of_places(alloc, joined, expected, block)
}
