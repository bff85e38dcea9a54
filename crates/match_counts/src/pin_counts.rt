//! What pins that go straight to points explain and mispredict in a block.
ghost use Rattle.std.specs.Prelude.{◌≡◌, ◌+◌, ◌*◌, ◌^◌, ◌<◌, ◌≤◌, ◌&&◌, All, length, sum_by, if◌then◌else◌};
ghost use Rattle.scan_model.specs.ScanTest.{points_of, IsPoint};
ghost use Rattle.scan_model.specs.Masks as masks;
ghost use Rattle.fault_universe.specs.LineWords.{IsPlaceOf};
ghost use Rattle.packed_sim.specs.PackedParts.{IsBuiltFor};
ghost use Rattle.lane_rows.specs.Lanes.{lane, count_lanes};
ghost use Rattle.log_rows.specs.declared.side.Side.{Side};
ghost use Rattle.match_counts.specs.Flips.{count_on, row_on, pin_lanes};
ghost use Rattle.match_counts.specs.Tables.{IsCount, seen_in};

use crate::block_count::BlockCount;
use crate::point_counts::PointCounts;
use lane_rows::Row;
use log_rows::PointRow;
use scan_model::{Driver, Parts, PinPlace, Point};

/// Whether what a point sees is the pin at this place.
fn is_point(parts: &Parts, place: PinPlace, point: Point) -> bool
    requires place { IsPlaceOf (length parts.now.netlist.nets) place }
    requires point { IsPoint parts.now point }
    ensures { result ≡ masks.place_is_point parts.now place point }
{
    match (place, point) {
        (PinPlace::Output { place }, Point::Output { place: output }) => place == output,
        (PinPlace::Operand { net, .. }, Point::Cell { chain, pos }) => {
            let cell = parts.chains().as_slice()[chain as usize].cells.as_slice()[pos as usize];
            match parts.circuit().nets().as_slice()[net as usize].driver {
                Driver::Flop => cell == net,
                _ => false,
            }
        }
        _ => false,
    }
}

/// Adds the lanes of a mask at a point, if the point is asked for.
fn count_point(count: BlockCount, asked: bool, row: &PointRow, mask: Row) -> BlockCount
    requires { (side : Side) → count_on side count < 2 ^ 31 }
    ensures { (side : Side) → count_on side result ≡ count_on side count + (if asked then count_lanes (λ j. lane (row_on side row.now) j && lane mask j) else 0) }
{
    if !asked {
        return count;
    }
    BlockCount {
        tfsf: count.tfsf + row.failing.count_both(mask),
        tpsf: count.tpsf + row.passing.count_both(mask),
    }
}

/// Counts the lanes of a mask at those of some points that see the pin at a place.
fn count_points(
    parts: &Parts,
    rows: &[PointRow],
    points: &[u32],
    place: PinPlace,
    mask: Row,
) -> BlockCount
    requires rows { length rows.now ≡ length (points_of parts.now) }
    requires points { All (λ k. k < length rows.now) points.now }
    requires few { length points.now ≤ 131072 }
    requires place { IsPlaceOf (length parts.now.netlist.nets) place }
    ensures { (side : Side) → count_on side result ≡ sum_by (pin_lanes parts.now rows.now side place mask) points.now }
{
    let mut count = BlockCount { tfsf: 0, tpsf: 0 };
    for point in points {
        let at = parts.points().as_slice()[*point as usize];
        let asked = is_point(parts, place, at);
        count = count_point(count, asked, &rows[*point as usize], mask);
    }
    count
}

impl PointCounts<'_> {
    /// What the points that see a pin have of some lanes.
    pub fn count_pin(&self, pin: u32, lanes: Row) -> BlockCount
        requires built { IsBuiltFor self.now.parts.now self.now.good.now }
        requires pin { pin < length self.now.parts.now.netlist.pins }
        ensures { IsCount self.now.rows.now result (seen_in self.now.parts.now pin lanes) }
    {
        let _ = self.parts.points();
        let at = self.parts.circuit().pins().as_slice()[pin as usize];
        let points = self.good.points_of_net(self.parts, at.net);
        count_points(self.parts, self.rows, points, at.place, lanes)
    }
}
