//! Sums over the lanes of rows.
ghost use Rattle.std.specs.Prelude.{◌≡◌, ◌<◌, ◌≤◌, ◌^◌, length, sum_by};
ghost use Rattle.lane_rows.specs.Lanes.{lane, count_lanes};
ghost use Rattle.match_counts.specs.Flips.{tallied};

use lane_rows::Row;
use log_rows::PointRow;

/// How many lanes of some rows a mask has.
pub(crate) fn tally(rows: &[Row], mask: Row) -> u32
    requires { tallied rows.now (lane mask) < 2 ^ 32 }
    ensures { result ≡ tallied rows.now (lane mask) }
{
    let mut sum = 0;
    for row in rows {
        sum += row.count_both(mask);
    }
    sum
}

/// The number of Failing bits of a block.
pub(crate) fn failing_count(rows: &[PointRow]) -> u32
    requires { length rows.now ≤ 2 ^ 22 }
    ensures { result ≡ sum_by (λ r. count_lanes (lane r.failing)) rows.now }
{
    let mut sum = 0;
    for row in rows {
        sum += row.failing.count();
    }
    sum
}
