//! Where stuck pins that go straight to points show in a block.
ghost use Rattle.std.specs.Prelude.{◌≡◌, ℕ, ◌+◌, ◌<◌, ◌&&◌, Bool, All, length, sum_by, if◌then◌else◌, IfOk, OnOk};
ghost use Rattle.scan_model.specs.declared.fault.Fault.TheVariants as fault;
ghost use Rattle.scan_model.specs.ScanTest.{points_of};
ghost use Rattle.scan_model.specs.Netlist.{pin_at};
ghost use Rattle.lane_rows.specs.Lanes.{lane, count_lanes};
ghost use Rattle.packed_sim.specs.PackedParts.{BelongsTo};
ghost use Rattle.log_rows.specs.declared.side.Side.{Side};
ghost use Rattle.fault_effects.specs.FaultModel.{point_model, straight_in};
ghost use Rattle.match_counts.specs.Flips.{tallied, row_on, list_on};
ghost use Rattle.match_counts.specs.Tables.{HasTable};
ghost use Rattle.slat_view.specs.StraightPins.{shown_at};

use lane_rows::Row;
use log_rows::PointRow;
use match_counts::{FlipRows, PointCounts};
use packed_sim::{is_pin_at, net_of_pin};
use scan_model::{NoMemory, Parts, Stuck};
use std::alloc::Global;

/// Adds the lanes of a mask at a point, if the point is asked for.
fn show_point(shown: &mut FlipRows, asked: bool, row: &PointRow, mask: Row) -> Result<(), NoMemory>
    ensures { OnOk result ((side : Side) (m : ℕ → Bool) → tallied (list_on side shown.new) m
        ≡ tallied (list_on side shown.old) m + (if asked then count_lanes (λ j. (lane mask j && lane (row_on side row.now) j) && m j) else 0)) }
{
    if asked {
        shown.add_point(row, mask)?;
    }
    Ok(())
}

/// Adds the lanes of a mask at those of some points that see a pin.
fn show_points(
    shown: &mut FlipRows,
    parts: &Parts,
    rows: &[PointRow],
    points: &[u32],
    pin: u32,
    mask: Row,
) -> Result<(), NoMemory>
    requires rows { length rows.now ≡ length (points_of parts.now) }
    requires points { All (λ k. k < length rows.now) points.now }
    requires pin { pin < length parts.now.netlist.pins }
    ensures { OnOk result ((side : Side) (m : ℕ → Bool) → tallied (list_on side shown.new) m
        ≡ tallied (list_on side shown.old) m + sum_by (shown_at parts.now rows.now side (pin_at parts.now.netlist pin).place mask m) points.now) }
{
    for point in points {
        let asked = is_pin_at(parts, pin, *point as usize);
        show_point(shown, asked, &rows[*point as usize], mask)?;
    }
    Ok(())
}

/// Where a stuck pin that goes straight to a point shows. The only error is want of memory.
pub(crate) fn shown_straight(
    alloc: Global,
    counts: &PointCounts<'_>,
    pin: u32,
    value: Stuck,
) -> Result<FlipRows, NoMemory>
    requires good { BelongsTo counts.now.parts.now counts.now.good.now }
    requires pin { pin < length counts.now.parts.now.netlist.pins }
    ensures { IfOk result (λ shown. HasTable counts.now.rows.now shown (straight_in (point_model counts.now.parts.now) counts.now.block (fault.Branch pin value))) }
{
    let net = net_of_pin(counts.parts.circuit(), pin);
    let mask = counts
        .good
        .stuck_mask(counts.parts, counts.block, net, value)
        .and(counts.good.blocks()[counts.block].capture);
    let mut shown = FlipRows::new(alloc);
    let points = counts.good.points_of_net(counts.parts, net);
    show_points(&mut shown, counts.parts, counts.rows, points, pin, mask)?;
    Ok(shown)
}
