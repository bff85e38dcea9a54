//! Whether a fault explains a failing bit of a block.
ghost use Rattle.std.specs.Prelude.{◌≡◌, ℕ, ◌<◌, ◌&&◌, ◌||◌, None, nat_lt, length, slice_index, slice_index_or};
ghost use Rattle.scan_model.specs.declared.fault.Fault.TheVariants as fault;
ghost use Rattle.scan_model.specs.Values.{are_opposite};
ghost use Rattle.scan_model.specs.ScanTest.{HasSite, points_of};
ghost use Rattle.scan_model.specs.Faults as faults;
ghost use Rattle.scan_model.specs.Netlist.{driver_of, pin_at};
ghost use Rattle.scan_model.specs.Suspect.{place_reaches};
ghost use Rattle.lane_rows.specs.Lanes.{lane};
ghost use Rattle.lane_rows.specs.Planes.{held};
ghost use Rattle.lane_rows.specs.GoodRows.{AreBlockRows};
ghost use Rattle.explained_lanes.specs.Fails.{any_fail, explains_in, IsWithin, Tells, Covers};
ghost use Rattle.explained_lanes.specs.Traces.{is_from, IsPlaceIn, IsTraceOf};

use crate::trace::Trace;
use lane_rows::{Block, Packed, Row, flipped_lanes};
use scan_model::{BridgeKind, Driver, Fault, Parts, Pin, PinPlace, Stuck};

/// The lanes that are definite and not the stuck value.
fn other_lanes(values: Packed, stuck: Stuck) -> Row
    ensures { (j : ℕ) → j < 512 → lane result j ≡ are_opposite (held values j) (faults.stuck_value stuck) }
{
    match stuck {
        Stuck::Zero => values.ones(),
        Stuck::One => values.zeros(),
    }
}

/// What drives a net.
fn driver(parts: &Parts, net: u32) -> Driver
    requires { net < length parts.now.netlist.nets }
    ensures { result ≡ driver_of parts.now.netlist net }
{
    let net = &parts.circuit().nets().as_slice()[net as usize];
    net.driver
}

/// A pin.
pub fn pin_of(parts: &Parts, pin: u32) -> Pin
    requires { pin < length parts.now.netlist.pins }
    ensures pin { result ≡ pin_at parts.now.netlist pin }
    ensures net { (pin_at parts.now.netlist pin).net < length parts.now.netlist.nets }
    ensures place { IsPlaceIn parts.now (pin_at parts.now.netlist pin).place }
{
    parts.circuit().pins().as_slice()[pin as usize]
}

/// The captured lanes in which a pin at a place reaches a failing bit.
fn place_row(parts: &Parts, block: &Block, trace: &Trace, place: PinPlace) -> Row
    requires trace { IsTraceOf parts.now block.now.capture block.now.shift trace.now }
    requires fails { length trace.now.fails ≡ length (points_of parts.now) }
    requires place { IsPlaceIn parts.now place }
    ensures { (j : ℕ) → j < 512 → lane result j ≡ (lane block.now.capture j && any_fail parts.now trace.now.fails j (place_reaches parts.now place)) }
{
    match place {
        PinPlace::Operand { net, .. } => {
            match driver(parts, net) {
                Driver::Input => Row::none(),
                Driver::Flop => trace.cells.row(net as usize),
                Driver::Gate(_) => trace.reach.row(net as usize),
            }
        }
        PinPlace::Output { place } => trace.fails.as_slice()[place as usize].and(block.capture),
    }
}

/// The lanes in which a stuck net explains a failing bit.
fn stem_row(parts: &Parts, block: &Block, trace: &Trace, net: u32, value: Stuck) -> Row
    requires trace { IsTraceOf parts.now block.now.capture block.now.shift trace.now }
    requires values { length block.now.values ≡ length parts.now.netlist.nets }
    requires site { HasSite parts.now (fault.Stem net value) }
    ensures { (b : ℕ) → AreBlockRows parts.now b block.now → IsWithin parts.now b trace.now.fails
        → (j : ℕ) → j < 512 → lane result j ≡ explains_in parts.now (fault.Stem net value) b trace.now.fails j }
{
    let at = net as usize;
    other_lanes(block.values.as_slice()[at], value).and(trace.reach.row(at))
}

/// The lanes in which a stuck pin explains a failing bit.
fn branch_row(parts: &Parts, block: &Block, trace: &Trace, pin: u32, value: Stuck) -> Row
    requires trace { IsTraceOf parts.now block.now.capture block.now.shift trace.now }
    requires fails { length trace.now.fails ≡ length (points_of parts.now) }
    requires values { length block.now.values ≡ length parts.now.netlist.nets }
    requires site { HasSite parts.now (fault.Branch pin value) }
    ensures { (b : ℕ) → AreBlockRows parts.now b block.now → IsWithin parts.now b trace.now.fails
        → (j : ℕ) → j < 512 → lane result j ≡ explains_in parts.now (fault.Branch pin value) b trace.now.fails j }
{
    let seen = pin_of(parts, pin);
    let reached = place_row(parts, block, trace, seen.place);
    other_lanes(block.values.as_slice()[seen.net as usize], value).and(reached)
}

/// The lanes in which a bridge explains a failing bit.
fn bridge_row(parts: &Parts, block: &Block, trace: &Trace, a: u32, b: u32, kind: BridgeKind) -> Row
    requires trace { IsTraceOf parts.now block.now.capture block.now.shift trace.now }
    requires values { length block.now.values ≡ length parts.now.netlist.nets }
    requires site { HasSite parts.now (fault.Bridge a b kind) }
    ensures { (index : ℕ) → AreBlockRows parts.now index block.now → IsWithin parts.now index trace.now.fails
        → (j : ℕ) → j < 512 → lane result j ≡ explains_in parts.now (fault.Bridge a b kind) index trace.now.fails j }
{
    let values = block.values.as_slice();
    let (first, second) = (values[a as usize], values[b as usize]);
    let both = kind.value(first, second);
    let first_flips = flipped_lanes(kind.takes(true, false), first, both);
    let by_first = first_flips.and(trace.reach.row(a as usize));
    let by_second = second.opposite(both).and(trace.reach.row(b as usize));
    by_first.or(by_second)
}

/// Whether a fault after a cell explains a failing bit.
fn is_cell_explained(parts: &Parts, trace: &Trace, chain: u32, pos: u32) -> bool
    requires chain { chain < length parts.now.chains }
    requires trace { (length trace.now.firsts ≡ length parts.now.chains) × (length trace.now.lasts ≡ length parts.now.chains) }
    ensures { result ≡ (is_from (slice_index_or trace.now.firsts chain None) pos || nat_lt pos (slice_index trace.now.lasts chain)) }
{
    let at = chain as usize;
    if (pos as usize) < trace.lasts.as_slice()[at] {
        return true;
    }
    match trace.firsts.as_slice()[at] {
        None => false,
        Some(first) => first <= pos,
    }
}

/// Each lane, or none.
fn lanes_if(answer: bool) -> Row
    ensures { (j : ℕ) → j < 512 → lane result j ≡ answer }
{
    if answer { Row::all() } else { Row::none() }
}

/// The lanes in which the fault explains a failing bit. Of a fault behind a cell they are all, where it does in any.
pub fn explaining_lanes(parts: &Parts, block: &Block, trace: &Trace, fault: Fault) -> Row
    requires trace { IsTraceOf parts.now block.now.capture block.now.shift trace.now }
    requires fails { length trace.now.fails ≡ length (points_of parts.now) }
    requires values { length block.now.values ≡ length parts.now.netlist.nets }
    requires site { HasSite parts.now fault }
    ensures { (b : ℕ) → AreBlockRows parts.now b block.now → IsWithin parts.now b trace.now.fails → Covers result (explains_in parts.now fault b trace.now.fails) }
{
    let _ = parts.circuit();
    match fault {
        Fault::Stem { net, value } => stem_row(parts, block, trace, net, value),
        Fault::Branch { pin, value } => branch_row(parts, block, trace, pin, value),
        Fault::Bridge { a, b, kind } => bridge_row(parts, block, trace, a, b, kind),
        Fault::Cell { chain, pos, .. } => lanes_if(is_cell_explained(parts, trace, chain, pos)),
    }
}

/// Whether the fault explains a failing bit of the block.
pub fn is_explained(parts: &Parts, block: &Block, trace: &Trace, fault: Fault) -> bool
    requires trace { IsTraceOf parts.now block.now.capture block.now.shift trace.now }
    requires fails { length trace.now.fails ≡ length (points_of parts.now) }
    requires values { length block.now.values ≡ length parts.now.netlist.nets }
    requires site { HasSite parts.now fault }
    ensures { (b : ℕ) → AreBlockRows parts.now b block.now → IsWithin parts.now b trace.now.fails → Tells result (explains_in parts.now fault b trace.now.fails) }
{
    !explaining_lanes(parts, block, trace, fault).is_empty()
}
