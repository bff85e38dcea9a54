//! The lanes in which a net reaches failing bits, by one sweep back through the gates.
ghost use Rattle.std.specs.Prelude.{◌≡◌, ℕ, ◌<◌, length, ◌&&◌, ◌||◌, ◌==◌, None, slice_index_or, IfOk, OnOk};
ghost use Rattle.std.specs.List.{list_any, range_with_len};
ghost use Rattle.scan_model.specs.Netlist.{reads, net_numbers};
ghost use Rattle.scan_model.specs.Cone.{in_fan_in};
ghost use Rattle.lane_rows.specs.Lanes.{lane};
ghost use Rattle.back_trace.specs.Keys.{is_key, IsKeyBelow};
ghost use Rattle.explained_lanes.specs.Traces.{lane_at};

use explained_lanes::NetRows;
use lane_rows::Row;
use scan_model::{Circuit, NoMemory};
use std::alloc::Global;

/// Adds lanes to the row of a net.
fn add_lanes(rows: &mut NetRows, net: usize, lanes: Row) -> Result<(), NoMemory>
    requires { net < length rows.old }
    ensures len { length rows.new ≡ length rows.old }
    ensures lanes { OnOk result ((j n : ℕ) → j < 512 → lane_at rows.new j n ≡ (lane_at rows.old j n || (lane lanes j && (net == n)))) }
{
    let more = rows.row(net).or(lanes);
    rows.write(net, more)
}

/// Adds lanes to the row of a key's net.
fn add_at_key(rows: &mut NetRows, key: Option<u32>, lanes: Row) -> Result<(), NoMemory>
    requires { IsKeyBelow (length rows.old) key }
    ensures len { length rows.new ≡ length rows.old }
    ensures lanes { OnOk result ((j n : ℕ) → j < 512 → lane_at rows.new j n ≡ (lane_at rows.old j n || (lane lanes j && is_key key n))) }
{
    if lanes.is_empty() {
        return Ok(());
    }
    match key {
        Some(net) => add_lanes(rows, net as usize, lanes),
        None => Ok(()),
    }
}

/// A row for each net: the lanes, among the given ones, of the points whose key it is.
pub(crate) fn gathered(
    alloc: Global,
    nets: usize,
    points: &[Row],
    keys: &[Option<u32>],
    lanes: Row,
) -> Result<NetRows, NoMemory>
    requires len { length keys.now ≡ length points.now }
    requires below { (k : ℕ) → k < length keys.now → IsKeyBelow nets (slice_index_or keys.now k None) }
    ensures len { IfOk result (λ rows. length rows ≡ nets) }
    ensures rows { IfOk result (λ rows. (j n : ℕ) → j < 512 → n < nets → lane_at rows j n
        ≡ (lane lanes j && list_any (λ k. lane_at points.now j k && is_key (slice_index_or keys.now k None) n) (range_with_len 0 (length points.now)))) }
{
    let mut rows = NetRows::make(alloc, nets)?;
    for k in 0..points.len() {
        add_at_key(&mut rows, keys[k], points[k].and(lanes))?;
    }
    Ok(rows)
}

/// Adds the lanes of a gate to the rows of what it reads.
fn spread(circuit: &Circuit, rows: &mut NetRows, gate: u32) -> Result<(), NoMemory>
    requires gate { gate < length circuit.now.nets }
    requires rows { length rows.old ≡ length circuit.now.nets }
    ensures len { length rows.new ≡ length rows.old }
    ensures lanes { OnOk result ((j n : ℕ) → j < 512 → lane_at rows.new j n ≡ (lane_at rows.old j n || (lane_at rows.old j gate && list_any (λ h. n == h) (reads circuit.now gate)))) }
{
    if rows.is_empty_at(gate as usize) {
        return Ok(());
    }
    let row = rows.row(gate as usize);
    for i in 0..circuit.read_count(gate) {
        add_lanes(rows, circuit.read_at(gate, i) as usize, row)?;
    }
    Ok(())
}

/// Adds the lanes of each net to the rows of all that leads to it, by one sweep back through the gates. Passes by gates
/// without lanes.
pub(crate) fn spread_back(circuit: &Circuit, rows: &mut NetRows) -> Result<(), NoMemory>
    requires { length rows.old ≡ length circuit.now.nets }
    ensures len { length rows.new ≡ length rows.old }
    ensures lanes { OnOk result ((j n : ℕ) → j < 512 → n < length circuit.now.nets → lane_at rows.new j n ≡ list_any (λ m. lane_at rows.old j m && in_fan_in circuit.now n m) (net_numbers circuit.now)) }
{
    let order = circuit.order().as_slice();
    let _ = circuit.nets();
    let mut k = order.len();
    while k > 0 {
        k -= 1;
        spread(circuit, rows, order[k])?;
    }
    Ok(())
}
