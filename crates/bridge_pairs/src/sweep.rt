//! Which pairs are feedback pairs: sweeps over the gates, each for 512 pairs.

ghost use Rattle.std.specs.Prelude.{◌≡◌, ◌<◌, ◌≤◌, ◌==◌, [], ◌∷◌, ◌++◌, ◌≢◌, ◌||◌, ℕ, if◌then◌else◌, length, map, All, IfOk, OnOk, IsPermutation, slice_index_or};
ghost use Rattle.std.specs.List.{list_any};
ghost use Rattle.scan_model.specs.Netlist.{reads};
ghost use Rattle.bit_rows.specs.Lanes.{lane};
ghost use Rattle.bridge_pairs.specs.PairText.{is_feedback, parted};
ghost use Rattle.bridge_pairs.specs.PairRows.{has_row, has_pair, IsBlank};
ghost use Rattle.bridge_pairs.specs.StartPlaces.{start_places, IsNoted};
ghost use Rattle.bridge_pairs.specs.Ranks.{IsRanked, start_of, target_of};

use crate::ranks::{RankedCircuit, in_order, ranks_of, window};
use crate::reached_rows::ReachedRows;
use crate::start_places::{StartPlace, by_start, pairs_at};
use bit_rows::Row;
use scan_model::{Circuit, NoMemory, Pair, Pairs, Pin, Rows};
use std::alloc::Global;

/// How many pairs one sweep tells: a row has a lane for each.
const BATCH: usize = 512;

/// The pins of a gate's operands.
fn operand_pins(circuit: &Circuit, gate: u32) -> &[Pin]
    requires { gate < length circuit.now.nets }
    ensures reads { map (λ p. p.net) result.now ≡ reads circuit.now gate }
    ensures nets { All (λ p. p.net < length circuit.now.nets) result.now }
{
    let net = &circuit.nets().as_slice()[gate as usize];
    let first = net.first_pin as usize;
    &circuit.pins().as_slice()[first..first + net.pin_count as usize]
}

/// Whether a gate has an operand with a row.
fn is_reached(circuit: &Circuit, rows: &ReachedRows, gate: u32) -> bool
    requires gate { gate < length circuit.now.nets }
    requires rows { length rows.now ≡ length circuit.now.nets }
    ensures { result ≡ list_any (has_row rows.now) (reads circuit.now gate) }
{
    for pin in operand_pins(circuit, gate) {
        if rows.has_row(pin.net) {
            return true;
        }
    }
    false
}

/// The lanes that a gate's operands have.
fn read_lanes(circuit: &Circuit, rows: &ReachedRows, gate: u32) -> Row
    requires gate { gate < length circuit.now.nets }
    requires rows { length rows.now ≡ length circuit.now.nets }
    ensures { (j : ℕ) → j < 512 → lane result j ≡ list_any (has_pair rows.now j) (reads circuit.now gate) }
{
    let mut lanes = Row::none();
    for pin in operand_pins(circuit, gate) {
        lanes = lanes.or(rows.lanes(pin.net));
    }
    lanes
}

/// Adds lanes to those of a net.
fn add_lanes(rows: &mut ReachedRows, net: u32, lanes: Row) -> Result<(), NoMemory>
    requires { net < length rows.old }
    ensures len { length rows.new ≡ length rows.old }
    ensures here { OnOk result ((j : ℕ) → j < 512 → has_pair rows.new j net ≡ (has_pair rows.old j net || lane lanes j)) }
    ensures elsewhere { OnOk result ((j n : ℕ) → n ≢ net → has_pair rows.new j n ≡ has_pair rows.old j n) }
{
    let all = rows.lanes(net).or(lanes);
    rows.write(net, all)
}

/// Adds the lanes of a gate's operands to those of the gate.
fn pass_gate(circuit: &Circuit, rows: &mut ReachedRows, gate: u32) -> Result<(), NoMemory>
    requires gate { gate < length circuit.now.nets }
    requires rows { length rows.old ≡ length circuit.now.nets }
    ensures len { length rows.new ≡ length rows.old }
    ensures here { OnOk result ((j : ℕ) → j < 512 → has_pair rows.new j gate ≡ (has_pair rows.old j gate || list_any (has_pair rows.old j) (reads circuit.now gate))) }
    ensures elsewhere { OnOk result ((j n : ℕ) → n ≢ gate → has_pair rows.new j n ≡ has_pair rows.old j n) }
{
    if !is_reached(circuit, rows, gate) {
        return Ok(());
    }
    let lanes = read_lanes(circuit, rows, gate);
    add_lanes(rows, gate, lanes)
}

/// Gives the start of pair j lane j.
fn set_starts(rows: &mut ReachedRows, ranks: &[u32], batch: &[Pair]) -> Result<(), NoMemory>
    requires rows { length rows.old ≡ length ranks.now }
    requires nets { All (λ p. (p.a < length ranks.now) × (p.b < length ranks.now)) batch.now }
    requires count { length batch.now ≤ 512 }
    requires blank { IsBlank rows.old }
    ensures len { length rows.new ≡ length rows.old }
    ensures starts { OnOk result ((j n : ℕ) (d : Pair) → j < length batch.now → n < length rows.new → has_pair rows.new j n ≡ (n == start_of ranks.now (slice_index_or batch.now j d))) }
{
    for (j, pair) in batch.iter().enumerate() {
        let (start, _) = in_order(ranks, pair);
        add_lanes(rows, start, Row::single(j))?;
    }
    Ok(())
}

/// Gives the fan-out cone of the start of pair j lane j, up to the batch's highest target.
fn sweep(ranked: &RankedCircuit<'_>, rows: &mut ReachedRows, batch: &[Pair]) -> Result<(), NoMemory>
    requires ranked { IsRanked ranked.now.circuit.now ranked.now.order.now ranked.now.ranks.now }
    requires rows { length rows.old ≡ length ranked.now.circuit.now.nets }
    requires nets { All (λ p. (p.a < length ranked.now.circuit.now.nets) × (p.b < length ranked.now.circuit.now.nets)) batch.now }
    requires count { length batch.now ≤ 512 }
    requires blank { IsBlank rows.old }
    ensures len { length rows.new ≡ length rows.old }
    ensures lanes { OnOk result ((j : ℕ) (d : Pair) → j < length batch.now → has_pair rows.new j (target_of ranked.now.ranks.now (slice_index_or batch.now j d)) ≡ is_feedback ranked.now.circuit.now (slice_index_or batch.now j d)) }
{
    set_starts(rows, ranked.ranks, batch)?;
    let (low, high) = window(ranked, batch);
    for k in low..high {
        pass_gate(ranked.circuit, rows, ranked.order[k])?;
    }
    Ok(())
}

/// Adds a pair at the end of those kept or those left out.
fn add_parted(parts: &mut Pairs, pair: Pair, is_feedback: bool) -> Result<(), NoMemory>
    ensures kept { OnOk result (parts.new.kept ≡ parts.old.kept ++ (if is_feedback then [] else pair ∷ [])) }
    ensures left_out { OnOk result (parts.new.left_out ≡ parts.old.left_out ++ (if is_feedback then pair ∷ [] else [])) }
{
    if is_feedback {
        parts.left_out.push(pair)
    } else {
        parts.kept.push(pair)
    }
}

/// Notes of the pairs at some places whether they are feedback pairs.
fn note_batch(
    alloc: Global,
    ranked: &RankedCircuit<'_>,
    rows: &mut ReachedRows,
    pairs: &[Pair],
    places: &[StartPlace],
    noted: &mut [bool],
) -> Result<(), NoMemory>
    requires ranked { IsRanked ranked.now.circuit.now ranked.now.order.now ranked.now.ranks.now }
    requires rows { length rows.old ≡ length ranked.now.circuit.now.nets }
    requires nets { All (λ p. (p.a < length ranked.now.circuit.now.nets) × (p.b < length ranked.now.circuit.now.nets)) pairs.now }
    requires places { All (λ s. s.place < length pairs.now) places.now }
    requires count { length places.now ≤ 512 }
    requires noted { length noted.old ≡ length pairs.now }
    ensures len { length rows.new ≡ length rows.old }
    ensures all { OnOk result (All (λ s. IsNoted ranked.now.circuit.now pairs.now noted.new s.place) places.now) }
    ensures kept { OnOk result ((i : ℕ) → IsNoted ranked.now.circuit.now pairs.now noted.old i → IsNoted ranked.now.circuit.now pairs.now noted.new i) }
{
    let batch = pairs_at(alloc, pairs, places)?;
    rows.clear();
    sweep(ranked, rows, &batch)?;
    for (j, at) in places.iter().enumerate() {
        let (_, target) = in_order(ranked.ranks, &pairs[at.place]);
        noted[at.place] = rows.lanes(target).has(j);
    }
    Ok(())
}

/// Notes of all pairs whether they are feedback pairs, batch by batch.
fn note_all(
    alloc: Global,
    ranked: &RankedCircuit<'_>,
    rows: &mut ReachedRows,
    pairs: &[Pair],
    places: &[StartPlace],
    noted: &mut [bool],
) -> Result<(), NoMemory>
    requires ranked { IsRanked ranked.now.circuit.now ranked.now.order.now ranked.now.ranks.now }
    requires rows { length rows.old ≡ length ranked.now.circuit.now.nets }
    requires nets { All (λ p. (p.a < length ranked.now.circuit.now.nets) × (p.b < length ranked.now.circuit.now.nets)) pairs.now }
    requires places { IsPermutation (start_places ranked.now.ranks.now pairs.now) places.now }
    requires noted { length noted.old ≡ length pairs.now }
    ensures { OnOk result (noted.new ≡ map (is_feedback ranked.now.circuit.now) pairs.now) }
{
    let mut at = 0;
    while at < places.len() {
        let end = places.len().min(at + BATCH);
        note_batch(alloc, ranked, rows, pairs, &places[at..end], noted)?;
        at = end;
    }
    Ok(())
}

/// Which pairs are feedback pairs. A batch has pairs whose starts stand near each other in the order of evaluation, so
/// that its sweep is short.
fn feedback_of(alloc: Global, circuit: &Circuit, pairs: &[Pair]) -> Result<Vec<bool>, NoMemory>
    requires { All (λ p. (p.a < length circuit.now.nets) × (p.b < length circuit.now.nets)) pairs.now }
    ensures { IfOk result (λ noted. noted.items ≡ map (is_feedback circuit.now) pairs.now) }
{
    let order = circuit.order().as_slice();
    let ranks = ranks_of(alloc, circuit, order)?;
    let places = by_start(alloc, &ranks, pairs)?;
    let mut rows = ReachedRows::make(alloc, circuit.nets().len())?;
    let mut noted = vec![in alloc; false; pairs.len()]?;
    let ranked = RankedCircuit {
        circuit,
        order,
        ranks: &ranks,
    };
    note_all(alloc, &ranked, &mut rows, pairs, &places, &mut noted)?;
    Ok(noted)
}

/// Parts the feedback pairs from the others, both in the order of the list. 512 pairs take one sweep over the gates
/// between their nets: the pairs are swept in the order of their starts, so that these gates are few.
pub fn part(alloc: Global, circuit: &Circuit, pairs: &[Pair]) -> Result<Pairs, NoMemory>
    requires { All (λ p. (p.a < length circuit.now.nets) × (p.b < length circuit.now.nets)) pairs.now }
    ensures { IfOk result (λ parts. parts ≡ parted circuit.now pairs.now) }
{
    let noted = feedback_of(alloc, circuit, pairs)?;
    let mut parts = Pairs {
        kept: Rows::new(alloc),
        left_out: Rows::new(alloc),
    };
    for (i, pair) in pairs.iter().enumerate() {
        add_parted(&mut parts, *pair, noted[i])?;
    }
    Ok(parts)
}
