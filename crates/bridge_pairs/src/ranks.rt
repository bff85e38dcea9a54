//! The ranks of nets in an order of evaluation.

ghost use Rattle.std.specs.Prelude.{◌≡◌, ◌<◌, ◌≤◌, ℕ, length, All, IfOk, slice_index};
ghost use Rattle.scan_model.specs.Walks.{IsEvaluationOrder};
ghost use Rattle.bridge_pairs.specs.Ranks.{RanksFrom, IsRanked, start_of, target_of};

use scan_model::{Circuit, NoMemory, Pair};
use std::alloc::Global;

/// A circuit with an order of evaluation and the rank of each net in it: 0 for a net that is no gate, else the gate's
/// place, counted from 1. What a net reads through gates has a lower rank.
#[derive(Clone, Copy)]
pub struct RankedCircuit<'a> {
    pub circuit: &'a Circuit,
    pub order: &'a [u32],
    pub ranks: &'a [u32],
}

fn write_ranks(ranks: &mut [u32], order: &[u32])
    requires gates { All (λ n. n < length ranks.old) order.now }
    requires few { length order.now ≤ 65536 }
    requires blank { (n : ℕ) → slice_index ranks.old n ≡ 0 }
    ensures len { length ranks.new ≡ length ranks.old }
    ensures ranks { RanksFrom order.now ranks.new 0 }
{
    let mut k = order.len();
    while k > 0 {
        k -= 1;
        ranks[order[k] as usize] = k as u32 + 1;
    }
}

/// The ranks of a circuit's nets in an order of evaluation.
pub fn ranks_of(alloc: Global, circuit: &Circuit, order: &[u32]) -> Result<Vec<u32>, NoMemory>
    requires { IsEvaluationOrder circuit.now order.now }
    ensures { IfOk result (λ ranks. IsRanked circuit.now order.now ranks.items) }
{
    let mut ranks = vec![in alloc; 0u32; circuit.nets().len()]?;
    write_ranks(&mut ranks, order);
    Ok(ranks)
}

/// The nets of a pair, the one of lower rank in front. Only the second can read the first.
pub fn in_order(ranks: &[u32], pair: &Pair) -> (u32, u32)
    requires { (pair.now.a < length ranks.now) × (pair.now.b < length ranks.now) }
    ensures { result ≡ (start_of ranks.now pair.now, target_of ranks.now pair.now) }
{
    let Pair { a, b, row: _ } = *pair;
    if ranks[a as usize] <= ranks[b as usize] {
        (a, b)
    } else {
        (b, a)
    }
}

/// Between which places of the order a sweep for a batch of pairs runs: after the lowest start, up to the highest
/// target.
pub fn window(ranked: &RankedCircuit<'_>, batch: &[Pair]) -> (usize, usize)
    requires ranked { IsRanked ranked.now.circuit.now ranked.now.order.now ranked.now.ranks.now }
    requires nets { All (λ p. (p.a < length ranked.now.circuit.now.nets) × (p.b < length ranked.now.circuit.now.nets)) batch.now }
    ensures low { All (λ p. result.0 ≤ slice_index ranked.now.ranks.now (start_of ranked.now.ranks.now p)) batch.now }
    ensures high { All (λ p. slice_index ranked.now.ranks.now (target_of ranked.now.ranks.now p) ≤ result.1) batch.now }
    ensures order { result.0 ≤ result.1 }
    ensures end { result.1 ≤ length ranked.now.order.now }
{
    let mut low = ranked.order.len();
    let mut high = 0;
    for pair in batch {
        let (start, target) = in_order(ranked.ranks, pair);
        low = low.min(ranked.ranks[start as usize] as usize);
        high = high.max(ranked.ranks[target as usize] as usize);
    }
    (low.min(high), high)
}
