//! The places of pairs in a list, by the ranks of their starts.

ghost use Rattle.std.specs.Prelude.{◌≡◌, ◌<◌, length, map, All, IfOk, IsPermutation};
ghost use Rattle.std.specs.List.Sorted.{IsNonDecreasingBy};
ghost use Rattle.bridge_pairs.specs.StartPlaces.{start_places, pair_at};

use crate::ranks::in_order;
use scan_model::{NoMemory, Pair};
use std::alloc::Global;

/// The place of a pair, and the rank of its start.
#[derive(Clone, Copy)]
pub struct StartPlace {
    pub rank: u32,
    pub place: usize,
}

/// The places of pairs, in the order of the list.
fn start_places(alloc: Global, ranks: &[u32], pairs: &[Pair]) -> Result<Vec<StartPlace>, NoMemory>
    requires { All (λ p. (p.a < length ranks.now) × (p.b < length ranks.now)) pairs.now }
    ensures { IfOk result (λ places. places.items ≡ start_places ranks.now pairs.now) }
{
    let mut places = Vec::with_capacity(alloc, pairs.len())?;
    for (place, pair) in pairs.iter().enumerate() {
        let (start, _) = in_order(ranks, pair);
        let rank = ranks[start as usize];
        places.push(StartPlace { rank, place })?;
    }
    Ok(places)
}

/// The places of pairs, in the order of the ranks of their starts.
pub fn by_start(alloc: Global, ranks: &[u32], pairs: &[Pair]) -> Result<Vec<StartPlace>, NoMemory>
    requires { All (λ p. (p.a < length ranks.now) × (p.b < length ranks.now)) pairs.now }
    ensures all { IfOk result (λ places. IsPermutation (start_places ranks.now pairs.now) places.items) }
    ensures rising { IfOk result (λ places. IsNonDecreasingBy (λ s. s.rank) places.items) }
{
    let mut places = start_places(alloc, ranks, pairs)?;
    places.sort_unstable_by_key(|at| at.rank);
    Ok(places)
}

/// The pairs at places.
pub fn pairs_at(alloc: Global, pairs: &[Pair], places: &[StartPlace]) -> Result<Vec<Pair>, NoMemory>
    requires { All (λ s. s.place < length pairs.now) places.now }
    ensures { IfOk result (λ found. found.items ≡ map (λ s. pair_at pairs.now s.place) places.now) }
{
    let mut found = Vec::with_capacity(alloc, places.len())?;
    for at in places {
        found.push(pairs[at.place])?;
    }
    Ok(found)
}
