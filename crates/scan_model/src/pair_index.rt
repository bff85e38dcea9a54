//! The places of the kept pairs, by their nets.

ghost use Rattle.std.specs.Prelude.{◌≡◌, ◌+◌, ◌*◌, ◌^◌, ◌≤◌, length, IfOk};
ghost use Rattle.scan_model.specs.PairIndex.{nets_number, places_of, IsPairIndex};

use crate::parts::Pair;
use crate::rows::{NoMemory, Rows};
use std::alloc::Global;

/// The nets of a kept pair in one number, the first in its upper half, and the pair's place in the list.
#[derive(Clone, Copy, PartialEq, Eq)]
pub struct PairPlace {
    pub nets: u64,
    pub place: u32,
}

/// Two nets in one number, the first in its upper half.
pub fn nets_number(a: u32, b: u32) -> u64
    ensures { result ≡ nets_number a b }
{
    a as u64 * 0x1_0000_0000 + b as u64
}

fn places_of(alloc: Global, pairs: &[Pair]) -> Result<Rows<PairPlace>, NoMemory>
    requires few { length pairs.now ≤ 65536 }
    ensures { IfOk result (λ places. places ≡ places_of pairs.now) }
{
    let mut places = Rows::new(alloc);
    let mut place = 0u32;
    let mut rest = pairs;
    while let [pair, others @ ..] = rest {
        let nets = nets_number(pair.a, pair.b);
        places.push(PairPlace { nets, place })?;
        place += 1;
        rest = others;
    }
    Ok(places)
}

/// The places of kept pairs, in rising order of their nets.
pub(crate) fn pair_index(alloc: Global, pairs: &[Pair]) -> Result<Rows<PairPlace>, NoMemory>
    requires few { length pairs.now ≤ 65536 }
    ensures { IfOk result (IsPairIndex pairs.now) }
{
    let mut index = places_of(alloc, pairs)?;
    index.sort_unstable_by_key(|at| at.nets);
    Ok(index)
}
