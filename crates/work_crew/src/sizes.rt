//! How work is cut into pieces for a crew.
ghost use Rattle.std.specs.Prelude.{◌<◌};

use rayon::current_num_threads;
use std::thread::Threads;

/// How many pieces are cut for each processor: a thread that begins late or is slow takes fewer of them.
const PIECES_EACH: usize = 4;

/// The size of the pieces into which so many items are cut where there are several processors: some for each of them, none of fewer
/// items than the least that are worth a piece, and none of more than the most, since all wait for the last one. One processor takes
/// all items at once.
pub fn piece_size<R: Threads>(rt: &R, items: usize, least: usize, most: usize) -> usize
    ensures { 0 < result }
{
    if items <= least {
        return items.max(1);
    }
    let processors = current_num_threads(rt);
    if processors < 2 {
        return items;
    }
    items
        .div_ceil(processors.saturating_mul(PIECES_EACH))
        .min(most)
        .max(least)
        .max(1)
}
