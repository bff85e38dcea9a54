//! What the pieces of a block's work share.
ghost use Rattle.std.specs.Prelude.{◌≡◌, ◌+◌, ◌<◌, length};
ghost use Rattle.fault_effects.specs.Readers.{AreReads};

use crate::readers::Reads;
use crate::suspect::Suspect;
use lane_rows::Groups;
use packed_sim::PackedGood;
use scan_model::Parts;

/// What all pieces of a block's work read: the observer, how often each net is read, and the suspects, in groups by owner.
#[derive(Drop)]
pub struct BlockWork<'a, O> {
    pub parts: &'a Parts,
    pub good: &'a PackedGood,
    pub block: usize,
    pub observer: &'a O,
    pub reads: &'a [Reads],
    pub suspects: &'a [Suspect],
    pub owners: &'a Groups,
    ghost block_within: { block < length good.now.rows },
    ghost reads_right: { AreReads parts.now reads.now },
    ghost owners_len: { length owners.now ≡ length parts.now.netlist.nets + 2 },
}
