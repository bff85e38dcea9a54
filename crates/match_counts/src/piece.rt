//! The lists of work of a block, cut into pieces.
ghost use Rattle.std.specs.Prelude.{◌<◌, OnOk};
ghost use Rattle.match_counts.specs.WorkPieces.{HaveMore};

use fault_effects::WorkKind;
use scan_model::NoMemory;
use std::thread::Threads;
use work_crew::piece_size;

/// Some items of one of the lists of work.
#[derive(Clone, Copy)]
pub struct Piece<'a> {
    pub kind: WorkKind,
    pub items: &'a [u32],
}

/// How many items a piece has at most where there are several processors.
const MOST_ITEMS: usize = 2048;

/// How few items are worth a thread of their own, which needs a scratch as large as the circuit.
pub(crate) fn least_size(kind: WorkKind) -> usize
    ensures { 0 < result }
{
    match kind {
        WorkKind::Nets => 512,
        WorkKind::Pins => 1024,
        WorkKind::Cells => 64,
    }
}

/// Cuts a list, and puts its pieces behind those of other lists, the last one first: nets that come last, the inputs and cells among
/// them, reach most.
pub(crate) fn cut<'a, R: Threads>(
    rt: &R,
    kind: WorkKind,
    items: &'a [u32],
    pieces: &mut Vec<Piece<'a>>,
) -> Result<(), NoMemory>
    ensures { OnOk result (HaveMore kind items.now pieces.old.items pieces.new.items) }
{
    let size = piece_size(rt, items.len(), least_size(kind), MOST_ITEMS);
    let first = pieces.len();
    let mut rest = items;
    while !rest.is_empty() {
        let (part, later) = rest.split_at(size.min(rest.len()));
        let place = first.min(pieces.len());
        pieces.insert(place, Piece { kind, items: part })?;
        rest = later;
    }
    Ok(())
}
