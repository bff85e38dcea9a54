//! The shares of all suspects in a block, in one list.

ghost use Rattle.std.specs.Prelude.{◌≡◌, ℕ, ◌+◌, ◌<◌, ◌++◌, [], All, Contains, length, IfOk, OnOk};
ghost use Rattle.fault_effects.specs.Owners.{owner, suspect_at};
ghost use Rattle.fault_effects.specs.Shares.{Shares};
ghost use Rattle.fault_effects.specs.SoundWork.{IsSound};
ghost use Rattle.fault_effects.specs.ChainWork.{IsChainWork};

use fault_effects::{BlockWork, ChainObserver, Share, cell_piece, logic_parts};
use scan_model::{NoMemory, Rows};
use std::alloc::Global;

/// Adds shares at the end of others.
fn append<P: Copy + Drop>(shares: &mut Rows<Share<P>>, piece: &[Share<P>]) -> Result<(), NoMemory>
    ensures { OnOk result (shares.new ≡ shares.old ++ piece.now) }
{
    for share in piece {
        shares.push(*share)?;
    }
    Ok(())
}

/// The shares of all suspects in a block, given the nets that own a suspect. The only error is want of memory.
pub fn block_parts<O: ChainObserver>(
    alloc: Global,
    work: &BlockWork<'_, O>,
    nets: &[u32],
) -> Result<Rows<Share<O::Part>>, NoMemory>
    requires work { IsSound O.test O.model O.block O.clean O.ready work.now }
    requires chains { IsChainWork O.test O.good O.block O.model O.ready work.now }
    requires nets { All (λ n. n < length work.now.parts.now.netlist.nets) nets.now }
    requires all { (i : ℕ) → i < length work.now.suspects.now → owner work.now.parts.now (suspect_at work.now.suspects.now i).fault < length work.now.parts.now.netlist.nets → Contains nets.now (owner work.now.parts.now (suspect_at work.now.suspects.now i).fault) }
    ensures { IfOk result (Shares (O.means work.now.observer.now) (O.model work.now.observer.now) (O.block work.now.observer.now) work.now.suspects.now (λ i. owner work.now.parts.now (suspect_at work.now.suspects.now i).fault < length work.now.parts.now.netlist.nets + 2) []) }
{
    let count = work.parts.circuit().nets().len() as u32;
    let mut shares = logic_parts(alloc, work, nets)?;
    let cells = cell_piece(alloc, work, work.owners.group(count + 1))?;
    append(&mut shares, cells.as_slice())?;
    Ok(shares)
}
