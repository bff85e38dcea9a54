//! What stuck pins that go straight to points come to in a block.
ghost use Rattle.std.specs.Prelude.{All, length, OnOk};
ghost use Rattle.fault_effects.specs.Owners.{IsOwned};
ghost use Rattle.fault_effects.specs.Shares.{Shares, IsAmong};
ghost use Rattle.fault_effects.specs.SoundWork.{IsSound};

use crate::block_work::BlockWork;
use crate::observer::Observer;
use crate::share::Share;
use scan_model::{Fault, NoMemory, Rows};

/// Adds the shares of the suspects whose pins go straight to points.
pub(crate) fn share_pins<O: Observer>(
    work: &BlockWork<'_, O>,
    group: &[u32],
    shares: &mut Rows<Share<O::Part>>,
) -> Result<(), NoMemory>
    requires work { IsSound O.test O.model O.block O.clean O.ready work.now }
    requires group { All (IsOwned work.now.parts.now work.now.suspects.now (length work.now.parts.now.netlist.nets)) group.now }
    ensures { OnOk result (Shares (O.means work.now.observer.now) (O.model work.now.observer.now) (O.block work.now.observer.now) work.now.suspects.now (IsAmong group.now (length group.now)) shares.old shares.new) }
{
    let _ = work.parts.circuit();
    for item in group {
        let suspect = work.suspects[*item as usize];
        let Fault::Branch { pin, value } = suspect.fault else {
            unreachable!()
        };
        let part = work.observer.straight(pin, value)?;
        shares.push(Share {
            suspect: *item,
            part,
        })?;
    }
    Ok(())
}
