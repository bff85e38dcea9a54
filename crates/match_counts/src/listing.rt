//! The candidates among the suspects, with their counts.
ghost use Rattle.std.specs.Prelude.{◌≡◌, List, All, Bool, Some, length, slice_get, IfOk};
ghost use Rattle.scan_model.specs.declared.fault.Fault.{Fault};
ghost use Rattle.scan_model.specs.declared.logs.Bit.{Bit};
ghost use Rattle.scan_model.specs.declared.logs.BitClass.{BitClass};
ghost use Rattle.fault_effects.specs.Owners.{places_of};
ghost use Rattle.match_counts.specs.Totals.{AreTotals, candidates_in};

use crate::block_totals::BlockTotals;
use crate::plain::push_candidate;
use fault_effects::Suspect;
use scan_model::{Counts, NoMemory, Rows, Scored};
use std::alloc::Global;

/// The suspects that explain at least one Failing bit, by their totals over all blocks, in the order of the suspects. The only error is want of memory.
pub fn list_candidates(
    alloc: Global,
    suspects: &[Suspect],
    totals: &BlockTotals,
) -> Result<Rows<Scored>, NoMemory>
    requires { length totals.now.totals ≡ length suspects.now }
    ensures { (faults : List Fault) (bits : List Bit) (classes : Bit → BitClass) (fails : Fault → Bit → Bool) → All (λ s. slice_get faults s.place ≡ Some s.fault) suspects.now
        → AreTotals bits classes fails suspects.now totals.now → IfOk result (λ rows. rows ≡ candidates_in faults bits classes fails (places_of suspects.now)) }
{
    let mut rows = Rows::from_vec(Vec::with_capacity(alloc, suspects.len())?);
    for (index, suspect) in suspects.iter().enumerate() {
        let place = suspect.place;
        let total = totals.totals()[index];
        let counts = Counts {
            tfsf: total.tfsf,
            // A fault explains Failing bits alone, so nothing is cut off.
            tfsp: totals.failing().saturating_sub(total.tfsf),
            tpsf: total.tpsf,
        };
        push_candidate(&mut rows, Scored { place, counts })?;
    }
    Ok(rows)
}
