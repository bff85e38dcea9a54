//! The generator: the four texts of a design of so many blocks, drawn from a seed.
ghost use Rattle.std.specs.Prelude.{◌≡◌, ◌≤◌, IfOk};
ghost use Rattle.made_laws.specs.Draws.{state_after};
ghost use Rattle.made_designs.specs.MadeTexts.{BreakNoRule, made_texts, text_draws};
ghost use Rattle.design_bundle.specs.FourTexts.{four};
ghost use Rattle.scan_model.specs.declared.fault.Profile.TheVariants as profile;

use crate::draws::Draws;
use crate::netlist::made_netlist;
use crate::pairs::made_pairs;
use crate::patterns::made_patterns;
use crate::scan::made_scan;
use scan_model::{Name, NoMemory};
use std::alloc::Global;

/// A design that is made: its texts, and the draws that come after them.
#[derive(Drop)]
pub struct MadeDesign {
    pub netlist: Name,
    pub scan: Name,
    pub patterns: Name,
    pub neighbours: Name,
    pub draws: Draws,
}

/// The design of a seed and so many blocks. With one block or more its texts break no rule.
pub fn made_design(alloc: Global, seed: u32, blocks: u32) -> Result<MadeDesign, NoMemory>
    requires { blocks ≤ 200 }
    ensures texts { IfOk result (λ made. four profile.One made.netlist made.scan made.patterns made.neighbours ≡ made_texts seed blocks) }
    ensures draws { IfOk result (λ made. made.draws.state ≡ state_after seed (text_draws blocks)) }
    ensures legal { 1 ≤ blocks → IfOk result (λ made. BreakNoRule (four profile.One made.netlist made.scan made.patterns made.neighbours)) }
{
    let mut draws = Draws::from_seed(seed);
    let netlist = made_netlist(alloc, blocks, &mut draws)?;
    let scan = made_scan(alloc, blocks)?;
    let patterns = made_patterns(alloc, blocks, &mut draws)?;
    let neighbours = made_pairs(alloc, blocks)?;
    Ok(MadeDesign {
        netlist,
        scan,
        patterns,
        neighbours,
        draws,
    })
}
