//! The neighbours of a made design.
ghost use Rattle.std.specs.Prelude.{◌≡◌, ◌<◌, ◌≤◌, ◌++◌, IfOk, OnOk};
ghost use Rattle.made_laws.specs.MadePairs.{made_pairs, pair_line};

use crate::names::push_net;
use scan_model::{Name, NoMemory};
use std::alloc::Global;

/// The gate of a block that lies beside that of the next.
const NEAR_GATE: u32 = 50;

/// Adds the line of a block and the next.
fn push_pair(text: &mut Name, block: u32) -> Result<(), NoMemory>
    requires { block < 200 }
    ensures { OnOk result (text.new ≡ text.old ++ pair_line block) }
{
    push_net(text, b'g', block, NEAR_GATE)?;
    text.push(b',')?;
    push_net(text, b'g', block + 1, NEAR_GATE)?;
    text.push(b'\n')
}

/// The neighbour list of so many blocks.
pub fn made_pairs(alloc: Global, blocks: u32) -> Result<Name, NoMemory>
    requires { blocks ≤ 200 }
    ensures { IfOk result (λ text. text ≡ made_pairs blocks) }
{
    let mut text = Name::copy_of(alloc, b"net_a,net_b\n")?;
    for block in 0..blocks.saturating_sub(1) {
        push_pair(&mut text, block)?;
    }
    Ok(text)
}
