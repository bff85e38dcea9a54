//! Names of nets of a made design.
ghost use Rattle.std.specs.Prelude.{◌≡◌, ◌++◌, ◌∷◌, [], decimal, OnOk};
ghost use Rattle.made_laws.specs.MadeNetlist.{net_name};

use itoa::Buffer;
use scan_model::{Name, NoMemory};

/// Adds a number in decimal digits, which are made without memory of their own.
pub fn push_number(text: &mut Name, number: u32) -> Result<(), NoMemory>
    ensures { OnOk result (text.new ≡ text.old ++ decimal number) }
{
    let mut buffer = Buffer::new();
    text.append(buffer.format(number).as_bytes())
}

/// Adds the name of the net of a number in a block, after the letter of its kind.
pub fn push_net(text: &mut Name, letter: u8, block: u32, number: u32) -> Result<(), NoMemory>
    ensures { OnOk result (text.new ≡ text.old ++ net_name (letter ∷ []) block number) }
{
    text.push(letter)?;
    push_number(text, block)?;
    text.push(b'_')?;
    push_number(text, number)
}
