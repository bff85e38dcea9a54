//! The words of a fault's text: names and numbers.

ghost use Rattle.std.specs.Prelude.{◌≡◌, ◌++◌, ◌∷◌, ◌<◌, length, decimal, OnOk};
ghost use Rattle.scan_model.specs.ScanTest.{name_of, chain_at};

use itoa::write_digits;
use scan_model::{Name, NoMemory, Parts};

/// The most bytes that a number takes with a space before it.
const WORD_LEN: usize = 21;

/// The name of a net.
pub fn net_name(parts: &Parts, net: u32) -> &[u8]
    requires { net < length parts.now.netlist.nets }
    ensures { result.now ≡ name_of parts.now net }
{
    parts.circuit().nets().as_slice()[net as usize]
        .name
        .as_slice()
}

/// The name of a chain.
pub fn chain_name(parts: &Parts, chain: u32) -> &[u8]
    requires { chain < length parts.now.chains }
    ensures { result.now ≡ (chain_at parts.now chain).name }
{
    parts.chains().as_slice()[chain as usize].name.as_slice()
}

/// Adds a space and a word.
pub fn push_word(line: &mut Name, word: &[u8]) -> Result<(), NoMemory>
    ensures { OnOk result (line.new ≡ line.old ++ 32 ∷ word.now) }
{
    line.push(b' ')?;
    line.append(word)
}

/// Adds a space and a number in decimal digits, which are made without memory of their own.
pub fn push_number(line: &mut Name, number: u64) -> Result<(), NoMemory>
    ensures { OnOk result (line.new ≡ line.old ++ 32 ∷ decimal number) }
{
    if number < 10 {
        return line.append(&[b' ', b'0' + number as u8]);
    }
    let mut word = [b' '; WORD_LEN];
    let digits = write_digits(number, &mut word, WORD_LEN);
    line.append(&word[digits - 1..])
}
