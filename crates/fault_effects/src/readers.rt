//! The gate that alone reads a net.
ghost use Rattle.std.specs.Prelude.{◌≡◌, ℕ, ◌<◌, length, IfOk, IfSome};
ghost use Rattle.fault_effects.specs.declared.readers.Reads.TheVariants as reading;
ghost use Rattle.fault_effects.specs.Readers.{AreReads, IsPinOf, IsSoleReader};

use scan_model::{Driver, NoMemory, Parts, PinPlace};
use std::alloc::Global;

/// By how many pins a net is read: the pin where there is one.
#[derive(Clone, Copy)]
pub enum Reads {
    Never,
    Once(u32),
    Often,
}

/// A gate, and the pin through which it reads a net that nothing else reads.
#[derive(Clone, Copy)]
pub(crate) struct SoleReader {
    pub gate: u32,
    pub pin: u32,
}

/// By how many pins a net is read, where one pin more reads it.
fn read_again(reads: Reads, pin: u32) -> Reads
    ensures some { result ≡ reading.Never → ⊥ }
    ensures first { (p : ℕ) → result ≡ reading.Once p → (reads ≡ reading.Never) × (p ≡ pin) }
{
    match reads {
        Reads::Never => Reads::Once(pin),
        Reads::Once(_) => Reads::Often,
        Reads::Often => Reads::Often,
    }
}

/// By how many pins each net is read.
pub fn reads_of(alloc: Global, parts: &Parts) -> Result<Vec<Reads>, NoMemory>
    ensures { IfOk result (λ reads. AreReads parts.now reads.items) }
{
    let circuit = parts.circuit();
    let mut reads = vec![in alloc; Reads::Never; circuit.nets().len()]?;
    let pins = circuit.pins().as_slice();
    for pin in 0..pins.len() {
        let net = pins[pin].net as usize;
        reads[net] = read_again(reads[net], pin as u32);
    }
    Ok(reads)
}

/// The gate whose pin this is.
fn gate_of(parts: &Parts, pin: u32) -> Option<u32>
    requires { pin < length parts.now.netlist.pins }
    ensures { IfSome result (IsPinOf parts.now pin) }
{
    let circuit = parts.circuit();
    let PinPlace::Operand { net, .. } = circuit.pins().as_slice()[pin as usize].place else {
        return None;
    };
    match circuit.nets().as_slice().get(net as usize) {
        Some(gate) => match gate.driver {
            Driver::Gate(_) => Some(net),
            Driver::Input => None,
            Driver::Flop => None,
        },
        None => None,
    }
}

/// The gate that alone reads a net, if there is one.
pub(crate) fn sole_reader(parts: &Parts, reads: &[Reads], net: u32) -> Option<SoleReader>
    requires reads { AreReads parts.now reads.now }
    requires net { net < length parts.now.netlist.nets }
    ensures { IfSome result (IsSoleReader parts.now net) }
{
    let Reads::Once(pin) = reads[net as usize] else {
        return None;
    };
    let gate = gate_of(parts, pin)?;
    Some(SoleReader { gate, pin })
}
