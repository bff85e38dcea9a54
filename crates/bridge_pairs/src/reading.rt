//! A whole list of neighbouring nets.

ghost use Rattle.std.specs.Prelude.{◌≡◌, ◌≤◌, length, IfOk};
ghost use Rattle.scan_model.specs.TextFaults.{HasNoFault, IsFirstFault};
ghost use Rattle.scan_model.specs.ScanText.{net_names};
ghost use Rattle.scan_model.specs.ScanTest.{ArePairs};
ghost use Rattle.text_parts.specs.ReadResults.{Gives, IfFault};
ghost use Rattle.bridge_pairs.specs.PairText.{records_in, naming, pairs_break, pairs_reading};
ghost use Rattle.bridge_pairs.specs.NamedPairs.{AreNamed};

use crate::named_pairs::NamedPairs;
use crate::records::records_of;
use crate::sweep::part;
use scan_model::{Circuit, Pair, Pairs};
use std::alloc::Global;
use text_parts::{Names, ReadFault, TextFault};

/// The different pairs that a text names over nets of these names.
fn named_pairs(alloc: Global, names: &Names<'_>, bytes: &[u8]) -> Result<Vec<Pair>, ReadFault>
    requires { length names.now ≤ 65536 }
    ensures naming { Gives (λ v. v.items) result (naming names.now (records_in bytes.now)) }
    ensures named { IfOk result (λ v. AreNamed (length names.now) v.items) }
{
    let records = records_of(alloc, bytes)?;
    let mut named = NamedPairs::new(alloc);
    for (i, record) in records.iter().enumerate() {
        if let Some(rule) = named.take_record(names, i, record)? {
            let line = i as u64 + 1;
            return Err(ReadFault::Text(TextFault { line, rule }));
        }
    }
    Ok(named.into_vec())
}

/// The pairs that a list of neighbouring nets names, or its first fault by rules 31 to 34, where the names of the
/// circuit's nets are there already.
pub fn read_pairs_named(
    alloc: Global,
    circuit: &Circuit,
    names: &Names<'_>,
    bytes: &[u8],
) -> Result<Pairs, ReadFault>
    requires { names.now ≡ net_names circuit.now.nets }
    ensures reading { Gives (λ pairs. pairs) result (pairs_reading circuit.now bytes.now) }
    ensures first { IfFault result (IsFirstFault (pairs_break (net_names circuit.now.nets) (records_in bytes.now)) (length (records_in bytes.now))) }
    ensures none { IfOk result (λ pairs. HasNoFault (pairs_break (net_names circuit.now.nets) (records_in bytes.now)) (length (records_in bytes.now))) }
    ensures fits { IfOk result (ArePairs circuit.now) }
{
    let _ = circuit.nets();
    let named = named_pairs(alloc, names, bytes)?;
    let pairs = part(alloc, circuit, &named)?;
    Ok(pairs)
}

/// The pairs that a list of neighbouring nets names, feedback pairs apart, or its first fault: the number of a record,
/// counted from 1 with the header, and one of the rules 31 to 34. 512 pairs that begin near each other in the order of
/// evaluation, wherever they stand in the list, take one sweep over the gates that stand between their nets.
pub fn read_pairs(alloc: Global, circuit: &Circuit, bytes: &[u8]) -> Result<Pairs, ReadFault>
    ensures reading { Gives (λ pairs. pairs) result (pairs_reading circuit.now bytes.now) }
    ensures first { IfFault result (IsFirstFault (pairs_break (net_names circuit.now.nets) (records_in bytes.now)) (length (records_in bytes.now))) }
    ensures none { IfOk result (λ pairs. HasNoFault (pairs_break (net_names circuit.now.nets) (records_in bytes.now)) (length (records_in bytes.now))) }
    ensures fits { IfOk result (ArePairs circuit.now) }
{
    let names = Names::of_nets(alloc, circuit.nets().as_slice())?;
    read_pairs_named(alloc, circuit, &names, bytes)
}
