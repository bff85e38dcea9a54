//! The order in which nets are shown: region by region, each net after the gate that alone reads it, and what is upstream of it in
//! its region before all others.
ghost use Rattle.std.specs.Prelude.{◌≡◌, ℕ, ◌+◌, ◌<◌, List, [], All, Contains, true, false, length, slice_index_or, IfOk, OnOk};
ghost use Rattle.fault_effects.specs.Readers.{AreReads};
ghost use Rattle.fault_effects.specs.FlipOrder.{IsListing};

use crate::readers::Reads;
use lane_rows::Groups;
use scan_model::{NoMemory, Parts};
use std::alloc::Global;

/// The nets that were listed, those that were seen, and those that come next, the last of them first.
#[derive(Drop)]
struct Listing {
    nets: Vec<u32>,
    seen: Vec<bool>,
    due: Vec<u32>,
}

/// Adds the nets that a gate alone reads.
fn push_upstream(
    due: &mut Vec<u32>,
    parts: &Parts,
    reads: &[Reads],
    gate: u32,
) -> Result<(), NoMemory>
    requires reads { AreReads parts.now reads.now }
    requires gate { gate < length parts.now.netlist.nets }
    requires due { All (λ n. n < length parts.now.netlist.nets) due.old.items }
    ensures { OnOk result (All (λ n. n < length parts.now.netlist.nets) due.new.items) }
{
    let circuit = parts.circuit();
    for i in 0..circuit.read_count(gate) {
        let net = circuit.read_at(gate, i);
        if let Reads::Once(_) = reads[net as usize] {
            due.push(net)?;
        }
    }
    Ok(())
}

fn owns_suspect(owners: &Groups, net: u32) -> bool
    requires { net < length owners.now }
    ensures none { result ≡ false → length (slice_index_or owners.now net []) ≡ 0 }
    ensures some { result ≡ true → 0 < length (slice_index_or owners.now net []) }
{
    !owners.group(net).is_empty()
}

impl Listing {
    fn new(alloc: Global, parts: &Parts) -> Result<Listing, NoMemory>
        ensures { IfOk result (λ listing. (owners : List (List ℕ)) → IsListing owners (length parts.now.netlist.nets) listing) }
    {
        Ok(Listing {
            nets: Vec::new(alloc),
            seen: vec![in alloc; false; parts.circuit().nets().len()]?,
            due: Vec::new(alloc),
        })
    }

    /// Lists a net that wasn't seen, if it owns a suspect, and its upstream nets that only its gate reads are due next. Those of
    /// a net that isn't listed wait for their own turn.
    fn put(
        &mut self,
        parts: &Parts,
        reads: &[Reads],
        owners: &Groups,
        net: u32,
    ) -> Result<(), NoMemory>
        requires reads { AreReads parts.now reads.now }
        requires owners { length owners.now ≡ length parts.now.netlist.nets + 2 }
        requires net { net < length parts.now.netlist.nets }
        requires listing { IsListing owners.now (length parts.now.netlist.nets) self.old }
        ensures listing { OnOk result (IsListing owners.now (length parts.now.netlist.nets) self.new) }
        ensures seen { OnOk result (slice_index_or self.new.seen.items net false ≡ true) }
        ensures kept { OnOk result ((n : ℕ) → slice_index_or self.old.seen.items n false ≡ true → slice_index_or self.new.seen.items n false ≡ true) }
    {
        if self.seen[net as usize] {
            return Ok(());
        }
        self.seen[net as usize] = true;
        if !owns_suspect(owners, net) {
            return Ok(());
        }
        self.nets.push(net)?;
        push_upstream(&mut self.due, parts, reads, net)
    }

    /// Lists a net, and what is upstream of it in its region.
    fn put_region(
        &mut self,
        parts: &Parts,
        reads: &[Reads],
        owners: &Groups,
        root: u32,
    ) -> Result<(), NoMemory>
        requires reads { AreReads parts.now reads.now }
        requires owners { length owners.now ≡ length parts.now.netlist.nets + 2 }
        requires root { root < length parts.now.netlist.nets }
        requires listing { IsListing owners.now (length parts.now.netlist.nets) self.old }
        ensures listing { OnOk result (IsListing owners.now (length parts.now.netlist.nets) self.new) }
        ensures seen { OnOk result (slice_index_or self.new.seen.items root false ≡ true) }
        ensures kept { OnOk result ((n : ℕ) → slice_index_or self.old.seen.items n false ≡ true → slice_index_or self.new.seen.items n false ≡ true) }
    {
        self.put(parts, reads, owners, root)?;
        for _ in 0..self.seen.len() {
            let Some(net) = self.due.pop() else {
                return Ok(());
            };
            self.put(parts, reads, owners, net)?;
        }
        Ok(())
    }

    /// Lists a net that owns a suspect, and what is upstream of it in its region.
    fn put_owner(
        &mut self,
        parts: &Parts,
        reads: &[Reads],
        owners: &Groups,
        net: u32,
    ) -> Result<(), NoMemory>
        requires reads { AreReads parts.now reads.now }
        requires owners { length owners.now ≡ length parts.now.netlist.nets + 2 }
        requires net { net < length parts.now.netlist.nets }
        requires listing { IsListing owners.now (length parts.now.netlist.nets) self.old }
        ensures listing { OnOk result (IsListing owners.now (length parts.now.netlist.nets) self.new) }
        ensures seen { OnOk result (0 < length (slice_index_or owners.now net []) → slice_index_or self.new.seen.items net false ≡ true) }
        ensures kept { OnOk result ((n : ℕ) → slice_index_or self.old.seen.items n false ≡ true → slice_index_or self.new.seen.items n false ≡ true) }
    {
        if !owns_suspect(owners, net) {
            return Ok(());
        }
        self.put_region(parts, reads, owners, net)
    }

    /// Lists the gates, from the last that is evaluated on, each with its region.
    fn put_gates(&mut self, parts: &Parts, reads: &[Reads], owners: &Groups) -> Result<(), NoMemory>
        requires reads { AreReads parts.now reads.now }
        requires owners { length owners.now ≡ length parts.now.netlist.nets + 2 }
        requires listing { IsListing owners.now (length parts.now.netlist.nets) self.old }
        ensures { OnOk result (IsListing owners.now (length parts.now.netlist.nets) self.new) }
    {
        let order = parts.circuit().order().as_slice();
        for k in 0..order.len() {
            self.put_owner(parts, reads, owners, order[order.len() - 1 - k])?;
        }
        Ok(())
    }

    /// Lists all nets that own a suspect and weren't seen.
    fn put_all(&mut self, parts: &Parts, reads: &[Reads], owners: &Groups) -> Result<(), NoMemory>
        requires reads { AreReads parts.now reads.now }
        requires owners { length owners.now ≡ length parts.now.netlist.nets + 2 }
        requires listing { IsListing owners.now (length parts.now.netlist.nets) self.old }
        ensures listing { OnOk result (IsListing owners.now (length parts.now.netlist.nets) self.new) }
        ensures all { OnOk result ((n : ℕ) → n < length parts.now.netlist.nets → 0 < length (slice_index_or owners.now n []) → slice_index_or self.new.seen.items n false ≡ true) }
    {
        let count = parts.circuit().nets().len() as u32;
        for net in 0..count {
            self.put_owner(parts, reads, owners, net)?;
        }
        Ok(())
    }
}

/// The nets that own a suspect, in the order in which they are shown.
pub fn owned_nets(
    alloc: Global,
    parts: &Parts,
    reads: &[Reads],
    owners: &Groups,
) -> Result<Vec<u32>, NoMemory>
    requires reads { AreReads parts.now reads.now }
    requires owners { length owners.now ≡ length parts.now.netlist.nets + 2 }
    ensures within { IfOk result (λ nets. All (λ n. n < length parts.now.netlist.nets) nets.items) }
    ensures all { IfOk result (λ nets. (n : ℕ) → n < length parts.now.netlist.nets → 0 < length (slice_index_or owners.now n []) → Contains nets.items n) }
{
    let mut listing = Listing::new(alloc, parts)?;
    listing.put_gates(parts, reads, owners)?;
    listing.put_all(parts, reads, owners)?;
    Ok(listing.nets)
}
