//! Fault-free rows are made while the circuit is read.
ghost use Rattle.std.specs.Prelude.{IfOk};
ghost use Rattle.lane_rows.specs.GoodRows.{AreGoodRows};
ghost use Rattle.packed_sim.specs.PackedParts.{AreLinksOf, BelongsTo};

use crate::good::{CircuitLinks, PackedGood};
use crate::made::circuit_links;
use lane_rows::GoodRows;
use rayon::current_num_threads;
use scan_model::{NoMemory, Parts};
use std::alloc::Global;
use std::thread::Threads;
use work_crew::join_apart;

/// How few nets aren't worth a thread.
const LEAST_NETS: usize = 4096;

/// Whether there are so many nets, and more than one processor.
fn wants_threads<R: Threads>(rt: &R, parts: &Parts) -> bool {
    parts.circuit().nets().len() >= LEAST_NETS && current_num_threads(rt) > 1
}

/// Makes both at the same time.
fn rows_and_links<R: Threads + Sync>(
    rt: &R,
    alloc: Global,
    parts: &Parts,
) -> (Result<CircuitLinks, NoMemory>, Result<GoodRows, NoMemory>)
    ensures links { IfOk result.0 (AreLinksOf parts.now) }
    ensures rows { IfOk result.1 (AreGoodRows parts.now) }
{
    let links = move || -> Result<CircuitLinks, NoMemory>
        ensures { IfOk result (AreLinksOf parts.entry.now) }
    { circuit_links(alloc, parts) };
    let rows = move || -> Result<GoodRows, NoMemory>
        ensures { IfOk result (AreGoodRows parts.entry.now) }
    { GoodRows::make(alloc, parts) };
    join_apart(rt, links, rows)
}

impl PackedGood {
    /// What `make` makes. The circuit of many nets is read while the rows are made. The only error is want of memory.
    pub fn make_in_threads<R: Threads + Sync>(
        rt: &R,
        alloc: Global,
        parts: &Parts,
    ) -> Result<PackedGood, NoMemory>
        ensures { IfOk result (BelongsTo parts.now) }
    {
        if !wants_threads(rt, parts) {
            return PackedGood::make(alloc, parts);
        }
        let (links, rows) = rows_and_links(rt, alloc, parts);
        let links = links?;
        let rows = rows?;
        Ok(PackedGood::linked(rows, links))
    }
}
