//! The memory that a run takes of its own.
ghost use Rattle.std.specs.Prelude.{◌≡◌, ◌≤◌, [], length, All, IfOk, vec_capacity};
ghost use Rattle.report_cache.specs.Truth.{fresh_cache};
ghost use Rattle.desk_serve.specs.Work.{cache_entries};

use crate::workers::Worker;
use desk_http::ReportCache;
use desk_outside::Door;
use scan_model::NoMemory;
use shared_desk::DeskSeat;
use std::alloc::Global;

/// How many reports each worker keeps.
const CACHE_ENTRIES: usize = 16;

/// A fresh cache for each of so many workers, and room for the workers and for their seats and doors when the sessions are
/// over.
#[derive(Drop)]
pub struct Room<D: Door> {
    pub count: usize,
    pub caches: Vec<ReportCache>,
    pub workers: Vec<Worker<D>>,
    pub seats: Vec<DeskSeat>,
    pub doors: Vec<D>,
    ghost many: { length caches.items ≡ count },
    ghost fresh: { All (λ cache. cache ≡ fresh_cache cache_entries) caches.items },
    ghost no_workers: { workers.items ≡ [] },
    ghost for_workers: { count ≤ vec_capacity workers },
    ghost no_seats: { seats.items ≡ [] },
    ghost for_seats: { count ≤ vec_capacity seats },
    ghost no_doors: { doors.items ≡ [] },
    ghost for_doors: { count ≤ vec_capacity doors },
}

fn caches_of(alloc: Global, count: usize) -> Result<Vec<ReportCache>, NoMemory>
    ensures count { IfOk result (λ caches. length caches.items ≡ count) }
    ensures fresh { IfOk result (λ caches. All (λ cache. cache ≡ fresh_cache cache_entries) caches.items) }
{
    let mut caches = Vec::with_capacity(alloc, count)?;
    while caches.len() < count {
        let cache = ReportCache::make(alloc, CACHE_ENTRIES)?;
        caches.push(cache)?;
    }
    Ok(caches)
}

impl<D: Door> Room<D> {
    /// Takes the memory for so many workers.
    pub fn make(alloc: Global, count: usize) -> Result<Room<D>, NoMemory>
        ensures { IfOk result (λ room. room.count ≡ count) }
    {
        let caches = caches_of(alloc, count)?;
        let workers = Vec::with_capacity(alloc, count)?;
        let seats = Vec::with_capacity(alloc, count)?;
        let doors = Vec::with_capacity(alloc, count)?;
        Ok(Room {
            count,
            caches,
            workers,
            seats,
            doors,
        })
    }
}
