//! Runs over memory.
ghost use Rattle.std.specs.Prelude.{◌≡◌, ◌∷◌, [], All};
ghost use Rattle.desk_outside.specs.DoorMemory.{IsUnusedDoor};
ghost use Rattle.desk_outside.specs.KeeperMemory.{HasNotFailed};

use super::files::files_in_memory;
use desk_outside::{
    MemCabinet, MemDoor, MemKeeper, MemShelf, MemSink, MemStreet, Sink, are_distinct,
};
use desk_run::run;
use scan_model::Rows;
use std::alloc::Global;
use std::process::Abort;
use std::sync::Wait;
use std::thread::Threads;

/// A list of one item.
pub fn only<T: Drop>(rt: &impl Abort, alloc: Global, item: T) -> Rows<T>
    ensures { result ≡ item ∷ [] }
{
    let mut rows = Rows::new(alloc);
    rows.push(item).expect(rt, "memory");
    rows
}

/// A shelf with the files of all runs. The read with this number fails, none where it is 0.
pub fn shelf(rt: &impl Abort, alloc: Global, fails: u64) -> MemShelf {
    let files = files_in_memory(rt, alloc);
    assert!(rt; are_distinct(files.as_slice()));
    if fails == 0 {
        return MemShelf::make(alloc, files).expect(rt, "memory");
    }
    MemShelf::make_failing(alloc, files, only(rt, alloc, fails)).expect(rt, "memory")
}

/// An empty sink. The write with this number fails, none where it is 0.
pub fn sink(rt: &impl Abort, alloc: Global, fails: u64) -> MemSink {
    MemSink::make_failing(alloc, Rows::new(alloc), only(rt, alloc, fails)).expect(rt, "memory")
}

/// A street with these doors. The call of `door` with this number fails, none where it is 0.
pub fn street(rt: &impl Abort, alloc: Global, doors: Rows<MemDoor>, fails: u64) -> MemStreet
    requires { All IsUnusedDoor doors }
{
    MemStreet::make_failing(alloc, doors, only(rt, alloc, fails)).expect(rt, "memory")
}

/// A cabinet with these keepers. The call of `keeper` with this number fails, none where it is 0.
pub fn cabinet(rt: &impl Abort, alloc: Global, keepers: Rows<MemKeeper>, fails: u64) -> MemCabinet
    requires { All HasNotFailed keepers }
{
    MemCabinet::make_failing(alloc, keepers, only(rt, alloc, fails)).expect(rt, "memory")
}

/// Words, as a program is given them.
pub fn strings(rt: &impl Abort, alloc: Global, words: &[&str]) -> Vec<String> {
    let mut all = Vec::new(alloc);
    for word in words {
        let word = String::from_str(alloc, word).expect(rt, "memory");
        all.push(word).expect(rt, "memory");
    }
    all
}

/// What a run is over, beside its sink.
#[derive(Drop)]
pub struct MemOutside {
    pub shelf: MemShelf,
    pub street: MemStreet,
    pub cabinet: MemCabinet,
}

/// The status of a run.
pub fn status<R: Abort + Threads + Wait + Sync, O: Sink>(
    rt: &R,
    alloc: Global,
    words: &[&str],
    outside: &mut MemOutside,
    sink: &mut O,
) -> u8 {
    let words = strings(rt, alloc, words);
    let MemOutside {
        shelf,
        street,
        cabinet,
    } = outside;
    run(rt, alloc, &words, shelf, sink, street, cabinet)
}
