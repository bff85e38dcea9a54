//! `serve` over a street, a cabinet, a keeper and a sink that fail once.
ghost use Rattle.std.specs.Prelude.{◌≡◌, ◌∷◌, [], All};
ghost use Rattle.desk_outside.specs.DoorMemory.{IsUnusedDoor};
ghost use Rattle.desk_outside.specs.KeeperMemory.{HasNotFailed};

use super::runs::{MemOutside, cabinet, only, shelf, sink, status, street};
use desk_outside::{DoorHome, MemDoor, MemKeeper, MemLink};
use scan_model::{Name, Rows};
use std::alloc::Global;
use std::process::Abort;
use std::sync::Wait;
use std::thread::Threads;

const ONE_WORKER: &[&str] = &["serve", "8080", "1", "1", "desk"];

const TWO_WORKERS: &[&str] = &["serve", "8080", "2", "1", "desk"];

// The numbers of the calls that fail, none where a number is 0: of the street, its first door, the
// cabinet, the keeper and the sink.
#[derive(Clone, Copy)]
struct FailingCalls {
    street: u64,
    door: u64,
    cabinet: u64,
    keeper: u64,
    sink: u64,
}

const NOTHING: FailingCalls = FailingCalls {
    street: 0,
    door: 0,
    cabinet: 0,
    keeper: 0,
    sink: 0,
};

// A run over a keeper without deeds, its status and what it writes; of each door that comes home
// whether it has failed and how many connections it served; and how many keepers come home.
#[derive(Clone, Copy)]
struct Row {
    words: &'static [&'static str],
    failing: FailingCalls,
    status: u8,
    text: &'static [u8],
    doors: &'static [(bool, usize)],
    keepers: usize,
}

const ROWS: [Row; 7] = [
    Row {
        words: ONE_WORKER,
        failing: FailingCalls {
            keeper: 1,
            ..NOTHING
        },
        status: 7,
        text: b"store fault\n",
        doors: &[],
        keepers: 1,
    },
    // No keeper is handed out.
    Row {
        words: ONE_WORKER,
        failing: FailingCalls {
            cabinet: 1,
            ..NOTHING
        },
        status: 7,
        text: b"store fault\n",
        doors: &[],
        keepers: 0,
    },
    Row {
        words: ONE_WORKER,
        failing: FailingCalls {
            street: 1,
            ..NOTHING
        },
        status: 10,
        text: b"street fault\n",
        doors: &[],
        keepers: 1,
    },
    // The other worker goes on.
    Row {
        words: TWO_WORKERS,
        failing: FailingCalls { door: 1, ..NOTHING },
        status: 10,
        text: b"serving 8080\nstreet fault\n",
        doors: &[(true, 0), (false, 1)],
        keepers: 1,
    },
    // Each write fails in turn.
    Row {
        words: ONE_WORKER,
        failing: FailingCalls { sink: 1, ..NOTHING },
        status: 6,
        text: b"",
        doors: &[(false, 0)],
        keepers: 1,
    },
    Row {
        words: ONE_WORKER,
        failing: FailingCalls { sink: 2, ..NOTHING },
        status: 6,
        text: b"serving 8080\n",
        doors: &[(false, 1)],
        keepers: 1,
    },
    Row {
        words: ONE_WORKER,
        failing: FailingCalls { sink: 3, ..NOTHING },
        status: 0,
        text: b"serving 8080\nsessions 1 deeds 0\n",
        doors: &[(false, 1)],
        keepers: 1,
    },
];

// A door with one link, over which nothing comes. The call of `next` with this number fails.
fn one_door(rt: &impl Abort, alloc: Global, fails: u64) -> MemDoor
    ensures { IsUnusedDoor result }
{
    let link = MemLink::make(alloc, Name::new(alloc)).expect(rt, "memory");
    MemDoor::make_failing(alloc, only(rt, alloc, link), only(rt, alloc, fails)).expect(rt, "memory")
}

// Two doors. The call of `next` with this number fails at the first.
fn two_doors(rt: &impl Abort, alloc: Global, fails: u64) -> Rows<MemDoor>
    ensures { All IsUnusedDoor result }
{
    let mut doors = only(rt, alloc, one_door(rt, alloc, fails));
    doors.push(one_door(rt, alloc, 0)).expect(rt, "memory");
    doors
}

// A keeper without deeds. The call with this number fails.
fn keeper(rt: &impl Abort, alloc: Global, fails: u64) -> MemKeeper
    ensures { HasNotFailed result }
{
    MemKeeper::make_failing(alloc, Rows::new(alloc), only(rt, alloc, fails)).expect(rt, "memory")
}

fn outside(rt: &impl Abort, alloc: Global, failing: &FailingCalls) -> MemOutside {
    let doors = two_doors(rt, alloc, failing.door);
    let keepers = only(rt, alloc, keeper(rt, alloc, failing.keeper));
    MemOutside {
        shelf: shelf(rt, alloc, 0),
        street: street(rt, alloc, doors, failing.street),
        cabinet: cabinet(rt, alloc, keepers, failing.cabinet),
    }
}

fn are_home(doors: &[DoorHome], due: &[(bool, usize)]) -> bool {
    for (door, due) in doors.iter().zip(due) {
        if (door.failed, door.done.len()) != *due {
            return false;
        }
    }
    doors.len() == due.len()
}

// All that was handed out is home again, and each door was one of the port.
fn is_over(outside: &MemOutside, row: &Row) -> bool {
    let ports = &[8080, 8080][..];
    ports.get(..row.doors.len()) == Some(outside.street.ports())
        && are_home(outside.street.home(), row.doors)
        && outside.cabinet.home().len() == row.keepers
}

fn is_due<R: Abort + Threads + Wait + Sync>(rt: &R, alloc: Global, row: &Row) -> bool {
    let mut outside = outside(rt, alloc, &row.failing);
    let mut sink = sink(rt, alloc, row.failing.sink);
    let status = status(rt, alloc, row.words, &mut outside, &mut sink);
    status == row.status && sink.bytes() == row.text && is_over(&outside, row)
}

#[test]
fn each_run_ends_as_due(rt: HostRuntime) {
    for (place, row) in ROWS.iter().enumerate() {
        assert!(rt; is_due(&rt, rt.alloc(), row), "row {place}");
    }
}
