//! A shelf and a sink that fail once, at each of their calls in turn.
use super::byte_sink::ByteSink;
use super::runs::{MemOutside, cabinet, shelf, sink, status, street};
use scan_model::Rows;
use std::alloc::Global;
use std::process::Abort;
use std::sync::Wait;
use std::thread::Threads;

// `diagnose` of a log that fails at output 22, and of its copy, which adds nothing.
const REPORTED: [&str; 9] = [
    "diagnose", "c17", "D1", "net", "scan", "pat", "near", "log", "copy",
];

const REPORT: &[u8] = b"\
REPORT 1\n\
design c17\n\
die D1\n\
logs 1\n\
failing 1\n\
passing 1\n\
conflicts 0\n\
masked 0\n\
candidates 4\n\
candidate 1 fault 0 tfsf 1 tfsp 0 tpsf 0 stem 1 sa0\n\
candidate 2 fault 11 tfsf 1 tfsp 0 tpsf 0 stem 10 sa1\n\
candidate 3 fault 18 tfsf 1 tfsp 0 tpsf 0 stem 22 sa0\n\
candidate 4 fault 22 tfsf 1 tfsp 0 tpsf 0 branch 3 to 10 2 sa0\n\
";

const COUNTED: [&str; 5] = ["check", "net", "scan", "pat", "near"];

// A netlist that isn't there.
const GONE: [&str; 5] = ["check", "gone", "scan", "pat", "near"];

// The numbers of the read and of the write that fail, none where a number is 0, and the status and the text of the report's run.
const REPORTS: &[(u64, u64, u8, &[u8])] = &[
    (0, 0, 0, REPORT),
    (1, 0, 5, b"net fault\n"),
    (2, 0, 5, b"scan fault\n"),
    (3, 0, 5, b"pat fault\n"),
    (4, 0, 5, b"near fault\n"),
    (5, 0, 5, b"log fault\n"),
    (6, 0, 5, b"copy fault\n"),
    (7, 0, 0, REPORT),
    (0, 1, 6, b""),
    (0, 2, 0, REPORT),
    // The line of the read can't be written.
    (3, 1, 6, b""),
];

// A street and a cabinet that are empty, and a shelf whose read with this number fails.
fn outside(rt: &impl Abort, alloc: Global, read: u64) -> MemOutside {
    MemOutside {
        shelf: shelf(rt, alloc, read),
        street: street(rt, alloc, Rows::new(alloc), 0),
        cabinet: cabinet(rt, alloc, Rows::new(alloc), 0),
    }
}

// Whether a run ends so where the read and the write with these numbers fail, none where a number is 0.
fn ends<R: Abort + Threads + Wait + Sync>(
    rt: &R,
    alloc: Global,
    words: &[&str],
    read: u64,
    write: u64,
    due: u8,
    text: &[u8],
) -> bool {
    let mut outside = outside(rt, alloc, read);
    let mut sink = sink(rt, alloc, write);
    let status = status(rt, alloc, words, &mut outside, &mut sink);
    status == due && sink.bytes() == text
}

#[test]
fn each_call_fails_in_turn(rt: HostRuntime) {
    for (read, write, due, text) in REPORTS {
        let ended = ends(&rt, rt.alloc(), &REPORTED, *read, *write, *due, text);
        assert!(rt; ended, "read {read}, write {write}");
    }
    for words in [COUNTED, GONE] {
        assert!(rt; ends(&rt, rt.alloc(), &words, 0, 1, 6, b""));
    }
}

// Whether the report's run over a sink that takes a byte at a time, and fails behind so many, ends with 6 and leaves these.
fn is_cut<R: Abort + Threads + Wait + Sync>(rt: &R, alloc: Global, text: &[u8]) -> bool {
    let mut outside = outside(rt, alloc, 0);
    let mut sink = ByteSink::over(sink(rt, alloc, text.len() as u64 + 1));
    let status = status(rt, alloc, &REPORTED, &mut outside, &mut sink);
    status == 6 && sink.sink().bytes() == text
}

#[test]
fn each_byte_fails_in_turn(rt: HostRuntime) {
    for before in 0..REPORT.len() {
        assert!(rt; is_cut(&rt, rt.alloc(), &REPORT[..before]), "byte {before}");
    }
}
