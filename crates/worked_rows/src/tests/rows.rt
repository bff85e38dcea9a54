//! Suspects and counts over one log of c17 or of s27.
use super::counts::are_equal;
use super::designs::{CAPTURE27, ONE17, PAIRS17, SHIFT27, Texts, parts};
use super::logs::joined_of;
use super::suspects::are_suspects;
use scan_model::Parts;
use std::alloc::Global;
use std::process::Abort;
use std::thread::Threads;

/// A design, a log of it, and the places of the faults that can explain its failing bits.
#[derive(Clone, Copy)]
struct Row {
    texts: Texts,
    log: &'static [u8],
    places: &'static [u32],
}

const OUTPUT_FAILS: &[u8] = b"FAILLOG 1\ndie D1\ndesign d\ntested 0 0\nfail 0 out 22\nend\n";

const G17_FAILS: &[u8] = b"FAILLOG 1\ndie D1\ndesign d\ntested 0 0\nfail 0 out G17\nend\n";

const CELL_FAILS: &[u8] = b"FAILLOG 1\ndie D1\ndesign d\ntested 0 0\nfail 0 cell c0 0\nend\n";

const ONE17_FAILS: Row = Row {
    texts: ONE17,
    log: OUTPUT_FAILS,
    places: &[0, 2, 4, 6, 11, 13, 14, 18, 22, 24, 27, 30],
};

// The last two are bridges.
const PAIRS17_FAILS: Row = Row {
    texts: PAIRS17,
    log: OUTPUT_FAILS,
    places: &[0, 2, 4, 6, 11, 13, 14, 18, 22, 24, 27, 30, 35, 37],
};

const CAPTURE27_FAILS: Row = Row {
    texts: CAPTURE27,
    log: G17_FAILS,
    places: &[
        1, 3, 7, 9, 11, 13, 14, 16, 19, 20, 23, 24, 29, 30, 37, 38, 40, 43, 45, 52, 53, 54, 55, 56,
        57, 58, 59,
    ],
};

const SHIFT27_FAILS: Row = Row {
    texts: SHIFT27,
    log: CELL_FAILS,
    places: &[52, 53, 54, 55, 56, 57, 58, 59, 60, 61, 62, 63],
};

fn holds_of<R: Abort + Threads + Sync>(rt: &R, alloc: Global, parts: &Parts, row: &Row) -> bool {
    let joined = joined_of(rt, alloc, parts, row.log);
    let holds = are_suspects(rt, alloc, parts, &joined, row.places)
        && are_equal(rt, alloc, parts, &joined);
    drop(joined);
    holds
}

fn holds<R: Abort + Threads + Sync>(rt: &R, alloc: Global, row: &Row) -> bool {
    let parts = parts(rt, alloc, &row.texts);
    let holds = holds_of(rt, alloc, &parts, row);
    drop(parts);
    holds
}

#[test]
fn suspects_and_counts_of_each_row(rt: HostRuntime) {
    assert!(rt; holds(&rt, rt.alloc(), &ONE17_FAILS));
    assert!(rt; holds(&rt, rt.alloc(), &PAIRS17_FAILS));
    assert!(rt; holds(&rt, rt.alloc(), &CAPTURE27_FAILS));
    assert!(rt; holds(&rt, rt.alloc(), &SHIFT27_FAILS));
}
