//! Counts of transition faults over one log. The report over it is among the examples (tests/rows).
ghost use Rattle.two_frame.specs.FrameRows.{AllCapture};

use super::super::logs::joined_of;
use scan_model::{Parts, Rows, Scored};
use std::alloc::Global;
use std::process::Abort;
use two_frame::{frame_counts, frame_expected};

// The points are the outputs y and z, then the cells 1 and 0 as they are unloaded. Patterns 64 and
// 66 are as 0 and 2.
const LOG: &[u8] =
    b"FAILLOG 1\ndie D1\ndesign d\ntested 0 70\nfail 0 out y\nfail 1 cell c 1\nfail 2 out z\nfail 2 cell c 0\nfail 3 out z\nfail 4 out z\nfail 5 out y\nfail 6 out y\nfail 64 out y\nfail 66 out z\nend\n";

// The place of each candidate and its counts (tfsf, tfsp, tpsf), by an independent model.
const COUNTS: [[u8; 4]; 18] = [
    [6, 4, 5, 50],
    [8, 5, 4, 58],
    [9, 1, 8, 8],
    [10, 3, 6, 33],
    [11, 1, 8, 25],
    [13, 2, 7, 34],
    [16, 2, 7, 16],
    [18, 2, 7, 7],
    [19, 1, 8, 17],
    [20, 3, 6, 15],
    [25, 1, 8, 17],
    [30, 2, 7, 34],
    [34, 3, 6, 24],
    [36, 2, 7, 7],
    [39, 1, 8, 17],
    [41, 1, 8, 25],
    [42, 3, 6, 24],
    [43, 1, 8, 8],
];

/// Whether a row has this place and these counts.
fn has_counts(row: &Scored, due: &[u8; 4]) -> bool {
    let [place, tfsf, tfsp, tpsf] = *due;
    row.place == u32::from(place)
        && row.counts.tfsf == u64::from(tfsf)
        && row.counts.tfsp == u64::from(tfsp)
        && row.counts.tpsf == u64::from(tpsf)
}

/// Whether the rows are those of the candidates.
fn are_counts(rows: &[Scored]) -> bool {
    for (place, row) in rows.iter().enumerate() {
        match COUNTS.get(place) {
            Some(due) if has_counts(row, due) => {}
            _ => return false,
        }
    }
    rows.len() == COUNTS.len()
}

/// The candidates of the log.
fn candidates(rt: &impl Abort, alloc: Global, parts: &Parts) -> Rows<Scored>
    requires { AllCapture parts.now }
{
    let expected = frame_expected(alloc, parts).expect(rt, "memory");
    let joined = joined_of(rt, alloc, parts, LOG);
    let rows = frame_counts(alloc, parts, &expected, &joined).expect(rt, "memory");
    drop(expected);
    drop(joined);
    rows
}

/// The candidates of the log must have these counts.
pub(crate) fn every_count(rt: &impl Abort, alloc: Global, parts: &Parts)
    requires { AllCapture parts.now }
{
    let rows = candidates(rt, alloc, parts);
    assert!(rt; are_counts(rows.as_slice()));
    drop(rows);
}
