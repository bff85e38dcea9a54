//! The fails of all transition faults.
ghost use Rattle.std.specs.Prelude.{◌≡◌, ◌<◌, length};
ghost use Rattle.scan_model.specs.ScanTest.{points_of};
ghost use Rattle.two_frame.specs.TwoFrame.{transitions};
ghost use Rattle.two_frame.specs.FrameRows.{AllCapture};

use scan_model::{Parts, Steps};
use std::alloc::Global;
use std::marker::Brand;
use std::process::Abort;
use std::sync::ledger::{Blank, Ledger};
use two_frame::{FrameGood, FrameScratch, slow_len};

// At which points each fault fails in each of the eight patterns, by an independent model: a byte for a fault, with a bit
// for each of the four points from the lowest on.
const FAILS: [&[u8]; 8] = [
    b"@@@@@@G@@@G@@@@@E@A@@@@@@@D@@@@@@@E@A@@@B@@@",
    b"@@@@@@D@@@D@@@@@@@@@@@@@@@@@@@@@@@D@@@@@@@@@",
    b"@@@@@@@@K@@@@I@@@@@AB@@@@H@@@@I@@@@@@@@A@@B@",
    b"@@@@@@@@@B@@@@@@@@@@B@@@@@@@@@@@@@@@@@@@@@@B",
    b"@@@@@@B@B@@B@@@@@@@@@@@@@@@@@@@@@@@@@@@@@BB@",
    b"@@@@@@B@K@@B@I@@@@@A@@@@@H@@@@I@@@@@@@@A@BB@",
    b"@@@@@@@@@@@@@@@@@@@@@@@@@@@@@@@@@@@@@@@@@@@@",
    b"@@@@@@@B@@@B@@@@@@@@@B@@@@@@@@@@@@@@@@@@@B@@",
];

/// The points at which a fault fails in a pattern.
fn fails<L: Ledger>(
    rt: &impl Abort,
    alloc: Global,
    parts: &Parts,
    place: u32,
    pattern: u32,
    blank: Blank,
) -> [bool; 4]
    requires name { blank.name ≡ L.name }
    requires parts { blank.parts ≡ L.parts }
    requires some { 0 < blank.parts }
    requires captures { AllCapture parts.now }
    requires place { place < length (transitions parts.now) }
    requires pattern { pattern < length parts.now.patterns }
    requires points { length (points_of parts.now) ≡ 4 }
{
    let good = FrameGood::make(alloc, parts).expect(rt, "memory");
    let mut scratch = FrameScratch::make(alloc, &good).expect(rt, "memory");
    let mut steps = Steps::<L>::open(blank);
    let mut out = [false; 4];
    good.fails_of(parts, &mut scratch, place, pattern, &mut out, &mut steps);
    drop(scratch);
    drop(good);
    out
}

/// Whether these are the points of a byte.
fn are_points(out: &[bool; 4], due: u8) -> bool {
    let mut left = due;
    for fails in out {
        if *fails != (left % 2 == 1) {
            return false;
        }
        left /= 2;
    }
    true
}

/// Whether a fault fails in a pattern at the points of a byte.
fn is_due(rt: &impl Abort, alloc: Global, parts: &Parts, place: u32, pattern: u32, due: u8) -> bool
    requires captures { AllCapture parts.now }
    requires place { place < length (transitions parts.now) }
    requires pattern { pattern < length parts.now.patterns }
    requires points { length (points_of parts.now) ≡ 4 }
{
    let out = fails::<Brand>(rt, alloc, parts, place, pattern, Blank::new(1));
    are_points(&out, due)
}

/// Whether all faults fail in a pattern at the points of their bytes.
fn are_due(rt: &impl Abort, alloc: Global, parts: &Parts, pattern: u32, due: &[u8]) -> bool
    requires captures { AllCapture parts.now }
    requires pattern { pattern < length parts.now.patterns }
    requires points { length (points_of parts.now) ≡ 4 }
{
    let faults = slow_len(parts);
    for place in 0..faults {
        match due.get(place as usize) {
            Some(points) if is_due(rt, alloc, parts, place, pattern, *points) => {}
            _ => return false,
        }
    }
    due.len() == faults as usize
}

/// Whether all faults fail in all patterns at the points of their bytes.
fn all_are_due(rt: &impl Abort, alloc: Global, parts: &Parts) -> bool
    requires captures { AllCapture parts.now }
    requires points { length (points_of parts.now) ≡ 4 }
{
    for pattern in 0..parts.patterns().len() as u32 {
        if !are_due(rt, alloc, parts, pattern, FAILS[pattern as usize % 8]) {
            return false;
        }
    }
    true
}

/// All faults must fail in all of 72 patterns at the points of their bytes.
pub(crate) fn every_fail(rt: &impl Abort, alloc: Global, parts: &Parts)
    requires { AllCapture parts.now }
{
    assert!(rt; parts.points().len() == 4 && parts.patterns().len() == 72);
    assert!(rt; all_are_due(rt, alloc, parts));
}
