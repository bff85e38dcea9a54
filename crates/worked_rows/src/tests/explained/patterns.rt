//! Explained patterns of which the fits are kept, beside those that are told anew: three designs of 70 patterns with X, SHIFT
//! patterns and all kinds of faults, and two logs. What they are is among the examples (tests/explained.py).
ghost use Rattle.std.specs.Prelude.{◌<◌, length};
ghost use Rattle.diagnosis.specs.Designs.{facts_of};
ghost use Rattle.slat_view.specs.WholeCounts.{IsWholeOf};

use super::designs::{C17_DIE, ODD_DIE, Row, S27_DIE, design};
use super::dies::{add_text, die_of};
use diagnosis::DieView;
use slat_view::{Slat, WholeSlat, slat_counts, slat_places, whole_slat};
use std::alloc::Global;
use std::process::Abort;
use std::thread::Threads;

/// Whether the kept faults that fit a pattern are those that are told anew.
fn are_same_places<R: Abort + Threads + Sync>(
    rt: &R,
    alloc: Global,
    view: &DieView,
    whole: &WholeSlat,
    pattern: u32,
) -> bool
    requires whole { IsWholeOf view.now.design.test (facts_of view.now.logs) whole.now }
    requires pattern { pattern < length view.now.design.test.patterns }
{
    let kept = whole.places(rt, alloc, view, pattern).expect(rt, "memory");
    let told = slat_places(rt, alloc, view, pattern).expect(rt, "memory");
    let are_same = kept.as_slice() == told.as_slice();
    drop(kept);
    drop(told);
    are_same
}

/// The same of all patterns.
fn are_all_same<R: Abort + Threads + Sync>(
    rt: &R,
    alloc: Global,
    view: &DieView,
    whole: &WholeSlat,
) -> bool
    requires { IsWholeOf view.now.design.test (facts_of view.now.logs) whole.now }
{
    for pattern in 0..view.design().parts().patterns().len() as u32 {
        if !are_same_places(rt, alloc, view, whole, pattern) {
            return false;
        }
    }
    true
}

/// Whether both have the same patterns with as many faults, and some.
fn are_same_counts(kept: &Slat, told: &Slat) -> bool {
    for (kept, told) in kept.rows.as_slice().iter().zip(told.rows.as_slice()) {
        if kept.pattern != told.pattern || kept.faults != told.faults {
            return false;
        }
    }
    kept.failing == told.failing && kept.rows.len() == told.rows.len() && !kept.rows.is_empty()
}

fn agrees_over<R: Abort + Threads + Sync>(rt: &R, alloc: Global, view: &DieView) -> bool {
    let whole = whole_slat(rt, alloc, view).expect(rt, "memory");
    let told = slat_counts(rt, alloc, view).expect(rt, "memory");
    let agrees = are_same_counts(&whole.slat, &told) && are_all_same(rt, alloc, view, &whole);
    drop(told);
    drop(whole);
    agrees
}

fn agrees<R: Abort + Threads + Sync>(rt: &R, alloc: Global, row: &Row) -> bool {
    let mut view = die_of(rt, alloc, design(rt, alloc, row));
    for log in &row.logs {
        add_text(rt, alloc, &mut view, *log);
    }
    let agrees = agrees_over(rt, alloc, &view);
    drop(view);
    agrees
}

#[test]
fn patterns_of_three_designs(rt: HostRuntime) {
    assert!(rt; agrees(&rt, rt.alloc(), &C17_DIE));
    assert!(rt; agrees(&rt, rt.alloc(), &S27_DIE));
    assert!(rt; agrees(&rt, rt.alloc(), &ODD_DIE));
}
