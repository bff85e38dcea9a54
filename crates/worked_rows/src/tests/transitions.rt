//! Fails and counts of all transition faults, beside those of an independent model.
use self::counts::every_count;
use self::design::made;
use self::fails::every_fail;
use std::alloc::Global;
use std::process::Abort;

mod counts;
mod design;
mod fails;

// The design is owned here alone.
fn are_due(rt: &impl Abort, alloc: Global) {
    let parts = made(rt, alloc);
    every_fail(rt, alloc, &parts);
    every_count(rt, alloc, &parts);
    drop(parts);
}

#[test]
fn every_fail_and_count(rt: HostRuntime) {
    are_due(&rt, rt.alloc());
}
