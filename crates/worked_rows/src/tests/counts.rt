//! Counts of all faults, beside those by plain simulation. Others are among the examples
//! (tests/rows), beside those of an independent model.
ghost use Rattle.std.specs.Prelude.{length};
ghost use Rattle.scan_model.specs.ScanTest.{points_of};
ghost use Rattle.log_join.specs.Joining.{IsJoinedOf};

use super::designs::demo;
use super::logs::joined_of;
use expected_values::expected_at_points;
use good_sim::expected_all;
use log_join::Joined;
use match_counts::{counts, plain_counts};
use packed_sim::PackedGood;
use scan_model::{Parts, Rows, Scored};
use std::alloc::Global;
use std::process::Abort;
use std::thread::Threads;

fn packed<R: Abort + Threads + Sync>(
    rt: &R,
    alloc: Global,
    parts: &Parts,
    joined: &Joined,
) -> Rows<Scored>
    requires { IsJoinedOf (length parts.now.patterns) (length (points_of parts.now)) joined.now }
{
    let good = PackedGood::make(alloc, parts).expect(rt, "memory");
    let expected = expected_at_points(alloc, parts, good.rows()).expect(rt, "memory");
    let rows = counts(rt, alloc, parts, &good, &expected, joined).expect(rt, "memory");
    drop(expected);
    drop(good);
    rows
}

/// By plain simulation of the fault-free design too.
fn plain(rt: &impl Abort, alloc: Global, parts: &Parts, joined: &Joined) -> Rows<Scored>
    requires { IsJoinedOf (length parts.now.patterns) (length (points_of parts.now)) joined.now }
{
    let expected = expected_all(alloc, parts).expect(rt, "memory");
    let rows = plain_counts(alloc, parts, &expected, joined).expect(rt, "memory");
    drop(expected);
    rows
}

/// Whether both counts list the same rows, and some.
pub(crate) fn are_equal<R: Abort + Threads + Sync>(
    rt: &R,
    alloc: Global,
    parts: &Parts,
    joined: &Joined,
) -> bool
    requires { IsJoinedOf (length parts.now.patterns) (length (points_of parts.now)) joined.now }
{
    let packed = packed(rt, alloc, parts, joined);
    let plain = plain(rt, alloc, parts, joined);
    let are_equal = packed.as_slice() == plain.as_slice() && !packed.is_empty();
    drop(packed);
    drop(plain);
    are_equal
}

// Fails of outputs of both blocks and of cells, in two words of patterns.
const DEMO_FAILS: &[u8] =
    b"FAILLOG 1\ndie D1\ndesign d\ntested 0 511\nfail 1 out g0_90\nfail 1 cell c0 3\nfail 70 out g1_92\nfail 70 cell c0 8\nend\n";

fn are_equal_over<R: Abort + Threads + Sync>(
    rt: &R,
    alloc: Global,
    parts: &Parts,
    log: &[u8],
) -> bool {
    let joined = joined_of(rt, alloc, parts, log);
    let are_equal = are_equal(rt, alloc, parts, &joined);
    drop(joined);
    are_equal
}

fn are_equal_of_demo<R: Abort + Threads + Sync>(rt: &R, alloc: Global) -> bool {
    let parts = demo(rt, alloc);
    let are_equal = are_equal_over(rt, alloc, &parts, DEMO_FAILS);
    drop(parts);
    are_equal
}

#[test]
fn the_design_of_demo_7_2(rt: HostRuntime) {
    assert!(rt; are_equal_of_demo(&rt, rt.alloc()));
}
