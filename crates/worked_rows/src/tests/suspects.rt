//! Which faults can explain a failing bit.
ghost use Rattle.std.specs.Prelude.{length};
ghost use Rattle.scan_model.specs.ScanTest.{points_of};
ghost use Rattle.log_join.specs.Joining.{IsJoinedOf};

use back_trace::suspects;
use good_sim::expected_all;
use log_join::Joined;
use scan_model::Parts;
use std::alloc::Global;
use std::process::Abort;

/// Whether these are the places of the suspects.
pub(crate) fn are_suspects(
    rt: &impl Abort,
    alloc: Global,
    parts: &Parts,
    joined: &Joined,
    places: &[u32],
) -> bool
    requires { IsJoinedOf (length parts.now.patterns) (length (points_of parts.now)) joined.now }
{
    let expected = expected_all(alloc, parts).expect(rt, "memory");
    let found = suspects(alloc, parts, &expected, joined).expect(rt, "memory");
    let are_due = found.as_slice() == places;
    drop(found);
    drop(expected);
    are_due
}
