//! One log of the die D1 of the design d, joined.
ghost use Rattle.std.specs.Prelude.{length};
ghost use Rattle.scan_model.specs.ScanTest.{points_of};
ghost use Rattle.scan_model.specs.Coverage.{FitsLog};
ghost use Rattle.log_join.specs.Joining.{IsJoinedOf};

use fail_logs::read_log;
use log_join::Joined;
use scan_model::{LogFacts, Parts};
use std::alloc::Global;
use std::process::Abort;

fn facts_of(rt: &impl Abort, alloc: Global, parts: &Parts, log: &[u8]) -> LogFacts
    ensures { FitsLog (length parts.now.patterns) (length (points_of parts.now)) result }
{
    read_log(alloc, parts, b"d", b"D1", log).expect(rt, "a log")
}

fn without_logs(rt: &impl Abort, alloc: Global, parts: &Parts) -> Joined
    ensures { IsJoinedOf (length parts.now.patterns) (length (points_of parts.now)) result }
{
    let patterns = parts.patterns().len() as u32;
    let points = parts.points().len() as u32;
    Joined::make(alloc, patterns, points).expect(rt, "memory")
}

/// The log, joined.
pub(crate) fn joined_of(rt: &impl Abort, alloc: Global, parts: &Parts, log: &[u8]) -> Joined
    ensures { IsJoinedOf (length parts.now.patterns) (length (points_of parts.now)) result }
{
    let facts = facts_of(rt, alloc, parts, log);
    let mut joined = without_logs(rt, alloc, parts);
    joined.add(&facts);
    drop(facts);
    joined
}
