//! Work in new threads, each on a processor of its own where there are enough.
use std::thread::{Threads, join};

/// Calls this in this thread, behind the start of a thread that does nothing. A kernel that packs threads puts the first one that is
/// made onto the processor of the one that makes it, where both take turns for some milliseconds, and the next ones onto others: so
/// the first has nothing to do.
pub fn spread<R: Threads, F: FnOnce() -> A, A>(rt: &R, work: F) -> A
    requires { F.pre work }
    ensures { F.post work result }
{
    let ((), made) = join(rt, || (), work);
    made
}

/// Calls the first in a new thread and the second in this one, on two processors where there are so many.
pub fn join_apart<R: Threads, F: FnOnce() -> A + Send, G: FnOnce() -> B, A: Send, B>(
    rt: &R,
    first: F,
    second: G,
) -> (A, B)
    requires first { F.pre first }
    requires second { G.pre second }
    ensures first { F.post first result.0 }
    ensures second { G.post second result.1 }
{
    let both = move || -> (A, B)
        requires { F.pre first × G.pre second }
        ensures { F.post first result.0 × G.post second result.1 }
    { join(rt, first, second) };
    spread(rt, both)
}
