//! Pieces that a crew of threads shares.
ghost use Rattle.std.specs.Prelude.{◌<◌};

use scan_model::NoMemory;
use std::alloc::Global;
use std::process::Abort;
use std::thread::Threads;
use work_crew::made_in_crew;

/// The squares of the numbers below nine, each made as a piece by one of so many threads.
fn squares<R: Abort + Threads + Sync>(rt: &R, alloc: Global, threads: usize) -> Vec<usize> {
    let square = |number: usize| -> Result<usize, NoMemory>
        requires { number < 9 }
    { Ok(number * number) };
    made_in_crew(rt, alloc, threads, 9, &square).expect(rt, "memory")
}

#[test]
fn a_crew_makes_each_piece_in_its_place(rt: HostRuntime) {
    let expected = [0, 1, 4, 9, 16, 25, 36, 49, 64];
    assert!(rt; squares(&rt, rt.alloc(), 1).as_slice() == expected.as_slice());
    assert!(rt; squares(&rt, rt.alloc(), 4).as_slice() == expected.as_slice());
    assert!(rt; squares(&rt, rt.alloc(), 32).as_slice() == expected.as_slice());
}
