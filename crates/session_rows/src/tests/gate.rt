//! No session waits for another that is held in its gate.
ghost use Rattle.std.specs.Prelude.{◌≡◌, All};
ghost use Rattle.desk_answers.specs.DeskSeats.{IsSeatOf};

use super::desks::start_two;
use super::texts::*;
use super::*;
use desk_outside::{Gate, Keeper};
use shared_desk::{Desk, DeskSeat};
use std::sync::atomic::{AtomicU64, Ordering};
use std::thread;

// A gate that may hold its session until a flag is set, though not for ever.
#[derive(Drop)]
struct FlagGate<'a> {
    flag: &'a AtomicU64,
    is_held: bool,
    opened: bool,
}

// Waits for a flag, and answers whether it was set.
fn is_set(flag: &AtomicU64) -> bool {
    for _ in 0..10_000_000u32 {
        if flag.load(Ordering::SeqCst) != 0 {
            return true;
        }
        // The other session may need this processor.
        thread::yield_now();
    }
    false
}

impl Gate for FlagGate<'_> {
    fn pass(&mut self) {
        if self.is_held {
            self.opened = is_set(self.flag);
        }
    }
}

// A seat with its connection, whose session may be held, and whether it was held until the flag was set.
#[derive(Drop)]
struct Side<L: Link> {
    seat: DeskSeat,
    link: L,
    is_held: bool,
    opened: bool,
}

// Serves the connection of a side. One that nothing holds sets the flag at its end.
fn serve_side<R: Threads + Wait + Sync, K: Keeper, L: Link>(
    rt: &R,
    alloc: Global,
    desk: &Desk<K>,
    side: &mut Side<L>,
    flag: &AtomicU64,
)
    requires { IsSeatOf side.old.seat desk.now }
{
    let Ok(mut cache) = ReportCache::make(alloc, 4) else {
        return;
    };
    let mut gate = FlagGate {
        flag,
        is_held: side.is_held,
        opened: false,
    };
    let _note = session(
        rt,
        alloc,
        desk,
        &mut side.seat,
        &mut cache,
        &mut side.link,
        &mut gate,
    );
    side.opened = gate.opened;
    if !side.is_held {
        flag.store(1, Ordering::SeqCst);
    }
}

// Serves both connections at once, each in a thread of its own.
fn serve_both<R: Threads + Wait + Sync, K: Keeper + Send, L: Link + Send>(
    rt: &R,
    alloc: Global,
    desk: &Desk<K>,
    sides: &mut [Side<L>],
    flag: &AtomicU64,
)
    requires { All (λ side. IsSeatOf side.seat desk.now) sides.old }
{
    let serve = |_: usize, side: &mut Side<L>|
        requires { IsSeatOf side.now.seat desk.now }
    { serve_side(rt, alloc, desk, side, flag) };
    thread::for_each_mut(rt, sides, 2, &serve);
}

// What comes over two connections to a desk at once, the first of which is held in its gate until the second was answered.
#[derive(Clone, Copy)]
struct Meeting<'a> {
    before: &'a [&'a [u8]],
    held: &'a [&'a [u8]],
    free: &'a [&'a [u8]],
    held_sent: &'a [&'a [u8]],
    free_sent: &'a [&'a [u8]],
}

// The keeper behind the connection that comes before both.
fn keeper_behind<R: Abort + Threads + Wait + Sync>(
    rt: &R,
    alloc: Global,
    texts: &[&[u8]],
) -> MemKeeper {
    let mut link = link_of(rt, alloc, texts);
    let outcome = serve_over(rt, alloc, new_keeper(rt, alloc), 100, &mut link);
    outcome.book.close()
}

// Whether both connections were sent what is due, and the first was held until the second was answered.
fn is_met(sides: &[Side<MemLink>], meeting: &Meeting<'_>) -> bool {
    matches!(sides, [held, free] if held.opened
        && are_parts(held.link.sent(), meeting.held_sent)
        && are_parts(free.link.sent(), meeting.free_sent))
}

fn do_not_wait<R: Abort + Threads + Wait + Sync>(
    rt: &R,
    alloc: Global,
    meeting: &Meeting<'_>,
) -> bool {
    let keeper = keeper_behind(rt, alloc, meeting.before);
    let (desk, first, second) = start_two(rt, alloc, keeper, 100);
    let held = Side {
        seat: first,
        link: link_of(rt, alloc, meeting.held),
        is_held: true,
        opened: false,
    };
    let free = Side {
        seat: second,
        link: link_of(rt, alloc, meeting.free),
        is_held: false,
        opened: false,
    };
    let mut sides = [held, free];
    serve_both(rt, alloc, &desk, &mut sides, &AtomicU64::new(0));
    is_met(&sides, meeting)
}

const MEETINGS: [(&str, Meeting<'static>); 3] = [
    (
        "an upload that is held holds no other",
        Meeting {
            before: &[],
            held: &[PUT_C17],
            free: &[b"GET /designs/none HTTP/1.1\r\n\r\n"],
            held_sent: &[CREATED_C17],
            free_sent: &[NO_DESIGN],
        },
    ),
    (
        "a log that is held holds no other",
        Meeting {
            before: &[PUT_C17],
            held: &[POST_FAILS],
            free: &[POST_PASSES],
            held_sent: &[CREATED_LOG_2],
            free_sent: &[CREATED_LOG_1],
        },
    ),
    (
        "a sign-off that is held stays right",
        Meeting {
            before: &[PUT_C17, POST_FAILS],
            held: &[SIGN_FIRST, GET_SIGN],
            free: &[POST_PASSES],
            held_sent: &[CREATED_SIGN, SIGN_TEXT],
            free_sent: &[CREATED_LOG_2],
        },
    ),
];

#[test]
fn a_session_that_is_held_holds_no_other(rt: HostRuntime) {
    for (shown, meeting) in &MEETINGS {
        assert!(rt; do_not_wait(&rt, rt.alloc(), meeting), "{shown}");
    }
}
