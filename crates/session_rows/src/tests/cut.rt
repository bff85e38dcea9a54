//! Connections that fail, in each of their calls. Those that are cut off anywhere are among the
//! examples (tests/sessions.py).
use super::piece_link::PieceLink;
use super::texts::*;
use super::*;

// Three requests, of which the last waits before its body.
const ASKED: [&[u8]; 4] = [
    PUT_C17,
    GET_C17,
    b"POST /designs/c17/dies/D1/logs HTTP/1.1\r\nExpect: 100-continue\r\nContent-Length: 57\r\n\r\n",
    b"FAILLOG 1\ndie D1\ndesign c17\ntested 0 0\nfail 0 out 22\nend\n",
];

const SENT: [&[u8]; 4] = [
    CREATED_C17,
    C17_SHOWN,
    b"HTTP/1.1 100 Continue\r\n\r\n",
    CREATED_LOG_1,
];

// A connection that asks for all and fails in the call with this number.
fn failing(rt: &impl Abort, alloc: Global, call: u64, by_bytes: bool) -> PieceLink<MemLink> {
    let asked = joined(rt, alloc, &ASKED);
    let link = MemLink::make_failing(alloc, asked, only(rt, alloc, call)).expect(rt, "memory");
    PieceLink::over(link, by_bytes)
}

// There are as many deeds as the last mark says.
fn has_its_deeds(outcome: &Outcome, end: SessionEnd) -> bool {
    let last = outcome.note.marks.as_slice().last().copied();
    outcome.note.end == end && outcome.book.deeds() == last.unwrap_or(0)
}

// Connections that fail in the call with a number from the first to before the second, and how
// their sessions end.
struct FailingCalls {
    calls: (u64, u64),
    by_bytes: bool,
    end: SessionEnd,
}

// At once there are two reads, and seven writes: the interim reply, and the heads and bodies of
// three others. Byte by byte there is a read for each of 441 bytes, and one at the end.
const FAILS: [FailingCalls; 4] = [
    FailingCalls {
        calls: (1, 10),
        by_bytes: false,
        end: SessionEnd::LinkFault,
    },
    FailingCalls {
        calls: (10, 451),
        by_bytes: false,
        end: SessionEnd::Ended,
    },
    FailingCalls {
        calls: (1, 450),
        by_bytes: true,
        end: SessionEnd::LinkFault,
    },
    FailingCalls {
        calls: (450, 451),
        by_bytes: true,
        end: SessionEnd::Ended,
    },
];

// Whether a session over the connection that fails in this call ends so, with its deeds, and sends a
// front of what is due.
fn sends_front<R: Abort + Threads + Wait + Sync>(
    rt: &R,
    alloc: Global,
    call: u64,
    fails: &FailingCalls,
    due: &[u8],
) -> bool {
    let mut link = failing(rt, alloc, call, fails.by_bytes);
    let outcome = serve_over(rt, alloc, new_keeper(rt, alloc), 100, &mut link);
    has_its_deeds(&outcome, fails.end) && due.starts_with(link.link().sent())
}

#[test]
fn a_connection_that_fails_ends_its_session(rt: HostRuntime) {
    let due = joined(&rt, rt.alloc(), &SENT);
    for fails in &FAILS {
        for call in fails.calls.0..fails.calls.1 {
            let is_front = sends_front(&rt, rt.alloc(), call, fails, due.as_slice());
            assert!(rt; is_front, "call {call} by bytes {}", fails.by_bytes);
        }
    }
}
