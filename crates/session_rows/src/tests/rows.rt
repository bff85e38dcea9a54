//! The marks and the end of a session, and a full desk. What the bytes of a connection alone show
//! is among the examples (tests/sessions).
use super::texts::*;
use super::{Row, book_behind, new_keeper};
use desk_http::SessionEnd;

// What is asked over a connection to a new desk, and what comes of it.
const ROWS: [Row<'static>; 3] = [
    // A full desk takes no more.
    Row {
        max_deeds: 1,
        asked: &[PUT_C17, POST_FAILS, PUT_C17],
        sent: &[
            CREATED_C17,
            b"HTTP/1.1 409 Conflict\r\nContent-Type: text/plain\r\nContent-Length: 16\r\n\r\nrule 88 limit 1\n",
            KEPT_C17,
        ],
        marks: &[1, 1, 1],
        end: SessionEnd::Ended,
    },
    // A body that is cut off is not taken.
    Row {
        max_deeds: 1000000,
        asked: &[
            b"PUT /designs/c17 HTTP/1.1\r\nExpect: 100-continue\r\nContent-Length: 3\r\n\r\nab",
        ],
        sent: &[b"HTTP/1.1 100 Continue\r\n\r\n"],
        marks: &[],
        end: SessionEnd::Cut,
    },
    // An upload without a length closes.
    Row {
        max_deeds: 1000000,
        asked: &[b"POST /designs/c17/dies/D1/logs HTTP/1.1\r\n\r\n"],
        sent: &[
            b"HTTP/1.1 411 Length Required\r\nContent-Type: text/plain\r\nContent-Length: 16\r\nConnection: close\r\n\r\nlength required\n",
        ],
        marks: &[0],
        end: SessionEnd::Closed,
    },
];

#[test]
fn the_marks_and_the_end_of_each(rt: HostRuntime) {
    for row in &ROWS {
        book_behind(&rt, rt.alloc(), new_keeper(&rt, rt.alloc()), row);
    }
}
