//! Pages of a report that is kept, through a door. What they have is among the examples
//! (tests/sessions), with those of a long report.
use super::texts::*;
use super::*;
use desk_http::serve_door;
use desk_outside::MemDoor;

// The last line of the report of the first revision.
const LINE_13: &[u8] = b"GET /designs/c17/dies/D1/reports/1/pages/13 HTTP/1.1\r\n\r\n";

const LINE_13_SENT: &[u8] =
    b"HTTP/1.1 200 OK\r\nContent-Type: text/plain\r\nContent-Length: 63\r\n\r\ncandidate 4 fault 22 tfsf 1 tfsp 0 tpsf 0 branch 3 to 10 2 sa0\n";

// A door with two connections.
fn two_links(rt: &impl Abort, alloc: Global) -> MemDoor {
    let first = link_of(rt, alloc, &[PUT_C17, POST_FAILS, LINE_13]);
    let second = link_of(rt, alloc, &[POST_PASSES, LINE_13, LINE_13]);
    let mut links = Rows::new(alloc);
    links.push(first).expect(rt, "memory");
    links.push(second).expect(rt, "memory");
    MemDoor::make(alloc, links).expect(rt, "memory")
}

// Serves both connections over a new desk, and answers how many look-ups found a kept report.
fn hits_over<R: Abort + Threads + Wait + Sync>(rt: &R, alloc: Global, door: &mut MemDoor) -> u64 {
    let mut cache = ReportCache::make(alloc, 16).expect(rt, "memory");
    let (desk, mut seat) = start_one(rt, alloc, new_keeper(rt, alloc), 100);
    let served = serve_door(
        rt,
        alloc,
        &desk,
        &mut seat,
        &mut cache,
        door,
        &mut OpenGate,
        2,
    );
    assert_eq!(rt;
        (served.ended, served.unserved, served.door_failed),
        (2, 0, false)
    );
    cache.hits()
}

// The log between two pages changes none, and two look-ups find the kept report.
#[test]
fn a_log_between_two_pages_changes_none(rt: HostRuntime) {
    let mut door = two_links(&rt, rt.alloc());
    assert_eq!(rt; hits_over(&rt, rt.alloc(), &mut door), 2);
    let due = [CREATED_LOG_2, LINE_13_SENT, LINE_13_SENT];
    assert!(rt; matches!(door.done(), [_, last] if are_parts(last.sent.as_slice(), &due)));
}
