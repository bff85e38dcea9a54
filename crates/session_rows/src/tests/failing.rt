//! A keeper that fails once, at each of its calls in turn: the opening, and a session of two designs
//! and three logs.
ghost use Rattle.std.specs.Prelude.{◌<◌};

use super::texts::*;
use super::*;
use book::{StartFault, UnopenedBook};
use shared_desk::start;

const ASKED: [&[u8]; 5] = [PUT_C17, PUT_OTHER, POST_FAILS, POST_PASSES, POST_OTHER];

const SENT: [&[u8]; 5] = [
    CREATED_C17,
    CREATED_OTHER,
    CREATED_LOG_1,
    CREATED_LOG_2,
    CREATED_LOG_1,
];

// Over a desk of the deeds each request finds what it asks for.
const AGAIN: Row<'static> = Row {
    max_deeds: 5,
    asked: &ASKED,
    sent: &[KEPT_C17, KEPT_OTHER, KEPT_LOG_1, KEPT_LOG_2, KEPT_LOG_1],
    marks: &[5; 5],
    end: SessionEnd::Ended,
};

// All deeds must be found again over the keeper, which has failed once.
fn has_all<R: Abort + Threads + Wait + Sync>(rt: &R, alloc: Global, keeper: MemKeeper) {
    let book = book_behind(rt, alloc, keeper, &AGAIN);
    assert_eq!(rt; (book.deeds(), book.faults()), (5, 1));
}

// The list with one more before the place.
fn with_one_more(
    rt: &impl Abort,
    alloc: Global,
    list: &[&'static [u8]],
    place: usize,
    more: &'static [u8],
) -> Vec<&'static [u8]> {
    let mut all = Vec::new(alloc);
    for (k, item) in list.iter().enumerate() {
        if k == place {
            all.push(more).expect(rt, "memory");
        }
        all.push(*item).expect(rt, "memory");
    }
    all
}

// The deeds behind each request, of which the one at the place adds none.
fn marks_around(rt: &impl Abort, alloc: Global, place: u64) -> Vec<u64> {
    let mut marks = Vec::new(alloc);
    for k in 0..6u64 {
        let mark = if k < place { k + 1 } else { k };
        marks.push(mark).expect(rt, "memory");
    }
    marks
}

// An append that fails must be told once and add nothing, and the same request is then answered as it
// would have been. The opening asks for row 0, and each deed is a call.
fn is_told_once<R: Abort + Threads + Wait + Sync>(rt: &R, alloc: Global, place: usize)
    requires { place < 5 }
{
    let asked = with_one_more(rt, alloc, &ASKED, place, ASKED[place]);
    let sent = with_one_more(rt, alloc, &SENT, place, KEEPER_FAULT);
    let marks = marks_around(rt, alloc, place as u64);
    let row = Row {
        max_deeds: 5,
        asked: &asked,
        sent: &sent,
        marks: &marks,
        end: SessionEnd::Ended,
    };
    let keeper = keeper_of(rt, alloc, Rows::new(alloc), place as u64 + 2);
    let book = book_behind(rt, alloc, keeper, &row);
    has_all(rt, alloc, book.close());
}

#[test]
fn each_append_that_fails_is_told_once(rt: HostRuntime) {
    for place in 0..5usize {
        is_told_once(&rt, rt.alloc(), place);
    }
}

// The deeds of the session.
fn deeds<R: Abort + Threads + Wait + Sync>(rt: &R, alloc: Global) -> Rows<Deed> {
    let mut link = link_of(rt, alloc, &ASKED);
    let outcome = serve_over(rt, alloc, new_keeper(rt, alloc), 5, &mut link);
    let keeper = outcome.book.close();
    keeper.copy_rows().expect(rt, "memory")
}

// Why a desk of these deeds isn't started that takes so many, where the keeper fails in this call.
fn refused<R: Abort + Threads + Wait + Sync>(
    rt: &R,
    alloc: Global,
    max_deeds: u32,
    call: u64,
) -> UnopenedBook<MemKeeper> {
    let keeper = keeper_of(rt, alloc, deeds(rt, alloc), call);
    match start(rt, alloc, keeper, max_deeds, 1) {
        Ok(_) => rt.panic("the start is refused"),
        Err(refused) => refused,
    }
}

// A start that fails in each call in turn must hand back the keeper with its deeds.
#[test]
fn a_start_that_fails_may_be_tried_again(rt: HostRuntime) {
    for call in 1..7u64 {
        let refused = refused(&rt, rt.alloc(), 5, call);
        assert!(rt; matches!(&refused.fault, StartFault::Failed), "{call}");
        has_all(&rt, rt.alloc(), refused.keeper.expect(&rt, "the keeper"));
    }
}

// Past its limit of two deeds a start asks for one row, and for no other.
#[test]
fn a_row_past_the_limit_is_told(rt: HostRuntime) {
    let refused = refused(&rt, rt.alloc(), 2, 4);
    assert!(rt; matches!(&refused.fault, StartFault::Spoiled { row: 2 }));
}
