//! A connection over a shared desk, beside the bytes that it is sent and the marks of its calls.
ghost use Rattle.std.specs.Prelude.{◌<◌};
ghost use Rattle.desk_outside.specs.LinkMemory.{IsUnusedLink};

use self::desks::{finish_one, start_one};
use book::Book;
use desk_http::{ReportCache, SessionEnd, SessionNote, session};
use desk_outside::{Deed, Link, MemKeeper, MemLink, OpenGate};
use scan_model::{Name, Rows};
use std::alloc::Global;
use std::process::Abort;
use std::sync::Wait;
use std::thread::Threads;

mod cut;
mod desk;
mod desks;
mod failing;
mod gate;
mod pages;
mod piece_link;
mod replies;
mod rows;
mod texts;

// A connection over a desk of one seat, and what comes of it.
#[derive(Clone, Copy)]
struct Row<'a> {
    max_deeds: u32,
    asked: &'a [&'a [u8]],
    sent: &'a [&'a [u8]],
    marks: &'a [u64],
    end: SessionEnd,
}

// These parts, one after another.
fn joined(rt: &impl Abort, alloc: Global, parts: &[&[u8]]) -> Name {
    let mut text = Name::new(alloc);
    for part in parts {
        text.append(part).expect(rt, "memory");
    }
    text
}

// Whether a text is these parts, one after another.
fn are_parts(text: &[u8], parts: &[&[u8]]) -> bool {
    let mut rest = text;
    for part in parts {
        match rest.strip_prefix(*part) {
            Some(behind) => rest = behind,
            None => return false,
        }
    }
    rest.is_empty()
}

// A list of one number.
fn only(rt: &impl Abort, alloc: Global, number: u64) -> Rows<u64> {
    let mut numbers = Rows::new(alloc);
    numbers.push(number).expect(rt, "memory");
    numbers
}

// A keeper of these deeds, of which the call with this number fails, none where it is 0.
fn keeper_of(rt: &impl Abort, alloc: Global, deeds: Rows<Deed>, failing: u64) -> MemKeeper {
    MemKeeper::make_failing(alloc, deeds, only(rt, alloc, failing)).expect(rt, "memory")
}

// A keeper without deeds.
fn new_keeper(rt: &impl Abort, alloc: Global) -> MemKeeper {
    MemKeeper::make(alloc, Rows::new(alloc)).expect(rt, "memory")
}

// A connection over which these parts come.
fn link_of(rt: &impl Abort, alloc: Global, asked: &[&[u8]]) -> MemLink
    ensures { IsUnusedLink result }
{
    MemLink::make(alloc, joined(rt, alloc, asked)).expect(rt, "memory")
}

// What comes of a session: its note, and the book at its end.
#[derive(Drop)]
struct Outcome {
    note: SessionNote,
    book: Book<MemKeeper>,
}

// Serves a connection over a desk of one seat and this keeper, which takes so many deeds.
fn serve_over<R: Abort + Threads + Wait + Sync, L: Link>(
    rt: &R,
    alloc: Global,
    keeper: MemKeeper,
    max_deeds: u32,
    link: &mut L,
) -> Outcome {
    let mut cache = ReportCache::make(alloc, 4).expect(rt, "memory");
    let (desk, mut seat) = start_one(rt, alloc, keeper, max_deeds);
    let note = session(rt, alloc, &desk, &mut seat, &mut cache, link, &mut OpenGate);
    let book = finish_one(rt, alloc, desk, seat);
    Outcome { note, book }
}

fn is_due(note: &SessionNote, sent: &[u8], row: &Row<'_>) -> bool {
    note.end == row.end && note.marks.as_slice() == row.marks && are_parts(sent, row.sent)
}

// The book behind a session over a desk of this keeper, which must be answered so.
fn book_behind<R: Abort + Threads + Wait + Sync>(
    rt: &R,
    alloc: Global,
    keeper: MemKeeper,
    row: &Row<'_>,
) -> Book<MemKeeper> {
    let mut link = link_of(rt, alloc, row.asked);
    let Outcome { note, book } = serve_over(rt, alloc, keeper, row.max_deeds, &mut link);
    assert!(rt; is_due(&note, link.sent(), row));
    book
}
