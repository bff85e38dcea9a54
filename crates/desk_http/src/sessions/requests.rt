//! A session: the requests of a connection, one after another, each with its reply.
ghost use Rattle.std.specs.Prelude.{◌≡◌, ◌+◌, ◌<◌, ◌≤◌, ◌==◌, ◌||◌, [], List, true, length, drop, slice_range, Some, OnOk, OnErr, IfOk, vec_len};
ghost use Rattle.std.specs.Io.KnownBytes.{prepend_known, append_known};
ghost use Rattle.book.specs.LegalDeeds.{is_legal};
ghost use Rattle.desk_outside.specs.declared.deed.Deed.{Deed};
ghost use Rattle.desk_outside.specs.Faults.{Rose};
ghost use Rattle.desk_outside.specs.Bytes.{AddsPart};
ghost use Rattle.report_cache.specs.Truth.{IsTrueFor};
ghost use Rattle.desk_heads.specs.SeenHeads.{Sees, IsHeadIn};
ghost use Rattle.desk_heads.specs.Items.{item_limit};
ghost use Rattle.httparse.specs.Spans.{span_bytes};
ghost use Rattle.desk_heads.specs.declared.head.HeadSeen.TheVariants as seen;
ghost use Rattle.desk_answers.specs.BookAnswers.{IsAnswer};
ghost use Rattle.desk_answers.specs.Seats.{IsPrefix};
ghost use Rattle.final_replies.specs.declared.ends.SessionEnd.{SessionEnd};
ghost use Rattle.final_replies.specs.FinalReplies.{Responds};
ghost use Rattle.desk_http.specs.Sessions.{IsSession, Rise, interim_if};
ghost use Rattle.desk_http.specs.Turns.{Takes};

use crate::sessions::marks::{ITEM_LIMIT, Marks};
use desk_answers::{Request, Routes, SeatAt};
use desk_heads::{BodyRead, Head, HeadRead, Inbox, read_head, read_to};
use desk_outside::{Failed, Gate, Link, send_all};
use desk_replies::interim;
use final_replies::{SessionEnd, Site, TurnEnd, respond, send_no_memory, send_refusal};
use report_cache::ReportCache;
use scan_model::{NoMemory, Rows};
use std::alloc::Global;
use std::thread::Threads;

// The most bytes that one read takes.
const PIECE: usize = 65_536;

/// How a session ended, with a mark for each final reply: the number of deeds at which it was given.
#[derive(Drop)]
pub struct SessionNote {
    pub end: SessionEnd,
    pub marks: Rows<u64>,
}

// Sends the interim reply where it is asked for.
fn invite<L: Link>(link: &mut L, awaits: bool) -> Result<(), Failed>
    ensures all { OnOk result (L.sent link.new ≡ append_known (L.sent link.old) (interim_if awaits)) }
    ensures part { OnErr result ((awaits ≡ true) × AddsPart (L.sent link.old) (L.sent link.new) (interim_if awaits)) }
    ensures left { L.left link.new ≡ L.left link.old }
    ensures later { L.faults link.old ≤ L.faults link.new }
    ensures failed { OnErr result (Rose (L.faults link.old) (L.faults link.new)) }
{
    if awaits {
        return send_all(link, interim());
    }
    Ok(())
}

// Answers the request that came whole at the front of the inbox, and takes it off.
fn respond_to_front<R: Threads + Sync, D, S: SeatAt<R, D>, G: Gate, L: Link>(
    site: &Site<'_, R, D>,
    seat: &mut S,
    cache: &mut ReportCache,
    gate: &mut G,
    link: &mut L,
    inbox: &mut Inbox,
    head: Head,
    closes: bool,
) -> TurnEnd
    requires head { IsHeadIn inbox.old head }
    requires whole { head.length + head.body ≤ length inbox.old }
    requires belongs { S.belongs seat.old site.now.desk.now }
    requires cache { IsTrueFor cache.old (S.facts seat.old site.now.desk.now).seen }
    ensures stays { S.belongs seat.new site.now.desk.now }
    ensures cache { (later : List Deed) → IsPrefix (S.facts seat.new site.now.desk.now).seen later → IsTrueFor cache.old later → IsTrueFor cache.new later }
    ensures responds { let s = S.facts seat.old site.now.desk.now in
        Responds (λ deeds answer. IsAnswer s.limit deeds (span_bytes inbox.old head.target) head.method (slice_range inbox.old head.length (head.length + head.body)) answer)
        closes result.mark result.end s (S.facts seat.new site.now.desk.now) (L.sent link.old) (L.sent link.new) }
    ensures used { inbox.new ≡ drop (head.length + head.body) inbox.old }
    ensures left { L.left link.new ≡ L.left link.old }
    ensures later { L.faults link.old ≤ L.faults link.new }
    ensures failed { result.end ≡ Some SessionEnd.LinkFault → Rose (L.faults link.old) (L.faults link.new) }
{
    let bytes = inbox.bytes();
    let Ok(target) = str::from_utf8(&bytes[head.target.start..head.target.end]) else {
        unreachable!()
    };
    let request = Request {
        method: head.method,
        target,
        body: &bytes[head.length..head.length + head.body],
    };
    let turn = respond(site, seat, cache, gate, link, &request, closes);
    inbox.use_up(head.length + head.body);
    turn
}

// Whether the reply to a request behind so many items closes.
fn closes_behind(before: usize, asked: bool) -> bool
    requires { before < item_limit }
    ensures { result ≡ asked || (before + 1 == item_limit) }
{
    asked || before + 1 == ITEM_LIMIT
}

// Reads the body of a request whose head is at the front of the inbox, and answers it.
fn take_request<R: Threads + Sync, D, S: SeatAt<R, D>, G: Gate, L: Link>(
    site: &Site<'_, R, D>,
    seat: &mut S,
    cache: &mut ReportCache,
    gate: &mut G,
    link: &mut L,
    inbox: &mut Inbox,
    piece: &mut [u8],
    head: Head,
    before: usize,
) -> TurnEnd
    requires head { Sees inbox.old (seen.Whole head) }
    requires piece { 0 < length piece.old }
    requires before { before < item_limit }
    requires belongs { S.belongs seat.old site.now.desk.now }
    requires cache { IsTrueFor cache.old (S.facts seat.old site.now.desk.now).seen }
    ensures stays { S.belongs seat.new site.now.desk.now }
    ensures cache { (later : List Deed) → IsPrefix (S.facts seat.new site.now.desk.now).seen later → IsTrueFor cache.old later → IsTrueFor cache.new later }
    ensures takes { Takes before result.mark result.end (S.facts seat.old site.now.desk.now) (S.facts seat.new site.now.desk.now)
        (prepend_known inbox.old (L.left link.old)) (prepend_known inbox.new (L.left link.new)) (L.sent link.old) (L.sent link.new) }
    ensures later { L.faults link.old ≤ L.faults link.new }
    ensures failed { result.end ≡ Some SessionEnd.LinkFault → Rose (L.faults link.old) (L.faults link.new) }
{
    match invite(link, head.awaits) {
        Ok(()) => {}
        Err(Failed) => return TurnEnd::silent(SessionEnd::LinkFault),
    }
    // The bytes that wait are fewer than 2^63.
    let _waiting = inbox.bytes();
    match read_to(inbox, link, piece, head.length + head.body) {
        BodyRead::Whole => {}
        BodyRead::End => return TurnEnd::silent(SessionEnd::Cut),
        BodyRead::LinkFault => return TurnEnd::silent(SessionEnd::LinkFault),
        BodyRead::NoMemory => {
            let mark = Some(seat.mark(site.desk));
            return TurnEnd {
                mark,
                end: send_no_memory(link),
            };
        }
    }
    let closes = closes_behind(before, head.closes);
    respond_to_front(site, seat, cache, gate, link, inbox, head, closes)
}

// Reads what comes next, and answers it.
fn take_turn<R: Threads + Sync, D, S: SeatAt<R, D>, G: Gate, L: Link>(
    site: &Site<'_, R, D>,
    seat: &mut S,
    cache: &mut ReportCache,
    gate: &mut G,
    link: &mut L,
    inbox: &mut Inbox,
    piece: &mut [u8],
    before: usize,
) -> TurnEnd
    requires piece { 0 < length piece.old }
    requires before { before < item_limit }
    requires belongs { S.belongs seat.old site.now.desk.now }
    requires cache { IsTrueFor cache.old (S.facts seat.old site.now.desk.now).seen }
    ensures stays { S.belongs seat.new site.now.desk.now }
    ensures cache { (later : List Deed) → IsPrefix (S.facts seat.new site.now.desk.now).seen later → IsTrueFor cache.old later → IsTrueFor cache.new later }
    ensures takes { Takes before result.mark result.end (S.facts seat.old site.now.desk.now) (S.facts seat.new site.now.desk.now)
        (prepend_known inbox.old (L.left link.old)) (prepend_known inbox.new (L.left link.new)) (L.sent link.old) (L.sent link.new) }
    ensures later { L.faults link.old ≤ L.faults link.new }
    ensures failed { result.end ≡ Some SessionEnd.LinkFault → Rose (L.faults link.old) (L.faults link.new) }
{
    match read_head(inbox, link, piece) {
        HeadRead::Refused(fault) => {
            let mark = Some(seat.mark(site.desk));
            TurnEnd {
                mark,
                end: send_refusal(link, fault),
            }
        }
        HeadRead::Whole(head) => {
            take_request(site, seat, cache, gate, link, inbox, piece, head, before)
        }
        HeadRead::End if inbox.bytes().is_empty() => TurnEnd::silent(SessionEnd::Ended),
        HeadRead::End => TurnEnd::silent(SessionEnd::Cut),
        HeadRead::LinkFault => TurnEnd::silent(SessionEnd::LinkFault),
        HeadRead::NoMemory => {
            let mark = Some(seat.mark(site.desk));
            TurnEnd {
                mark,
                end: send_no_memory(link),
            }
        }
    }
}

// What a session works with: the routes, what came and isn't used yet, a piece that comes, and the marks.
#[derive(Drop)]
struct Room {
    routes: Routes,
    inbox: Inbox,
    piece: Vec<u8>,
    marks: Marks,
}

impl Room {
    fn make(alloc: Global) -> Result<Room, NoMemory>
        ensures inbox { IfOk result (λ room. room.inbox ≡ []) }
        ensures piece { IfOk result (λ room. vec_len room.piece ≡ 65536) }
        ensures marks { IfOk result (λ room. room.marks ≡ []) }
    {
        let piece = vec![in alloc; 0; PIECE]?;
        let marks = Marks::make(alloc)?;
        let inbox = Inbox::make(alloc)?;
        Ok(Room {
            routes: Routes::make(alloc)?,
            inbox,
            piece,
            marks,
        })
    }
}

/// Serves the requests of a connection over a seat, until a reply closes, the input ends or the connection fails.
pub fn session_at<R: Threads + Sync, D, S: SeatAt<R, D>, L: Link, G: Gate>(
    rt: &R,
    alloc: Global,
    desk: &D,
    seat: &mut S,
    cache: &mut ReportCache,
    link: &mut L,
    gate: &mut G,
) -> SessionNote
    requires belongs { S.belongs seat.old desk.now }
    requires cache { IsTrueFor cache.old (S.facts seat.old desk.now).seen }
    ensures stays { S.belongs seat.new desk.now }
    ensures cache { IsTrueFor cache.new (S.facts seat.new desk.now).seen }
    ensures legal { is_legal (S.facts seat.new desk.now).limit (S.facts seat.new desk.now).seen ≡ true }
    ensures session { IsSession result.end result.marks (S.facts seat.old desk.now) (S.facts seat.new desk.now) (L.left link.old) (L.sent link.old) (L.sent link.new) }
    ensures marks { Rise (length (S.facts seat.old desk.now).seen) result.marks (length (S.facts seat.new desk.now).seen) }
    ensures nothing { result.end ≡ SessionEnd.NoMemory → (link.new ≡ link.old) × (seat.new ≡ seat.old) }
    ensures later { L.faults link.old ≤ L.faults link.new }
    ensures failed { result.end ≡ SessionEnd.LinkFault → Rose (L.faults link.old) (L.faults link.new) }
{
    // The deeds that it has seen are legal.
    let _mark = seat.mark(desk);
    let Ok(room) = Room::make(alloc) else {
        return SessionNote {
            end: SessionEnd::NoMemory,
            marks: Rows::new(alloc),
        };
    };
    let Room {
        routes,
        mut inbox,
        mut piece,
        mut marks,
    } = room;
    let site = Site {
        rt,
        alloc,
        routes: &routes,
        desk,
    };
    let mut before = 0;
    loop {
        let turn = take_turn(
            &site,
            seat,
            cache,
            gate,
            link,
            &mut inbox,
            piece.as_mut_slice(),
            before,
        );
        marks.add(turn.mark);
        if let Some(end) = turn.end {
            return SessionNote {
                end,
                marks: marks.into_rows(),
            };
        }
        before += 1;
    }
}
