//! A request is answered over a seat, and its final reply sent.
ghost use Rattle.std.specs.Prelude.{◌≡◌, ◌≤◌, List, Some};
ghost use Rattle.std.specs.Str.{IsAscii};
ghost use Rattle.desk_outside.specs.declared.deed.Deed.{Deed};
ghost use Rattle.desk_outside.specs.Faults.{Rose};
ghost use Rattle.report_cache.specs.Truth.{IsTrueFor};
ghost use Rattle.desk_answers.specs.BookAnswers.{IsAnswer};
ghost use Rattle.desk_answers.specs.Seats.{IsPrefix};
ghost use Rattle.final_replies.specs.declared.ends.SessionEnd.{SessionEnd};
ghost use Rattle.final_replies.specs.FinalReplies.{Responds};

use crate::ends::TurnEnd;
use crate::sending::{send_fixed, send_no_memory, send_response};
use desk_answers::{Request, Routes, SeatAt, answer};
use desk_outside::{Gate, Link};
use desk_replies::{AnswerFault, keeper_fault};
use report_cache::ReportCache;
use std::alloc::Global;
use std::thread::Threads;

/// Where the requests of a session are answered.
#[derive(Drop)]
pub struct Site<'a, R, D> {
    pub rt: &'a R,
    pub alloc: Global,
    pub routes: &'a Routes,
    pub desk: &'a D,
}

/// Answers a request, and sends its final reply.
pub fn respond<R: Threads + Sync, D, S: SeatAt<R, D>, G: Gate, L: Link>(
    site: &Site<'_, R, D>,
    seat: &mut S,
    cache: &mut ReportCache,
    gate: &mut G,
    link: &mut L,
    request: &Request<'_>,
    closes: bool,
) -> TurnEnd
    requires ascii { IsAscii request.now.target.now }
    requires belongs { S.belongs seat.old site.now.desk.now }
    requires cache { IsTrueFor cache.old (S.facts seat.old site.now.desk.now).seen }
    ensures stays { S.belongs seat.new site.now.desk.now }
    ensures cache { (later : List Deed) → IsPrefix (S.facts seat.new site.now.desk.now).seen later → IsTrueFor cache.old later → IsTrueFor cache.new later }
    ensures responds { let s = S.facts seat.old site.now.desk.now in
        Responds (λ deeds answer. IsAnswer s.limit deeds request.now.target.now request.now.method request.now.body.now answer) closes result.mark result.end s (S.facts seat.new site.now.desk.now) (L.sent link.old) (L.sent link.new) }
    ensures left { L.left link.new ≡ L.left link.old }
    ensures later { L.faults link.old ≤ L.faults link.new }
    ensures failed { result.end ≡ Some SessionEnd.LinkFault → Rose (L.faults link.old) (L.faults link.new) }
{
    let came = answer(
        site.rt,
        site.alloc,
        site.routes,
        site.desk,
        seat,
        cache,
        gate,
        request,
    );
    let mark = Some(seat.mark(site.desk));
    let end = match came {
        Ok(response) => send_response(link, &response, closes),
        Err(AnswerFault::KeeperFault) => send_fixed(link, keeper_fault(closes), closes),
        Err(AnswerFault::NoMemory) => send_no_memory(link),
    };
    TurnEnd { mark, end }
}
