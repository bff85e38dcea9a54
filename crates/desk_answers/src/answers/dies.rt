//! Requests on the logs and reports of dies.
ghost use Rattle.std.specs.Prelude.{◌≡◌, [], List, true, IfOk};
ghost use Rattle.scan_model.specs.Words.{is_tag};
ghost use Rattle.report_cache.specs.Truth.{IsTrueFor};
ghost use Rattle.desk_answers.specs.RouteAnswers.{log_post, report_get, page_get, page_of_lines};
ghost use Rattle.desk_outside.specs.declared.deed.Deed.{Deed};
ghost use Rattle.desk_answers.specs.Seats.{IsPrefix, Did};
ghost use Rattle.desk_answers.specs.BookAnswers.{AnsweredBy};
ghost use Rattle.desk_replies.specs.Responses.{response_of};

use crate::answers::shared;
use crate::seat::SeatAt;
use book::{Section, log_of};
use desk_outside::Gate;
use desk_replies::{
    AnswerFault, Body, Entry, Response, Status, TextKind, put_response, refused_look,
    unknown_line_body,
};
use diag_report::Report;
use report_cache::ReportCache;
use scan_model::{Name, NoMemory};
use std::alloc::Global;
use std::thread::Threads;
use text_parts::ReadFault;

/// A log of a die is posted.
pub(super) fn post_log<R, D, S: SeatAt<R, D>, G: Gate>(
    rt: &R,
    alloc: Global,
    desk: &D,
    seat: &mut S,
    gate: &mut G,
    design: &[u8],
    die: &[u8],
    text: &[u8],
) -> Result<Response, AnswerFault>
    requires tag { is_tag die.now ≡ true }
    requires belongs { S.belongs seat.old desk.now }
    ensures stays { S.belongs seat.new desk.now }
    ensures answered { let s = S.facts seat.old desk.now in
        AnsweredBy (λ deeds. log_post s.limit deeds design.now die.now text.now) result s (S.facts seat.new desk.now) }
{
    let design = match seat.look_design(rt, desk, design) {
        Ok(design) => design,
        Err(fault) => return Ok(refused_look(fault)?),
    };
    // The log stands at the deeds by what its design says of itself.
    let _name = design.name();
    let log = match log_of(alloc, &design, die, text) {
        Ok(log) => log,
        Err(ReadFault::Text(fault)) => {
            let kind = TextKind::Section(Section::Log);
            return Ok(Response::unprocessable(kind, fault));
        }
        Err(ReadFault::NoMemory) => return Err(AnswerFault::NoMemory),
    };
    let Ok(log) = shared(alloc, log) else {
        return Err(AnswerFault::NoMemory);
    };
    gate.pass();
    put_response(Entry::Log, seat.put_log(rt, desk, &log))
}

/// The report of a die at a revision, or at its last.
pub(super) fn get_report<R: Threads + Sync, D, S: SeatAt<R, D>>(
    rt: &R,
    alloc: Global,
    desk: &D,
    seat: &mut S,
    cache: &mut ReportCache,
    design: &[u8],
    die: &[u8],
    revision: Option<u64>,
) -> Result<Response, NoMemory>
    requires belongs { S.belongs seat.old desk.now }
    requires cache { IsTrueFor cache.old (S.facts seat.old desk.now).seen }
    ensures stays { S.belongs seat.new desk.now }
    ensures cache { (later : List Deed) → IsPrefix (S.facts seat.new desk.now).seen later → IsTrueFor cache.old later → IsTrueFor cache.new later }
    ensures did { Did [] 0 (S.facts seat.old desk.now) (S.facts seat.new desk.now) }
    ensures made { IfOk result (λ r. r ≡ response_of (report_get (S.facts seat.new desk.now).seen design.now die.now revision)) }
{
    let view = match seat.look_die(rt, desk, design, die, revision) {
        Ok(view) => view,
        Err(fault) => return refused_look(fault),
    };
    let report = cache.report(rt, alloc, &view)?;
    Ok(Response::plain(Status::Ok, Body::report(report)))
}

/// A page of such a report, from a line on.
pub(super) fn get_page<R: Threads + Sync, D, S: SeatAt<R, D>>(
    rt: &R,
    alloc: Global,
    desk: &D,
    seat: &mut S,
    cache: &mut ReportCache,
    design: &[u8],
    die: &[u8],
    revision: u64,
    line: u64,
) -> Result<Response, NoMemory>
    requires belongs { S.belongs seat.old desk.now }
    requires cache { IsTrueFor cache.old (S.facts seat.old desk.now).seen }
    ensures stays { S.belongs seat.new desk.now }
    ensures cache { (later : List Deed) → IsPrefix (S.facts seat.new desk.now).seen later → IsTrueFor cache.old later → IsTrueFor cache.new later }
    ensures did { Did [] 0 (S.facts seat.old desk.now) (S.facts seat.new desk.now) }
    ensures made { IfOk result (λ r. r ≡ response_of (page_get (S.facts seat.new desk.now).seen design.now die.now revision line)) }
{
    let view = match seat.look_die(rt, desk, design, die, Some(revision)) {
        Ok(view) => view,
        Err(fault) => return refused_look(fault),
    };
    let report = cache.report(rt, alloc, &view)?;
    page_at(alloc, report.report(), line)
}

// The page of these lines that begins with a line.
fn page_at(alloc: Global, report: &Report, line: u64) -> Result<Response, NoMemory>
    ensures { IfOk result (λ r. r ≡ response_of (page_of_lines report.now line)) }
{
    match report.page(line) {
        Ok(page) => {
            let text = Name::copy_of(alloc, page)?;
            Ok(Response::plain(Status::Ok, Body::text(text)))
        }
        Err(past) => Ok(Response::short(Status::NotFound, unknown_line_body(past.lines))),
    }
}
