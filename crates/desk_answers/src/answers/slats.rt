//! Requests on the patterns that single faults explain.
ghost use Rattle.std.specs.Prelude.{◌≡◌, ◌<◌, [], List, length, nat_lt, if◌then◌else◌, IfOk};
ghost use Rattle.desk_outside.specs.declared.deed.Deed.{Deed};
ghost use Rattle.diagnosis.specs.Designs.{facts_of};
ghost use Rattle.slat_view.specs.Slat.{fitting_places};
ghost use Rattle.slat_view.specs.Trials.{ArePlaces};
ghost use Rattle.slat_view.specs.WholeCounts.{IsWholeOf};
ghost use Rattle.report_cache.specs.Truth.{IsTrueFor};
ghost use Rattle.desk_answers.specs.RouteAnswers.{slat_get, slat_pattern_get, pattern_page};
ghost use Rattle.desk_answers.specs.Seats.{IsPrefix, Did};
ghost use Rattle.desk_replies.specs.Responses.{response_of};

use crate::seat::SeatAt;
use book::DieView;
use desk_replies::{Body, Response, Status, refused_look, unknown_pattern_body};
use report_cache::ReportCache;
use scan_model::{NoMemory, Rows};
use slat_view::{WholeSlat, pattern_text, slat_text};
use std::alloc::Global;
use std::thread::Threads;

/// The explained patterns of a die at a revision, with the number of faults that fit each.
pub(super) fn get_slat<R: Threads + Sync, D, S: SeatAt<R, D>>(
    rt: &R,
    alloc: Global,
    desk: &D,
    seat: &mut S,
    cache: &mut ReportCache,
    design: &[u8],
    die: &[u8],
    revision: u64,
) -> Result<Response, NoMemory>
    requires belongs { S.belongs seat.old desk.now }
    requires cache { IsTrueFor cache.old (S.facts seat.old desk.now).seen }
    ensures stays { S.belongs seat.new desk.now }
    ensures cache { (later : List Deed) → IsPrefix (S.facts seat.new desk.now).seen later → IsTrueFor cache.old later → IsTrueFor cache.new later }
    ensures did { Did [] 0 (S.facts seat.old desk.now) (S.facts seat.new desk.now) }
    ensures made { IfOk result (λ r. r ≡ response_of (slat_get (S.facts seat.new desk.now).seen design.now die.now revision)) }
{
    let view = match seat.look_die(rt, desk, design, die, Some(revision)) {
        Ok(view) => view,
        Err(fault) => return refused_look(fault),
    };
    let whole = cache.slat(rt, alloc, &view)?;
    let text = slat_text(alloc, design, die, view.revision(), &whole.slat)?;
    Ok(Response::plain(Status::Ok, Body::text(text)))
}

/// The faults that fit one of them, by its number.
pub(super) fn get_slat_pattern<R: Threads + Sync, D, S: SeatAt<R, D>>(
    rt: &R,
    alloc: Global,
    desk: &D,
    seat: &mut S,
    cache: &mut ReportCache,
    design: &[u8],
    die: &[u8],
    revision: u64,
    pattern: u32,
) -> Result<Response, NoMemory>
    requires belongs { S.belongs seat.old desk.now }
    requires cache { IsTrueFor cache.old (S.facts seat.old desk.now).seen }
    ensures stays { S.belongs seat.new desk.now }
    ensures cache { (later : List Deed) → IsPrefix (S.facts seat.new desk.now).seen later → IsTrueFor cache.old later → IsTrueFor cache.new later }
    ensures did { Did [] 0 (S.facts seat.old desk.now) (S.facts seat.new desk.now) }
    ensures made { IfOk result (λ r. r ≡ response_of (slat_pattern_get (S.facts seat.new desk.now).seen design.now die.now revision pattern)) }
{
    let view = match seat.look_die(rt, desk, design, die, Some(revision)) {
        Ok(view) => view,
        Err(fault) => return refused_look(fault),
    };
    let whole = cache.slat(rt, alloc, &view)?;
    page_of_pattern(rt, alloc, &view, &whole, pattern)
}

// The places of the faults that fit a pattern, none where there is no such pattern.
fn places_of<R: Threads + Sync>(
    rt: &R,
    alloc: Global,
    view: &DieView,
    whole: &WholeSlat,
    pattern: u32,
) -> Result<Rows<u32>, NoMemory>
    requires { IsWholeOf view.now.design.test (facts_of view.now.logs) whole.now }
    ensures places { IfOk result (λ places. places ≡ (if nat_lt pattern (length view.now.design.test.patterns) then fitting_places view.now.design.test (facts_of view.now.logs) pattern else [])) }
    ensures faults { IfOk result (ArePlaces view.now.design.test) }
{
    if pattern as usize >= view.design().parts().patterns().len() {
        return Ok(Rows::new(alloc));
    }
    whole.places(rt, alloc, view, pattern)
}

// The faults that fit a pattern of a die, where it is explained.
fn page_of_pattern<R: Threads + Sync>(
    rt: &R,
    alloc: Global,
    view: &DieView,
    whole: &WholeSlat,
    pattern: u32,
) -> Result<Response, NoMemory>
    requires { IsWholeOf view.now.design.test (facts_of view.now.logs) whole.now }
    ensures { IfOk result (λ r. r ≡ response_of (pattern_page view.now.design.test (facts_of view.now.logs) pattern)) }
{
    let places = places_of(rt, alloc, view, whole, pattern)?;
    if places.is_empty() {
        let body = unknown_pattern_body(whole.slat.rows.len() as u64);
        return Ok(Response::short(Status::NotFound, body));
    }
    let parts = view.design().parts();
    let text = pattern_text(alloc, parts, pattern, places.as_slice())?;
    Ok(Response::plain(Status::Ok, Body::text(text)))
}
