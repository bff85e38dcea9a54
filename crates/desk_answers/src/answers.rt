//! What a request is answered over a seat.

pub(crate) mod signoff;

ghost use Rattle.std.specs.Prelude.{◌≡◌, [], List, true, Some, None, IfOk};
ghost use Rattle.std.specs.Arc.{arc_value};
ghost use Rattle.std.specs.Str.{IsAscii};
ghost use Rattle.desk_outside.specs.declared.deed.Deed.{Deed};
ghost use Rattle.report_cache.specs.Truth.{IsTrueFor};
ghost use Rattle.desk_heads.specs.declared.head.method.Method.TheVariants as method;
ghost use Rattle.desk_replies.specs.Methods.{allows};
ghost use Rattle.desk_replies.specs.Responses.{response_of};
ghost use Rattle.desk_answers.specs.Seats.{IsPrefix, Did};
ghost use Rattle.desk_answers.specs.Resources.{HasTags, methods_of, resource_of};
ghost use Rattle.desk_answers.specs.RouteAnswers.{answer_at};
ghost use Rattle.desk_answers.specs.BookAnswers.{IsAnswer, IsAnswerAt, Answered};

use self::designs::{get_design, get_fails, put_design};
use self::dies::{get_page, get_report, post_log};
use self::signs::{get_sign, post_sign};
use self::slats::{get_slat, get_slat_pattern};

mod designs;
mod dies;
mod signs;
mod slats;

use crate::routes::Routes;
use crate::routes::resource::Resource;
use crate::seat::SeatAt;
use desk_heads::Method;
use desk_outside::Gate;
use desk_replies::{AnswerFault, Refusal, Response};
use report_cache::ReportCache;
use scan_model::NoMemory;
use std::alloc::Global;
use std::sync::Arc;
use std::thread::Threads;

/// What is asked for: the method, the target and the bytes of the body.
#[derive(Clone, Copy)]
pub struct Request<'a> {
    pub method: Method,
    pub target: &'a str,
    pub body: &'a [u8],
}

// A value, to be shared with the desk.
fn shared<T: Drop>(alloc: Global, value: T) -> Result<Arc<T>, NoMemory>
    ensures { IfOk result (λ kept. arc_value kept ≡ value) }
{
    match Arc::new(alloc, value) {
        Ok(kept) => Ok(kept),
        Err(_) => Err(NoMemory),
    }
}

/// What a request is answered over a seat, at some deeds that begin with those that it had seen. What is done carries its
/// number. The response takes no memory once it was done.
pub fn answer<R: Threads + Sync, D, S: SeatAt<R, D>, G: Gate>(
    rt: &R,
    alloc: Global,
    routes: &Routes,
    desk: &D,
    seat: &mut S,
    cache: &mut ReportCache,
    gate: &mut G,
    request: &Request<'_>,
) -> Result<Response, AnswerFault>
    requires ascii { IsAscii request.now.target.now }
    requires belongs { S.belongs seat.old desk.now }
    requires cache { IsTrueFor cache.old (S.facts seat.old desk.now).seen }
    ensures stays { S.belongs seat.new desk.now }
    ensures cache { (later : List Deed) → IsPrefix (S.facts seat.new desk.now).seen later → IsTrueFor cache.old later → IsTrueFor cache.new later }
    ensures answered { let s = S.facts seat.old desk.now in
        Answered (λ deeds answer. IsAnswer s.limit deeds request.now.target.now request.now.method request.now.body.now answer) result s (S.facts seat.new desk.now) }
{
    let found = routes.resource(alloc, request.target)?;
    answer_found(rt, alloc, desk, seat, cache, gate, &found, request)
}

// What it is answered at what its target names.
fn answer_found<R: Threads + Sync, D, S: SeatAt<R, D>, G: Gate>(
    rt: &R,
    alloc: Global,
    desk: &D,
    seat: &mut S,
    cache: &mut ReportCache,
    gate: &mut G,
    found: &Option<Resource>,
    request: &Request<'_>,
) -> Result<Response, AnswerFault>
    requires found { resource_of request.now.target.now ≡ found.now }
    requires belongs { S.belongs seat.old desk.now }
    requires cache { IsTrueFor cache.old (S.facts seat.old desk.now).seen }
    ensures stays { S.belongs seat.new desk.now }
    ensures cache { (later : List Deed) → IsPrefix (S.facts seat.new desk.now).seen later → IsTrueFor cache.old later → IsTrueFor cache.new later }
    ensures answered { let s = S.facts seat.old desk.now in
        Answered (λ deeds answer. IsAnswer s.limit deeds request.now.target.now request.now.method request.now.body.now answer) result s (S.facts seat.new desk.now) }
{
    match found {
        Some(resource) => answer_at(rt, alloc, desk, seat, cache, gate, resource, request),
        None => Ok(Response::refused(Refusal::NoRoute)),
    }
}

// What it is answered at the resource that its target names.
fn answer_at<R: Threads + Sync, D, S: SeatAt<R, D>, G: Gate>(
    rt: &R,
    alloc: Global,
    desk: &D,
    seat: &mut S,
    cache: &mut ReportCache,
    gate: &mut G,
    resource: &Resource,
    request: &Request<'_>,
) -> Result<Response, AnswerFault>
    requires named { resource_of request.now.target.now ≡ Some resource.now }
    requires belongs { S.belongs seat.old desk.now }
    requires cache { IsTrueFor cache.old (S.facts seat.old desk.now).seen }
    ensures stays { S.belongs seat.new desk.now }
    ensures cache { (later : List Deed) → IsPrefix (S.facts seat.new desk.now).seen later → IsTrueFor cache.old later → IsTrueFor cache.new later }
    ensures answered { let s = S.facts seat.old desk.now in
        Answered (λ deeds answer. IsAnswer s.limit deeds request.now.target.now request.now.method request.now.body.now answer) result s (S.facts seat.new desk.now) }
{
    let methods = resource.methods();
    if !methods.allows(request.method) {
        return Ok(Response::other_method(methods));
    }
    match request.method {
        Method::Get => Ok(get_at(rt, alloc, desk, seat, cache, resource)?),
        _ => change_at(rt, alloc, desk, seat, cache, gate, resource, request),
    }
}

// What is got at a resource.
fn get_at<R: Threads + Sync, D, S: SeatAt<R, D>>(
    rt: &R,
    alloc: Global,
    desk: &D,
    seat: &mut S,
    cache: &mut ReportCache,
    resource: &Resource,
) -> Result<Response, NoMemory>
    requires tags { HasTags resource.now }
    requires got { allows (methods_of resource.now) method.Get ≡ true }
    requires belongs { S.belongs seat.old desk.now }
    requires cache { IsTrueFor cache.old (S.facts seat.old desk.now).seen }
    ensures stays { S.belongs seat.new desk.now }
    ensures cache { (later : List Deed) → IsPrefix (S.facts seat.new desk.now).seen later → IsTrueFor cache.old later → IsTrueFor cache.new later }
    ensures did { Did [] 0 (S.facts seat.old desk.now) (S.facts seat.new desk.now) }
    ensures made { IfOk result (λ r. r ≡ response_of (answer_at 0 (S.facts seat.new desk.now).seen resource.now method.Get [] None)) }
{
    match resource {
        Resource::Design { design } => get_design(rt, alloc, desk, seat, design.as_slice()),
        Resource::Fails { design, fault } => {
            get_fails(rt, alloc, desk, seat, design.as_slice(), *fault)
        }
        Resource::LastReport { design, die } => {
            let (design, die) = (design.as_slice(), die.as_slice());
            get_report(rt, alloc, desk, seat, cache, design, die, None)
        }
        Resource::Report {
            design,
            die,
            revision,
        } => {
            let revision = Some(u64::from(*revision));
            let (design, die) = (design.as_slice(), die.as_slice());
            get_report(rt, alloc, desk, seat, cache, design, die, revision)
        }
        Resource::Page {
            design,
            die,
            revision,
            line,
        } => {
            let (revision, line) = (u64::from(*revision), u64::from(*line));
            let (design, die) = (design.as_slice(), die.as_slice());
            get_page(rt, alloc, desk, seat, cache, design, die, revision, line)
        }
        Resource::Slat {
            design,
            die,
            revision,
        } => {
            let revision = u64::from(*revision);
            let (design, die) = (design.as_slice(), die.as_slice());
            get_slat(rt, alloc, desk, seat, cache, design, die, revision)
        }
        Resource::SlatPattern {
            design,
            die,
            revision,
            pattern,
        } => {
            let (revision, pattern) = (u64::from(*revision), *pattern);
            let (design, die) = (design.as_slice(), die.as_slice());
            get_slat_pattern(rt, alloc, desk, seat, cache, design, die, revision, pattern)
        }
        Resource::Sign {
            design,
            die,
            number,
        } => {
            let number = u64::from(*number);
            get_sign(rt, desk, seat, design.as_slice(), die.as_slice(), number)
        }
        Resource::Logs { .. } | Resource::Signs { .. } => unreachable!(),
    }
}

// What is put or posted there.
fn change_at<R: Threads + Sync, D, S: SeatAt<R, D>, G: Gate>(
    rt: &R,
    alloc: Global,
    desk: &D,
    seat: &mut S,
    cache: &mut ReportCache,
    gate: &mut G,
    resource: &Resource,
    request: &Request<'_>,
) -> Result<Response, AnswerFault>
    requires tags { HasTags resource.now }
    requires allowed { allows (methods_of resource.now) request.now.method ≡ true }
    requires changes { ¬ (request.now.method ≡ method.Get) }
    requires belongs { S.belongs seat.old desk.now }
    requires cache { IsTrueFor cache.old (S.facts seat.old desk.now).seen }
    ensures stays { S.belongs seat.new desk.now }
    ensures cache { (later : List Deed) → IsPrefix (S.facts seat.new desk.now).seen later → IsTrueFor cache.old later → IsTrueFor cache.new later }
    ensures answered { let s = S.facts seat.old desk.now in
        Answered (λ deeds answer. IsAnswerAt s.limit deeds resource.now request.now.method request.now.body.now answer) result s (S.facts seat.new desk.now) }
{
    let body = request.body;
    match resource {
        Resource::Design { design } => {
            put_design(rt, alloc, desk, seat, gate, design.as_slice(), body)
        }
        Resource::Logs { design, die } => {
            let (design, die) = (design.as_slice(), die.as_slice());
            post_log(rt, alloc, desk, seat, gate, design, die, body)
        }
        Resource::Signs { design, die } => {
            let (design, die) = (design.as_slice(), die.as_slice());
            post_sign(rt, alloc, desk, seat, cache, gate, design, die, body)
        }
        _ => unreachable!(),
    }
}
