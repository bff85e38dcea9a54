//! Requests on sign-offs.
ghost use Rattle.std.specs.Prelude.{◌≡◌, [], true, List, IfOk, Option, Some};
ghost use Rattle.desk_outside.specs.declared.deed.Deed.{Deed};
ghost use Rattle.report_cache.specs.Truth.{IsTrueFor};
ghost use Rattle.scan_model.specs.Words.{is_tag};
ghost use Rattle.die_entries.specs.declared.sign.Sign.{Sign};
ghost use Rattle.desk_answers.specs.RouteAnswers.{sign_post, sign_get};
ghost use Rattle.desk_answers.specs.Seats.{IsPrefix, Did};
ghost use Rattle.desk_answers.specs.BookAnswers.{Answered, AnsweredBy, ReadsSign};
ghost use Rattle.desk_replies.specs.Responses.{response_of};

use crate::answers::signoff::{BodyFault, sign_body};
use crate::seat::SeatAt;
use book::{CheckedView, Sign};
use desk_outside::Gate;
use desk_replies::{
    AnswerFault, Entry, Response, Status, TextKind, put_response, refused_look, sign_off_body,
};
use report_cache::ReportCache;
use scan_model::{NoMemory, rules};
use std::alloc::Global;
use std::thread::Threads;
use text_parts::TextFault;

/// The report of a die is signed.
pub(super) fn post_sign<R: Threads + Sync, D, S: SeatAt<R, D>, G: Gate>(
    rt: &R,
    alloc: Global,
    desk: &D,
    seat: &mut S,
    cache: &mut ReportCache,
    gate: &mut G,
    design: &[u8],
    die: &[u8],
    body: &[u8],
) -> Result<Response, AnswerFault>
    requires belongs { S.belongs seat.old desk.now }
    requires cache { IsTrueFor cache.old (S.facts seat.old desk.now).seen }
    ensures stays { S.belongs seat.new desk.now }
    ensures cache { (later : List Deed) → IsPrefix (S.facts seat.new desk.now).seen later → IsTrueFor cache.old later → IsTrueFor cache.new later }
    ensures answered { let s = S.facts seat.old desk.now in
        Answered (λ deeds answer. (sign : Option Sign) × ReadsSign body.now sign × (answer ≡ sign_post s.limit deeds design.now die.now sign)) result s (S.facts seat.new desk.now) }
{
    match sign_body(alloc, body) {
        Ok(sign) => put_sign(rt, alloc, desk, seat, cache, gate, design, die, &sign),
        Err(BodyFault::NotASign) => {
            let fault = TextFault {
                line: 1,
                rule: rules::NOT_A_SIGN,
            };
            Ok(Response::unprocessable(TextKind::SignOff, fault))
        }
        Err(BodyFault::NoMemory) => Err(AnswerFault::NoMemory),
    }
}

// Signs the die by a body that was read.
fn put_sign<R: Threads + Sync, D, S: SeatAt<R, D>, G: Gate>(
    rt: &R,
    alloc: Global,
    desk: &D,
    seat: &mut S,
    cache: &mut ReportCache,
    gate: &mut G,
    design: &[u8],
    die: &[u8],
    sign: &Sign,
) -> Result<Response, AnswerFault>
    requires tag { is_tag sign.now.signer ≡ true }
    requires belongs { S.belongs seat.old desk.now }
    requires cache { IsTrueFor cache.old (S.facts seat.old desk.now).seen }
    ensures stays { S.belongs seat.new desk.now }
    ensures cache { (later : List Deed) → IsPrefix (S.facts seat.new desk.now).seen later → IsTrueFor cache.old later → IsTrueFor cache.new later }
    ensures answered { let s = S.facts seat.old desk.now in
        AnsweredBy (λ deeds. sign_post s.limit deeds design.now die.now (Some sign.now)) result s (S.facts seat.new desk.now) }
{
    let view = match seat.look_die(rt, desk, design, die, Some(sign.revision)) {
        Ok(view) => view,
        Err(fault) => return Ok(refused_look(fault)?),
    };
    // The report's digest is the die's by what the view says of itself.
    let _revision = view.revision();
    let report = cache.report(rt, alloc, &view)?;
    let checked = CheckedView::by_digest(view, *report.digest());
    gate.pass();
    put_response(
        Entry::SignOff,
        seat.sign(rt, desk, &checked, &sign.signer, &sign.digest),
    )
}

/// A sign-off of a die, by its number from 1.
pub(super) fn get_sign<R, D, S: SeatAt<R, D>>(
    rt: &R,
    desk: &D,
    seat: &mut S,
    design: &[u8],
    die: &[u8],
    number: u64,
) -> Result<Response, NoMemory>
    requires { S.belongs seat.old desk.now }
    ensures stays { S.belongs seat.new desk.now }
    ensures did { Did [] 0 (S.facts seat.old desk.now) (S.facts seat.new desk.now) }
    ensures made { IfOk result (λ r. r ≡ response_of (sign_get (S.facts seat.new desk.now).seen design.now die.now number)) }
{
    let sign = match seat.look_sign(rt, desk, design, die, number) {
        Ok(sign) => sign,
        Err(fault) => return refused_look(fault),
    };
    // The signers are tags, since the deeds are legal.
    let _mark = seat.mark(desk);
    let body = sign_off_body(number, sign.revision, sign.signer.as_slice(), &sign.digest);
    Ok(Response::short(Status::Ok, body))
}
