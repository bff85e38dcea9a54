//! Requests on designs.
ghost use Rattle.std.specs.Prelude.{◌≡◌, [], true, IfOk};
ghost use Rattle.scan_model.specs.Words.{is_tag};
ghost use Rattle.desk_answers.specs.RouteAnswers.{design_put, design_get, fails_get, predicted};
ghost use Rattle.desk_answers.specs.Seats.{Did};
ghost use Rattle.desk_answers.specs.BookAnswers.{AnsweredBy};
ghost use Rattle.desk_replies.specs.Responses.{response_of};

use crate::answers::shared;
use crate::seat::SeatAt;
use book::{BundleFault, read_bundle};
use desk_outside::Gate;
use desk_replies::{
    AnswerFault, Body, Entry, Response, Status, TextKind, design_body, design_head, put_response,
    refused_look, unknown_fault_body,
};
use diag_report::{fails_text, summary_text};
use fault_universe::universe_len;
use scan_model::{Name, NoMemory};
use std::alloc::Global;
use std::sync::Arc;

/// A bundle is put under a name.
pub(super) fn put_design<R, D, S: SeatAt<R, D>, G: Gate>(
    rt: &R,
    alloc: Global,
    desk: &D,
    seat: &mut S,
    gate: &mut G,
    name: &[u8],
    text: &[u8],
) -> Result<Response, AnswerFault>
    requires tag { is_tag name.now ≡ true }
    requires belongs { S.belongs seat.old desk.now }
    ensures stays { S.belongs seat.new desk.now }
    ensures answered { let s = S.facts seat.old desk.now in
        AnsweredBy (λ deeds. design_put s.limit deeds name.now text.now) result s (S.facts seat.new desk.now) }
{
    let design = match read_bundle(alloc, name, text) {
        Ok(design) => design,
        Err(BundleFault::Text { section, fault }) => {
            return Ok(Response::unprocessable(TextKind::Section(section), fault));
        }
        Err(BundleFault::NoMemory) => return Err(AnswerFault::NoMemory),
    };
    let body = design_body(name, design.digest());
    let Ok(design) = shared(alloc, design) else {
        return Err(AnswerFault::NoMemory);
    };
    gate.pass();
    put_response(Entry::Design(body), seat.put_design(rt, desk, &design))
}

/// The digest of a design's bundle, and its summary.
pub(super) fn get_design<R, D, S: SeatAt<R, D>>(
    rt: &R,
    alloc: Global,
    desk: &D,
    seat: &mut S,
    name: &[u8],
) -> Result<Response, NoMemory>
    requires tag { is_tag name.now ≡ true }
    requires belongs { S.belongs seat.old desk.now }
    ensures stays { S.belongs seat.new desk.now }
    ensures did { Did [] 0 (S.facts seat.old desk.now) (S.facts seat.new desk.now) }
    ensures made { IfOk result (λ r. r ≡ response_of (design_get (S.facts seat.new desk.now).seen name.now)) }
{
    let design = match seat.look_design(rt, desk, name) {
        Ok(design) => design,
        Err(fault) => return refused_look(fault),
    };
    let mut text = Name::new(alloc);
    text.append(design_head(name, design.digest()).as_slice())?;
    text.append(summary_text(alloc, design.parts())?.as_slice())?;
    Ok(Response::plain(Status::Ok, Body::text(text)))
}

/// The log that a fault of the design predicts.
pub(super) fn get_fails<R, D, S: SeatAt<R, D>>(
    rt: &R,
    alloc: Global,
    desk: &D,
    seat: &mut S,
    name: &[u8],
    fault: u32,
) -> Result<Response, NoMemory>
    requires tag { is_tag name.now ≡ true }
    requires belongs { S.belongs seat.old desk.now }
    ensures stays { S.belongs seat.new desk.now }
    ensures did { Did [] 0 (S.facts seat.old desk.now) (S.facts seat.new desk.now) }
    ensures made { IfOk result (λ r. r ≡ response_of (fails_get (S.facts seat.new desk.now).seen predicted name.now fault)) }
{
    let design = match seat.look_design(rt, desk, name) {
        Ok(design) => design,
        Err(fault) => return refused_look(fault),
    };
    let faults = universe_len(design.parts());
    if fault >= faults {
        let body = unknown_fault_body(u64::from(faults));
        return Ok(Response::short(Status::NotFound, body));
    }
    let text = fails_text(alloc, design.parts(), design.name(), b"predicted", fault)?;
    Ok(Response::plain(Status::Ok, Body::text(text)))
}
