//! What a request is answered.
ghost use Rattle.std.specs.Prelude.{◌≡◌, Ok, IfErr, OnOk};
ghost use Rattle.std.specs.Arc.{arc_value};
ghost use Rattle.scan_model.specs.ReportText.{concatenated};
ghost use Rattle.book.specs.declared.answers.LookFault.TheVariants as look_fault;
ghost use Rattle.book.specs.declared.answers.PutFault.TheVariants as put_fault;
ghost use Rattle.diagnosis.specs.declared.put.Put.TheVariants.{Created, Same};
ghost use Rattle.desk_replies.specs.declared.response.AnswerFault.TheVariants as answer_fault;
ghost use Rattle.desk_replies.specs.Answers.{plain, refused, other_method, unprocessable};
ghost use Rattle.desk_replies.specs.Responses.{response_of, RefusedLook, RefusedPut, PutAnswered};
ghost use Rattle.desk_replies.specs.Bodies.{entry_body};

use crate::bodies::{
    Entry, Refusal, TextKind, digest_differs_body, full_body, name_taken_body, text_fault_body,
    unknown_revision_body, unknown_sign_body,
};
use crate::methods::Methods;
use crate::short::ShortText;
use crate::status::Status;
use book::{LookFault, Put, PutFault};
use diagnosis::WholeReport;
use scan_model::{Name, NoMemory};
use std::marker::Model;
use std::sync::Arc;
use text_parts::TextFault;

// Where the bytes of a body stand.
#[derive(Drop)]
enum Place {
    Fixed(&'static [u8]),
    Short(ShortText),
    Text(Name),
    Report(Arc<WholeReport>),
}

/// The body of a response: contracts see its bytes.
#[derive(Drop)]
pub struct Body {
    place: Place,
}

impl Model for Body {
    ghost use Rattle.std.specs.Prelude.{ℕ, List};
    ghost use Rattle.desk_replies.specs.BodyBytes.{body_bytes};

    ghost Value = { List ℕ };

    ghost view = { λ b. body_bytes b.place };
}

impl Body {
    pub(crate) fn fixed(bytes: &'static [u8]) -> Body
        ensures { result ≡ bytes.now }
    {
        Body {
            place: Place::Fixed(bytes),
        }
    }

    pub(crate) fn short(text: ShortText) -> Body
        ensures { result ≡ text }
    {
        Body {
            place: Place::Short(text),
        }
    }

    /// A text that was made for it.
    pub fn text(text: Name) -> Body
        ensures { result ≡ text }
    {
        Body {
            place: Place::Text(text),
        }
    }

    /// The lines of a whole report.
    pub fn report(report: Arc<WholeReport>) -> Body
        ensures { result ≡ concatenated (arc_value report) }
    {
        Body {
            place: Place::Report(report),
        }
    }

    /// The bytes.
    pub fn as_slice(&self) -> &[u8]
        ensures { result.now ≡ self.now }
    {
        match &self.place {
            Place::Fixed(bytes) => bytes,
            Place::Short(text) => text.as_slice(),
            Place::Text(text) => text.as_slice(),
            Place::Report(report) => report.report().bytes(),
        }
    }
}

/// What a request is answered: the status, the methods of the route where it refuses any other, and the body.
#[derive(Drop)]
pub struct Response {
    pub status: Status,
    pub methods: Option<Methods>,
    pub body: Body,
}

/// Why a request got no answer of its own. Nothing was done.
#[derive(Clone, Copy, PartialEq, Eq)]
pub enum AnswerFault {
    /// The keeper failed, and its count of faults rose.
    KeeperFault,
    /// Memory ran out.
    NoMemory,
}

impl From<NoMemory> for AnswerFault {
    ghost from_gives = { λ _ e. e ≡ answer_fault.NoMemory };

    fn from(_: NoMemory) -> Self {
        AnswerFault::NoMemory
    }
}

impl Response {
    /// A response of any method.
    pub fn plain(status: Status, body: Body) -> Response
        ensures { result ≡ response_of (plain status body) }
    {
        Response {
            status,
            methods: None,
            body,
        }
    }

    /// A response of any method whose body is short.
    pub fn short(status: Status, body: ShortText) -> Response
        ensures { result ≡ response_of (plain status body) }
    {
        Response::plain(status, Body::short(body))
    }

    /// A refusal whose body is fixed.
    pub fn refused(refusal: Refusal) -> Response
        ensures { result ≡ response_of (refused refusal) }
    {
        Response::plain(refusal.status(), Body::fixed(refusal.body()))
    }

    /// The route has these methods alone.
    pub fn other_method(methods: Methods) -> Response
        ensures { result ≡ response_of (other_method methods) }
    {
        Response {
            status: Status::MethodNotAllowed,
            methods: Some(methods),
            body: Body::fixed(Refusal::MethodNotAllowed.body()),
        }
    }

    /// A text breaks a rule: its first fault, and which text it is.
    pub fn unprocessable(kind: TextKind, fault: TextFault) -> Response
        ensures { result ≡ response_of (unprocessable kind (fault.line, fault.rule)) }
    {
        Response::short(Status::UnprocessableContent, text_fault_body(kind, fault))
    }
}

/// The answer to a look that found nothing. An error says that its fault was want of memory.
pub fn refused_look(fault: LookFault) -> Result<Response, NoMemory>
    ensures answer { RefusedLook fault result }
    ensures memory { OnOk result (¬ (fault ≡ look_fault.NoMemory)) }
{
    Ok(match fault {
        LookFault::UnknownDesign => Response::refused(Refusal::UnknownDesign),
        LookFault::UnknownDie => Response::refused(Refusal::UnknownDie),
        LookFault::UnknownRevision { have } => {
            Response::short(Status::NotFound, unknown_revision_body(have))
        }
        LookFault::UnknownSign { have } => {
            Response::short(Status::NotFound, unknown_sign_body(have))
        }
        LookFault::NoMemory => return Err(NoMemory),
    })
}

/// The answer to a change. An error says that the keeper failed or memory ran out.
pub fn put_response(entry: Entry, put: Result<Put, PutFault>) -> Result<Response, AnswerFault>
    ensures { PutAnswered (entry_body entry) put result }
{
    match put {
        Ok(Put::Created { number }) => Ok(Response::short(Status::Created, entry.body(number))),
        Ok(Put::Same { number }) => Ok(Response::short(Status::Ok, entry.body(number))),
        Err(fault) => refused_put(fault),
    }
}

// The answer to a change that was refused. An error says that its fault was the keeper's failure or want of memory.
fn refused_put(fault: PutFault) -> Result<Response, AnswerFault>
    ensures answer { RefusedPut fault result }
    ensures keeper { OnOk result (¬ (fault ≡ put_fault.Failed)) }
    ensures memory { OnOk result (¬ (fault ≡ put_fault.NoMemory)) }
{
    Ok(match fault {
        PutFault::NameTaken { kept } => Response::short(Status::Conflict, name_taken_body(&kept)),
        PutFault::UnknownDesign => Response::refused(Refusal::UnknownDesign),
        PutFault::DigestDiffers { right } => {
            Response::short(Status::Conflict, digest_differs_body(&right))
        }
        PutFault::Full { limit } => Response::short(Status::Conflict, full_body(u64::from(limit))),
        PutFault::Failed => return Err(AnswerFault::KeeperFault),
        PutFault::NoMemory => return Err(AnswerFault::NoMemory),
    })
}
