//! Statuses of replies.
ghost use Rattle.std.specs.Prelude.{◌≡◌};
ghost use Rattle.http.specs.StatusCode.{code_digits};
ghost use Rattle.desk_replies.specs.Statuses.{digits, phrase};

use http::StatusCode;

/// The statuses that the desk answers with, each of RFC 9110 but for two.
#[derive(Clone, Copy, PartialEq, Eq)]
pub enum Status {
    /// 200: it is there.
    Ok,
    /// 201: it is there from now on.
    Created,
    /// 400: the head isn't that of a request.
    BadRequest,
    /// 404: there is no such thing.
    NotFound,
    /// 405: the route hasn't the method.
    MethodNotAllowed,
    /// 409: the book refuses the change.
    Conflict,
    /// 411: the length of the body isn't given.
    LengthRequired,
    /// 413: the body is too long.
    ContentTooLarge,
    /// 422: the body breaks a rule.
    UnprocessableContent,
    /// 431, of RFC 6585: the head is too long.
    HeadTooLarge,
    /// 501: the body is in a transfer coding.
    NotImplemented,
    /// 503: the keeper failed.
    KeeperFault,
    /// 507, of RFC 4918: memory ran out.
    NoMemory,
}

impl Status {
    /// The status code.
    pub fn code(&self) -> StatusCode
        ensures { code_digits result ≡ digits self.now }
    {
        match self {
            Status::Ok => StatusCode::OK,
            Status::Created => StatusCode::CREATED,
            Status::BadRequest => StatusCode::BAD_REQUEST,
            Status::NotFound => StatusCode::NOT_FOUND,
            Status::MethodNotAllowed => StatusCode::METHOD_NOT_ALLOWED,
            Status::Conflict => StatusCode::CONFLICT,
            Status::LengthRequired => StatusCode::LENGTH_REQUIRED,
            Status::ContentTooLarge => StatusCode::PAYLOAD_TOO_LARGE,
            Status::UnprocessableContent => StatusCode::UNPROCESSABLE_ENTITY,
            Status::HeadTooLarge => StatusCode::REQUEST_HEADER_FIELDS_TOO_LARGE,
            Status::NotImplemented => StatusCode::NOT_IMPLEMENTED,
            Status::KeeperFault => StatusCode::SERVICE_UNAVAILABLE,
            Status::NoMemory => StatusCode::INSUFFICIENT_STORAGE,
        }
    }

    /// The words behind the code in the first line of a reply.
    pub fn phrase(&self) -> &'static str
        ensures { result.now ≡ phrase self.now }
    {
        match self {
            Status::Ok => "OK",
            Status::Created => "Created",
            Status::BadRequest => "Bad Request",
            Status::NotFound => "Not Found",
            Status::MethodNotAllowed => "Method Not Allowed",
            Status::Conflict => "Conflict",
            Status::LengthRequired => "Length Required",
            Status::ContentTooLarge => "Content Too Large",
            Status::UnprocessableContent => "Unprocessable Content",
            Status::HeadTooLarge => "Request Header Fields Too Large",
            Status::NotImplemented => "Not Implemented",
            Status::KeeperFault => "Service Unavailable",
            Status::NoMemory => "Insufficient Storage",
        }
    }
}
