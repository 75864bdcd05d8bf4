//! The statuses of replies.
ghost use Rattle.std.specs.Prelude.{◌≡◌, ◌≤◌, length};
ghost use Rattle.http.specs.StatusCode.{code_digits};
ghost use Rattle.requests.specs.Status.{code_of, phrase_of};

use http::StatusCode;

/// The status of a reply (RFC 9110, section 15).
#[derive(Clone, Copy, Debug, PartialEq, Eq)]
pub enum Status {
    /// 200: the call was done, or its kept reply comes again.
    Success,
    /// 400: no head of HTTP's grammar, a target or length that can't be read, or a bad number.
    BadRequest,
    /// 401: the request doesn't tell one caller's token.
    Unauthorized,
    /// 403: the caller may not make this call.
    Forbidden,
    /// 404: no such path, id or zone.
    NotFound,
    /// 405: the path has other methods.
    MethodNotAllowed,
    /// 409: the number isn't the next one.
    Conflict,
    /// 411: a body without a length.
    LengthRequired,
    /// 413: a body over the limit.
    PayloadTooLarge,
    /// 422: a fault in the body.
    UnprocessableEntity,
    /// 431: a head over the limits.
    HeadTooLarge,
    /// 503: no memory, a device that fails, or a full file.
    ServiceUnavailable,
}

impl Status {
    /// The status, as `http` has it.
    pub fn code(self) -> StatusCode
        ensures { result ≡ code_of self }
    {
        match self {
            Status::Success => StatusCode::OK,
            Status::BadRequest => StatusCode::BAD_REQUEST,
            Status::Unauthorized => StatusCode::UNAUTHORIZED,
            Status::Forbidden => StatusCode::FORBIDDEN,
            Status::NotFound => StatusCode::NOT_FOUND,
            Status::MethodNotAllowed => StatusCode::METHOD_NOT_ALLOWED,
            Status::Conflict => StatusCode::CONFLICT,
            Status::LengthRequired => StatusCode::LENGTH_REQUIRED,
            Status::PayloadTooLarge => StatusCode::PAYLOAD_TOO_LARGE,
            Status::UnprocessableEntity => StatusCode::UNPROCESSABLE_ENTITY,
            Status::HeadTooLarge => StatusCode::REQUEST_HEADER_FIELDS_TOO_LARGE,
            Status::ServiceUnavailable => StatusCode::SERVICE_UNAVAILABLE,
        }
    }

    /// The three digits of its number.
    pub fn digits(self) -> &'static str
        ensures text { result.now ≡ code_digits (code_of self) }
        ensures len { length result.now ≡ 3 }
    {
        self.code().as_str()
    }

    /// The phrase of the status, as `http` has it.
    pub fn phrase(self) -> &'static str
        ensures text { result.now ≡ phrase_of self }
        ensures len { length result.now ≤ 31 }
    {
        match self.code().canonical_reason() {
            Some(phrase) => phrase,
            None => unreachable!(),
        }
    }
}
