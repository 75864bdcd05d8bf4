//! Why a request isn't given to the bureau.
ghost use Rattle.std.specs.Prelude.{◌≡◌};
ghost use Rattle.requests.specs.Refusal as Spec;

use crate::resource::Resource;
use crate::status::Status;

/// Why a request isn't given to the bureau.
#[derive(Clone, Copy, Debug, PartialEq, Eq)]
pub enum Refusal {
    /// A head that isn't one, a target that is no path, or a `content-length` that doesn't read.
    BadRequest,
    /// The token is missing, comes twice, or is no caller's.
    UnknownToken,
    /// No such path, or a part of it that is no id.
    NotFound,
    /// The path has other methods.
    MethodNotAllowed(Resource),
    /// A body without a `content-length`, or in chunks.
    LengthRequired,
    /// A body over 67,108,864 bytes.
    TooLarge,
    /// A head over 16,384 bytes, or with over 64 lines between its first and its blank one.
    HeadTooLarge,
}

impl Refusal {
    /// The status of the reply.
    pub fn status(self) -> Status
        ensures { result ≡ Spec.status_of self }
    {
        match self {
            Refusal::BadRequest => Status::BadRequest,
            Refusal::UnknownToken => Status::Unauthorized,
            Refusal::NotFound => Status::NotFound,
            Refusal::MethodNotAllowed(_) => Status::MethodNotAllowed,
            Refusal::LengthRequired => Status::LengthRequired,
            Refusal::TooLarge => Status::PayloadTooLarge,
            Refusal::HeadTooLarge => Status::HeadTooLarge,
        }
    }

    /// The resource that the path names, if it has other methods.
    pub fn allow(self) -> Option<Resource>
        ensures { result ≡ Spec.allow_of_refusal self }
    {
        match self {
            Refusal::MethodNotAllowed(resource) => Some(resource),
            _ => None,
        }
    }

    /// The body of the reply.
    pub fn text(self) -> &'static [u8]
        ensures { result.now ≡ Spec.text_of self }
    {
        match self {
            Refusal::BadRequest => b"BAD REQUEST\n",
            Refusal::UnknownToken => b"UNKNOWN TOKEN\n",
            Refusal::NotFound => b"NOT FOUND\n",
            Refusal::MethodNotAllowed(_) => b"METHOD NOT ALLOWED\n",
            Refusal::LengthRequired => b"LENGTH REQUIRED\n",
            Refusal::TooLarge => b"TOO LARGE\n",
            Refusal::HeadTooLarge => b"HEAD TOO LARGE\n",
        }
    }
}
