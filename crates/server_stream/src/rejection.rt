//! Why a connection is rejected.
ghost use Rattle.std.specs.Prelude.{◌≡◌};
ghost use Rattle.server_stream.specs.Heads.{rejection_status};

use http::StatusCode;
use http1::ReadError;
use std::alloc::AllocError;
use std::error::Error;
use std::fmt;

/// Why what a client sent is rejected.
#[derive(Clone, Copy, Debug, PartialEq, Eq)]
pub enum StreamRejection {
    /// It is no request, or a limit was passed.
    Malformed(ReadError),
    /// The input ended within a request.
    CutShort,
    /// Transfer-Encoding lists a coding other than `chunked` (RFC 9112, section 6.1).
    UnknownCoding,
    /// No header map takes the fields: a name or a value is invalid, or there are too many.
    InvalidFields,
    /// An allocation failed.
    OutOfMemory,
}

impl StreamRejection {
    /// The status of a response that says so: 400, 414, 431, 500 or 501 (RFC 9110, sections 15.5 and
    /// 15.6, and RFC 6585, section 5).
    pub fn status(self) -> StatusCode
        ensures { result ≡ rejection_status self }
    {
        match self {
            StreamRejection::Malformed(error) => match error.status() {
                414 => StatusCode::URI_TOO_LONG,
                431 => StatusCode::REQUEST_HEADER_FIELDS_TOO_LARGE,
                _ => StatusCode::BAD_REQUEST,
            },
            StreamRejection::CutShort => StatusCode::BAD_REQUEST,
            StreamRejection::UnknownCoding => StatusCode::NOT_IMPLEMENTED,
            StreamRejection::InvalidFields => StatusCode::REQUEST_HEADER_FIELDS_TOO_LARGE,
            StreamRejection::OutOfMemory => StatusCode::INTERNAL_SERVER_ERROR,
        }
    }
}

impl fmt::Display for StreamRejection {
    fn fmt<W: fmt::Write>(&self, f: &mut fmt::Formatter<W>) -> fmt::Result {
        match self {
            StreamRejection::Malformed(error) => write!(f, "{error}"),
            StreamRejection::CutShort => f.write_str("the connection closed within a request"),
            StreamRejection::UnknownCoding => f.write_str("unknown transfer coding"),
            StreamRejection::InvalidFields => f.write_str("invalid fields"),
            StreamRejection::OutOfMemory => f.write_str("out of memory"),
        }
    }
}

impl Error for StreamRejection {}

impl From<AllocError> for StreamRejection {
    ghost use Rattle.std.specs.Prelude.{◌≡◌};
    ghost use Rattle.server_stream.specs.declared.rejection.StreamRejection.TheVariants.{OutOfMemory};

    ghost from_gives = { λ _ why. why ≡ OutOfMemory };

    fn from(_: AllocError) -> StreamRejection {
        StreamRejection::OutOfMemory
    }
}

impl From<http::Error> for StreamRejection {
    ghost use Rattle.std.specs.Prelude.{◌≡◌};
    ghost use Rattle.server_stream.specs.Heads.{map_rejection};

    ghost from_gives = { λ error why. why ≡ map_rejection error };

    fn from(error: http::Error) -> StreamRejection {
        match error {
            http::Error::OutOfMemory => StreamRejection::OutOfMemory,
            _ => StreamRejection::InvalidFields,
        }
    }
}
