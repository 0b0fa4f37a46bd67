//! What is found in what an origin server sends.

use bytes::Bytes;
use http::{HeaderMap, StatusCode};
use http1::ReadError;
use std::alloc::AllocError;
use std::error::Error;
use std::fmt;

/// The head of a response.
#[derive(Debug, Drop)]
pub struct OriginResponse {
    /// The minor version of HTTP/1.
    pub minor: u8,
    /// The status code.
    pub status: StatusCode,
    /// The reason phrase.
    pub reason: Bytes,
    /// The fields.
    pub fields: HeaderMap,
}

/// What comes next on a connection to an origin server.
#[derive(Debug, Drop)]
pub enum OriginEvent {
    /// Nothing more can be said of what was received: call `receive` or `finish_input`.
    NeedsInput,
    /// The head of an interim response to the request: 1xx, but not 101.
    Interim(OriginResponse),
    /// The head of the final response. Its content follows.
    Head(OriginResponse),
    /// A piece of the content, never an empty one.
    Content(Bytes),
    /// The end of the response, with its trailer fields.
    End(HeaderMap),
    /// The head of a response after which the connection is no longer HTTP: 101, or 2xx to CONNECT.
    Switched(OriginResponse),
    /// No response follows: the connection has ended, or is no longer HTTP.
    Closed,
    /// The connection failed. Nothing more is said.
    Broken(OriginFault),
}

/// Why a connection to an origin server failed.
#[derive(Clone, Copy, Debug, PartialEq, Eq)]
pub enum OriginFault {
    /// Bytes came though no request was sent, or behind the last response (RFC 9112, section 9.2).
    Unasked,
    /// What came is no response to the request.
    Malformed(ReadError),
    /// The input ended within a response, or before the first one.
    CutShort,
    /// The input ended before any byte of a response, on a connection that has answered before.
    Unanswered,
    /// No header map takes the fields: a name or a value is invalid, or there are too many.
    InvalidFields,
    /// An allocation failed.
    OutOfMemory,
}

impl fmt::Display for OriginFault {
    fn fmt<W: fmt::Write>(&self, f: &mut fmt::Formatter<W>) -> fmt::Result {
        match self {
            OriginFault::Unasked => f.write_str("bytes came with no request"),
            OriginFault::Malformed(error) => write!(f, "{error}"),
            OriginFault::CutShort => f.write_str("the connection closed within a response"),
            OriginFault::Unanswered => f.write_str("the connection closed before a response"),
            OriginFault::InvalidFields => f.write_str("invalid fields"),
            OriginFault::OutOfMemory => f.write_str("out of memory"),
        }
    }
}

impl Error for OriginFault {}

impl From<AllocError> for OriginFault {
    ghost use Rattle.std.specs.Prelude.{◌≡◌};
    ghost use Rattle.gateway_connection.specs.declared.event.OriginFault.TheVariants.{OutOfMemory};

    ghost from_gives = { λ _ fault. fault ≡ OutOfMemory };

    fn from(_: AllocError) -> OriginFault {
        OriginFault::OutOfMemory
    }
}

impl From<http::Error> for OriginFault {
    ghost use Rattle.std.specs.Prelude.{◌≡◌};
    ghost use Rattle.gateway_connection.specs.Responses.{map_fault};

    ghost from_gives = { λ error fault. fault ≡ map_fault error };

    fn from(error: http::Error) -> OriginFault {
        match error {
            http::Error::OutOfMemory => OriginFault::OutOfMemory,
            _ => OriginFault::InvalidFields,
        }
    }
}
