//! Why a message isn't forwarded.
ghost use Rattle.std.specs.Prelude.{◌≡◌};
ghost use Rattle.gateway_messages.specs.Rejections.{status_of};

use std::error::Error;
use std::fmt;

/// Why a message isn't forwarded.
#[derive(Clone, Copy, Debug, PartialEq, Eq)]
pub enum Rejection {
    /// It has both Content-Length and Transfer-Encoding (RFC 9112, section 6.1).
    LengthAndCoding,
    /// The members of Content-Length aren't one number in digits, or it is 2^63 or more, which
    /// many recipients can't parse (RFC 9112, section 6.3; RFC 9110, section 8.6).
    InvalidLength,
    /// It has transfer codings before `chunked`, or several field lines of them (RFC 9112, section 6.1).
    UnknownCoding,
    /// Its last transfer coding isn't `chunked`, so nothing says where the content ends (RFC 9112,
    /// section 6.3).
    LastCodingNotChunked,
    /// It is of HTTP/1.0 and has Transfer-Encoding (RFC 9112, section 6.1).
    CodingInHttp10,
    /// Connection isn't a list of tokens (RFC 9110, section 7.6.1).
    InvalidOption,
    /// A connection option names a field that is meant for all recipients (RFC 9110, section 7.6.1).
    ProtectedOption,
    /// It has no Host, several, or an invalid one (RFC 9112, section 3.2).
    InvalidHost,
    /// Max-Forwards isn't one number (RFC 9110, section 7.6.2).
    InvalidHops,
    /// It passed this gateway before (RFC 9110, section 7.6.3).
    Loop,
    /// Expect has a member other than `100-continue` (RFC 9110, section 10.1.1).
    UnknownExpectation,
    /// It is a 101, though this gateway never asks for another protocol (RFC 9110, section 15.2.2).
    SwitchedProtocols,
}

impl Rejection {
    /// Returns the status code for a rejected request. A rejected response is replaced by a 502.
    pub fn status(&self) -> u16
        ensures { result ≡ status_of self.now }
    {
        match self {
            Rejection::UnknownCoding => 501,
            Rejection::Loop => 508,
            Rejection::UnknownExpectation => 417,
            Rejection::SwitchedProtocols => 502,
            _ => 400,
        }
    }
}

impl fmt::Display for Rejection {
    ghost use Rattle.std.specs.Prelude.{Some};
    ghost use Rattle.gateway_messages.specs.Rejections.{rejection_text};

    ghost output = { λ e. Some (rejection_text e) };

    fn fmt<W: fmt::Write>(&self, f: &mut fmt::Formatter<W>) -> fmt::Result {
        f.write_str(match self {
            Rejection::LengthAndCoding => "both content-length and transfer-encoding",
            Rejection::InvalidLength => "invalid content-length",
            Rejection::UnknownCoding => "unknown transfer coding",
            Rejection::LastCodingNotChunked => "the last transfer coding isn't chunked",
            Rejection::CodingInHttp10 => "transfer-encoding in HTTP/1.0",
            Rejection::InvalidOption => "invalid connection",
            Rejection::ProtectedOption => "a connection option names a field of all recipients",
            Rejection::InvalidHost => "no valid host, or several",
            Rejection::InvalidHops => "invalid max-forwards",
            Rejection::Loop => "the request passed here before",
            Rejection::UnknownExpectation => "an expectation other than 100-continue",
            Rejection::SwitchedProtocols => "the server switched protocols unasked",
        })
    }
}

impl Error for Rejection {}
