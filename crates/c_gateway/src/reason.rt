//! Why a message isn't forwarded.
ghost use Rattle.std.specs.Prelude.{◌≡◌};
ghost use Rattle.c_gateway.specs.Reasons.{reason_number};

use gateway_messages::Rejection;

/// The number of a reason, 1 to 12.
pub(crate) fn reason_number(rejection: Rejection) -> u8
    ensures { result ≡ reason_number rejection }
{
    match rejection {
        Rejection::LengthAndCoding => 1,
        Rejection::InvalidLength => 2,
        Rejection::UnknownCoding => 3,
        Rejection::LastCodingNotChunked => 4,
        Rejection::CodingInHttp10 => 5,
        Rejection::InvalidOption => 6,
        Rejection::ProtectedOption => 7,
        Rejection::InvalidHost => 8,
        Rejection::InvalidHops => 9,
        Rejection::Loop => 10,
        Rejection::UnknownExpectation => 11,
        Rejection::SwitchedProtocols => 12,
    }
}
