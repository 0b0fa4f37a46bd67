//! Status codes.
ghost use Rattle.c_decisions.specs.StatusCodes.{IsStatusOf};

use c_parts::Failure;
use http::StatusCode;

/// The status code of a number.
pub fn read_status(status: u16) -> Result<StatusCode, Failure>
    ensures { IsStatusOf status result }
{
    match StatusCode::from_u16(status) {
        Ok(code) => Ok(code),
        Err(_) => Err(Failure::Refused),
    }
}
