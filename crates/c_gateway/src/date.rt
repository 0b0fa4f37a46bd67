//! Dates.
ghost use Rattle.c_gateway.specs.Dates.{IsDateOf};

use c_parts::Failure;
use headers::Date;

/// The first second past the dates of HTTP.
const END_OF_DATES: u64 = 253_402_300_800;

/// The date of a second since the start of 1970.
pub fn read_date(second: u64) -> Result<Date, Failure>
    ensures { IsDateOf second result }
{
    if second >= END_OF_DATES {
        return Err(Failure::Refused);
    }
    Ok(Date::from_unix_secs(second))
}
