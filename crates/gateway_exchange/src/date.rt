//! The field Date.
ghost use Rattle.std.specs.Prelude.{◌≡◌, IfOk};
ghost use Rattle.headers.specs.Date.{fixdate};
ghost use Rattle.http_header.specs.FieldValue.{plain_value};

use headers::{Date, HeaderValue};
use headers_syntax::Date1;
use std::alloc::{AllocError, Global};

/// A time, and the value of the field that says it (RFC 9110, section 6.6.1).
#[derive(Drop)]
pub struct OwnDate {
    pub(crate) date: Date,
    pub(crate) value: HeaderValue,
    ghost is_value: { value ≡ plain_value (fixdate date) },
}

impl OwnDate {
    pub(crate) fn new(alloc: Global, date: Date) -> Result<OwnDate, AllocError>
        ensures { IfOk result (λ made. made.date ≡ date) }
    {
        let value = Date1::from_unix_secs(date.unix_secs()).to_value(alloc)?;
        Ok(OwnDate { date, value })
    }
}
