//! The header `retry-after`.
ghost use Rattle.std.specs.Prelude.{◌≡◌, IfOk};
ghost use Rattle.headers_syntax.{specs.Date.IsDated, specs.Durations.IsWholeSeconds};
ghost use Rattle.http_header.specs.FieldValue.{plain_value};
ghost use Rattle.headers_values.specs.RetryTime.{Delay, Until, IsDelay, retry_time, retry_line};

use headers_core::{AsHeaderValue, Date1, Error, Header, Refused, Seconds, first};
use http_header::{HeaderName, HeaderValue, RETRY_AFTER};
use std::alloc::{AllocError, Global};
use std::marker::Model;
use std::time::Duration;

/// The header `Retry-After`: when to send the request again (RFC 9110, section 10.2.3). The first
/// field line is decoded: a delay in seconds below 2^64, or else a date from 1970 to 9999. `decode`
/// rejects any other value, and never allocates. Headers are compared by the delay or the date.
#[derive(Clone, Debug, Drop, PartialEq, Eq)]
pub struct RetryAfter {
    after: After,
}

#[derive(Clone, Debug, Drop, PartialEq, Eq)]
enum After {
    Date(Date1),
    Delay(Seconds),
}

impl Model for RetryAfter {
    ghost use Rattle.headers_values.specs.RetryTime.{RetryTime};

    ghost Value = { RetryTime };

    ghost use Rattle.headers_values.specs.RetryView.{time_of, after_of, after_of-time_of};

    ghost view = { λ r. time_of r.after };

    ghost inverse = { λ t. record { after = after_of t } };

    ghost inverse_ok = { λ r _. after_of-time_of r };
}

impl RetryAfter {
    /// Makes a header of the date this many seconds after the start of 1970. The caller must show
    /// that it is before the year 10000.
    pub fn date(secs: u64) -> RetryAfter
        requires { IsDated secs }
        ensures { result ≡ Until secs }
    {
        RetryAfter {
            after: After::Date(Date1::from_unix_secs(secs)),
        }
    }

    /// Makes a header of a delay. The caller must show that it has no part of a second.
    pub fn delay(duration: Duration) -> RetryAfter
        requires { IsWholeSeconds duration }
        ensures { IsDelay duration result }
    {
        RetryAfter {
            after: After::Delay(Seconds::from_duration(duration)),
        }
    }

    // A number is a delay. Any other value must be a date.
    fn from_val(value: &HeaderValue) -> Option<RetryAfter>
        ensures { result ≡ retry_time value.now.bytes }
    {
        match Seconds::from_val(value) {
            Some(delay) => Some(RetryAfter {
                after: After::Delay(delay),
            }),
            None => Some(RetryAfter {
                after: After::Date(Date1::from_val(value)?),
            }),
        }
    }

    fn to_value(&self, alloc: Global) -> Result<HeaderValue, AllocError>
        ensures { IfOk result (λ value. value ≡ plain_value (retry_line self.now)) }
    {
        match &self.after {
            After::Date(date) => date.to_value(alloc),
            After::Delay(delay) => delay.to_value(alloc),
        }
    }
}

impl Header for RetryAfter {
    ghost use Rattle.std.specs.Prelude.{true, codes};
    ghost use Rattle.headers_syntax.specs.HeaderLaws.{SameBy, ReadsBy, written_by};
    ghost use Rattle.headers_values.{specs.RetryAfter.retry_after_grammar, specs.RetryAfterLaws.retry_after_laws};

    ghost field_name = { codes "retry-after" };

    ghost free = { true };

    ghost same = { SameBy retry_after_grammar };

    ghost reads = { ReadsBy retry_after_grammar };

    ghost writes = { written_by retry_after_grammar };

    ghost laws = { retry_after_laws };

    fn name() -> HeaderName {
        RETRY_AFTER
    }

    fn decode<I: Iterator>(_alloc: Global, values: &mut I) -> Result<RetryAfter, Refused<Error>>
    where
        I::Item: AsHeaderValue,
    {
        let line = first(values).ok_or(Error::invalid())?;
        Ok(RetryAfter::from_val(line.as_header_value()).ok_or(Error::invalid())?)
    }

    fn encode(&self, alloc: Global, values: &mut Vec<HeaderValue>) -> Result<(), AllocError> {
        values.push(self.to_value(alloc)?)?;
        Ok(())
    }
}
