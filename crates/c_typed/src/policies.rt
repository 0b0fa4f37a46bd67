//! Policies of `strict-transport-security`, and times of `retry-after`.
ghost use Rattle.std.specs.Prelude.{◌≡◌, option_map};
ghost use Rattle.headers.{specs.HeaderLaws.ReadsBy, specs.RetryAfter.retry_after_grammar, specs.RetryTime.retry_time};
ghost use Rattle.headers.specs.StrictTransportSecurityGrammar.{security_grammar};
ghost use Rattle.c_typed.{specs.Policies.{ShowsRetryTime, ShowsSecurity, retry_shown}, specs.Shown.FieldShows};

use c_decisions::flag_of;
use c_parts::{Failure, read_field, read_values};
use headers::{HeaderValue, StrictTransportSecurity};
use headers_core::{Date1, Seconds};
use std::alloc::Global;

/// For how long a host may be reached only by secure transport, and whether its subdomains are
/// included.
#[repr(C)]
#[derive(Clone, Copy)]
pub struct TransportSecurity {
    /// The seconds.
    pub max_age: u64,
    /// 1 if the subdomains are included, else 0.
    pub include_subdomains: u8,
}

/// Decodes the field lines of `strict-transport-security` (RFC 6797, section 6.1).
pub fn read_transport_security(alloc: Global, lines: &[u8]) -> Result<TransportSecurity, Failure>
    ensures { FieldShows (ReadsBy security_grammar) ShowsSecurity lines.now result }
{
    match read_field::<StrictTransportSecurity>(alloc, lines) {
        Ok(policy) => Ok(TransportSecurity {
            max_age: policy.max_age().as_secs(),
            include_subdomains: flag_of(policy.include_subdomains()),
        }),
        Err(failure) => Err(failure),
    }
}

/// When to send a request again.
#[repr(C)]
#[derive(Clone, Copy)]
pub struct RetryTime {
    /// The seconds of the delay, or those since 1970 of the date.
    pub seconds: u64,
    /// 1 if it is a date, 0 if it is a delay.
    pub is_date: u8,
}

/// Decodes the field lines of `retry-after` to a delay or a date (RFC 9110, section 10.2.3).
pub fn read_retry_after(alloc: Global, lines: &[u8]) -> Result<RetryTime, Failure>
    ensures { FieldShows (ReadsBy retry_after_grammar) ShowsRetryTime lines.now result }
{
    let Some(values) = read_values(alloc, lines)? else {
        return Err(Failure::Refused);
    };
    match values.first() {
        Some(line) => match retry_time(line) {
            Some(time) => Ok(time),
            None => Err(Failure::Refused),
        },
        None => Err(Failure::Absent),
    }
}

// A number is a delay. Any other value must be a date. `RetryAfter` doesn't give its parts.
fn retry_time(line: &HeaderValue) -> Option<RetryTime>
    ensures { result ≡ option_map retry_shown (retry_time line.now.bytes) }
{
    match Seconds::from_val(line) {
        Some(delay) => Some(RetryTime {
            seconds: delay.as_u64(),
            is_date: 0,
        }),
        None => Some(RetryTime {
            seconds: Date1::from_val(line)?.unix_secs(),
            is_date: 1,
        }),
    }
}
