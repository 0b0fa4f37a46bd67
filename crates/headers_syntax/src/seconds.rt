//! Whole seconds, the unit of time in header fields.
ghost use Rattle.std.{specs.Prelude.{◌≡◌, IfOk, decimal}, specs.Option.option_and_then};
ghost use Rattle.http_header.specs.FieldValue.{plain_value};
ghost use Rattle.headers_syntax.{specs.Durations.{IsWholeSeconds, LastsSeconds}, specs.OfLines.OfLines};
ghost use Rattle.headers_syntax.{specs.Lines.only_line, specs.Number.number};

use crate::item::AsHeaderValue;
use crate::lines::just_one;
use crate::number::read_number;
use http_header::HeaderValue;
use std::alloc::{AllocError, Global};
use std::marker::Model;
use std::time::Duration;

/// A time span in whole seconds, below 2^64 (RFC 9111, section 1.2.2).
#[derive(Clone, Copy, Debug, PartialEq, Eq, PartialOrd, Ord, Hash)]
pub struct Seconds {
    seconds: u64,
}

impl Model for Seconds {
    ghost use Rattle.std.specs.Prelude.{ℕ};

    ghost Value = { ℕ };

    ghost view = { λ s. s.seconds };

    ghost inverse = { λ n. record { seconds = n } };
}

impl Seconds {
    /// Parses a field line as a number of seconds below 2^64: an optional plus sign and decimal
    /// digits. `None` for any other value, also for one with blanks around it.
    pub fn from_val(value: &HeaderValue) -> Option<Seconds>
        ensures { result ≡ number value.now.bytes }
    {
        Some(Seconds {
            seconds: read_number(value)?,
        })
    }

    /// Makes a time span of this many seconds.
    pub fn from_secs(seconds: u64) -> Seconds
        ensures { result ≡ seconds }
    {
        Seconds { seconds }
    }

    /// Converts a duration to seconds. The caller must show that it has no part of a second.
    pub fn from_duration(duration: Duration) -> Seconds
        requires { IsWholeSeconds duration }
        ensures { LastsSeconds duration result }
    {
        Seconds {
            seconds: duration.as_secs(),
        }
    }

    /// Returns the number of seconds.
    pub fn as_u64(&self) -> u64
        ensures { result ≡ self.now }
    {
        self.seconds
    }

    /// Encodes the number of seconds as a field line, in decimal digits. Fails only if an
    /// allocation fails.
    pub fn to_value(&self, alloc: Global) -> Result<HeaderValue, AllocError>
        ensures { IfOk result (λ value. value ≡ plain_value (decimal self.now)) }
    {
        HeaderValue::from_u64(alloc, self.seconds)
    }
}

impl From<Seconds> for Duration {
    ghost from_gives = { λ seconds duration. LastsSeconds duration seconds };

    fn from(seconds: Seconds) -> Duration {
        Duration::from_secs(seconds.seconds)
    }
}

/// Parses a field that has exactly one field line as a number of seconds. `None` if there are no or
/// several field lines, or if the line is no number.
pub fn only_seconds<I: Iterator>(values: &mut I) -> Option<Seconds>
where
    I::Item: AsHeaderValue,
    requires { I.can_next values.old }
    ensures { OfLines I.Item.shown I.next_gives values.old values.new
        (λ lines. option_and_then number (only_line lines) ≡ result) }
{
    Seconds::from_val(just_one(values)?.as_header_value())
}
