//! Dates of header fields.
ghost use Rattle.std.{specs.Prelude.{◌≡◌, ◌↔◌, ℕ, Some, IfOk}, specs.Option.option_and_then};
ghost use Rattle.http_header.specs.FieldValue.{plain_value};
ghost use Rattle.httpdate.{specs.declared.parts.Parts.Parts, specs.Text.imf_fixdate, specs.Valid.{IsValid, parts_secs}};
ghost use Rattle.headers_syntax.{specs.Date.{date, fixdate, IsDated, ShowsDate}, specs.OfLines.OfLines};
ghost use Rattle.headers_syntax.specs.Lines.{Line, only_line};

use crate::item::AsHeaderValue;
use crate::lines::just_one;
use crate::trimming::trim;
use bytes::Bytes;
use http_header::HeaderValue;
use httpdate::HttpDate;
use std::alloc::{AllocError, Global};
use std::marker::Model;

/// The date of a field line, in whole seconds since 1970 and before the year 10000 (RFC 9110,
/// section 5.6.7).
#[derive(Clone, Copy, Debug, PartialEq, Eq, PartialOrd, Ord, Hash)]
pub struct Date1 {
    seconds: u64,
}

impl Model for Date1 {
    ghost use Rattle.std.specs.Prelude.{ℕ};
    ghost use Rattle.headers_syntax.specs.Date.{IsDated};

    ghost Value = { ℕ };

    ghost view = { λ d. d.seconds };

    ghost invariant = { λ d. IsDated d.seconds };

    ghost inverse = { λ n. record { seconds = n } };
}

impl Date1 {
    /// Parses a field line as a date in one of the three formats of RFC 9110, section 5.6.7.
    /// Leading and trailing spaces and tabs are ignored. `None` for any other value, and for a date
    /// before 1970 or after 9999.
    pub fn from_val(value: &HeaderValue) -> Option<Date1>
        ensures { result ≡ date value.now.bytes }
    {
        let Ok(text) = value.to_str() else {
            return None;
        };
        let Ok(date) = HttpDate::parse_ascii(trim(text.as_bytes())) else {
            return None;
        };
        Some(Date1 {
            seconds: date.unix_secs(),
        })
    }

    /// Makes the date that is this many seconds after the start of 1970. The caller must show that
    /// it is before the year 10000.
    pub fn from_unix_secs(seconds: u64) -> Date1
        requires { IsDated seconds }
        ensures { result ≡ seconds }
    {
        Date1 { seconds }
    }

    /// Returns the date in seconds since the start of 1970.
    pub fn unix_secs(&self) -> u64
        ensures value { result ≡ self.now }
        ensures bound { IsDated result }
    {
        self.seconds
    }

    /// Encodes the date as a field line in the format IMF-fixdate (RFC 9110, section 5.6.7). Fails
    /// only if an allocation fails.
    pub fn to_value(&self, alloc: Global) -> Result<HeaderValue, AllocError>
        ensures value { IfOk result (λ value. value ≡ plain_value (fixdate self.now)) }
        ensures reads_back { IfOk result (λ value. date value.bytes ≡ Some self.now) }
    {
        let Ok(date) = HttpDate::from_unix_secs(self.seconds) else {
            unreachable!();
        };
        let text = Bytes::copy_from_slice(alloc, &date.to_bytes())?;
        Ok(HeaderValue::from_known_valid(text))
    }
}

/// Parses a field that has exactly one field line as a date (RFC 9110, section 5.6.7). `None` if
/// there are no or several field lines, or if the line is no date.
pub fn only_date<I: Iterator>(values: &mut I) -> Option<Date1>
where
    I::Item: AsHeaderValue,
    requires { I.can_next values.old }
    ensures { OfLines I.Item.shown I.next_gives values.old values.new
        (λ lines. option_and_then date (only_line lines) ≡ result) }
{
    Date1::from_val(just_one(values)?.as_header_value())
}

/// Theorem: a time from 1970 to 9999 is encoded as a field line that parses as that time.
pub fn date_reads_back(seconds: u64)
    requires { IsDated seconds }
    ensures { date (fixdate seconds) ≡ Some seconds }
{
    let Ok(_date) = HttpDate::from_unix_secs(seconds) else {
        unreachable!();
    };
}

/// Theorem: which field lines show a time, and how a date is printed, by the calendar alone.
pub fn dates_by_the_calendar()
    ensures read { (line : Line) (secs : ℕ) → (date line ≡ Some secs) ↔ ShowsDate line secs }
    ensures bound { (line : Line) (secs : ℕ) → date line ≡ Some secs → IsDated secs }
    ensures printed { (p : Parts) → IsValid p → fixdate (parts_secs p) ≡ imf_fixdate p }
{}
