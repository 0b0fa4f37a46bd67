//! The header `if-unmodified-since`.
ghost use Rattle.std.specs.Prelude.{◌≡◌, ◌≤◌, ◌↔◌, IsTrue, ℕ, codes};
ghost use Rattle.headers_syntax.specs.Date.{IsDated};

use headers_core::{Date1, FormHeader};
use http_header::{HeaderName, IF_UNMODIFIED_SINCE};
use std::marker::Model;

/// The header `If-Unmodified-Since`: a request is to be performed only if the representation wasn't
/// modified after this date (RFC 9110, section 13.1.4). The only field line is decoded, a date from
/// 1970 to 9999 in one of the three date formats. `decode` rejects any other value, and no or
/// several lines, and never allocates.
#[derive(Clone, Copy, Debug, PartialEq, Eq, PartialOrd, Ord, Hash)]
pub struct IfUnmodifiedSince {
    date: Date1,
}

impl Model for IfUnmodifiedSince {
    ghost Value = { ℕ };

    ghost view = { λ d. d.date };

    ghost inverse = { λ n. record { date = n } };
}

impl IfUnmodifiedSince {
    /// Makes a header of the date this many seconds after the start of 1970. The caller must show
    /// that it is before the year 10000.
    pub fn from_unix_secs(secs: u64) -> IfUnmodifiedSince
        requires { IsDated secs }
        ensures { result ≡ secs }
    {
        IfUnmodifiedSince::from_form(Date1::from_unix_secs(secs))
    }

    /// Returns the date in seconds since the start of 1970.
    pub fn unix_secs(&self) -> u64
        ensures value { result ≡ self.now }
        ensures bound { IsDated result }
    {
        self.date.unix_secs()
    }

    /// Returns whether this modification time, in seconds since 1970, is at or before the date.
    pub fn precondition_passes(&self, last_modified: u64) -> bool
        ensures { IsTrue result ↔ (last_modified ≤ self.now) }
    {
        self.unix_secs() >= last_modified
    }
}

impl FormHeader for IfUnmodifiedSince {
    type Form = Date1;

    ghost NAME = { codes "if-unmodified-since" };

    const NAME: HeaderName = IF_UNMODIFIED_SINCE;

    ghost form = { λ header. header };

    fn from_form(date: Date1) -> IfUnmodifiedSince {
        IfUnmodifiedSince { date }
    }

    fn as_form(&self) -> &Date1 {
        &self.date
    }
}
