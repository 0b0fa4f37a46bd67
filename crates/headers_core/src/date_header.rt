//! Headers that are one date.
ghost use Rattle.std.specs.Prelude.{◌≡◌};
ghost use Rattle.headers_syntax.specs.Date.{IsDated};

use crate::form_header::FormHeader;
use crate::named_field::NamedField;
use headers_syntax::Date1;
use http_header::HeaderName;
use std::marker::{Model, PhantomData};

/// A header whose only field line is a date from 1970 to 9999 (RFC 9110, section 5.6.7). It decodes
/// the three date formats and encodes IMF-fixdate. `decode` rejects no or several field lines and
/// any other value, and never allocates. Headers are compared, ordered and hashed by the date, in
/// whole seconds.
#[derive(Clone, Copy, Debug, Drop, PartialEq, Eq, PartialOrd, Ord, Hash)]
pub struct DateHeader<N: NamedField> {
    date: Date1,
    of: PhantomData<N>,
}

impl<N: NamedField> Model for DateHeader<N> {
    ghost use Rattle.std.specs.Prelude.{ℕ};

    ghost Value = { ℕ };

    ghost view = { λ header. header.date };

    ghost inverse = { λ n. record { date = n; of = record {} } };
}

impl<N: NamedField> DateHeader<N> {
    /// Makes a header of the date this many seconds after the start of 1970. The caller must show
    /// that it is before the year 10000.
    pub fn from_unix_secs(secs: u64) -> DateHeader<N>
        requires { IsDated secs }
        ensures { result ≡ secs }
    {
        DateHeader::from_form(Date1::from_unix_secs(secs))
    }

    /// Returns the date in seconds since the start of 1970.
    pub fn unix_secs(&self) -> u64
        ensures value { result ≡ self.now }
        ensures bound { IsDated result }
    {
        self.date.unix_secs()
    }
}

impl<N: NamedField> FormHeader for DateHeader<N> {
    type Form = Date1;

    ghost NAME = { N.NAME };

    const NAME: HeaderName = N::NAME;

    ghost form = { λ header. header };

    fn from_form(date: Date1) -> DateHeader<N> {
        DateHeader {
            date,
            of: PhantomData,
        }
    }

    fn as_form(&self) -> &Date1 {
        &self.date
    }
}
