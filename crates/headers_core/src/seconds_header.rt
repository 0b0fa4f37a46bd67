//! Headers that are a number of seconds.
ghost use Rattle.std.specs.Prelude.{◌≡◌};
ghost use Rattle.headers_syntax.specs.Durations.{IsWholeSeconds, LastsSeconds};

use crate::form_header::FormHeader;
use crate::named_field::NamedField;
use headers_syntax::Seconds;
use http_header::HeaderName;
use std::marker::{Model, PhantomData};
use std::time::Duration;

/// A header whose only field line is a number of seconds below 2^64 (RFC 9111, section 1.2.2).
/// `decode` rejects no or several field lines and any other value, and never allocates. Headers are
/// compared, ordered and hashed by the number.
#[derive(Clone, Copy, Debug, Drop, PartialEq, Eq, PartialOrd, Ord, Hash)]
pub struct SecondsHeader<N: NamedField> {
    seconds: Seconds,
    of: PhantomData<N>,
}

impl<N: NamedField> Model for SecondsHeader<N> {
    ghost use Rattle.std.specs.Prelude.{ℕ};

    ghost Value = { ℕ };

    ghost view = { λ header. header.seconds };

    ghost inverse = { λ n. record { seconds = n; of = record {} } };
}

impl<N: NamedField> SecondsHeader<N> {
    /// Makes a header of this many seconds.
    pub fn from_secs(seconds: u64) -> SecondsHeader<N>
        ensures { result ≡ seconds }
    {
        SecondsHeader::from_form(Seconds::from_secs(seconds))
    }

    /// Returns the number of seconds.
    pub fn as_secs(&self) -> u64
        ensures { result ≡ self.now }
    {
        self.seconds.as_u64()
    }

    /// Converts a duration to a header. The caller must show that it has no part of a second.
    pub fn from_duration(duration: Duration) -> SecondsHeader<N>
        requires { IsWholeSeconds duration }
        ensures { LastsSeconds duration result }
    {
        SecondsHeader::from_form(Seconds::from_duration(duration))
    }
}

impl<N: NamedField> From<SecondsHeader<N>> for Duration {
    ghost from_gives = { λ header duration. LastsSeconds duration header };

    fn from(header: SecondsHeader<N>) -> Duration {
        Duration::from(header.seconds)
    }
}

impl<N: NamedField> FormHeader for SecondsHeader<N> {
    type Form = Seconds;

    ghost NAME = { N.NAME };

    const NAME: HeaderName = N::NAME;

    ghost form = { λ header. header };

    fn from_form(seconds: Seconds) -> SecondsHeader<N> {
        SecondsHeader {
            seconds,
            of: PhantomData,
        }
    }

    fn as_form(&self) -> &Seconds {
        &self.seconds
    }
}
