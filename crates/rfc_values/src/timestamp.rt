//! The time that a date denotes, and how it compares with other times.
ghost use Rattle.std.specs.Prelude.{◌≡◌, ℕ, ◌+◌, ◌-◌, ◌^◌, ◌<◌, ◌↔◌, IsTrue, MatchOption, min};
ghost use Rattle.rfc_values.{specs.Calendar.unix_epoch, specs.Date.{timestamp, Denotes}};

use crate::date_time::UNIX_EPOCH;
use crate::parser::read_date_time;
use std::marker::Model;

/// A time in whole seconds since the start of the year 0, as an HTTP-date denotes one (RFC 9110,
/// section 5.6.7). Its methods take other times in seconds since 1970.
#[derive(Clone, Copy, Debug, PartialEq, Eq, PartialOrd, Ord)]
pub struct Timestamp {
    // Since the start of the year 0.
    seconds: u64,
}

impl Model for Timestamp {
    ghost use Rattle.std.specs.Prelude.{ℕ};

    ghost Value = { ℕ };

    ghost view = { λ timestamp. timestamp.seconds };

    ghost inverse = { λ seconds. record { seconds = seconds } };
}

impl Timestamp {
    /// Makes the time this many seconds after the start of 1970, or the last time that a
    /// `Timestamp` can be if that is earlier.
    pub fn from_unix_seconds(seconds: u64) -> Timestamp
        ensures { result ≡ min (unix_epoch + seconds) (2 ^ 64 - 1) }
    {
        Timestamp {
            seconds: UNIX_EPOCH.saturating_add(seconds),
        }
    }

    /// Returns the seconds since the start of 1970. `None` if the time is before 1970.
    pub fn unix_seconds(&self) -> Option<u64>
        ensures { MatchOption result (self.now < unix_epoch) (λ seconds. unix_epoch + seconds ≡ self.now) }
    {
        self.seconds.checked_sub(UNIX_EPOCH)
    }

    /// Returns whether the time is before another one, in seconds since 1970.
    pub fn is_before(&self, seconds: u64) -> bool
        ensures { IsTrue result ↔ (self.now < unix_epoch + seconds) }
    {
        match self.unix_seconds() {
            Some(own) => own < seconds,
            None => true,
        }
    }

    /// Returns whether the time is after another one, in seconds since 1970.
    pub fn is_after(&self, seconds: u64) -> bool
        ensures { IsTrue result ↔ (unix_epoch + seconds < self.now) }
    {
        match self.unix_seconds() {
            Some(own) => seconds < own,
            None => false,
        }
    }

    /// Returns the seconds from this time to `now`, in seconds since 1970. 0 if this time is after
    /// `now`, and at most `u64::MAX`.
    pub fn age_at(&self, now: u64) -> u64
        ensures { result ≡ min (unix_epoch + now - self.now) (2 ^ 64 - 1) }
    {
        if self.seconds < UNIX_EPOCH {
            now.saturating_add(UNIX_EPOCH - self.seconds)
        } else {
            now.saturating_sub(self.seconds - UNIX_EPOCH)
        }
    }

    /// Returns the seconds from `now`, in seconds since 1970, to this time. 0 if this time is
    /// before `now`.
    pub fn remaining_at(&self, now: u64) -> u64
        ensures { result ≡ self.now - (unix_epoch + now) }
    {
        self.seconds.saturating_sub(UNIX_EPOCH.saturating_add(now))
    }

    /// Returns the seconds from an earlier time to this one. 0 if the other time is later.
    pub fn seconds_after(&self, earlier: Timestamp) -> u64
        ensures { result ≡ self.now - earlier }
    {
        self.seconds.saturating_sub(earlier.seconds)
    }
}

/// Parses an HTTP-date to the time that it denotes (RFC 9110, section 5.6.7). `None` if the text
/// isn't an IMF-fixdate, an RFC 850 date or an asctime date with nothing before or after it; if the
/// calendar doesn't have the day; or if the clock doesn't have the time. The name of another day of
/// the week doesn't change the date. A second 60 is the one after second 59.
///
/// `now` is the present, in seconds since 1970. It only decides which year the two digits of an RFC
/// 850 date mean: the last year with these digits in which the date isn't more than 50 years after
/// `now`. So `01-Jan-71` is 2071 in 2026, and `01-Jan-01` is 2101 in 2099. "More than 50 years" is
/// by the calendar: the same day and time 50 years earlier is after `now`, where 29 February counts
/// as 1 March in a year without it. curl and Python's `email.utils` use fixed centuries instead,
/// from 1971 and from 1969.
#[tactic(auto, unfolding(crate::specs::Date::timestamp))]
pub fn read_date(text: &[u8], now: u64) -> Option<Timestamp>
    ensures value { result ≡ timestamp now text.now }
    ensures shown { MatchOption result ((second : ℕ) → ¬ Denotes now text.now second) (Denotes now text.now) }
{
    let date = read_date_time(text, now)?;
    Some(Timestamp {
        seconds: date.seconds(),
    })
}
