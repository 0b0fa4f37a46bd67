//! The clock of the system.

use headers::Date;
use std::time::{SystemTime, UNIX_EPOCH};

/// The last second of the year 9999, which is the last that a Date can have.
const LAST: u64 = 253_402_300_799;

/// The clock of the system, or none.
#[derive(Drop)]
pub struct OptionalClock<'a> {
    rt: &'a HostRuntime,
    is_there: bool,
}

impl<'a> OptionalClock<'a> {
    /// The clock, if it is to be read.
    pub fn new(rt: &'a HostRuntime, is_there: bool) -> OptionalClock<'a> {
        OptionalClock { rt, is_there }
    }

    /// The time, if there is a clock that tells one that a Date can have.
    pub fn now(&self) -> Option<Date> {
        if !self.is_there {
            return None;
        }
        let time = SystemTime::now(self.rt).ok()?;
        let second = time.duration_since(UNIX_EPOCH).ok()?.as_secs();
        if second > LAST {
            return None;
        }
        Some(Date::from_unix_secs(second))
    }
}
