//! The calendar: days and times of day, from the year 0 on.
ghost use Rattle.std.{specs.Prelude.{◌≡◌, ◌-◌, ◌^◌, ◌<◌, ◌↔◌, IfSome, IsTrue}, specs.Int.IsInRange};
ghost use Rattle.httpdate.specs.Calendar as Calendar;
ghost use Rattle.rfc_values.specs.Calendar.{days_before_year};

/// A day and a time of day as a text shows them. The calendar or the clock may not have them.
#[derive(Clone, Copy)]
pub struct DateTime {
    /// The year, from 0 on.
    pub year: u16,
    /// The month; January is 1.
    pub month: u8,
    /// The day of the month, from 1 on.
    pub day: u8,
    /// The hour.
    pub hour: u8,
    /// The minute.
    pub minute: u8,
    /// The second; 60 is a leap second.
    pub second: u8,
}

/// The number of seconds from the start of the year 0 to the start of 1970.
pub const UNIX_EPOCH: u64 = 62_167_219_200;

fn is_leap_year(year: u16) -> bool
    ensures { result ≡ Calendar.is_leap_year year }
{
    year % 4 == 0 && (year % 100 != 0 || year % 400 == 0)
}

fn days_in_month(year: u16, month: u8) -> u8
    ensures { result ≡ Calendar.days_in_month year month }
{
    match month {
        2 => { if is_leap_year(year) { 29 } else { 28 } }
        4 | 6 | 9 | 11 => 30,
        _ => 31,
    }
}

#[tactic(auto, using(crate::proofs::CalendarLemmas::days_before_year_closed))]
fn days_before_year(year: u16) -> u32
    ensures value { result ≡ days_before_year year }
    ensures bound { result < 2 ^ 25 }
{
    let year = year as u32;
    // The year 0 is a leap year.
    year * 365 + (year + 3) / 4 - (year + 99) / 100 + (year + 399) / 400
}

fn days_before_month(year: u16, month: u8) -> u32
    requires { IsInRange 1 12 month }
    ensures value { result ≡ Calendar.days_of_months year (month - 1) }
    ensures bound { result < 366 }
{
    const BEFORE: [u32; 12] = [0, 31, 59, 90, 120, 151, 181, 212, 243, 273, 304, 334];
    let leap_day = if month > 2 && is_leap_year(year) {
        1
    } else {
        0
    };
    BEFORE[month as usize - 1] + leap_day
}

impl DateTime {
    ghost use Rattle.rfc_values.specs.Calendar.{IsDateTime, day_number, seconds, in_year};
    ghost use Rattle.rfc_values.specs.Reader.{in_near_century, is_near};

    /// Returns whether the calendar has the day, and the clock has the time. Each minute has a
    /// second 60.
    pub fn is_valid(&self) -> bool
        ensures { IsTrue result ↔ IsDateTime self.now }
    {
        let is_month = 1 <= self.month && self.month <= 12;
        let is_time = self.hour < 24 && self.minute < 60 && self.second <= 60;
        self.year <= 9999
            && is_month
            && 1 <= self.day
            && self.day <= days_in_month(self.year, self.month)
            && is_time
    }

    #[tactic(auto, unfolding(crate::specs::Calendar::day_number))]
    fn day_number(&self) -> u32
        requires { IsInRange 1 12 self.now.month }
        ensures value { result ≡ day_number self.now }
        ensures bound { result < 2 ^ 26 }
    {
        days_before_year(self.year)
            + days_before_month(self.year, self.month)
            + self.day.saturating_sub(1) as u32
    }

    /// Returns the seconds since the start of the year 0.
    #[tactic(auto, unfolding(crate::specs::Calendar::seconds))]
    pub fn seconds(&self) -> u64
        requires { IsInRange 1 12 self.now.month }
        ensures value { result ≡ seconds self.now }
        ensures bound { result < 2 ^ 43 }
    {
        self.day_number() as u64 * 86400
            + self.hour as u64 * 3600
            + self.minute as u64 * 60
            + self.second as u64
    }

    fn in_year(self, year: u16) -> DateTime
        ensures { result ≡ in_year self year }
    {
        DateTime { year, ..self }
    }

    // Whether `now` is in the hundred years around the date.
    fn is_near(&self, now: u64) -> bool
        requires year { IsInRange 50 9999 self.now.year }
        requires month { IsInRange 1 12 self.now.month }
        ensures { result ≡ is_near now self.now }
    {
        // A `now` that saturates is after every date all the same.
        let now = UNIX_EPOCH.saturating_add(now);
        let earlier = self.in_year(self.year - 50);
        let later = self.in_year(self.year + 50);
        earlier.seconds() <= now && now < later.seconds()
    }

    /// Returns the date in the century that brings it within fifty years of `now`, in seconds since
    /// 1970. `None` if that is after the year 9999.
    pub fn in_near_century(self, now: u64) -> Option<DateTime>
        requires year { self.year < 100 }
        requires month { IsInRange 1 12 self.month }
        ensures value { result ≡ in_near_century now self 81 19 }
        ensures month { IfSome result (λ date. date.month ≡ self.month) }
    {
        for century in 19..100 {
            let date = self.in_year(century * 100 + self.year);
            if date.is_near(now) {
                return Some(date);
            }
        }
        None
    }
}
