//! Dates of cookies.
ghost use Rattle.std.specs.Prelude.{◌≡◌, ◌++◌, ◌≤◌, ◌<◌, length, OnOk, option_map};
ghost use Rattle.std.specs.{Char.is_ascii_digit, List.{position_or_len, prefix_len}};
ghost use Rattle.httpdate.specs.Calendar.{days_in_month, is_leap_year};
ghost use Rattle.rfc_lists.specs.CookieDates.{cookie_date, cut_token, date_text, digit_at, found_date, full_year};
ghost use Rattle.rfc_lists.specs.CookieDates.{is_date, is_delimiter, leading, month_named, month_of, time_field};
ghost use Rattle.rfc_lists.specs.CookieDates.{time_of};
ghost use Rattle.rfc_lists.specs.CookieDates.{hour_and_rest, minute_and_second, two_digits, with_token};

use rfc_fields::{cut, number};
use std::alloc::AllocError;

/// A date and a time of day, in UTC.
#[derive(Clone, Copy)]
pub(crate) struct CookieDate {
    year: u64,
    month: u64,
    day: u64,
    hour: u64,
    minute: u64,
    second: u64,
}

/// A time of day.
#[derive(Clone, Copy)]
struct Time {
    hour: u64,
    minute: u64,
    second: u64,
}

/// What is found of a date.
#[derive(Clone, Copy)]
struct Found {
    time: Option<Time>,
    day: Option<u64>,
    month: Option<u64>,
    year: Option<u64>,
}

fn is_delimiter(byte: u8) -> bool
    ensures { result ≡ is_delimiter byte }
{
    matches!(byte, b'\t' | b' '..=b'/' | b';'..=b'@' | b'['..=b'`' | b'{'..=b'~')
}

// How many digits a text begins with.
fn digits_len(text: &[u8]) -> usize
    ensures value { result ≡ prefix_len is_ascii_digit text.now }
    ensures within { result ≤ length text.now }
{
    for (place, byte) in text.iter().enumerate() {
        if !byte.is_ascii_digit() {
            return place;
        }
    }
    text.len()
}

// The number of the digits that a text begins with.
fn leading(least: usize, most: usize, text: &[u8]) -> Option<u64>
    ensures { result ≡ leading least most text.now }
{
    let end = digits_len(text);
    if end < least || end > most {
        return None;
    }
    number(&text[..end])
}

// The number that a text is, of one or two digits.
fn time_field(text: &[u8]) -> Option<u64>
    ensures { result ≡ time_field text.now }
{
    if digits_len(text) == text.len() {
        leading(1, 2, text)
    } else {
        None
    }
}

fn minute_and_second(hour: u64, minute: &[u8], rest: &[u8]) -> Option<Time>
    ensures { result ≡ minute_and_second hour (minute.now, rest.now) }
{
    match (time_field(minute), leading(1, 2, rest)) {
        (Some(minute), Some(second)) => Some(Time {
            hour,
            minute,
            second,
        }),
        _ => None,
    }
}

fn hour_and_rest(hour: &[u8], rest: &[u8]) -> Option<Time>
    ensures { result ≡ hour_and_rest (hour.now, rest.now) }
{
    let Some(hour) = time_field(hour) else {
        return None;
    };
    match cut(b':', rest) {
        Some((minute, rest)) => minute_and_second(hour, minute, rest),
        None => None,
    }
}

fn time_of(token: &[u8]) -> Option<Time>
    ensures { result ≡ time_of token.now }
{
    match cut(b':', token) {
        Some((hour, rest)) => hour_and_rest(hour, rest),
        None => None,
    }
}

// The month of this name, in any case.
fn month_named(name: &[u8]) -> Option<u64>
    ensures { result ≡ month_named name.now }
{
    if name.eq_ignore_ascii_case(b"jan") {
        Some(1)
    } else if name.eq_ignore_ascii_case(b"feb") {
        Some(2)
    } else if name.eq_ignore_ascii_case(b"mar") {
        Some(3)
    } else if name.eq_ignore_ascii_case(b"apr") {
        Some(4)
    } else if name.eq_ignore_ascii_case(b"may") {
        Some(5)
    } else if name.eq_ignore_ascii_case(b"jun") {
        Some(6)
    } else if name.eq_ignore_ascii_case(b"jul") {
        Some(7)
    } else if name.eq_ignore_ascii_case(b"aug") {
        Some(8)
    } else if name.eq_ignore_ascii_case(b"sep") {
        Some(9)
    } else if name.eq_ignore_ascii_case(b"oct") {
        Some(10)
    } else if name.eq_ignore_ascii_case(b"nov") {
        Some(11)
    } else if name.eq_ignore_ascii_case(b"dec") {
        Some(12)
    } else {
        None
    }
}

// The month whose name a token begins with.
fn month_of(token: &[u8]) -> Option<u64>
    ensures { result ≡ month_of token.now }
{
    month_named(&token[..token.len().min(3)])
}

// What is found with one more token.
fn with_token(found: Found, token: &[u8]) -> Found
    ensures { result ≡ with_token found token.now }
{
    if let (None, Some(time)) = (found.time, time_of(token)) {
        return Found {
            time: Some(time),
            ..found
        };
    }
    if let (None, Some(day)) = (found.day, leading(1, 2, token)) {
        return Found {
            day: Some(day),
            ..found
        };
    }
    if let (None, Some(month)) = (found.month, month_of(token)) {
        return Found {
            month: Some(month),
            ..found
        };
    }
    if let (None, Some(year)) = (found.year, leading(2, 4, token)) {
        return Found {
            year: Some(year),
            ..found
        };
    }
    found
}

// A year of two digits is of 1970 to 2069.
fn full_year(year: u64) -> u64
    ensures { result ≡ full_year year }
{
    match year {
        70..=99 => year + 1900,
        0..=69 => year + 2000,
        _ => year,
    }
}

fn is_leap_year(year: u64) -> bool
    ensures { result ≡ is_leap_year year }
{
    year % 4 == 0 && (year % 100 != 0 || year % 400 == 0)
}

fn days_in_month(year: u64, month: u64) -> u64
    ensures { result ≡ days_in_month year month }
{
    match month {
        2 if is_leap_year(year) => 29,
        2 => 28,
        4 | 6 | 9 | 11 => 30,
        _ => 31,
    }
}

// Whether the calendar has the day, and the clock the time.
fn is_date(date: &CookieDate) -> bool
    ensures { result ≡ is_date date.now }
{
    let last = days_in_month(date.year, date.month);
    let has_day = date.year >= 1601 && date.day >= 1 && date.day <= last;
    has_day && date.hour < 24 && date.minute < 60 && date.second < 60
}

// The date of what is found, if all is found and there's such a date.
fn found_date(found: Found) -> Option<CookieDate>
    ensures { result ≡ found_date found }
{
    let time = found.time?;
    let date = CookieDate {
        day: found.day?,
        month: found.month?,
        year: full_year(found.year?),
        hour: time.hour,
        minute: time.minute,
        second: time.second,
    };
    if is_date(&date) { Some(date) } else { None }
}

// How many bytes are before the first delimiter, or in all.
fn token_len(text: &[u8]) -> usize
    ensures value { result ≡ position_or_len is_delimiter text.now }
    ensures within { result ≤ length text.now }
{
    for (place, byte) in text.iter().enumerate() {
        if is_delimiter(*byte) {
            return place;
        }
    }
    text.len()
}

// Cuts a text at its first delimiter.
fn cut_token(text: &[u8]) -> Option<(&[u8], &[u8])>
    ensures { option_map (λ sides. (sides.0.now, sides.1.now)) result ≡ cut_token text.now }
{
    let end = token_len(text);
    if end < text.len() {
        Some((&text[..end], &text[end + 1..]))
    } else {
        None
    }
}

/// Parses a text as the date of a cookie (RFC 6265, section 5.1.1), which is laxer than HTTP's dates. `None` if it is
/// none.
pub(crate) fn cookie_date(text: &[u8]) -> Option<CookieDate>
    ensures { result ≡ cookie_date text.now }
{
    let mut found = Found {
        time: None,
        day: None,
        month: None,
        year: None,
    };
    let mut left = text;
    while let Some((token, rest)) = cut_token(left) {
        found = with_token(found, token);
        left = rest;
    }
    found_date(with_token(found, left))
}

// The digit of a number at the place of this weight.
fn digit_at(weight: u64, number: u64) -> u8
    requires { 0 < weight }
    ensures { result ≡ digit_at weight number }
{
    b'0' + (number / weight % 10) as u8
}

fn push_two(text: &mut Vec<u8>, number: u64) -> Result<(), AllocError>
    ensures { OnOk result (text.new.items ≡ text.old.items ++ two_digits number) }
{
    text.push(digit_at(10, number))?;
    text.push(digit_at(1, number))?;
    Ok(())
}

/// Appends a date as RFC 3339 has it: one before 1970 as the first second of that year.
pub(crate) fn push_date(text: &mut Vec<u8>, date: &CookieDate) -> Result<(), AllocError>
    ensures { OnOk result (text.new.items ≡ text.old.items ++ date_text date.now) }
{
    if date.year < 1970 {
        text.extend_from_slice(b"1970-01-01T00:00:00Z")?;
        return Ok(());
    }
    text.push(digit_at(1000, date.year))?;
    text.push(digit_at(100, date.year))?;
    push_two(text, date.year)?;
    text.push(b'-')?;
    push_two(text, date.month)?;
    text.push(b'-')?;
    push_two(text, date.day)?;
    text.push(b'T')?;
    push_two(text, date.hour)?;
    text.push(b':')?;
    push_two(text, date.minute)?;
    text.push(b':')?;
    push_two(text, date.second)?;
    text.push(b'Z')?;
    Ok(())
}
