//! The three formats of a date. A function that returns the rest of the text parses the front of
//! it.
ghost use Rattle.std.{specs.Prelude.{◌≡◌, ◌<◌, IfSome, option_copied}, specs.Int.IsInRange};
ghost use Rattle.httpdate.specs.Text as Text;
ghost use Rattle.httpdate.specs.Reader as Reader;
ghost use Rattle.rfc_values.specs.Reader as Dates;

use crate::date_time::DateTime;
use crate::names;

#[tactic(auto, unfolding(httpdate::specs::Reader::read_tag))]
fn read_tag<'a>(text: &'a [u8], tag: &[u8]) -> Option<&'a [u8]>
    ensures { option_copied result ≡ Reader.read_tag tag.now text.now }
{
    text.strip_prefix(tag)
}

#[tactic(auto, unfolding(httpdate::specs::Reader::read_two_digits))]
fn read_two_digits(text: &[u8]) -> Option<(u8, &[u8])>
    ensures value { Reader.read_view result ≡ Reader.read_two_digits text.now }
    ensures bound { IfSome result (λ read. read.0 < 100) }
{
    match text {
        [high @ b'0'..=b'9', low @ b'0'..=b'9', rest @ ..] => {
            Some(((*high - b'0') * 10 + (*low - b'0'), rest))
        }
        _ => None,
    }
}

fn read_day_name(text: &[u8]) -> Option<(u8, &[u8])>
    ensures value { Reader.read_view result ≡ Reader.read_name Text.day_name 7 text.now }
    ensures bound { IfSome result (λ read. IsInRange 1 7 read.0) }
{
    for weekday in (1..8).rev() {
        if let Some(rest) = read_tag(text, names::day_name(weekday)) {
            return Some((weekday, rest));
        }
    }
    None
}

fn read_month_name(text: &[u8]) -> Option<(u8, &[u8])>
    ensures value { Reader.read_view result ≡ Reader.read_name Text.month_name 12 text.now }
    ensures bound { IfSome result (λ read. IsInRange 1 12 read.0) }
{
    for month in (1..13).rev() {
        if let Some(rest) = read_tag(text, names::month_name(month)) {
            return Some((month, rest));
        }
    }
    None
}

#[tactic(auto, unfolding(httpdate::specs::Reader::read_year))]
fn read_year(text: &[u8]) -> Option<(u16, &[u8])>
    ensures { Reader.read_view result ≡ Reader.read_year text.now }
{
    let (century, text) = read_two_digits(text)?;
    let (year, text) = read_two_digits(text)?;
    Some((century as u16 * 100 + year as u16, text))
}

// `08:49:37`
#[tactic(auto, unfolding(httpdate::specs::Reader::read_time))]
fn read_time(text: &[u8]) -> Option<((u8, u8, u8), &[u8])>
    ensures { Reader.read_view result ≡ Reader.read_time text.now }
{
    let (hour, text) = read_two_digits(text)?;
    let (minute, text) = read_two_digits(read_tag(text, b":")?)?;
    let (second, text) = read_two_digits(read_tag(text, b":")?)?;
    Some(((hour, minute, second), text))
}

// Two digits, or a space and one digit.
#[tactic(auto, unfolding(httpdate::specs::Reader::read_padded_day))]
fn read_padded_day(text: &[u8]) -> Option<(u8, &[u8])>
    ensures { Reader.read_view result ≡ Reader.read_padded_day text.now }
{
    match text {
        [b' ', low @ b'0'..=b'9', rest @ ..] => Some((*low - b'0', rest)),
        _ => read_two_digits(text),
    }
}

// `06 Nov ` or `06-Nov-`
#[tactic(auto, unfolding(crate::specs::Reader::read_day_and_month))]
fn read_day_and_month<'a>(text: &'a [u8], separator: &[u8]) -> Option<((u8, u8), &'a [u8])>
    ensures value { Reader.read_view result ≡ Dates.read_day_and_month separator.now text.now }
    ensures bound { IfSome result (λ read. IsInRange 1 12 read.0.1) }
{
    let (day, text) = read_two_digits(text)?;
    let (month, text) = read_month_name(read_tag(text, separator)?)?;
    Some(((day, month), read_tag(text, separator)?))
}

// `08:49:37 GMT`, with nothing after it
#[tactic(auto, unfolding(crate::specs::Reader::read_time_in_gmt))]
fn read_time_in_gmt(text: &[u8]) -> Option<(u8, u8, u8)>
    ensures { result ≡ Dates.read_time_in_gmt text.now }
{
    let (time, text) = read_time(text)?;
    if text == b" GMT".as_slice() {
        Some(time)
    } else {
        None
    }
}

/// Parses an IMF-fixdate without its day name, as `, 06 Nov 1994 08:49:37 GMT`. `None` for any other text.
#[tactic(auto, unfolding(crate::specs::Reader::read_imf_fixdate))]
pub fn read_imf_fixdate(text: &[u8]) -> Option<DateTime>
    ensures value { result ≡ Dates.read_imf_fixdate text.now }
    ensures bound { IfSome result (λ date. IsInRange 1 12 date.month) }
{
    let ((day, month), text) = read_day_and_month(read_tag(text, b", ")?, b" ")?;
    let (year, text) = read_year(text)?;
    let (hour, minute, second) = read_time_in_gmt(read_tag(text, b" ")?)?;
    Some(DateTime {
        year,
        month,
        day,
        hour,
        minute,
        second,
    })
}

/// Parses an RFC 850 date without its day name, as `, 06-Nov-94 08:49:37 GMT`. The year is below 100.
/// `None` for any other text.
#[tactic(auto, unfolding(crate::specs::Reader::read_rfc850_date))]
pub fn read_rfc850_date(text: &[u8]) -> Option<DateTime>
    ensures value { result ≡ Dates.read_rfc850_date text.now }
    ensures bound { IfSome result (λ date. (date.year < 100) × IsInRange 1 12 date.month) }
{
    let ((day, month), text) = read_day_and_month(read_tag(text, b", ")?, b"-")?;
    let (year, text) = read_two_digits(text)?;
    let (hour, minute, second) = read_time_in_gmt(read_tag(text, b" ")?)?;
    Some(DateTime {
        year: year as u16,
        month,
        day,
        hour,
        minute,
        second,
    })
}

/// Parses an asctime date without its day name, as ` Nov  6 08:49:37 1994`. `None` for any other text.
#[tactic(auto, unfolding(crate::specs::Reader::read_asctime_date))]
pub fn read_asctime_date(text: &[u8]) -> Option<DateTime>
    ensures value { result ≡ Dates.read_asctime_date text.now }
    ensures bound { IfSome result (λ date. IsInRange 1 12 date.month) }
{
    let (month, text) = read_month_name(read_tag(text, b" ")?)?;
    let (day, text) = read_padded_day(read_tag(text, b" ")?)?;
    let ((hour, minute, second), text) = read_time(read_tag(text, b" ")?)?;
    let (year, text) = read_year(read_tag(text, b" ")?)?;
    if !text.is_empty() {
        return None;
    }
    Some(DateTime {
        year,
        month,
        day,
        hour,
        minute,
        second,
    })
}

// What follows the first three letters of the day's name. The next byte tells the forms apart.
#[tactic(auto, unfolding(crate::specs::Reader::read_form))]
fn read_form(weekday: u8, text: &[u8], now: u64) -> Option<DateTime>
    requires { IsInRange 1 7 weekday }
    ensures value { result ≡ Dates.read_form now weekday text.now }
    ensures bound { IfSome result (λ date. IsInRange 1 12 date.month) }
{
    match text.first() {
        Some(b',') => read_imf_fixdate(text),
        Some(b' ') => read_asctime_date(text),
        _ => read_rfc850_date(read_tag(text, names::day_name_rest(weekday))?)?.in_near_century(now),
    }
}

/// Parses a text as a date in one of the three formats. `None` for any other text, and for a date
/// that the calendar or the clock doesn't have. The day may have the name of another day. `now` is
/// the present, in seconds since 1970.
#[tactic(auto, unfolding(crate::specs::Reader::date_time))]
pub fn read_date_time(text: &[u8], now: u64) -> Option<DateTime>
    ensures value { result ≡ Dates.date_time now text.now }
    ensures bound { IfSome result (λ date. IsInRange 1 12 date.month) }
{
    let (weekday, text) = read_day_name(text)?;
    let date = read_form(weekday, text, now)?;
    if date.is_valid() { Some(date) } else { None }
}
