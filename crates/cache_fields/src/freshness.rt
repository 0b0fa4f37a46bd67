//! How long a response is fresh.
ghost use Rattle.std.{specs.Prelude.{◌≡◌, ◌-◌, MatchOption}, specs.Bool.MatchBool};
ghost use Rattle.headers_map.specs.LineMap.{lines_at};
ghost use Rattle.cache_fields.{specs.Fields.{capped, dated}, specs.Freshness.{ExpiresAfter, HasExpires}};
ghost use Rattle.cache_fields.specs.Freshness.{HasHeuristicBy, HasLifetimeBy, StatesAge, StatesNoAge, is_heuristic};

use crate::directives::Directives;
use crate::fields::date;
use crate::governing::Governing;
use crate::kind::Kind;
use http::StatusCode;
use http_header::{DATE, EXPIRES, HeaderMap, LAST_MODIFIED};
use rfc_fields::has_line;
use rfc_values::Timestamp;

/// How many seconds a response may be taken as fresh if its origin doesn't say so, by what governs it (RFC
/// 9111, section 4.2.2): a tenth of the time from its last modification to its Date. `None` if the origin
/// says so, if the status and the directives let no cache guess, or if no last modification is known.
/// `received` is when the response came, in seconds since 1970.
pub fn heuristic_by(
    by: &Governing,
    status: StatusCode,
    response: &HeaderMap,
    received: u64,
    kind: Kind,
) -> Option<u64>
    ensures { HasHeuristicBy kind status received by.now (lines_at response.now) result }
{
    if lifetime_by(by, response, received, kind).is_some() {
        return None;
    }
    if !is_heuristic(status) && !by.directives.public {
        return None;
    }
    match date(response, LAST_MODIFIED, received) {
        Some(modified) => Some(time_to_date(modified, response, received) / 10),
        None => None,
    }
}

/// Whether a status is heuristically cacheable (RFC 9110, section 15.1).
#[tactic(auto, unfolding(crate::specs::Freshness::is_heuristic))]
pub fn is_heuristic(status: StatusCode) -> bool
    ensures { result ≡ is_heuristic status }
{
    let codes = [200, 203, 204, 206, 300, 301, 308, 404, 405, 410, 414, 501];
    codes.contains(&status.as_u16())
}

/// How many seconds a response is fresh, if its origin says so, by what governs it (RFC 9111, section
/// 4.2.1): `s-maxage` in a shared cache, else `max-age`, else Expires less Date. `received` is when the
/// response came, in seconds since 1970.
pub fn lifetime_by(by: &Governing, response: &HeaderMap, received: u64, kind: Kind) -> Option<u64>
    ensures { HasLifetimeBy kind received by.now (lines_at response.now) result }
{
    match stated_age(&by.directives, kind) {
        Some(seconds) => Some(seconds),
        None => lifetime_by_expires(by.by_expires, response, received),
    }
}

// The age at which Cache-Control says that the response becomes stale.
fn stated_age(tells: &Directives, kind: Kind) -> Option<u64>
    ensures { MatchOption result (StatesNoAge kind tells.now) (StatesAge kind tells.now) }
{
    match kind {
        Kind::Shared => tells.s_max_age.or(tells.max_age),
        Kind::Private => tells.max_age,
    }
}

/// Whether Expires is there, and counts.
pub fn has_expires(counts: bool, response: &HeaderMap) -> bool
    ensures { MatchBool result (HasExpires counts (lines_at response.now))
        (¬ (HasExpires counts (lines_at response.now))) }
{
    counts && has_line(&response.get_all(EXPIRES))
}

// Expires less Date, if Expires is there and counts.
fn lifetime_by_expires(counts: bool, response: &HeaderMap, received: u64) -> Option<u64>
    ensures { MatchOption result (¬ (HasExpires counts (lines_at response.now)))
        (λ seconds. HasExpires counts (lines_at response.now)
        × ExpiresAfter received (lines_at response.now) seconds) }
{
    if !has_expires(counts, response) {
        return None;
    }
    match date(response, EXPIRES, received) {
        Some(expires) => Some(time_from_date(expires, response, received)),
        None => Some(0),
    }
}

// The seconds from the Date of a response to a later time.
fn time_from_date(later: Timestamp, response: &HeaderMap, received: u64) -> u64
    ensures { result ≡ later - dated received (lines_at response.now) }
{
    match date(response, DATE, received) {
        Some(made) => later.seconds_after(made),
        None => later.remaining_at(received),
    }
}

// The seconds from an earlier time to the Date of a response.
fn time_to_date(earlier: Timestamp, response: &HeaderMap, received: u64) -> u64
    ensures { result ≡ capped (dated received (lines_at response.now) - earlier) }
{
    match date(response, DATE, received) {
        Some(made) => made.seconds_after(earlier),
        None => earlier.age_at(received),
    }
}
