//! How long a response is fresh.
ghost use Rattle.headers.specs.LineMap.{lines_at};
ghost use Rattle.cache_fields.specs.Freshness.{HasHeuristic, HasLifetime};
ghost use Rattle.cache_policy.specs.Policies.{HasHeuristicUnder, HasLifetimeUnder, policy_of};

use crate::policy::Policy;
use cache_fields::{Kind, heuristic_by, lifetime_by};
use headers::HeaderMap;
use http::StatusCode;

/// Returns the lifetime that the origin states, in seconds (RFC 9111, section 4.2.1): `s-maxage` in
/// a shared cache, else `max-age`, else Expires less Date. An Expires that isn't one valid date
/// means that the response is stale. `None` if the origin states no lifetime.
///
/// `received` is when the response was received, in seconds since 1970: it replaces a missing or
/// invalid Date, and decides years of two digits.
pub fn lifetime(response: &HeaderMap, received: u64, kind: Kind) -> Option<u64>
    ensures { HasLifetime kind received (lines_at response.now) result }
{
    let policy = Policy {
        kind,
        immutable: false,
        targets: &[],
    };
    policy.lifetime(response, received)
}

/// Returns a guess of the lifetime, in seconds: a tenth of the time from the last modification to
/// Date (RFC 9111, section 4.2.2). `None` if the origin states a lifetime, if the status and
/// Cache-Control don't allow a guess, or if no last modification is known.
pub fn heuristic_lifetime(
    status: StatusCode,
    response: &HeaderMap,
    received: u64,
    kind: Kind,
) -> Option<u64>
    ensures { HasHeuristic kind status received (lines_at response.now) result }
{
    let policy = Policy {
        kind,
        immutable: false,
        targets: &[],
    };
    policy.heuristic_lifetime(status, response, received)
}

impl Policy<'_> {
    /// Returns the lifetime that the origin states, in seconds, by this policy; see the function
    /// `lifetime`.
    pub fn lifetime(&self, response: &HeaderMap, received: u64) -> Option<u64>
        ensures { HasLifetimeUnder (policy_of self.now) received (lines_at response.now) result }
    {
        lifetime_by(
            &self.read_governing(response),
            response,
            received,
            self.kind,
        )
    }

    /// Returns a guess of the lifetime, in seconds, by this policy; see the function
    /// `heuristic_lifetime`.
    pub fn heuristic_lifetime(
        &self,
        status: StatusCode,
        response: &HeaderMap,
        received: u64,
    ) -> Option<u64>
        ensures { HasHeuristicUnder (policy_of self.now) status received (lines_at response.now) result }
    {
        heuristic_by(
            &self.read_governing(response),
            status,
            response,
            received,
            self.kind,
        )
    }
}
