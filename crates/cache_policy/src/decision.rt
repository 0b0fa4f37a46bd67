//! What a cache does with a request, by one stored response.
ghost use Rattle.std.specs.{Prelude.◌≡◌, Prelude.◌≤◌, Prelude.IfSome, Bool.MatchBool};
ghost use Rattle.headers.specs.LineMap.{lines_at};
ghost use Rattle.cache_policy.specs.Decisions.{Answers, AnswersUnstored, Decides, DecidesBy, counted, IsNotRefused};
ghost use Rattle.cache_policy.specs.Decisions.{IsServable, IsGoodEnough, IsUsable, IsWanted, staleness};
ghost use Rattle.cache_policy.specs.Decisions.{MayServeMeanwhile, MayServeOnError, MayServeStale, MustBeFresh};
ghost use Rattle.cache_policy.specs.Policies.{DecidesByUnder, DecidesMatchedUnder, DecidesUnder, policy_of};
ghost use Rattle.cache_policy.specs.Requests.{request_of};
ghost use Rattle.cache_fields.specs.Directives.{directed};

use crate::policy::Policy;
use crate::request::is_safe;
use crate::stored::StoredHeads;
use crate::vary::matches;
use cache_fields::{Directives, Kind, Times, current_age, lifetime_by, read_directives};
use headers::HeaderMap;
use rfc_fields::RequestHead;

/// What a cache does with a request that a stored response may answer.
#[derive(Clone, Copy, Debug, PartialEq, Eq)]
pub enum Decision {
    /// Serve the stored response, which is fresh.
    Serve,
    /// Serve the stored response, which is stale, and revalidate it after that
    /// (`stale-while-revalidate`).
    ServeAndRevalidate,
    /// Serve the stored response, which is stale, and which the request accepts (`max-stale`).
    ServeStale,
    /// Ask the origin whether the stored response is still good.
    Revalidate,
    /// Ask the origin; if it can't be reached or responds with 500, 502, 503 or 504, the stored
    /// response may be served (`stale-if-error`).
    RevalidateOrServe,
    /// Respond with 504: the stored response isn't good enough, and the request forbids to ask the
    /// origin (`only-if-cached`).
    Unavailable,
    /// Forward the request: no stored response matches it, or its method isn't safe.
    Fetch,
}

/// The lifetime and the age of a stored response, in seconds.
#[derive(Clone, Copy, Debug, PartialEq, Eq)]
pub struct Freshness {
    /// The age up to which the response is fresh.
    pub lifetime: u64,
    /// The current age of the response.
    pub age: u64,
}

/// Decides what a cache does with a request, by a response stored under the same URI (RFC 9111,
/// section 4). It uses the lifetime that the origin states. If the stored method or Vary keeps the
/// response from answering the new request, the result is that of `decide_unstored`.
///
/// Without a stated lifetime the response isn't fresh: to guess one, see `heuristic_lifetime` and
/// `decide_by`.
pub fn decide(
    stored: &StoredHeads<'_>,
    request: &RequestHead<'_>,
    times: Times,
    kind: Kind,
) -> Decision
    ensures { Decides kind (request_of stored.now.request) (request_of request.now)
        (lines_at stored.now.response.now) times result }
{
    let policy = Policy {
        kind,
        immutable: false,
        targets: &[],
    };
    policy.decide(stored, request, times)
}

/// Decides what a cache does with a request, as `decide` does, by a given lifetime and age.
pub fn decide_by(
    stored: &StoredHeads<'_>,
    request: &RequestHead<'_>,
    freshness: Freshness,
    kind: Kind,
) -> Decision
    ensures { DecidesBy kind (request_of stored.now.request) (request_of request.now)
        (lines_at stored.now.response.now) freshness result }
{
    let policy = Policy {
        kind,
        immutable: false,
        targets: &[],
    };
    policy.decide_by(stored, request, freshness)
}

impl Policy<'_> {
    /// Decides what a cache does with a request, by a response stored under the same URI and this
    /// policy.
    pub fn decide(
        &self,
        stored: &StoredHeads<'_>,
        request: &RequestHead<'_>,
        times: Times,
    ) -> Decision
        ensures { DecidesUnder (policy_of self.now) (request_of stored.now.request) (request_of request.now)
            (lines_at stored.now.response.now) times result }
    {
        if matches(stored, request) {
            self.decide_matched(request.fields, stored.response, times)
        } else {
            decide_unstored(request)
        }
    }

    /// Decides what a cache does with a request by this policy, and by a given lifetime and age.
    pub fn decide_by(
        &self,
        stored: &StoredHeads<'_>,
        request: &RequestHead<'_>,
        freshness: Freshness,
    ) -> Decision
        ensures { DecidesByUnder (policy_of self.now) (request_of stored.now.request) (request_of request.now)
            (lines_at stored.now.response.now) freshness result }
    {
        if matches(stored, request) {
            let tells = self.read_governing(stored.response).directives;
            self.decide_by_directives(request.fields, &tells, freshness)
        } else {
            decide_unstored(request)
        }
    }

    // What is done with a request that the response suits.
    fn decide_matched(&self, request: &HeaderMap, response: &HeaderMap, times: Times) -> Decision
        ensures { DecidesMatchedUnder (policy_of self.now) (lines_at request.now) (lines_at response.now) times result }
    {
        let by = self.read_governing(response);
        let stated = lifetime_by(&by, response, times.response, self.kind);
        let freshness = Freshness {
            lifetime: stated.unwrap_or(0),
            age: current_age(response, times),
        };
        self.decide_by_directives(request, &by.directives, freshness)
    }

    /// Decides what a cache does with a request that a stored response matches, by this policy, by the
    /// directives that govern the response, and by a given lifetime and age. It parses Cache-Control of
    /// the request alone; `decide_by` also tests whether the response matches, and parses its directives.
    pub fn decide_by_directives(
        &self,
        request: &HeaderMap,
        tells: &Directives,
        freshness: Freshness,
    ) -> Decision
        ensures { Answers self.now.kind
            (counted self.now.immutable (directed (lines_at request.now)) tells.now freshness) tells.now freshness
            result }
    {
        let asks = counted(self.immutable, read_directives(request), tells, freshness);
        answer(&asks, tells, freshness, self.kind)
    }
}

// What counts of a request for a response that directs this.
fn counted(
    immutable: bool,
    asks: Directives,
    tells: &Directives,
    freshness: Freshness,
) -> Directives
    ensures { result ≡ counted immutable asks tells.now freshness }
{
    if immutable && tells.immutable && freshness.age < freshness.lifetime {
        Directives {
            max_age: None,
            ..asks
        }
    } else {
        asks
    }
}

/// Decides what a cache does with a request that no stored response matches: `Fetch`, or
/// `Unavailable` if the request has `only-if-cached` (RFC 9111, section 5.2.1.7). A request whose
/// method isn't safe is written through to the origin in any case (section 4).
pub fn decide_unstored(request: &RequestHead<'_>) -> Decision
    ensures { AnswersUnstored (request_of request.now) result }
{
    if is_safe(request.method) && read_directives(request.fields).only_if_cached {
        Decision::Unavailable
    } else {
        Decision::Fetch
    }
}

fn answer(asks: &Directives, tells: &Directives, freshness: Freshness, kind: Kind) -> Decision
    ensures { Answers kind asks.now tells.now freshness result }
{
    if is_servable(asks, tells, freshness) {
        if freshness.age < freshness.lifetime {
            return Decision::Serve;
        }
        if may_serve_meanwhile(asks, tells, freshness, kind) {
            return Decision::ServeAndRevalidate;
        }
        if may_serve_stale(asks, tells, freshness, kind) {
            return Decision::ServeStale;
        }
    }
    unserved(asks, tells, freshness, kind)
}

// The answer if the stored response isn't good enough.
fn unserved(asks: &Directives, tells: &Directives, freshness: Freshness, kind: Kind) -> Decision
    requires { ¬ (IsGoodEnough kind asks.now tells.now freshness) }
    ensures { Answers kind asks.now tells.now freshness result }
{
    if asks.only_if_cached {
        Decision::Unavailable
    } else if may_serve_on_error(asks, tells, freshness, kind) {
        Decision::RevalidateOrServe
    } else {
        Decision::Revalidate
    }
}

// Whether neither request nor response wants the origin to be asked in any case.
fn is_usable(asks: &Directives, tells: &Directives) -> bool
    ensures { MatchBool result (IsUsable asks.now tells.now) (¬ (IsUsable asks.now tells.now)) }
{
    !asks.no_cache && !tells.no_cache
}

// Whether the response may be used without asking, as far as it is not stale.
fn is_servable(asks: &Directives, tells: &Directives, freshness: Freshness) -> bool
    ensures { MatchBool result (IsServable asks.now tells.now freshness)
        (¬ (IsServable asks.now tells.now freshness)) }
{
    is_usable(asks, tells) && is_wanted(asks, freshness)
}

// Whether the request takes a response of this age that stays fresh for so long.
fn is_wanted(asks: &Directives, freshness: Freshness) -> bool
    ensures { MatchBool result (IsWanted asks.now freshness) (¬ (IsWanted asks.now freshness)) }
{
    let Freshness { lifetime, age } = freshness;
    let is_young = match asks.max_age {
        Some(limit) => age <= limit,
        None => true,
    };
    let stays_fresh = match asks.min_fresh {
        Some(least) => age <= lifetime && least <= lifetime - age,
        None => true,
    };
    is_young && stays_fresh
}

// For how long the response has been stale.
fn staleness(freshness: Freshness) -> u64
    ensures { result ≡ staleness freshness }
{
    freshness.age.saturating_sub(freshness.lifetime)
}

// Whether the response may be served while it is revalidated.
fn may_serve_meanwhile(
    asks: &Directives,
    tells: &Directives,
    freshness: Freshness,
    kind: Kind,
) -> bool
    ensures { MatchBool result (MayServeMeanwhile kind asks.now tells.now freshness)
        (¬ (MayServeMeanwhile kind asks.now tells.now freshness)) }
{
    let Some(limit) = tells.stale_while_revalidate else {
        return false;
    };
    staleness(freshness) <= limit && is_not_refused(asks, freshness) && !must_be_fresh(tells, kind)
}

// Whether the request says nothing against a response that is stale for so long.
fn is_not_refused(asks: &Directives, freshness: Freshness) -> bool
    ensures { MatchBool result (IsNotRefused asks.now freshness) (¬ (IsNotRefused asks.now freshness)) }
{
    match asks.max_stale {
        Some(limit) => staleness(freshness) <= limit,
        None => asks.max_age.is_none(),
    }
}

// Whether the response may be served though it is stale.
fn may_serve_stale(asks: &Directives, tells: &Directives, freshness: Freshness, kind: Kind) -> bool
    ensures { MatchBool result (MayServeStale kind asks.now tells.now freshness)
        (¬ (MayServeStale kind asks.now tells.now freshness)) }
{
    let Some(limit) = asks.max_stale else {
        return false;
    };
    staleness(freshness) <= limit && !must_be_fresh(tells, kind)
}

// Whether the response may be served if the origin fails.
fn may_serve_on_error(
    asks: &Directives,
    tells: &Directives,
    freshness: Freshness,
    kind: Kind,
) -> bool
    ensures { MatchBool result (MayServeOnError kind asks.now tells.now freshness)
        (¬ (MayServeOnError kind asks.now tells.now freshness)) }
{
    is_usable(asks, tells)
        && !must_be_fresh(tells, kind)
        && (asks.stale_if_error.is_some() || tells.stale_if_error.is_some())
        && is_within(asks.stale_if_error, freshness)
        && is_within(tells.stale_if_error, freshness)
}

// Whether the response isn't stale for longer than a limit, if there is one.
fn is_within(limit: Option<u64>, freshness: Freshness) -> bool
    ensures { MatchBool result (IfSome limit (λ most. staleness freshness ≤ most))
        (¬ (IfSome limit (λ most. staleness freshness ≤ most))) }
{
    match limit {
        Some(most) => staleness(freshness) <= most,
        None => true,
    }
}

// Whether the response forbids that it is served stale.
fn must_be_fresh(tells: &Directives, kind: Kind) -> bool
    ensures { MatchBool result (MustBeFresh kind tells.now) (¬ (MustBeFresh kind tells.now)) }
{
    tells.must_revalidate
        || (kind == Kind::Shared && (tells.s_max_age.is_some() || tells.proxy_revalidate))
}
