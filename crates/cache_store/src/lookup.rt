//! The answer of a store to a request.
ghost use Rattle.std.specs.Prelude.{◌≡◌, ◌≢◌, ◌≤◌, IfOk, OnErr, option_copied, ℕ};
ghost use Rattle.headers.specs.LineMap.{lines_at};
ghost use Rattle.cache_policy.specs.{Age.age_at, Fields.capped, Policies.policy_of, Requests.request_of};
ghost use Rattle.cache_rules.specs.Stored.{fields_of_stored, times_of};
ghost use Rattle.cache_store.specs.{Contents.{responses_at, used}, History.{Call.Looked, GoOn, Step}, Kept.contents_of};
ghost use Rattle.cache_store.specs.{Kept.policy_of_store, Numbers.{numbered, times_in}, Lookups.{HasFields, IsAnswer}};
ghost use Rattle.cache_store.specs.Lookups.{IsDecisionOf, IsFreshBy, IsLookupOf};
ghost use Rattle.cache_policy.specs.declared.decision.Decision.TheVariants as decisions;

use crate::store::Store;
use cache_policy::{
    Decision, Freshness, Governing, Kind, Policy, RequestHead, current_age, decide_unstored,
    heuristic_by, lifetime_by, validation_fields,
};
use cache_rules::{StoredResponse, age_field_of, select};
use headers::{Encoded, HeaderMap};
use std::alloc::{AllocError, Global};

/// What a cache does with a request. A number names a stored response: `Store::response` returns it as
/// it is, or `None` once it is no longer stored. No other response ever has that number.
#[derive(Debug, Drop)]
pub enum Lookup {
    /// Serve the stored response with the number, with this field Age instead of its own. It is fresh,
    /// or the request accepts it stale (`max-stale`).
    Serve(u64, Encoded),
    /// Serve the stored response with the number, with this field Age, and then ask the origin whether
    /// it is still good (`stale-while-revalidate`).
    ServeAndRevalidate(u64, Encoded),
    /// Ask the origin whether the stored response with the number is still good: forward the
    /// request with these fields, by `set_all`.
    Validate(u64, Vec<Encoded>),
    /// Ask the origin as for `Validate`; if it can't be reached or responds with 500, 502, 503 or
    /// 504, the stored response may be served (`stale-if-error`).
    ValidateOrServe(u64, Vec<Encoded>),
    /// Respond with 504: no stored response is good enough, and the request forbids to ask the
    /// origin (`only-if-cached`).
    Unavailable,
    /// Forward the request as it is.
    Forward,
}

/// When a lookup is made, and how long it guesses that a response is fresh.
#[derive(Clone, Copy, Debug, PartialEq, Eq)]
pub struct LookupTimes {
    /// The present, in seconds since 1970.
    pub now: u64,
    /// The longest lifetime in seconds that is guessed if the origin states none, or 0 for no guess: a
    /// day is 86,400.
    pub longest_guess: u64,
}

// What is done with a request that the stored response is selected for, which has this age.
fn found(
    alloc: Global,
    stored: &StoredResponse,
    decision: Decision,
    age: u64,
) -> Result<Lookup, AllocError>
    ensures answer { IfOk result (λ lookup. IsLookupOf stored.now age decision lookup) }
    ensures memory { OnErr result (decision ≢ decisions.Unavailable) }
{
    let number = stored.number;
    Ok(match decision {
        Decision::Serve | Decision::ServeStale => Lookup::Serve(number, age_field_of(alloc, age)?),
        Decision::ServeAndRevalidate => {
            Lookup::ServeAndRevalidate(number, age_field_of(alloc, age)?)
        }
        Decision::Revalidate => {
            Lookup::Validate(
                number,
                validation_fields(alloc, &stored.response, stored.received)?,
            )
        }
        Decision::RevalidateOrServe => {
            Lookup::ValidateOrServe(
                number,
                validation_fields(alloc, &stored.response, stored.received)?,
            )
        }
        Decision::Unavailable => Lookup::Unavailable,
        Decision::Fetch => Lookup::Forward,
    })
}

// How many seconds a stored response is fresh by what governs it, if at most so many are guessed.
fn lifetime_of(stored: &StoredResponse, by: &Governing, kind: Kind, most: u64) -> u64
    ensures { IsFreshBy kind by.now most stored.now result }
{
    match lifetime_by(by, &stored.response, stored.received, kind) {
        Some(seconds) => seconds,
        None => {
            let guess = heuristic_by(by, stored.status, &stored.response, stored.received, kind);
            guess.unwrap_or(0).min(most)
        }
    }
}

// What is done with a request by a stored response of this age that suits it.
fn decision_for(
    stored: &StoredResponse,
    request: &HeaderMap,
    age: u64,
    policy: &Policy<'_>,
    most: u64,
) -> Decision
    ensures { IsDecisionOf (policy_of policy.now) most (lines_at request.now) age stored.now result }
{
    let by = policy.read_governing(&stored.response);
    let freshness = Freshness {
        lifetime: lifetime_of(stored, &by, policy.kind, most),
        age,
    };
    policy.decide_by_directives(request, &by.directives, freshness)
}

// How old a stored response is.
fn age_of(stored: &StoredResponse, now: u64) -> u64
    ensures { result ≡ capped (age_at (times_of stored.now now) (fields_of_stored stored.now)) }
{
    current_age(&stored.response, stored.times(now))
}

// What is done with a request to a target under which these responses are stored.
pub(crate) fn answer(
    alloc: Global,
    responses: &[StoredResponse],
    request: &RequestHead<'_>,
    now: u64,
    policy: &Policy<'_>,
    most: u64,
) -> Result<Lookup, AllocError>
    requires { (number : ℕ) → times_in number responses.now ≤ 1 }
    ensures answer { IfOk result (IsAnswer (policy_of policy.now) most (request_of request.now) now responses.now) }
    ensures memory { OnErr result
        (HasFields (policy_of policy.now) most (request_of request.now) now responses.now) }
{
    match select(responses, request) {
        Some(place) => {
            let stored = &responses[place];
            let age = age_of(stored, now);
            let decision = decision_for(stored, request.fields, age, policy, most);
            found(alloc, stored, decision, age)
        }
        None => match decide_unstored(request) {
            Decision::Unavailable => Ok(Lookup::Unavailable),
            _ => Ok(Lookup::Forward),
        },
    }
}

// The response with a number, if one of these has it.
fn numbered(responses: &[StoredResponse], number: u64) -> Option<&StoredResponse>
    ensures { option_copied result ≡ numbered number responses.now }
{
    responses.iter().find(|stored| stored.number == number)
}

impl Store {
    /// Decides what a cache does with a request (RFC 9111, section 4), without guessing a lifetime.
    /// The target becomes the most recently used. `now` is the present, in seconds since 1970. A
    /// response whose origin states no lifetime is stale at once.
    ///
    /// Fails only if an allocation fails, which is possible only if a stored response is selected.
    pub fn lookup(
        &mut self,
        alloc: Global,
        target: &str,
        request: &RequestHead<'_>,
        now: u64,
    ) -> Result<Lookup, AllocError>
        ensures answer { IfOk result (IsAnswer (policy_of_store self.old) 0 (request_of request.now) now
            (responses_at target.now (contents_of self.new))) }
        ensures memory { OnErr result (HasFields (policy_of_store self.old) 0 (request_of request.now) now
            (responses_at target.now (contents_of self.new))) }
        ensures step { Step (policy_of_store self.old) self.old.limits (Looked target.now) (contents_of self.old)
            (contents_of self.new) }
        ensures contents { contents_of self.new ≡ used target.now (contents_of self.old) }
        ensures policy { policy_of_store self.new ≡ policy_of_store self.old }
        ensures numbers { GoOn self.old.next (contents_of self.old) self.new.next (contents_of self.new) }
        ensures limits { self.new.limits ≡ self.old.limits }
    {
        let times = LookupTimes {
            now,
            longest_guess: 0,
        };
        self.lookup_guessing(alloc, target, request, times)
    }

    /// Decides what a cache does with a request (RFC 9111, section 4), and may guess a lifetime. If
    /// the origin states none, a tenth of the time from the last modification to the response is
    /// guessed, but no more than `times` allow (section 4.2.2). A guess needs a status that is
    /// heuristically cacheable, or `public`. The rest is as for `lookup`.
    pub fn lookup_guessing(
        &mut self,
        alloc: Global,
        target: &str,
        request: &RequestHead<'_>,
        times: LookupTimes,
    ) -> Result<Lookup, AllocError>
        ensures answer { IfOk result (IsAnswer (policy_of_store self.old) times.longest_guess (request_of request.now)
            times.now (responses_at target.now (contents_of self.new))) }
        ensures memory { OnErr result (HasFields (policy_of_store self.old) times.longest_guess
            (request_of request.now) times.now (responses_at target.now (contents_of self.new))) }
        ensures step { Step (policy_of_store self.old) self.old.limits (Looked target.now) (contents_of self.old)
            (contents_of self.new) }
        ensures contents { contents_of self.new ≡ used target.now (contents_of self.old) }
        ensures policy { policy_of_store self.new ≡ policy_of_store self.old }
        ensures numbers { GoOn self.old.next (contents_of self.old) self.new.next (contents_of self.new) }
        ensures limits { self.new.limits ≡ self.old.limits }
    {
        self.touch(target);
        answer(
            alloc,
            self.responses(target),
            request,
            times.now,
            &self.policy(),
            times.longest_guess,
        )
    }

    /// Returns the responses that are stored under a target, in the order in which they were
    /// stored.
    pub fn responses(&self, target: &str) -> &[StoredResponse]
        ensures { result.now ≡ responses_at target.now (contents_of self.now) }
    {
        // The most recently used target needs no search.
        match self.targets.peek_mru() {
            Some((key, responses)) if target == key.as_str() => responses.as_slice(),
            _ => self.responses_by_key(target),
        }
    }

    // The same for each target, by a search.
    fn responses_by_key(&self, target: &str) -> &[StoredResponse]
        ensures { result.now ≡ responses_at target.now (contents_of self.now) }
    {
        match self.targets.peek(target) {
            Some(responses) => responses.as_slice(),
            None => &[],
        }
    }

    /// Returns the response that is stored under a target with this number. `None` if it is no longer
    /// stored, or never was.
    pub fn response(&self, target: &str, number: u64) -> Option<&StoredResponse>
        ensures { option_copied result ≡ numbered number (responses_at target.now (contents_of self.now)) }
    {
        numbered(self.responses(target), number)
    }

    // Makes a target the most recently used.
    fn touch(&mut self, target: &str)
        ensures contents { contents_of self.new ≡ used target.now (contents_of self.old) }
        ensures policy { policy_of_store self.new ≡ policy_of_store self.old }
        ensures limits { self.new.limits ≡ self.old.limits }
        ensures next { self.new.next ≡ self.old.next }
    {
        // Shows that no target is there twice.
        let _targets = self.targets.len();
        self.targets.promote(target);
    }
}
