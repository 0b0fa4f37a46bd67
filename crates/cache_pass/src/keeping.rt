//! What is stored of what passed on.
ghost use Rattle.std.specs.Prelude.{◌≡◌};
ghost use Rattle.{cache_policy.specs.Requests.request_of, headers.specs.LineMap.lines_at, std.specs.Bool.MatchBool};
ghost use Rattle.{cache_rules.specs.Stored.made_at, cache_store.specs.History.History};
ghost use Rattle.cache_pass.specs.Effects.{DoAll, kept_of, settings_of};
ghost use Rattle.cache_pass.specs.Keeping.{AreDescribing, IsKept, IsLate, IsNewer, IsPast, IsWanted};

use crate::cache::Cache;
use cache_policy::{Kind, RequestHead, date, matches};
use cache_rules::{Exchange, Reception, StoredResponse, is_stored};
use headers::{HeaderMap, InsertError};
use http::{Method, StatusCode};
use http_header::{DATE, SET_COOKIE};
use rfc_fields::has_line;
use rfc_values::Timestamp;
use std::alloc::{AllocError, Global};

// When a response was made: its Date, or when it came if it has none that is valid.
fn made_at(response: &StoredResponse) -> Timestamp
    ensures { result ≡ made_at response.now }
{
    match date(&response.response, DATE, response.received) {
        Some(made) => made,
        None => Timestamp::from_unix_seconds(response.received),
    }
}

// Whether a stored response could answer the request of another one, and is more recent.
fn is_newer(stored: &StoredResponse, came: &StoredResponse) -> bool
    ensures { MatchBool result (IsNewer came.now stored.now) (¬ (IsNewer came.now stored.now)) }
{
    if !matches(&stored.heads(), &came.head()) {
        return false;
    }
    let (made, other) = (made_at(stored), made_at(came));
    other < made || (other == made && came.requested < stored.requested)
}

// Whether one of these stored responses is newer than that which came.
fn is_late(stored: &[StoredResponse], came: &StoredResponse) -> bool
    ensures { MatchBool result (IsLate stored.now came.now) (¬ (IsLate stored.now came.now)) }
{
    for one in stored {
        if is_newer(one, came) {
            return true;
        }
    }
    false
}

impl Cache {
    // Whether a response is to be stored once all of it has come. In a shared cache one that sets a cookie for its
    // client isn't.
    pub(crate) fn is_wanted(
        &self,
        request: &RequestHead<'_>,
        status: StatusCode,
        response: &HeaderMap,
    ) -> bool
        ensures { MatchBool result
            (IsWanted (settings_of self.now).policy (request_of request.now) status (lines_at response.now))
            (¬ (IsWanted (settings_of self.now).policy (request_of request.now) status (lines_at response.now))) }
    {
        let policy = self.store.policy();
        if policy.kind == Kind::Shared && has_line(&response.get_all(SET_COOKIE)) {
            return false;
        }
        is_stored(request, status, response, Reception::Complete, &policy)
    }

    // Updates stored responses to GET by a 200 to HEAD.
    fn describe(&mut self, alloc: Global, key: &str, came: &StoredResponse)
        ensures does { (calls : History) × AreDescribing (settings_of self.old) key.now came.now calls
            × DoAll (settings_of self.old) calls (kept_of self.old) (kept_of self.new) }
        ensures settings { settings_of self.new ≡ settings_of self.old }
    {
        if came.method == Method::HEAD && came.status.as_u16() == 200 {
            let exchange = Exchange {
                requested: came.requested,
                received: came.received,
            };
            let _error = self
                .store
                .freshen_by_head(alloc, key, &came.head(), &came.response, exchange);
        }
    }

    // Whether a response that was asked when the clock showed this comes too late to be stored.
    fn is_past(&self, key: &str, came: &StoredResponse, clock: u64) -> bool
        ensures { MatchBool result (IsPast key.now came.now clock (kept_of self.now))
            (¬ (IsPast key.now came.now clock (kept_of self.now))) }
    {
        self.removals.is_outdated(key, clock) || is_late(self.store.responses(key), came)
    }

    // Stores a complete response that was asked when the clock showed this, unless its target was removed
    // since, or a newer response is stored for its request.
    pub(crate) fn keep(
        &mut self,
        alloc: Global,
        key: &str,
        came: StoredResponse,
        clock: u64,
    ) -> Result<Option<u64>, AllocError>
        ensures kept { (calls : History)
            × IsKept (settings_of self.old) key.now came clock (kept_of self.old) (kept_of self.new) calls result }
        ensures settings { settings_of self.new ≡ settings_of self.old }
    {
        if self.is_past(key, &came, clock) {
            return Ok(None);
        }
        self.describe(alloc, key, &came);
        match self.store.store(alloc, key, came, Reception::Complete) {
            Ok(number) => Ok(number),
            Err(InsertError::Full) => Ok(None),
            Err(InsertError::Memory) => Err(AllocError),
        }
    }
}
