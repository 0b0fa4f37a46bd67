//! What a cache does with a response of the origin.
ghost use Rattle.std.specs.Prelude.{◌≡◌, map};
ghost use Rattle.{headers.specs.LineMap.lines_at, std.specs.Bool.MatchBool, url.specs.Parts.serialize};
ghost use Rattle.{cache_policy.specs.Requests.request_of, cache_store.specs.History.{Call.Looked, History}};
ghost use Rattle.cache_pass.specs.Effects.{DoAll, Does, kept_of, removals, settings_of};
ghost use Rattle.cache_pass.specs.Origin.{IsFailing, IsInvalidation, IsNext, IsValidation};

use crate::cache::Cache;
use crate::pass::Asked;
use crate::revalidating::Next;
use cache_policy::{Decision, RequestHead};
use cache_rules::{Exchange, invalidates, serves_on_error};
use cache_store::named_targets;
use headers::HeaderMap;
use http::{Method, StatusCode};
use std::alloc::{AllocError, Global};
use url::Url;

// Whether a response says that what a request asked about is still good.
fn is_validation(asked: Asked, status: StatusCode) -> bool
    ensures { MatchBool result (IsValidation asked status) (¬ (IsValidation asked status)) }
{
    asked.validates && status.as_u16() == 304
}

impl Cache {
    // Removes targets.
    fn remove_all(&mut self, alloc: Global, urls: &[Url])
        ensures does { DoAll (settings_of self.old) (removals (map serialize urls.now)) (kept_of self.old)
            (kept_of self.new) }
        ensures settings { settings_of self.new ≡ settings_of self.old }
    {
        for url in urls {
            self.remove(alloc, url.as_str());
        }
    }

    // Removes what a response invalidates: the target, and those of the same origin that the response names.
    // Without memory for these it removes only the target.
    fn invalidate(
        &mut self,
        alloc: Global,
        key: &str,
        method: &Method,
        status: StatusCode,
        response: &HeaderMap,
    )
        ensures does { (calls : History) × IsInvalidation key.now method.now status (lines_at response.now) calls
            × DoAll (settings_of self.old) calls (kept_of self.old) (kept_of self.new) }
        ensures settings { settings_of self.new ≡ settings_of self.old }
    {
        if !invalidates(method, status) {
            return;
        }
        self.remove(alloc, key);
        if let Ok(urls) = named_targets(alloc, key, response) {
            self.remove_all(alloc, &urls);
        }
    }

    // What is done with a response that says that the origin failed.
    fn failing(
        &mut self,
        alloc: Global,
        key: &str,
        request: &RequestHead<'_>,
        status: StatusCode,
        response: &HeaderMap,
        now: u64,
    ) -> Result<Next, AllocError>
        ensures next { IsFailing (settings_of self.old) key.now (request_of request.now) status (lines_at response.now)
            now (kept_of self.new) result }
        ensures does { Does (settings_of self.old) (Looked key.now) (kept_of self.old) (kept_of self.new) }
        ensures settings { settings_of self.new ≡ settings_of self.old }
    {
        match self.on_error(alloc, key, request, now)? {
            Some(reply) => Ok(Next::Reply(reply)),
            None => Ok(Next::PassOn(self.is_wanted(request, status, response))),
        }
    }

    // What is done with a response to a request that was asked so.
    pub(crate) fn next(
        &mut self,
        alloc: Global,
        key: &str,
        request: &RequestHead<'_>,
        asked: Asked,
        status: StatusCode,
        response: &HeaderMap,
        now: u64,
    ) -> Result<Next, AllocError>
        ensures next { (calls : History) × IsNext (settings_of self.old) key.now (request_of request.now) asked status
            (lines_at response.now) now (kept_of self.old) (kept_of self.new) calls result
            × DoAll (settings_of self.old) calls (kept_of self.old) (kept_of self.new) }
        ensures settings { settings_of self.new ≡ settings_of self.old }
    {
        if is_validation(asked, status) {
            if self.removals.is_outdated(key, asked.clock) {
                return Ok(Next::Ask);
            }
            let exchange = Exchange {
                requested: asked.requested,
                received: now,
            };
            return self.revalidated(alloc, key, request, response, exchange);
        }
        if serves_on_error(Decision::RevalidateOrServe, Some(status)) {
            return self.failing(alloc, key, request, status, response, now);
        }
        self.invalidate(alloc, key, request.method, status, response);
        Ok(Next::PassOn(self.is_wanted(request, status, response)))
    }
}
