//! How a stored response answers the conditions of a client.
ghost use Rattle.std.specs.Prelude.{◌≡◌, IfOk, IsSomeAnd, MatchOption, None, OnErr};
ghost use Rattle.cache_policy.specs.Requests.{request_of};
ghost use Rattle.cache_rules.specs.Conditions.{IsStoredAnswer};
ghost use Rattle.cache_store.specs.{Contents.responses_at, Kept.contents_of, Numbers.numbered};

use crate::store::Store;
use cache_policy::RequestHead;
use cache_rules::{StoredAnswer, answer_conditions};
use std::alloc::{AllocError, Global};

impl Store {
    /// Decides how a stored response answers the conditions and the ranges of a request (RFC 9111,
    /// section 4.3.2), by `answer_conditions` of `cache_rules`. The number is that of
    /// `Serve` and `ServeAndRevalidate` of `lookup`, or of `Stored` of `freshen`, so the response
    /// may answer the request. `None` if it is no longer stored.
    ///
    /// `now` is the present, in seconds since 1970. `ranges` says whether ranges are answered.
    ///
    /// Fails only if an allocation fails, which is possible only for a stored 200.
    pub fn answer(
        &self,
        alloc: Global,
        target: &str,
        number: u64,
        request: &RequestHead<'_>,
        now: u64,
        ranges: bool,
    ) -> Result<Option<StoredAnswer>, AllocError>
        ensures answer { IfOk result (λ found. MatchOption found
            (numbered number (responses_at target.now (contents_of self.now)) ≡ None)
            (λ answer. IsSomeAnd (numbered number (responses_at target.now (contents_of self.now)))
            (λ stored. IsStoredAnswer now (request_of request.now) stored ranges answer))) }
        ensures memory { OnErr result (IsSomeAnd (numbered number (responses_at target.now (contents_of self.now)))
            (λ stored. stored.status ≡ 200)) }
    {
        match self.response(target, number) {
            Some(stored) => Ok(Some(answer_conditions(alloc, request, stored, now, ranges)?)),
            None => Ok(None),
        }
    }
}
