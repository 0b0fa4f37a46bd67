//! What a request gets first.
ghost use Rattle.{cache_policy.specs.Requests.request_of, cache_store.specs.{History.Call.Looked, Numbers.numbered}};
ghost use Rattle.{cache_pass.specs.Replies.{IsAlone, IsFirstOf, IsReplyTo}, cache_rules.specs.Conditions.IsForCache};
ghost use Rattle.cache_pass.specs.Effects.{Does, kept_of, settings_of, stored_at};
ghost use Rattle.std.specs.Prelude.{◌≡◌, ◌⊎◌, IfOk, IsSomeAnd, MatchOption, None};

use crate::cache::Cache;
use cache_policy::{Decision, RequestHead, decide_unstored};
use cache_rules::{StoredAnswer, StoredResponse, age_field, answer_conditions, is_for_cache};
use cache_store::{Lookup, LookupTimes};
use headers::Encoded;
use std::alloc::{AllocError, Global};

/// The client gets a stored response.
#[derive(Debug, Drop)]
pub struct Reply {
    /// Its number, by which the store returns it while the cache is held.
    pub number: u64,
    /// Its field Age, in place of its own.
    pub age: Encoded,
    /// How it answers the client's own conditions and ranges; never `Forward`.
    pub answer: StoredAnswer,
}

/// What is done with a request first.
#[derive(Debug, Drop)]
pub enum First {
    /// Send this stored response.
    Reply(Reply),
    /// Send this stored response, and then validate it by a pass of its own.
    ReplyAndValidate(Reply),
    /// Ask the origin by the request as it is.
    Ask,
    /// Ask the origin by the request with these fields, by `set_all`.
    Validate(Vec<Encoded>),
    /// Send 504: the request forbids to ask the origin (RFC 9111, section 5.2.1.7).
    Unavailable,
}

// How a stored response answers a request that a cache evaluates.
fn reply_by(
    alloc: Global,
    stored: &StoredResponse,
    request: &RequestHead<'_>,
    now: u64,
) -> Result<Reply, AllocError>
    ensures { IfOk result (IsReplyTo (request_of request.now) now stored.now) }
{
    Ok(Reply {
        number: stored.number,
        age: age_field(alloc, &stored.response, stored.times(now))?,
        answer: answer_conditions(alloc, request, stored, now, true)?,
    })
}

// What is done with a request that no stored response answers.
fn unstored(request: &RequestHead<'_>) -> First
    ensures { IsAlone (request_of request.now) result }
{
    match decide_unstored(request) {
        Decision::Unavailable => First::Unavailable,
        _ => First::Ask,
    }
}

impl Cache {
    // The reply by the response with a number, if it is still stored, and the request is one that a cache
    // evaluates.
    pub(crate) fn reply(
        &self,
        alloc: Global,
        key: &str,
        request: &RequestHead<'_>,
        number: u64,
        now: u64,
    ) -> Result<Option<Reply>, AllocError>
        ensures { IfOk result (λ found. MatchOption found
            ((numbered number (stored_at key.now self.now) ≡ None) ⊎ (¬ (IsForCache (request_of request.now))))
            (λ reply. IsForCache (request_of request.now) × IsSomeAnd (numbered number (stored_at key.now self.now))
            (λ stored. IsReplyTo (request_of request.now) now stored reply))) }
    {
        if !is_for_cache(request) {
            return Ok(None);
        }
        match self.store.response(key, number) {
            Some(stored) => Ok(Some(reply_by(alloc, stored, request, now)?)),
            None => Ok(None),
        }
    }

    // What is done with a request first.
    pub(crate) fn first(
        &mut self,
        alloc: Global,
        key: &str,
        request: &RequestHead<'_>,
        now: u64,
    ) -> Result<First, AllocError>
        ensures first { IsFirstOf (settings_of self.old) (request_of request.now) now (stored_at key.now self.new)
            result }
        ensures does { Does (settings_of self.old) (Looked key.now) (kept_of self.old) (kept_of self.new) }
        ensures settings { settings_of self.new ≡ settings_of self.old }
    {
        let times = LookupTimes {
            now,
            longest_guess: self.guess,
        };
        match self.store.lookup_guessing(alloc, key, request, times)? {
            Lookup::Serve(number, _) => {
                match self.reply(alloc, key, request, number, now)? {
                    Some(reply) => Ok(First::Reply(reply)),
                    None => Ok(unstored(request)),
                }
            }
            Lookup::ServeAndRevalidate(number, _) => {
                match self.reply(alloc, key, request, number, now)? {
                    Some(reply) => Ok(First::ReplyAndValidate(reply)),
                    None => Ok(unstored(request)),
                }
            }
            Lookup::Validate(_, fields) | Lookup::ValidateOrServe(_, fields)
                if is_for_cache(request) => { Ok(First::Validate(fields)) }
            Lookup::Unavailable => Ok(First::Unavailable),
            _ => Ok(unstored(request)),
        }
    }
}
