//! What a request gets after the origin has answered.
ghost use Rattle.std.specs.Prelude.{◌≡◌};
ghost use Rattle.headers.specs.LineMap.{lines_at};
ghost use Rattle.{cache_policy.specs.Requests.request_of, cache_store.specs.History.Call.Validated};
ghost use Rattle.cache_pass.specs.{Answers.IsRevalidated, Effects.{Does, kept_of, settings_of}};

use crate::cache::Cache;
use crate::replying::Reply;
use cache_policy::RequestHead;
use cache_rules::{Exchange, StoredAnswer, StoredResponse, answer_conditions};
use cache_store::Refreshed;
use headers::HeaderMap;
use std::alloc::{AllocError, Global};

/// What is done with a request after the origin has answered it.
#[derive(Debug, Drop)]
pub enum Next {
    /// Send this stored response.
    Reply(Reply),
    /// Send this response in place of the 304 that was about it, as it answers the client's own conditions
    /// and ranges. It isn't stored any more.
    Once(StoredResponse, StoredAnswer),
    /// Ask the origin again, by the request as it is.
    Ask,
    /// Send what the origin answered. If it is kept, it is to be passed to `ended` with its content.
    PassOn(bool),
}

impl Cache {
    // What is done with a 304 to a request that validates.
    pub(crate) fn revalidated(
        &mut self,
        alloc: Global,
        key: &str,
        request: &RequestHead<'_>,
        update: &HeaderMap,
        exchange: Exchange,
    ) -> Result<Next, AllocError>
        ensures next { IsRevalidated (settings_of self.old) key.now (request_of request.now) (lines_at update.now)
            exchange (kept_of self.old) (kept_of self.new) result }
        ensures does { Does (settings_of self.old)
            (Validated key.now (request_of request.now) (lines_at update.now) exchange)
            (kept_of self.old) (kept_of self.new) }
        ensures settings { settings_of self.new ≡ settings_of self.old }
    {
        let now = exchange.received;
        match self.store.freshen(alloc, key, request, update, exchange) {
            Ok(Refreshed::Stored(number)) => {
                match self.reply(alloc, key, request, number, now)? {
                    Some(reply) => Ok(Next::Reply(reply)),
                    None => Ok(Next::Ask),
                }
            }
            Ok(Refreshed::Once(fresh)) => {
                let answer = answer_conditions(alloc, request, &fresh, now, true)?;
                Ok(Next::Once(fresh, answer))
            }
            Ok(Refreshed::Absent) | Ok(Refreshed::Unchanged) => Ok(Next::Ask),
            Err(_) => Ok(Next::Ask),
        }
    }
}
