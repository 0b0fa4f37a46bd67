//! What a request gets if the origin fails.
ghost use Rattle.std.specs.Prelude.{◌≡◌};
ghost use Rattle.{cache_policy.specs.Requests.request_of, cache_store.specs.History.Call.Looked};
ghost use Rattle.cache_pass.specs.Effects.{Does, kept_of, settings_of, stored_at};
ghost use Rattle.cache_pass.specs.Replies.{IsOnError, number_on_error};

use crate::cache::Cache;
use crate::replying::Reply;
use cache_policy::RequestHead;
use cache_store::{Lookup, LookupTimes};
use std::alloc::{AllocError, Global};

// The number of the response that a lookup serves, or lets serve on an error.
fn number_on_error(lookup: &Lookup) -> Option<u64>
    ensures { result ≡ number_on_error lookup.now }
{
    match lookup {
        Lookup::Serve(number, _)
        | Lookup::ServeAndRevalidate(number, _)
        | Lookup::ValidateOrServe(number, _) => Some(*number),
        Lookup::Validate(_, _) | Lookup::Unavailable | Lookup::Forward => None,
    }
}

impl Cache {
    // The reply by what may be served now, since the origin failed (RFC 5861, section 4).
    pub(crate) fn on_error(
        &mut self,
        alloc: Global,
        key: &str,
        request: &RequestHead<'_>,
        now: u64,
    ) -> Result<Option<Reply>, AllocError>
        ensures answer { IsOnError (settings_of self.old) (request_of request.now) now (stored_at key.now self.new)
            result }
        ensures does { Does (settings_of self.old) (Looked key.now) (kept_of self.old) (kept_of self.new) }
        ensures settings { settings_of self.new ≡ settings_of self.old }
    {
        let times = LookupTimes {
            now,
            longest_guess: self.guess,
        };
        let lookup = self.store.lookup_guessing(alloc, key, request, times)?;
        match number_on_error(&lookup) {
            Some(number) => self.reply(alloc, key, request, number, now),
            None => Ok(None),
        }
    }
}
