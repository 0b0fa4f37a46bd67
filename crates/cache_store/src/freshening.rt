//! Updates of stored responses by a validating response.
ghost use Rattle.std.specs.Prelude.{◌<◌, ◌≡◌, IfOk, IsErrOf, length, OnErr, OnOk};
ghost use Rattle.headers.specs.LineMap.{lines_at};
ghost use Rattle.cache_policy.specs.Requests.{request_of};
ghost use Rattle.cache_rules.specs.{Freshening.renewing_fields, Identifying.IsIdentified, Selection.IsSomewhere};
ghost use Rattle.cache_store.specs.{Changes.{IsRefreshed, IsRefreshedByHead, IsUnrefreshed}, Contents.responses_at};
ghost use Rattle.cache_store.specs.{Contents.without, History.{GoOn, Step, Call.{Described, Validated}}};
ghost use Rattle.cache_store.specs.{Kept.{contents_of, policy_of_store}, Updates.IsOneTooSmallFor};

use crate::store::Store;
use crate::updating::{By, left_of, renumber};
use cache_policy::RequestHead;
use cache_rules::{Exchange, Freshened, StoredResponse, freshen, select, select_updated};
use headers::{HeaderMap, InsertError};
use std::alloc::Global;

/// The result of a 304 for the stored responses that may answer its request.
#[derive(Debug, Drop)]
pub enum Refreshed {
    /// No stored response may answer the request. Send it again without conditions.
    Absent,
    /// The 304 is about none of those that may. Send the request again without conditions.
    Unchanged,
    /// A stored response is updated, and is the answer. It is stored under this new number.
    Stored(u64),
    /// A stored response is updated, and is the answer this once. It is no longer stored, since its
    /// new fields forbid that, or its reuse for this request. Its number is new.
    Once(StoredResponse),
}

// What a 304 makes of stored responses that it doesn't update.
fn unrefreshed(responses: &[StoredResponse], request: &RequestHead<'_>) -> Refreshed
    ensures { IsUnrefreshed (request_of request.now) responses.now result }
{
    match select(responses, request) {
        Some(_) => Refreshed::Unchanged,
        None => Refreshed::Absent,
    }
}

impl Store {
    /// Updates stored responses by a 304 that answered this request (RFC 9111, section 4.3.4). The
    /// answer is the most recent one of those that `updated_by` of `cache_rules` names:
    /// each one that matches the request and has the strong entity tag of the 304; the most recent
    /// one, if the 304 has only weak validators; and if it has none, the only one that matches.
    ///
    /// The others that it names are updated as well. Those that may no longer be reused are
    /// removed.
    ///
    /// Fails only if an allocation fails, if no numbers are left, if what is updated has more bytes than
    /// there is room for, or with `InsertError::Full` if the map of a response that is stored under the
    /// target has no room for the fields. Each needs a stored response that the 304 updates. Then
    /// nothing is stored under the target.
    pub fn freshen(
        &mut self,
        alloc: Global,
        target: &str,
        request: &RequestHead<'_>,
        update: &HeaderMap,
        exchange: Exchange,
    ) -> Result<Refreshed, InsertError>
        ensures ok { IfOk result (IsRefreshed (policy_of_store self.old) target.now (request_of request.now)
            (lines_at update.now)
            exchange (contents_of self.old) (contents_of self.new)) }
        ensures err { OnErr result (contents_of self.new ≡ without target.now (contents_of self.old)) }
        ensures memory { OnErr result (IsSomewhere (IsIdentified (request_of request.now) (lines_at update.now)
            (responses_at target.now (contents_of self.old)))) }
        ensures full { IsErrOf result InsertError.Full
            → IsOneTooSmallFor (responses_at target.now (contents_of self.old))
            (renewing_fields exchange.received update.now) }
        ensures step { Step (policy_of_store self.old) self.old.limits (Validated target.now (request_of request.now)
            (lines_at update.now) exchange) (contents_of self.old) (contents_of self.new) }
        ensures policy { policy_of_store self.new ≡ policy_of_store self.old }
        ensures numbers { GoOn self.old.next (contents_of self.old) self.new.next (contents_of self.new) }
        ensures limits { self.new.limits ≡ self.old.limits }
    {
        let Some(place) = select_updated(self.responses(target), request, update) else {
            return Ok(unrefreshed(self.responses(target), request));
        };
        let mut responses = self.take_out(alloc, target);
        let first = self.take_numbers(responses.len())?;
        let stored = responses.remove(place);
        let number = first + responses.len() as u64;
        let by = By::NotModified;
        let policy = self.policy();
        let left = left_of(
            alloc, responses, by, request, update, exchange, &policy, first,
        )?;
        match freshen(alloc, stored, request, update, exchange, &policy)? {
            Freshened::Stored(fresh) => {
                self.put_with(alloc, target, left, renumber(fresh, number))?;
                Ok(Refreshed::Stored(number))
            }
            Freshened::Once(fresh) => {
                self.put_in(alloc, target, left)?;
                Ok(Refreshed::Once(renumber(fresh, number)))
            }
            Freshened::Unchanged(_) => Ok(Refreshed::Unchanged),
        }
    }

    /// Updates stored responses to GET by a 200 to a HEAD (RFC 9111, section 4.3.5). It updates
    /// each one that could have been selected for the HEAD, if `is_head_of` of
    /// `cache_rules` says that the 200 is about it. If it isn't, or if its new fields
    /// forbid the reuse, the stored response is removed.
    ///
    /// Fails only if an allocation fails, if no numbers are left, if what is updated has more bytes than
    /// there is room for, or with `InsertError::Full` if the map of a response that is stored under the
    /// target has no room for the fields. Each needs a stored response of the target. Then nothing is
    /// stored under the target.
    pub fn freshen_by_head(
        &mut self,
        alloc: Global,
        target: &str,
        request: &RequestHead<'_>,
        head: &HeaderMap,
        exchange: Exchange,
    ) -> Result<(), InsertError>
        ensures ok { OnOk result (IsRefreshedByHead (policy_of_store self.old) target.now (request_of request.now)
            (lines_at head.now) exchange (contents_of self.old) (contents_of self.new)) }
        ensures err { OnErr result (contents_of self.new ≡ without target.now (contents_of self.old)) }
        ensures memory { OnErr result (0 < length (responses_at target.now (contents_of self.old))) }
        ensures full { IsErrOf result InsertError.Full
            → IsOneTooSmallFor (responses_at target.now (contents_of self.old))
            (renewing_fields exchange.received head.now) }
        ensures step { Step (policy_of_store self.old) self.old.limits (Described target.now (request_of request.now)
            (lines_at head.now) exchange) (contents_of self.old) (contents_of self.new) }
        ensures policy { policy_of_store self.new ≡ policy_of_store self.old }
        ensures numbers { GoOn self.old.next (contents_of self.old) self.new.next (contents_of self.new) }
        ensures limits { self.new.limits ≡ self.old.limits }
    {
        let responses = self.take_out(alloc, target);
        let first = self.take_numbers(responses.len())?;
        let policy = self.policy();
        let by = By::Head;
        let left = left_of(
            alloc, responses, by, request, head, exchange, &policy, first,
        )?;
        self.put_in(alloc, target, left)?;
        Ok(())
    }
}
