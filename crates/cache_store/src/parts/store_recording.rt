//! What is stored of a received response.
ghost use Rattle.std.specs.{Prelude.{◌<◌, ◌≡◌, ◌⊎◌, IfOk, IsErrOf, MatchOption, None, OnErr, Some}, Bool.MatchBool};
ghost use Rattle.cache_rules.specs.Stored.{request_of_stored};
ghost use Rattle.cache_store.specs.{Changes.{IsFront, IsTooSmallToStore}, Contents.{responses_at, without}};
ghost use Rattle.cache_store.specs.Parts.{Kept.{limits_of_parts, parts_of, policy_of_parts}, Received.IsSelfContained};
ghost use Rattle.cache_store.specs.Parts.{History.{PartCall.Received, Step}, Recording.{Changes, IsLeft, IsRecordedAs}};
ghost use Rattle.cache_store.specs.Parts.Recording.{IsCombinable, IsContent, IsCurrent, IsSuperseded, IsTakenAlone};
ghost use Rattle.cache_store.specs.Parts.Recording.{IsKeptAs, IsMerged, IsSelectedPart, IsTooSmallToMerge};
ghost use Rattle.cache_store.specs.Parts.Recording.{IsTooSmallToRecord, IsTooSmallToTake, NeedsMemory};

use crate::parts::combining::{Combined, PartPair, combine, have_same_tag};
use crate::parts::extent::Extent;
use crate::parts::received::is_part;
use crate::parts::recording::record;
use crate::parts::store::PartStore;
use cache_rules::{Reception, StoredResponse, select};
use headers::InsertError;
use http::Method;
use http_header::{CONTENT_RANGE, IF_RANGE};
use rfc_fields::has_line;
use std::alloc::Global;

/// What becomes of a received response in a store of parts.
#[derive(Debug, Drop)]
pub enum Recorded {
    /// Nothing of it is stored.
    Unstored,
    /// It is stored as a part, by itself or combined with the stored part of its representation.
    Stored,
    /// With the stored part it is the whole representation, a complete 200. Nothing is stored under the
    /// key any more: pass it to the store of complete responses.
    Whole(StoredResponse),
    /// It is combined with the stored part, and isn't stored, since its fields forbid that or the reuse
    /// for its request. Nothing is stored under the key any more. It may answer its own request.
    Once(StoredResponse),
}

// Whether a response has content of the representation that its GET selected.
fn is_content(came: &StoredResponse) -> bool
    ensures { MatchBool result (IsContent came.now) (¬ (IsContent came.now)) }
{
    let status = came.status.as_u16();
    came.method == Method::GET && (status == 200 || status == 206)
}

// Whether a response shows that the representation of a stored part has changed.
fn changes(stored: &StoredResponse, came: &StoredResponse) -> bool
    ensures { MatchBool result (Changes stored.now came.now) (¬ (Changes stored.now came.now)) }
{
    is_content(came) && !have_same_tag(stored, came)
}

impl PartStore {
    /// Takes a received response to a request for the target that the key names (RFC 9111, sections 3.3
    /// and 3.4). `came` has the request, the response as it came from the origin, and their times. Pass
    /// each final response to GET, also a complete one.
    ///
    /// A part is combined with the stored part that its request selects, if both have the same strong
    /// validator and no position lies between them. Else it takes that one's place; but a 206 to a request
    /// with If-Range is stored only as a combination, since it may lack fields (RFC 9110, section 15.3.7).
    /// A part that may not be stored or is larger than the limits removes what is stored under the key. So
    /// does a 200 or 206 that isn't stored and hasn't the strong validator of the stored part: the
    /// representation has changed.
    ///
    /// Fails only if an allocation fails, or with `InsertError::Full` if the map of a part has no room for
    /// its fields. Both need a part that may be combined with the selected one, or be stored by itself.
    /// Then the store is as before; or nothing is stored under the key, and maybe under keys that weren't
    /// used for the longest time.
    pub fn record(
        &mut self,
        alloc: Global,
        key: &str,
        came: StoredResponse,
        reception: Reception,
    ) -> Result<Recorded, InsertError>
        ensures recorded { IfOk result (IsRecordedAs (policy_of_parts self.old) (limits_of_parts self.old) key.now
            (parts_of self.old) came reception (parts_of self.new)) }
        ensures err { OnErr result ((parts_of self.new ≡ parts_of self.old)
            ⊎ IsFront (without key.now (parts_of self.old)) (parts_of self.new)) }
        ensures memory { OnErr result (NeedsMemory (policy_of_parts self.old)
            (responses_at key.now (parts_of self.old)) came reception) }
        ensures full { IsErrOf result InsertError.Full → IsTooSmallToRecord (policy_of_parts self.old)
            (responses_at key.now (parts_of self.old)) came reception }
        ensures step { Step (policy_of_parts self.old) (limits_of_parts self.old) (Received key.now came reception)
            (parts_of self.old) (parts_of self.new) }
        ensures policy { policy_of_parts self.new ≡ policy_of_parts self.old }
        ensures limits { limits_of_parts self.new ≡ limits_of_parts self.old }
    {
        let Some(extent) = is_part(alloc, &came, reception, &self.store.policy()) else {
            self.forget_changed(alloc, key, &came);
            return Ok(Recorded::Unstored);
        };
        match self.merged(alloc, key, &came, reception)? {
            Combined::Apart => self.take(alloc, key, came, extent),
            Combined::Stored(part) => self.keep(alloc, key, part),
            Combined::Once(part) => {
                self.store.remove(alloc, key);
                Ok(Recorded::Once(part))
            }
        }
    }

    // Stores a part by itself, if it may have all fields of its representation.
    fn take(
        &mut self,
        alloc: Global,
        key: &str,
        came: StoredResponse,
        extent: Extent,
    ) -> Result<Recorded, InsertError>
        requires { extent.last < extent.len }
        ensures taken { IfOk result (IsTakenAlone (policy_of_parts self.old) (limits_of_parts self.old) key.now
            (parts_of self.old) came extent (parts_of self.new)) }
        ensures err { OnErr result ((parts_of self.new ≡ parts_of self.old)
            ⊎ IsFront (without key.now (parts_of self.old)) (parts_of self.new)) }
        ensures memory { OnErr result (IsSelfContained came) }
        ensures full { IsErrOf result InsertError.Full → IsTooSmallToTake came extent }
        ensures policy { policy_of_parts self.new ≡ policy_of_parts self.old }
        ensures limits { limits_of_parts self.new ≡ limits_of_parts self.old }
    {
        if has_line(&came.request.get_all(IF_RANGE)) {
            self.forget_changed(alloc, key, &came);
            return Ok(Recorded::Unstored);
        }
        let part = record(alloc, came, extent)?;
        self.keep(alloc, key, part)
    }

    // The stored part that the request of a response selects.
    fn selected(&self, key: &str, came: &StoredResponse) -> Option<&StoredResponse>
        ensures { MatchOption result
            (IsSelectedPart (request_of_stored came.now) (responses_at key.now (parts_of self.now)) None)
            (λ stored. IsSelectedPart (request_of_stored came.now) (responses_at key.now (parts_of self.now))
            (Some stored.now)) }
    {
        let parts = self.store.responses(key);
        let place = select(parts, &came.head())?;
        Some(&parts[place])
    }

    // Removes what is stored under a key, if a response that isn't stored shows that its representation
    // has changed.
    fn forget_changed(&mut self, alloc: Global, key: &str, came: &StoredResponse)
        ensures left { IsLeft key.now (parts_of self.old) came.now (parts_of self.new) }
        ensures policy { policy_of_parts self.new ≡ policy_of_parts self.old }
        ensures limits { limits_of_parts self.new ≡ limits_of_parts self.old }
    {
        if self.is_superseded(key, came) {
            self.store.remove(alloc, key);
        }
    }

    // Whether a response shows that the representation of the part that its request selects has changed.
    fn is_superseded(&self, key: &str, came: &StoredResponse) -> bool
        ensures { MatchBool result (IsSuperseded (responses_at key.now (parts_of self.now)) came.now)
            (IsCurrent (responses_at key.now (parts_of self.now)) came.now) }
    {
        match self.selected(key, came) {
            Some(stored) => changes(stored, came),
            None => false,
        }
    }

    // A response combined with the stored part that its request selects.
    fn merged(
        &self,
        alloc: Global,
        key: &str,
        came: &StoredResponse,
        reception: Reception,
    ) -> Result<Combined, InsertError>
        ensures merged { IfOk result (IsMerged (policy_of_parts self.now) (responses_at key.now (parts_of self.now))
            came.now reception) }
        ensures memory { OnErr result (IsCombinable (responses_at key.now (parts_of self.now)) came.now reception) }
        ensures full { IsErrOf result InsertError.Full
            → IsTooSmallToMerge (responses_at key.now (parts_of self.now)) came.now reception }
    {
        match self.selected(key, came) {
            Some(stored) => {
                let pair = PartPair { stored, came };
                combine(alloc, pair, reception, &self.store.policy())
            }
            None => Ok(Combined::Apart),
        }
    }

    // Stores a part in place of the one that its request selects, or returns it if it is the whole.
    fn keep(
        &mut self,
        alloc: Global,
        key: &str,
        part: StoredResponse,
    ) -> Result<Recorded, InsertError>
        ensures kept { IfOk result (IsKeptAs (policy_of_parts self.old) (limits_of_parts self.old) key.now
            (parts_of self.old) part (parts_of self.new)) }
        ensures err { OnErr result ((parts_of self.new ≡ parts_of self.old)
            ⊎ IsFront (without key.now (parts_of self.old)) (parts_of self.new)) }
        ensures full { IsErrOf result InsertError.Full → IsTooSmallToStore part }
        ensures policy { policy_of_parts self.new ≡ policy_of_parts self.old }
        ensures limits { limits_of_parts self.new ≡ limits_of_parts self.old }
    {
        if !has_line(&part.response.get_all(CONTENT_RANGE)) {
            self.store.remove(alloc, key);
            return Ok(Recorded::Whole(part));
        }
        if let Some(_) = self.store.store(alloc, key, part, Reception::Complete)? {
            return Ok(Recorded::Stored);
        }
        self.store.remove(alloc, key);
        Ok(Recorded::Unstored)
    }
}
