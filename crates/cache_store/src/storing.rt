//! What is stored.
ghost use Rattle.std.specs.Prelude.{◌+◌, ◌<◌, ◌^◌, ◌≡◌, ◌≢◌, ◌≤◌, ◌⊎◌, IfOk, IsErrOf, List, None, OnErr, OnOk, Some, ℕ};
ghost use Rattle.std.specs.Bool.{MatchBool};
ghost use Rattle.cache_policy.specs.Requests.{request_of};
ghost use Rattle.cache_store.specs.Changes.{FitsAlone, IsFront, IsInserted, IsRest, IsStoredAs, IsTooLarge, IsToStore};
ghost use Rattle.cache_store.specs.{Changes.{IsTooSmallToStore, IsTrimmed}, Contents.{bytes_at, size_at, without}};
ghost use Rattle.cache_store.specs.{History.{Call.Arrived, GoOn, Step}, Kept.{contents_of, policy_of_store}};
ghost use Rattle.cache_store.specs.Numbers.{times_in, times_used};

use crate::entries::{bytes_at, size_at};
use crate::limits::Limits;
use crate::store::Store;
use cache_policy::RequestHead;
use cache_rules::{Reception, StoredResponse, is_stored, select, set_fields, storing_fields};
use headers::InsertError;
use http::Method;
use std::alloc::{AllocError, Global};

// The response as it is stored.
fn as_stored(
    alloc: Global,
    came: StoredResponse,
    number: u64,
) -> Result<StoredResponse, InsertError>
    ensures stored { IfOk result (IsStoredAs came) }
    ensures number { IfOk result (λ stored. stored.number ≡ number) }
    ensures full { IsErrOf result InsertError.Full → IsTooSmallToStore came }
{
    let fields = storing_fields(alloc, &came.response, came.received)?;
    let mut stored = came;
    set_fields(&mut stored.response, fields)?;
    stored.number = number;
    Ok(stored)
}

// Whether there may be one more response of this size beside so many with so many bytes.
fn fits(count: usize, bytes: usize, size: usize, limits: Limits) -> bool
    ensures { MatchBool result (FitsAlone limits (count + 1) (bytes + size))
        (¬ (FitsAlone limits (count + 1) (bytes + size))) }
{
    count < limits.variants
        && count < limits.responses
        && size <= limits.bytes
        && bytes <= limits.bytes - size
}

// Whether the stored response answered a request with this method.
fn has_method(stored: &StoredResponse, method: &Method) -> bool
    ensures { MatchBool result (stored.now.method ≡ method.now) (stored.now.method ≢ method.now) }
{
    stored.method == *method
}

// Removes the response that one to a new request supersedes.
fn supersede(responses: &mut Vec<StoredResponse>, request: &RequestHead<'_>)
    ensures rest { IsRest (request_of request.now) responses.old.items responses.new.items }
    ensures lighter { (target : List ℕ) → bytes_at target responses.new.items ≤ bytes_at target responses.old.items }
    ensures numbers { (number : ℕ) → times_in number responses.new.items ≤ times_in number responses.old.items }
{
    if let Some(place) = select(responses, request) {
        if has_method(&responses[place], request.method) {
            responses.remove(place);
        }
    }
}

// Removes the oldest responses, until there may be one more of this size. Returns the bytes of those
// that are left.
fn trim(target: &str, responses: &mut Vec<StoredResponse>, size: usize, limits: Limits) -> usize
    requires alone { FitsAlone limits 1 size }
    requires light { bytes_at target.now responses.old.items < 2 ^ 64 }
    ensures trimmed { IsTrimmed limits target.now size responses.old.items responses.new.items }
    ensures bytes { result ≡ bytes_at target.now responses.new.items }
{
    let mut bytes = bytes_at(target, responses);
    while !fits(responses.len(), bytes, size, limits) {
        let oldest = responses.remove(0);
        bytes -= size_at(target, &oldest);
    }
    bytes
}

impl Store {
    /// Stores the response to a request, if a cache of this kind may (RFC 9111, section 3). `came`
    /// has the request, the response as it came from the origin, and their times. The result is the
    /// number under which it is stored, or `None` if it isn't stored: a response that is larger than
    /// the limits isn't.
    ///
    /// It supersedes the stored response that was selected for its request so far, if that answered
    /// the same method. If there is too little room, older responses of its target are removed
    /// first, and then the targets that weren't used for the longest time.
    ///
    /// Fails only if an allocation fails, if 2^64 - 1 numbers were given, or with `InsertError::Full` if
    /// the map of the response has no room for the fields that change. Each needs a response that is to
    /// be stored. Then nothing is stored that wasn't stored before.
    pub fn store(
        &mut self,
        alloc: Global,
        target: &str,
        came: StoredResponse,
        reception: Reception,
    ) -> Result<Option<u64>, InsertError>
        ensures stored { (number : ℕ) → result ≡ Ok (Some number) → (stored : StoredResponse) × IsToStore
            (policy_of_store self.old) came reception
            × IsStoredAs came stored × (stored.number ≡ number)
            × IsInserted self.old.limits target.now stored (contents_of self.old) (contents_of self.new) }
        ensures number { (number : ℕ) → result ≡ Ok (Some number) → number ≡ self.old.next }
        ensures unstored { result ≡ Ok None
            → ((¬ (IsToStore (policy_of_store self.old) came reception)) ⊎ IsTooLarge self.old.limits target.now came)
            × (contents_of self.new ≡ contents_of self.old) }
        ensures err { OnErr result ((contents_of self.new ≡ contents_of self.old)
            ⊎ IsFront (without target.now (contents_of self.old)) (contents_of self.new)) }
        ensures memory { OnErr result
            (IsToStore (policy_of_store self.old) came reception
            × FitsAlone self.old.limits 1 (size_at target.now came)) }
        ensures full { IsErrOf result InsertError.Full → IsTooSmallToStore came }
        ensures step { Step (policy_of_store self.old) self.old.limits (Arrived target.now came reception)
            (contents_of self.old)
            (contents_of self.new) }
        ensures policy { policy_of_store self.new ≡ policy_of_store self.old }
        ensures numbers { GoOn self.old.next (contents_of self.old) self.new.next (contents_of self.new) }
        ensures limits { self.new.limits ≡ self.old.limits }
    {
        let is_stored = self.is_to_store(&came, reception);
        if !is_stored || !fits(0, 0, size_at(target, &came), self.limits) {
            return Ok(None);
        }
        let number = self.take_numbers(1)?;
        let stored = as_stored(alloc, came, number)?;
        let size = size_at(target, &stored);
        if !fits(0, 0, size, self.limits) {
            return Ok(None);
        }
        match self.insert(alloc, target, stored, size) {
            Ok(()) => Ok(Some(number)),
            Err(AllocError) => Err(InsertError::Memory),
        }
    }

    // Whether a response is to be stored.
    fn is_to_store(&self, came: &StoredResponse, reception: Reception) -> bool
        ensures { MatchBool result (IsToStore (policy_of_store self.now) came.now reception)
            (¬ (IsToStore (policy_of_store self.now) came.now reception)) }
    {
        is_stored(
            &came.head(),
            came.status,
            &came.response,
            reception,
            &self.policy(),
        )
    }

    // Stores a response of this size.
    fn insert(
        &mut self,
        alloc: Global,
        target: &str,
        new: StoredResponse,
        size: usize,
    ) -> Result<(), AllocError>
        requires size { size ≡ size_at target.now new }
        requires fits { FitsAlone self.old.limits 1 size }
        requires last { self.old.next ≡ new.number + 1 }
        requires unused { times_used new.number (contents_of self.old) ≡ 0 }
        ensures ok { OnOk result
            (IsInserted self.old.limits target.now new (contents_of self.old) (contents_of self.new)) }
        ensures err { OnErr result (IsFront (without target.now (contents_of self.old)) (contents_of self.new)) }
        ensures policy { policy_of_store self.new ≡ policy_of_store self.old }
        ensures next { self.new.next ≡ self.old.next }
        ensures limits { self.new.limits ≡ self.old.limits }
    {
        let mut responses = self.take_out(alloc, target);
        supersede(&mut responses, &new.head());
        let bytes = trim(target, &mut responses, size, self.limits);
        self.make_room(responses.len() + 1, bytes + size);
        self.put_with(alloc, target, responses, new)
    }
}
