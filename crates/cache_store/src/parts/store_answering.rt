//! What a store of parts answers to a request.
ghost use Rattle.std.specs.Prelude.{[], ◌++◌, ◌∷◌, ◌≡◌, IfOk, List, MatchOption, None, OnErr, option_copied, Some, ℕ};
ghost use Rattle.std.specs.{Bool.MatchBool, Prelude.codes};
ghost use Rattle.headers.specs.LineMap.{field_of, fields_of, lines_at};
ghost use Rattle.cache_store.specs.{Contents.{responses_at, used}, Lookups.HasFields, Numbers.numbered};
ghost use Rattle.cache_store.specs.Parts.{History.{PartCall.Looked, Step}, Answering.{HasBytesAt, IsAsked, IsForWhole}};
ghost use Rattle.cache_store.specs.Parts.{Answering.{IsLookedUp, IsReused, Lacks}, Answers.{IsPartAnswer, part_fields}};
ghost use Rattle.cache_store.specs.Parts.Kept.{limits_of_parts, parts_of, policy_of_parts};
ghost use Rattle.cache_store.specs.declared.parts.extent.Extent.{Extent};
ghost use Rattle.cache_policy.specs.Requests.{request_of};

use crate::lookup::{Lookup, LookupTimes};
use crate::parts::answering::{answer_part, bytes_of_part, part_fields};
use crate::parts::completing::{completing_fields, lacking};
use crate::parts::extent::{Extent, extent_in};
use crate::parts::store::PartStore;
use cache_policy::{Decision, RequestHead, decide_unstored};
use cache_rules::StoredResponse;
use headers::Encoded;
use http::Method;
use http_header::RANGE;
use rfc_fields::has_line;
use std::alloc::{AllocError, Global};

/// A 206 from a stored part.
#[derive(Debug, Drop)]
pub struct PartAnswer {
    /// The number of the stored part: `response` returns it, with the fields of the representation.
    pub number: u64,
    /// The part that is sent: `bytes` returns its bytes.
    pub part: Extent,
    /// The fields of the 206, for `set_all` on the stored ones: Content-Range, Content-Length and Age.
    pub fields: Vec<Encoded>,
}

/// What a cache does with a request, by its stored parts.
#[derive(Debug, Drop)]
pub enum PartLookup {
    /// Respond with this 206.
    Serve(PartAnswer),
    /// Forward the request with these fields, by `set_all`: they ask for what the stored part lacks of
    /// the whole. Record the response, and then answer the request from the store that has the whole.
    Complete(Vec<Encoded>),
    /// Respond with 504: no stored part answers the request, and it forbids to ask the origin
    /// (`only-if-cached`).
    Unavailable,
    /// Forward the request as it is.
    Forward,
}

// The answer of a stored part that may be reused, with this field Age.
fn answered(
    alloc: Global,
    request: &RequestHead<'_>,
    stored: &StoredResponse,
    now: u64,
    number: u64,
    age: Encoded,
) -> Result<Option<PartAnswer>, AllocError>
    ensures { IfOk result (λ found. MatchOption found (IsPartAnswer (request_of request.now) stored.now now None)
        (λ answer. (answer.number ≡ number) × IsPartAnswer (request_of request.now) stored.now now (Some answer.part)
        × (fields_of answer.fields.items ≡ part_fields answer.part ++ field_of age ∷ []))) }
{
    let Some(part) = answer_part(alloc, request, stored, now)? else {
        return Ok(None);
    };
    let mut fields = part_fields(alloc, &part)?;
    fields.push(age)?;
    Ok(Some(PartAnswer {
        number,
        part,
        fields,
    }))
}

// Whether a request asks for the whole: it is a GET without Range.
fn is_for_whole(request: &RequestHead<'_>) -> bool
    ensures { MatchBool result (IsForWhole (request_of request.now)) (¬ (IsForWhole (request_of request.now))) }
{
    *request.method == Method::GET && !has_line(&request.fields.get_all(RANGE))
}

// What a stored part lacks for a request for the whole.
fn missing(alloc: Global, request: &RequestHead<'_>, stored: &StoredResponse) -> Option<Extent>
    ensures { MatchOption result ((part : Extent) → ¬ (Lacks (request_of request.now) stored.now part))
        (Lacks (request_of request.now) stored.now) }
{
    if !is_for_whole(request) {
        return None;
    }
    let own = extent_in(alloc, &stored.response)?;
    lacking(&own)
}

// What is done with a request that the selected part doesn't answer.
fn ask(
    alloc: Global,
    request: &RequestHead<'_>,
    stored: &StoredResponse,
) -> Result<PartLookup, AllocError>
    ensures { IfOk result (IsAsked (request_of request.now) stored.now) }
{
    if let Decision::Unavailable = decide_unstored(request) {
        return Ok(PartLookup::Unavailable);
    }
    let Some(part) = missing(alloc, request, stored) else {
        return Ok(PartLookup::Forward);
    };
    match completing_fields(alloc, &stored.response, &part)? {
        Some(fields) => Ok(PartLookup::Complete(fields)),
        None => Ok(PartLookup::Forward),
    }
}

// What is done with a request by the selected part, which may be reused with this field Age.
fn reused(
    alloc: Global,
    request: &RequestHead<'_>,
    stored: &StoredResponse,
    now: u64,
    number: u64,
    age: Encoded,
) -> Result<PartLookup, AllocError>
    ensures { IfOk result (IsReused (request_of request.now) stored.now now number (field_of age)) }
{
    match answered(alloc, request, stored, now, number, age)? {
        Some(answer) => Ok(PartLookup::Serve(answer)),
        None => ask(alloc, request, stored),
    }
}

impl PartStore {
    /// Decides what a cache does with a request, by its stored parts (RFC 9111, section 3.3). The target
    /// becomes the most recently used. A lifetime may be guessed, as by `lookup_guessing` of the store of
    /// complete responses. Ask that store first: a part is for the requests that it would forward.
    ///
    /// A stored part answers with 206, if it is selected for the request and may be reused without asking
    /// the origin, and the request is a GET for one range that lies wholly within it. If the request is a
    /// GET without Range, the origin is asked for what the part lacks.
    ///
    /// Fails only if an allocation fails, which is possible only if a stored part is selected.
    pub fn lookup(
        &mut self,
        alloc: Global,
        key: &str,
        request: &RequestHead<'_>,
        times: LookupTimes,
    ) -> Result<PartLookup, AllocError>
        ensures answer { IfOk result (IsLookedUp (policy_of_parts self.old) times.longest_guess
            (request_of request.now) times.now (responses_at key.now (parts_of self.new))) }
        ensures memory { OnErr result (HasFields (policy_of_parts self.old) times.longest_guess
            (request_of request.now) times.now (responses_at key.now (parts_of self.new))) }
        ensures parts { parts_of self.new ≡ used key.now (parts_of self.old) }
        ensures step { Step (policy_of_parts self.old) (limits_of_parts self.old) (Looked key.now) (parts_of self.old)
            (parts_of self.new) }
        ensures policy { policy_of_parts self.new ≡ policy_of_parts self.old }
        ensures limits { limits_of_parts self.new ≡ limits_of_parts self.old }
    {
        match self.store.lookup_guessing(alloc, key, request, times)? {
            Lookup::Serve(number, age) => match self.store.response(key, number) {
                Some(stored) => reused(alloc, request, stored, times.now, number, age),
                None => Ok(PartLookup::Forward),
            },
            Lookup::ServeAndRevalidate(number, _) => self.ask(alloc, key, number, request),
            Lookup::Validate(number, _) => self.ask(alloc, key, number, request),
            Lookup::ValidateOrServe(number, _) => self.ask(alloc, key, number, request),
            Lookup::Unavailable => Ok(PartLookup::Unavailable),
            Lookup::Forward => Ok(PartLookup::Forward),
        }
    }

    // What is done with a request that the part with a number doesn't answer.
    fn ask(
        &self,
        alloc: Global,
        key: &str,
        number: u64,
        request: &RequestHead<'_>,
    ) -> Result<PartLookup, AllocError>
        ensures { IfOk result (λ lookup. (stored : StoredResponse)
            → numbered number (responses_at key.now (parts_of self.now)) ≡ Some stored
            → IsAsked (request_of request.now) stored lookup) }
    {
        match self.store.response(key, number) {
            Some(stored) => ask(alloc, request, stored),
            None => Ok(PartLookup::Forward),
        }
    }

    /// Returns the bytes of a part that lies within the stored one with a number. `None` if it is no longer
    /// stored, or the part doesn't lie within it.
    pub fn bytes(&self, alloc: Global, key: &str, number: u64, part: &Extent) -> Option<&[u8]>
        ensures { MatchOption result
            ((bytes : List ℕ) → ¬ (HasBytesAt (responses_at key.now (parts_of self.now)) number part.now bytes))
            (λ bytes. HasBytesAt (responses_at key.now (parts_of self.now)) number part.now bytes.now) }
    {
        let stored = self.store.response(key, number)?;
        bytes_of_part(alloc, stored, part)
    }

    /// Returns the stored part with a number, as a 200 whose Content-Range says which part it is. `None`
    /// if it is no longer stored under the key.
    pub fn response(&self, key: &str, number: u64) -> Option<&StoredResponse>
        ensures { option_copied result ≡ numbered number (responses_at key.now (parts_of self.now)) }
    {
        self.store.response(key, number)
    }
}
