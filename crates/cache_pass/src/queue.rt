//! Requests for which the origin is asked now, so that others for the same wait (RFC 9111, section 4).
ghost use Rattle.std.specs.Prelude.{[], ◌++◌, ◌∷◌, ◌≡◌, filter, find, if◌then◌else◌, option_copied};
ghost use Rattle.{cache_store.specs.Parts.Answering.IsForWhole, std.specs.Bool.MatchBool};
ghost use Rattle.{cache_pass.specs.Queue.Collapses, cache_policy.specs.Requests.request_of};
ghost use Rattle.cache_pass.specs.Queue.{Enters, HasLeft, is_ahead, is_named, is_open, is_within, number_ahead};

use crate::pass::Pass;
use cache_policy::RequestHead;
use http::Method;
use http_header::RANGE;
use rfc_fields::has_line;
use std::alloc::{AllocError, Global};

/// A request for which the origin is asked.
#[derive(Debug, Drop)]
pub struct PendingRequest {
    pub(crate) number: u64,
    pub(crate) key: String,
    pub(crate) asked: u64,
}

/// The requests for which the origin is asked, and for how many seconds others wait for one of them.
#[derive(Debug, Drop)]
pub struct Queue {
    pub(crate) limit: u64,
    pub(crate) next: u64,
    pub(crate) entries: Vec<PendingRequest>,
}

// Whether a request asked less than so many seconds ago.
fn is_within(entry: &PendingRequest, limit: u64, now: u64) -> bool
    ensures { result ≡ is_within limit now entry.now }
{
    entry.asked <= now && now - entry.asked < limit
}

fn is_ahead(entry: &PendingRequest, limit: u64, now: u64, key: &str) -> bool
    ensures { result ≡ is_ahead limit now key.now entry.now }
{
    entry.key.as_str() == key && is_within(entry, limit, now)
}

fn is_named(entry: &PendingRequest, limit: u64, now: u64, number: u64) -> bool
    ensures { result ≡ is_named limit now number entry.now }
{
    entry.number == number && is_within(entry, limit, now)
}

// The request with this number, if it asked less than so many seconds ago.
fn named(entries: &[PendingRequest], limit: u64, now: u64, number: u64) -> Option<&PendingRequest>
    ensures { option_copied result ≡ find (is_named limit now number) entries.now }
{
    entries
        .iter()
        .find(|entry| is_named(entry, limit, now, number))
}

// Whether there was memory for one more.
fn push_entry(entries: &mut Vec<PendingRequest>, entry: PendingRequest) -> bool
    ensures { entries.new.items ≡ (if result then entries.old.items ++ entry ∷ [] else entries.old.items) }
{
    entries.push(entry).is_ok()
}

// Keeps the requests that asked less than so many seconds ago.
fn keep_within(entries: &mut Vec<PendingRequest>, limit: u64, now: u64)
    ensures { entries.new.items ≡ filter (is_within limit now) entries.old.items }
{
    entries.retain(|entry| is_within(entry, limit, now));
}

// Whether a request asks for the whole: it is a GET without Range.
fn is_for_whole(request: &RequestHead<'_>) -> bool
    ensures { MatchBool result (IsForWhole (request_of request.now)) (¬ (IsForWhole (request_of request.now))) }
{
    *request.method == Method::GET && !has_line(&request.fields.get_all(RANGE))
}

impl Pass {
    /// Whether the pass asks the origin for what others may ask for, too: by a GET without Range.
    pub fn collapses(&self) -> bool
        ensures { MatchBool result (Collapses self.now) (¬ (Collapses self.now)) }
    {
        self.asked().is_some() && is_for_whole(&self.head())
    }
}

impl Queue {
    /// An empty queue. A request waits for another for less than `limit` seconds.
    pub fn new(alloc: Global, limit: u64) -> Queue
        ensures limit { result.limit ≡ limit }
        ensures empty { result.entries.items ≡ [] }
        ensures next { result.next ≡ 0 }
    {
        Queue {
            limit,
            next: 0,
            entries: Vec::new(alloc),
        }
    }

    /// The number of the first request for this target that another may wait for at the present `now`.
    pub fn ahead(&self, key: &str, now: u64) -> Option<u64>
        ensures { result ≡ number_ahead self.now key.now now }
    {
        let limit = self.limit;
        match self
            .entries
            .iter()
            .find(|entry| is_ahead(entry, limit, now, key))
        {
            Some(entry) => Some(entry.number),
            None => None,
        }
    }

    /// Whether others may wait for the request with this number.
    pub fn is_open(&self, number: u64, now: u64) -> bool
        ensures { result ≡ is_open self.now number now }
    {
        named(&self.entries, self.limit, now, number).is_some()
    }

    /// Enters a request for which the origin is asked, and returns its number. Those that asked too long ago leave.
    /// `None` if nobody may wait: for no second, or if 2^64 - 1 numbers were given. Out of memory it doesn't enter.
    pub fn enter(&mut self, alloc: Global, key: &str, now: u64) -> Result<Option<u64>, AllocError>
        ensures { Enters key.now now self.old self.new result }
    {
        keep_within(&mut self.entries, self.limit, now);
        if self.limit == 0 || self.next == u64::MAX {
            return Ok(None);
        }
        let key = String::from_str(alloc, key)?;
        let number = self.next;
        let entry = PendingRequest {
            number,
            key,
            asked: now,
        };
        if !push_entry(&mut self.entries, entry) {
            return Err(AllocError);
        }
        self.next = number + 1;
        Ok(Some(number))
    }

    /// The request with this number leaves: nobody waits for it any more.
    pub fn leave(&mut self, number: u64)
        ensures { HasLeft number self.old self.new }
    {
        self.entries.retain(|entry| entry.number != number);
    }
}
