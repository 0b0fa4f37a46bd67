//! What the calls of a store do to its entries.
ghost use Rattle.std.specs.Prelude.{[], ◌++◌, ◌+◌, ◌-◌, ◌<◌, ◌≡◌, ◌≤◌, IfOk, length, MatchOption, OnErr, sum_by, ℕ};
ghost use Rattle.std.specs.Prelude.{◌^◌, ◌∷◌, min, OnOk, take};
ghost use Rattle.http_header.specs.HeaderMap.{pairs};
ghost use Rattle.cache_store.specs.Contents.{bytes_at, IsAbsent, line_size, responses_at, size_at, Target, with_target};
ghost use Rattle.cache_store.specs.{Contents.{response_count, shown, without}, Kept.{contents_of, policy_of_store}};
ghost use Rattle.cache_store.specs.{Numbers.{AreNumberedWith, times_in, times_used}, Room.{HasRoom, IsLongestWithRoom}};

use crate::store::Store;
use cache_rules::{StoredResponse, number_after};
use headers::HeaderMap;
use lru::LruCache;
use std::alloc::{AllocError, Global};
use std::hash::RandomState;

// How many bytes field lines count as; at most 2^64 - 1.
fn fields_size(fields: &HeaderMap) -> usize
    ensures { result ≡ min (sum_by line_size (pairs fields.now)) (2 ^ 64 - 1) }
{
    let mut size: usize = 0;
    for (name, value) in fields.iter() {
        size = size
            .saturating_add(name.as_str().len())
            .saturating_add(value.len())
            .saturating_add(256);
    }
    size
}

// How many bytes a response under a target counts as.
#[tactic(auto, unfolding(crate::specs::Contents::size_at))]
pub(crate) fn size_at(target: &str, stored: &StoredResponse) -> usize
    ensures { result ≡ size_at target.now stored.now }
{
    fields_size(&stored.request)
        .saturating_add(fields_size(&stored.response))
        .saturating_add(stored.content.len())
        .saturating_add(target.len())
        .saturating_add(1024)
}

// How many bytes responses under a target count as, if they are at most so many.
fn bytes_within(target: &str, responses: &[StoredResponse], most: usize) -> Option<usize>
    ensures { MatchOption result (most < bytes_at target.now responses.now)
        (λ bytes. (bytes ≡ bytes_at target.now responses.now) × (bytes ≤ most)) }
{
    let mut bytes = 0;
    for response in responses {
        let size = size_at(target, response);
        if most - bytes < size {
            return None;
        }
        bytes += size;
    }
    Some(bytes)
}

// How many bytes responses under a target count as.
pub(crate) fn bytes_at(target: &str, responses: &[StoredResponse]) -> usize
    requires { bytes_at target.now responses.now < 2 ^ 64 }
    ensures { result ≡ bytes_at target.now responses.now }
{
    let mut bytes = 0;
    for response in responses {
        bytes += size_at(target, response);
    }
    bytes
}

// Takes a target out of a map, and returns its responses.
fn popped(
    targets: &mut LruCache<String, Vec<StoredResponse>, RandomState>,
    alloc: Global,
    target: &str,
) -> Vec<StoredResponse>
    ensures taken { result.items ≡ responses_at target.now (shown targets.old.entries) }
    ensures left { shown targets.new.entries ≡ without target.now (shown targets.old.entries) }
    ensures counts { (m : Target → ℕ) → m (target.now, []) ≡ 0
        → sum_by m (shown targets.new.entries) + m (target.now, result.items) ≡ sum_by m (shown targets.old.entries) }
    ensures cap { targets.new.cap ≡ targets.old.cap }
{
    // Shows that no target is there twice.
    let _targets = targets.len();
    match targets.pop(target) {
        Some(responses) => responses,
        None => Vec::new(alloc),
    }
}

impl Store {
    // Takes out what is stored under a target.
    pub(crate) fn take_out(&mut self, alloc: Global, target: &str) -> Vec<StoredResponse>
        ensures contents { contents_of self.new ≡ without target.now (contents_of self.old) }
        ensures taken { result.items ≡ responses_at target.now (contents_of self.old) }
        ensures room { HasRoom self.old.limits (length result.items) (bytes_at target.now result.items)
            (contents_of self.new) }
        ensures numbers { (number : ℕ) → times_used number (contents_of self.new) + times_in number result.items
            ≡ times_used number (contents_of self.old) }
        ensures policy { policy_of_store self.new ≡ policy_of_store self.old }
        ensures limits { self.new.limits ≡ self.old.limits }
        ensures next { self.new.next ≡ self.old.next }
    {
        let (count, bytes) = (self.responses, self.bytes);
        let taken = popped(&mut self.targets, alloc, target);
        self.responses = count - taken.len();
        self.bytes = bytes - bytes_at(target, &taken);
        taken
    }

    // Takes so many numbers, and returns the first of them. Fails if fewer are left.
    pub(crate) fn take_numbers(&mut self, count: usize) -> Result<u64, AllocError>
        ensures ok { IfOk result (λ first. (first ≡ self.old.next) × (self.new.next ≡ self.old.next + count)
            × (self.old.next + count < 2 ^ 64)) }
        ensures err { OnErr result (self.new.next ≡ self.old.next) }
        ensures some { OnErr result (0 < count) }
        ensures contents { contents_of self.new ≡ contents_of self.old }
        ensures policy { policy_of_store self.new ≡ policy_of_store self.old }
        ensures limits { self.new.limits ≡ self.old.limits }
    {
        let first = self.next;
        self.next = number_after(first, count)?;
        Ok(first)
    }

    // Removes the least recently used targets, until there is room for so many more responses and
    // bytes.
    pub(crate) fn make_room(&mut self, responses: usize, bytes: usize)
        requires responses { responses ≤ self.old.limits.responses }
        requires bytes { bytes ≤ self.old.limits.bytes }
        ensures kept { IsLongestWithRoom self.old.limits responses bytes (contents_of self.old) (contents_of self.new) }
        ensures policy { policy_of_store self.new ≡ policy_of_store self.old }
        ensures limits { self.new.limits ≡ self.old.limits }
        ensures next { self.new.next ≡ self.old.next }
    {
        while self.limits.responses - responses < self.responses
            || self.limits.bytes - bytes < self.bytes
        {
            self.remove_last();
        }
    }

    // Removes the least recently used target.
    fn remove_last(&mut self)
        ensures contents { contents_of self.new ≡ take (length (contents_of self.old) - 1) (contents_of self.old) }
        ensures policy { policy_of_store self.new ≡ policy_of_store self.old }
        ensures limits { self.new.limits ≡ self.old.limits }
        ensures next { self.new.next ≡ self.old.next }
    {
        let (count, bytes) = (self.responses, self.bytes);
        if let Some((target, responses)) = self.targets.pop_lru() {
            self.responses = count - responses.len();
            self.bytes = bytes - bytes_at(target.as_str(), &responses);
        }
    }

    // Puts in what is stored under a target, if that is something. An error leaves it out: an allocation
    // fails, or there is too little room for its bytes.
    pub(crate) fn put_in(
        &mut self,
        alloc: Global,
        target: &str,
        kept: Vec<StoredResponse>,
    ) -> Result<(), AllocError>
        requires absent { IsAbsent target.now (contents_of self.old) }
        requires few { response_count (contents_of self.old) + length kept.items ≤ self.old.limits.responses }
        requires numbers { AreNumberedWith self.old.next kept.items (contents_of self.old) }
        ensures ok { OnOk result (contents_of self.new ≡ with_target target.now kept.items (contents_of self.old)) }
        ensures err { OnErr result (contents_of self.new ≡ contents_of self.old) }
        ensures memory { OnErr result (0 < length kept.items) }
        ensures policy { policy_of_store self.new ≡ policy_of_store self.old }
        ensures limits { self.new.limits ≡ self.old.limits }
        ensures next { self.new.next ≡ self.old.next }
    {
        if kept.is_empty() {
            return Ok(());
        }
        let count = self.responses + kept.len();
        let Some(more) = bytes_within(target, &kept, self.limits.bytes - self.bytes) else {
            return Err(AllocError);
        };
        let bytes = self.bytes + more;
        let key = String::from_str(alloc, target)?;
        // Shows that one more target fits.
        let _targets = self.targets.len();
        match self.targets.put(key, kept) {
            Ok(_) => {
                self.responses = count;
                self.bytes = bytes;
                Ok(())
            }
            Err(_) => Err(AllocError),
        }
    }

    // The same with one more response.
    pub(crate) fn put_with(
        &mut self,
        alloc: Global,
        target: &str,
        kept: Vec<StoredResponse>,
        new: StoredResponse,
    ) -> Result<(), AllocError>
        requires absent { IsAbsent target.now (contents_of self.old) }
        requires few { response_count (contents_of self.old) + (length kept.items + 1) ≤ self.old.limits.responses }
        requires numbers { AreNumberedWith self.old.next (kept.items ++ new ∷ []) (contents_of self.old) }
        ensures ok { OnOk result (contents_of self.new ≡ (target.now, kept.items ++ new ∷ []) ∷ contents_of self.old) }
        ensures err { OnErr result (contents_of self.new ≡ contents_of self.old) }
        ensures policy { policy_of_store self.new ≡ policy_of_store self.old }
        ensures limits { self.new.limits ≡ self.old.limits }
        ensures next { self.new.next ≡ self.old.next }
    {
        let mut kept = kept;
        kept.push(new)?;
        self.put_in(alloc, target, kept)
    }
}
