//! Parts of a representation.
ghost use Rattle.std.specs.Prelude.{◌≡◌, ◌↔◌, ◌+◌, ◌^◌, ◌<◌, ◌≤◌, ℕ, All, Any, Some, nat_le, if◌then◌else◌};
ghost use Rattle.std.specs.List.Sorted.{IsNonDecreasingBy, IsPermutation};
ghost use Rattle.decide_preconditions.specs.Merged.{joined};
ghost use Rattle.decide_preconditions.specs.{Merged.merged, Parts.{AreCoalesced, Holds, IsJoined, IsPartOf, part_size}};

use headers::ContentRange;
use std::ops::Bound;

/// A part of a representation: the bytes from one position to another, both included.
#[derive(Clone, Copy, Debug, PartialEq, Eq)]
pub struct Part {
    /// The first position, counted in bytes from 0.
    pub first: u64,
    /// The last position, counted in bytes from 0.
    pub last: u64,
}

impl Part {
    /// Returns the number of bytes in the part.
    pub fn size(&self) -> u64
        requires ordered { self.now.first ≤ self.now.last }
        requires fits { self.now.last + 1 < 2 ^ 64 }
        ensures { result ≡ part_size self.now }
    {
        self.last + 1 - self.first
    }

    /// Returns the `Content-Range` of the part in a representation of this length.
    pub fn content_range(&self, complete_length: u64) -> ContentRange
        ensures { result ≡ record { range = Some (self.now.first, self.now.last); length = Some complete_length } }
    {
        let bounds = (Bound::Included(self.first), Bound::Included(self.last));
        match ContentRange::bytes(bounds, Some(complete_length)) {
            Ok(range) => range,
            Err(_) => unreachable!(),
        }
    }
}

// The parts in order, with those joined between which at most `gap` positions lie. This takes the
// time of a sort, and no memory: the result is the list that was given.
pub(crate) fn coalesce(len: u64, gap: u64, mut parts: Vec<Part>) -> Vec<Part>
    requires { All (IsPartOf len) parts.items }
    ensures coalesced { AreCoalesced len gap result.items }
    ensures same { (p : ℕ) → Any (Holds p) result.items ↔ IsJoined gap (λ q. Any (Holds q) parts.items) p }
{
    sort(&mut parts);
    merge(gap, &mut parts);
    parts
}

// Sorts parts by their first positions.
fn sort(parts: &mut Vec<Part>)
    ensures permutation { IsPermutation parts.old.items parts.new.items }
    ensures sorted { IsNonDecreasingBy (λ part. part.first) parts.new.items }
{
    parts.sort_unstable_by_key(|part| part.first);
}

// Joins parts that are in order.
fn merge(gap: u64, parts: &mut Vec<Part>)
    ensures { parts.new.items ≡ merged gap parts.old.items }
{
    parts.dedup_by(|next, part| join_if_close(gap, part, next));
}

// Joins the next part to a part if they are close, and returns whether they are.
fn join_if_close(gap: u64, part: &mut Part, next: &Part) -> bool
    ensures close { result ≡ nat_le next.now.first (part.old.last + gap + 1) }
    ensures joined { part.new ≡ (if result then joined part.old next.now else part.old) }
{
    if !are_close(gap, part, next) {
        return false;
    }
    part.last = part.last.max(next.last);
    true
}

// Whether at most `gap` positions lie between the parts, the second of which doesn't begin first.
fn are_close(gap: u64, part: &Part, next: &Part) -> bool
    ensures { result ≡ nat_le next.now.first (part.now.last + gap + 1) }
{
    next.first <= part.last.saturating_add(gap).saturating_add(1)
}
