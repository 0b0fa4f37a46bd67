//! The policy of a cache.
ghost use Rattle.std.specs.Prelude.{◌≡◌};
ghost use Rattle.headers.specs.LineMap.{lines_at};
ghost use Rattle.cache_fields.specs.Targets.{governing};
ghost use Rattle.cache_policy.specs.Policies.{policy_of};

use cache_fields::{Governing, Kind, read_governing};
use headers::{HeaderMap, HeaderName};

/// The policy of a cache: its kind, and what it does beyond RFC 9111. The functions of this crate
/// that take a `Kind` decide without the options; the methods here decide with them.
#[derive(Clone, Copy)]
pub struct Policy<'a> {
    /// The kind of the cache.
    pub kind: Kind,
    /// Whether `immutable` of a response counts (RFC 8246): while the response is fresh, `max-age` of a
    /// request isn't a reason to validate it. `no-cache` is.
    pub immutable: bool,
    /// The names of the cache's targeted fields, as CDN-Cache-Control, the most applicable first (RFC
    /// 9213): the first one that a response has, valid and not empty, counts in place of its
    /// Cache-Control and Expires.
    pub targets: &'a [HeaderName],
}

impl Policy<'_> {
    /// What governs a response: the first targeted field of the policy that it has, valid and not empty,
    /// or else its Cache-Control and Expires (RFC 9213, section 2.2).
    pub fn read_governing(&self, response: &HeaderMap) -> Governing
        ensures { result ≡ governing (policy_of self.now).targets (lines_at response.now) }
    {
        read_governing(self.targets, response)
    }
}
