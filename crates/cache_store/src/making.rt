//! A new store.
ghost use Rattle.std.specs.Prelude.{[], ◌≡◌, IfOk};
ghost use Rattle.cache_policy.specs.Policies.{plain};
ghost use Rattle.cache_store.specs.{History.Run, Kept.{contents_of, policy_of_store, policy_with}};

use crate::limits::Limits;
use crate::store::Store;
use cache_policy::Kind;
use headers::HeaderName;
use lru::LruCache;
use std::alloc::{AllocError, Global};
use std::hash::RandomState;

/// What a store does beyond RFC 9111; nothing by default.
#[derive(Debug, Drop)]
pub struct Options {
    /// Whether `immutable` of a response counts (RFC 8246): a request with `max-age` then gets a
    /// fresh response that has it, and isn't forwarded.
    pub immutable: bool,
    /// The names of the cache's targeted fields, such as CDN-Cache-Control, the most applicable
    /// first (RFC 9213). The first one that a response has, valid and not empty, counts instead of
    /// its Cache-Control and Expires.
    pub targets: Vec<HeaderName>,
}

impl Store {
    /// Makes an empty store without options. The keys should be random, since clients choose the
    /// targets.
    pub fn new(
        alloc: Global,
        kind: Kind,
        limits: Limits,
        keys: RandomState,
    ) -> Result<Store, AllocError>
        ensures contents { IfOk result (λ store. contents_of store ≡ []) }
        ensures run { IfOk result (λ store. Run (plain kind) limits [] (contents_of store)) }
        ensures policy { IfOk result (λ store. policy_of_store store ≡ plain kind) }
        ensures limits { IfOk result (λ store. store.limits ≡ limits) }
    {
        let options = Options {
            immutable: false,
            targets: Vec::new(alloc),
        };
        Store::with_options(alloc, kind, options, limits, keys)
    }

    /// Makes an empty store with options. The keys should be random, since clients choose the
    /// targets.
    pub fn with_options(
        alloc: Global,
        kind: Kind,
        options: Options,
        limits: Limits,
        keys: RandomState,
    ) -> Result<Store, AllocError>
        ensures contents { IfOk result (λ store. contents_of store ≡ []) }
        ensures run { IfOk result (λ store. Run (policy_with kind options) limits [] (contents_of store)) }
        ensures policy { IfOk result (λ store. policy_of_store store ≡ policy_with kind options) }
        ensures limits { IfOk result (λ store. store.limits ≡ limits) }
    {
        let Options { immutable, targets } = options;
        Ok(Store {
            targets: LruCache::unbounded_with_hasher(alloc, keys)?,
            responses: 0,
            bytes: 0,
            limits,
            kind,
            immutable,
            targeted: targets,
            next: 1,
        })
    }
}
