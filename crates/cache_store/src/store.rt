//! The store.
ghost use Rattle.std.specs.Prelude.{◌-◌, ◌^◌, ◌≡◌};
ghost use Rattle.cache_store.specs.{Contents.shown, Room.IsCounted};

use crate::limits::Limits;
use cache_policy::Kind;
use cache_rules::StoredResponse;
use headers::HeaderName;
use lru::LruCache;
use std::hash::RandomState;

/// Stored responses by the URIs of their targets, in bounded memory.
#[derive(Drop)]
pub struct Store {
    pub(crate) targets: LruCache<String, Vec<StoredResponse>, RandomState>,
    pub(crate) responses: usize,
    pub(crate) bytes: usize,
    pub(crate) limits: Limits,
    pub(crate) kind: Kind,
    pub(crate) immutable: bool,
    pub(crate) targeted: Vec<HeaderName>,
    // The number of the next response.
    pub(crate) next: u64,
    pub ghost unbounded: { targets.cap ≡ 2 ^ 64 - 1 },
    pub ghost counted: { IsCounted limits responses bytes next (shown targets.entries) },
}
