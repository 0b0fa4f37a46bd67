//! How a cache is made.
ghost use Rattle.std.specs.Prelude.{◌≡◌};
ghost use Rattle.cache_store.specs.Kept.{policy_with};
ghost use Rattle.c_pass.specs.Caches.{IsExtended, IsMade, IsNew, IsPlain, kind_of, limits_of};

use crate::held::Shared;
use crate::names::read_names;
use c_parts::{Failure, HashKeys};
use cache_pass::{Cache, Queue};
use cache_policy::Kind;
use cache_store::{Limits, Options, Store};
use std::alloc::Global;
use std::hash::RandomState;

/// How much a cache stores, and for whom.
#[repr(C)]
#[derive(Clone, Copy)]
pub struct CacheOptions {
    /// How many responses there may be under one target.
    pub variants: usize,
    /// How many responses there may be in all.
    pub responses: usize,
    /// How many bytes there may be in all, of targets, contents and fields.
    pub bytes: usize,
    /// For how many seconds a response is guessed to be fresh at most, if it states no lifetime, or 0 for none.
    pub guess: u64,
    /// Whether it serves several users.
    pub is_shared: bool,
}

/// What a cache does beyond RFC 9111.
#[repr(C)]
#[derive(Clone, Copy)]
pub struct CacheExtensions<'a> {
    /// The names of its targeted fields, one a line, the most applicable first (RFC 9213).
    pub targets: &'a [u8],
    /// Whether `immutable` of a response counts (RFC 8246).
    pub immutable: bool,
    /// For how many seconds a request waits at most for another that asks the origin for the same, or 0 for none
    /// (RFC 9111, section 4).
    pub wait: u64,
}

fn kind_of(is_shared: bool) -> Kind
    ensures { result ≡ kind_of is_shared }
{
    if is_shared {
        Kind::Shared
    } else {
        Kind::Private
    }
}

fn limits_of(options: &CacheOptions) -> Limits
    ensures { result ≡ limits_of options.now }
{
    Limits {
        variants: options.variants,
        responses: options.responses,
        bytes: options.bytes,
    }
}

fn cache_of(
    alloc: Global,
    options: &CacheOptions,
    extended: Options,
    wait: u64,
    keys: &HashKeys,
) -> Result<Shared, Failure>
    ensures { IsMade (IsNew options.now (policy_with (kind_of options.now.is_shared) extended) wait keys.now) result }
{
    // The keys are always given.
    let Ok(state) = RandomState::new(keys) else {
        return Err(Failure::Memory);
    };
    let kind = kind_of(options.is_shared);
    let store = Store::with_options(alloc, kind, extended, limits_of(options), state)?;
    Ok(Shared {
        cache: Cache::new(alloc, store, options.guess)?,
        queue: Queue::new(alloc, wait),
        keys: *keys,
        most: options.bytes,
        guess: options.guess,
    })
}

/// An empty cache. Names of targets and of fields come from outside: so the keys should be random.
pub fn new_cache(alloc: Global, options: &CacheOptions, keys: &HashKeys) -> Result<Shared, Failure>
    ensures { IsPlain options.now keys.now result }
{
    let extended = Options {
        immutable: false,
        targets: Vec::new(alloc),
    };
    cache_of(alloc, options, extended, 0, keys)
}

/// An empty cache that does more than RFC 9111. Rejected if a line of its targeted fields is no name of a field.
pub fn new_cache_with(
    alloc: Global,
    options: &CacheOptions,
    extensions: &CacheExtensions<'_>,
    keys: &HashKeys,
) -> Result<Shared, Failure>
    ensures { IsExtended options.now extensions.entry.now keys.now result }
{
    let extended = Options {
        immutable: extensions.immutable,
        targets: read_names(alloc, extensions.targets)?,
    };
    cache_of(alloc, options, extended, extensions.wait, keys)
}
