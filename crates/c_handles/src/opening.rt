//! How a handle is opened and closed.
ghost use Rattle.std.specs.Prelude.{◌≡◌, ◌⊎◌, None, Err};
ghost use Rattle.c_parts.specs.declared.status.Failure.TheVariants.{Memory};
ghost use Rattle.c_pass.specs.Caches.{IsExtended, IsPlain};
ghost use Rattle.c_handles.{specs.Handles.Opens, specs.Passes.IsCacheHeld, specs.Policies.IsPolicyHeld};
ghost use Rattle.c_handles.{specs.Resources.IsResourceHeld, specs.Sections.IsSectionHeld};

use crate::handle::Handle;
use crate::held::Held;
use c_decisions::{Rules, read_policy};
use c_parts::{Failure, HashKeys, read_map};
use c_pass::{CacheExtensions, CacheOptions, new_cache, new_cache_with};
use c_resource::{RepresentationParts, ResourceParts, read_resource};
use std::alloc::Global;

/// Opens a closed handle with what was made, or gives the failure. Rejected if the handle is open.
pub fn open(alloc: Global, handle: &mut Handle, made: Result<Held, Failure>) -> Result<(), Failure>
    ensures { Opens (λ answer. (answer ≡ made) ⊎ (answer ≡ Err Memory)) handle.old.held handle.new.held result }
{
    if let Some(held) = handle.take(alloc) {
        handle.put(held);
        return Err(Failure::Refused);
    }
    let held = Box::new(alloc, made?)?;
    handle.put(held);
    Ok(())
}

/// Opens a closed handle with the fields of a section. Names of fields come from outside: so the keys
/// should be random. Rejected also if the handle is open.
pub fn open_section(
    alloc: Global,
    handle: &mut Handle,
    section: &[u8],
    keys: &HashKeys,
) -> Result<(), Failure>
    ensures { Opens (IsSectionHeld section.now) handle.old.held handle.new.held result }
{
    open(
        alloc,
        handle,
        read_map(alloc, section, keys).map(Held::Section),
    )
}

/// Opens a closed handle with the policy of these rules. Rejected also if the handle is open.
pub fn open_policy(alloc: Global, handle: &mut Handle, rules: &Rules<'_>) -> Result<(), Failure>
    ensures { Opens (IsPolicyHeld rules.entry.now) handle.old.held handle.new.held result }
{
    open(alloc, handle, read_policy(alloc, rules).map(Held::Policy))
}

/// Opens a closed handle with what a server knows of a target. Rejected also if the handle is open.
pub fn open_resource(
    alloc: Global,
    handle: &mut Handle,
    parts: &ResourceParts<'_>,
    representations: &[RepresentationParts],
    rules: &Rules<'_>,
) -> Result<(), Failure>
    ensures { Opens (IsResourceHeld parts.entry.now representations.now rules.entry.now)
        handle.old.held handle.new.held result }
{
    let made = read_resource(alloc, parts, representations, rules);
    open(alloc, handle, made.map(Held::Resource))
}

/// Opens a closed handle with an empty cache. Rejected also if the handle is open.
pub fn open_cache(
    alloc: Global,
    handle: &mut Handle,
    options: &CacheOptions,
    keys: &HashKeys,
) -> Result<(), Failure>
    ensures { Opens (IsCacheHeld (IsPlain options.now keys.now)) handle.old.held handle.new.held result }
{
    let made = new_cache(alloc, options, keys);
    open(alloc, handle, made.map(Held::Cache))
}

/// Opens a closed handle with an empty cache that does more than RFC 9111. Rejected also if the handle is open.
pub fn open_cache_with(
    alloc: Global,
    handle: &mut Handle,
    options: &CacheOptions,
    extensions: &CacheExtensions<'_>,
    keys: &HashKeys,
) -> Result<(), Failure>
    ensures { Opens (IsCacheHeld (IsExtended options.now extensions.entry.now keys.now))
        handle.old.held handle.new.held result }
{
    let made = new_cache_with(alloc, options, extensions, keys);
    open(alloc, handle, made.map(Held::Cache))
}

/// Closes a handle, and frees what it has.
pub fn close(alloc: Global, handle: &mut Handle)
    ensures { handle.new.held ≡ None }
{
    drop(handle.take(alloc));
}
