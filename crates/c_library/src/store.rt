//! Caches and passes, behind handles.
ghost use Rattle.std.specs.Prelude.{◌≡◌, ◌≢◌, None};
ghost use Rattle.c_parts.specs.Endings.{Gives, Writes, done};
ghost use Rattle.c_pass.{specs.Caches.{IsExtended, IsPlain, Removes}, specs.Steps.{Comes, Ends as EndsPass, Fails}};
ghost use Rattle.c_pass.specs.Steps.{Receives, Resumes};
ghost use Rattle.c_handles.{specs.Handles.{Opens, pass_in}, specs.Passes.{BeginsThrough, CopiesContent}};
ghost use Rattle.c_handles.specs.Views.{IsSame};
ghost use Rattle.c_handles.specs.Passes.{IsCacheHeld, OnBoth, OnCache, OnPass, ShowsFields, ShowsItsValidation};
ghost use Rattle.c_handles.specs.Passes.{ShowsItsStatus};
ghost use Rattle.c_library.specs.CacheStore.{Ends, TellsNumber, ended};

use crate::giving::give;
use c_handles::{
    Handle, View, begin_pass, close, copy_pass_content, open_cache, open_cache_with, pass_came,
    pass_ended, pass_failed, pass_received, pass_resume, pass_status, pass_validation,
    remove_stored, write_pass_fields,
};
use c_parts::{DONE, Failure, HashKeys, copy_into};
use c_pass::{CacheExtensions, CacheOptions, CacheRequest, PassFacts};
use std::alloc::Global;

// The status of a call that gives nothing else.
pub(crate) fn ended(answer: Result<(), Failure>) -> u8
    ensures { result ≡ ended answer }
{
    match answer {
        Ok(()) => DONE,
        Err(failure) => failure.status(),
    }
}

/// Opens a closed handle with an empty cache. Rejected if the handle is open.
#[unsafe(no_mangle)]
pub extern "C" fn typed_headers_cache_new(
    alloc: Global,
    cache: &mut Handle,
    options: &CacheOptions,
    keys: &HashKeys,
) -> u8
    ensures { Ends (Opens (IsCacheHeld (IsPlain options.now keys.now)) cache.old.held cache.new.held) result }
{
    ended(open_cache(alloc, cache, options, keys))
}

/// Opens a closed handle with an empty cache that does more than RFC 9111. Rejected if the handle is open, or if a
/// line of the targeted fields is no name of a field.
#[unsafe(no_mangle)]
pub extern "C" fn typed_headers_cache_new_with(
    alloc: Global,
    cache: &mut Handle,
    options: &CacheOptions,
    extensions: &CacheExtensions<'_>,
    keys: &HashKeys,
) -> u8
    ensures { Ends (Opens (IsCacheHeld (IsExtended options.now extensions.entry.now keys.now))
        cache.old.held cache.new.held) result }
{
    ended(open_cache_with(alloc, cache, options, extensions, keys))
}

/// Closes a handle, and frees what it has.
#[unsafe(no_mangle)]
pub extern "C" fn typed_headers_cache_free(alloc: Global, cache: &mut Handle) -> u8
    ensures { (result ≡ 0) × (cache.new.held ≡ None) }
{
    close(alloc, cache);
    DONE
}

/// Removes what is stored under a target.
#[unsafe(no_mangle)]
pub extern "C" fn typed_headers_cache_remove(alloc: Global, cache: &mut Handle, target: &[u8]) -> u8
    ensures { Ends (OnCache (Removes target.now) cache.old.held cache.new.held) result }
{
    ended(remove_stored(alloc, cache, target))
}

/// Closes a handle, and frees what it has.
#[unsafe(no_mangle)]
pub extern "C" fn typed_headers_pass_free(alloc: Global, pass: &mut Handle) -> u8
    ensures { (result ≡ 0) × (pass.new.held ≡ None) }
{
    close(alloc, pass);
    DONE
}

/// Opens a closed handle with a pass for a request, and says what is done first (RFC 9111, section 4).
#[unsafe(no_mangle)]
pub extern "C" fn typed_headers_pass_begin(
    alloc: Global,
    cache: &mut Handle,
    pass: &mut Handle,
    request: &CacheRequest<'_>,
    now: u64,
    facts: &mut PassFacts,
) -> u8
    ensures { Gives
        (BeginsThrough request.entry.now now cache.old.held cache.new.held pass.old.held pass.new.held)
        facts.old facts.new result }
{
    give(begin_pass(alloc, cache, pass, request, now), facts)
}

/// Says what is done after a wait.
#[unsafe(no_mangle)]
pub extern "C" fn typed_headers_pass_resume(
    alloc: Global,
    cache: &mut Handle,
    pass: &mut Handle,
    now: u64,
    facts: &mut PassFacts,
) -> u8
    ensures { Gives
        (OnBoth (Resumes now) cache.old.held cache.new.held pass.old.held pass.new.held)
        facts.old facts.new result }
{
    give(pass_resume(alloc, cache, pass, now), facts)
}

/// Says what is done once the status and the fields of the origin's response came.
#[unsafe(no_mangle)]
pub extern "C" fn typed_headers_pass_came(
    alloc: Global,
    cache: &mut Handle,
    pass: &mut Handle,
    status: u16,
    section: &[u8],
    now: u64,
    facts: &mut PassFacts,
) -> u8
    ensures { Gives
        (OnBoth (λ old before new after. Comes now old before new after status section.now)
        cache.old.held cache.new.held
        pass.old.held pass.new.held)
        facts.old facts.new result }
{
    give(pass_came(alloc, cache, pass, status, section, now), facts)
}

/// Says what is done if no response of the origin came.
#[unsafe(no_mangle)]
pub extern "C" fn typed_headers_pass_failed(
    alloc: Global,
    cache: &mut Handle,
    pass: &mut Handle,
    now: u64,
    facts: &mut PassFacts,
) -> u8
    ensures { Gives
        (OnBoth (Fails now) cache.old.held cache.new.held pass.old.held pass.new.held)
        facts.old facts.new result }
{
    give(pass_failed(alloc, cache, pass, now), facts)
}

/// Writes the field lines that the last step takes.
#[unsafe(no_mangle)]
pub extern "C" fn typed_headers_pass_fields(
    pass: &mut View,
    room: &mut [u8],
    written: &mut usize,
) -> u8
    ensures fields { Writes (λ text. text) (λ _. done) (ShowsFields (pass_in pass.old.held))
        room.old room.new written.old written.new result }
    ensures same { IsSame pass.old pass.new }
{
    write_pass_fields(pass, room, written)
}

/// Writes the field lines of the request by which what the pass has sent stale is validated for nobody.
#[unsafe(no_mangle)]
pub extern "C" fn typed_headers_pass_validation(
    alloc: Global,
    pass: &mut View,
    room: &mut [u8],
    written: &mut usize,
) -> u8
    ensures fields { Writes (λ text. text.items) (λ _. done) (ShowsItsValidation (pass_in pass.old.held))
        room.old room.new written.old written.new result }
    ensures same { IsSame pass.old pass.new }
{
    match pass_validation(alloc, pass) {
        Ok(text) => copy_into(text.as_slice(), DONE, room, written),
        Err(failure) => failure.status(),
    }
}

/// Writes the field line of Cache-Status that says what the pass comes to.
#[unsafe(no_mangle)]
pub extern "C" fn typed_headers_pass_status(
    alloc: Global,
    pass: &mut View,
    name: &[u8],
    room: &mut [u8],
    written: &mut usize,
) -> u8
    ensures line { Writes (λ text. text.items) (λ _. done) (ShowsItsStatus name.now (pass_in pass.old.held))
        room.old room.new written.old written.new result }
    ensures same { IsSame pass.old pass.new }
{
    match pass_status(alloc, pass, name) {
        Ok(text) => copy_into(text.as_slice(), DONE, room, written),
        Err(failure) => failure.status(),
    }
}

/// Copies the content of the stored response that the pass sends, from a position on, as much as fits.
#[unsafe(no_mangle)]
pub extern "C" fn typed_headers_pass_content(
    pass: &mut View,
    from: usize,
    room: &mut [u8],
    written: &mut usize,
) -> u8
    ensures copies { Ends (CopiesContent from room.old room.new written.new (pass_in pass.old.held)) result }
    ensures same { IsSame pass.old pass.new }
    ensures failed { result ≢ done → (room.new ≡ room.old) × (written.new ≡ written.old) }
{
    ended(copy_pass_content(pass, from, room, written))
}

/// Keeps a piece of the content of the response that is forwarded, for the store.
#[unsafe(no_mangle)]
pub extern "C" fn typed_headers_pass_received(alloc: Global, pass: &mut Handle, piece: &[u8]) -> u8
    ensures { Ends (OnPass (Receives piece.now) pass.old.held pass.new.held) result }
{
    ended(pass_received(alloc, pass, piece))
}

/// Stores the response that passed on, with the content that came, if it may be stored: its number, or 0 if it isn't
/// stored.
#[unsafe(no_mangle)]
pub extern "C" fn typed_headers_pass_ended(
    alloc: Global,
    cache: &mut Handle,
    pass: &mut Handle,
    is_complete: bool,
    now: u64,
    number: &mut u64,
) -> u8
    ensures { TellsNumber
        (OnBoth (λ old before new after. EndsPass now old before new after is_complete)
        cache.old.held cache.new.held
        pass.old.held pass.new.held) number.old number.new result }
{
    match pass_ended(alloc, cache, pass, is_complete, now) {
        Ok(stored) => {
            *number = stored.unwrap_or(0);
            DONE
        }
        Err(failure) => failure.status(),
    }
}
