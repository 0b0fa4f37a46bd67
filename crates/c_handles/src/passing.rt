//! The handles of a cache and of its passes.
ghost use Rattle.std.specs.Prelude.{◌≡◌, IsErr, Some};
ghost use Rattle.c_parts.specs.Endings.{Writes, done};
ghost use Rattle.c_pass.{specs.Caches.Removes, specs.Steps.{Begins, Comes, Ends, Fails, Receives}};
ghost use Rattle.c_pass.specs.Steps.{Resumes};
ghost use Rattle.c_handles.{specs.Handles.pass_in, specs.Passes.{BeginsThrough, CopiesContent, OnBoth, OnCache}};
ghost use Rattle.c_handles.{specs.Passes.{OnPass, ShowsFields, ShowsItsStatus, ShowsItsValidation}, specs.Views.IsSame};

use crate::handle::Handle;
use crate::held::Held;
use crate::view::{Lent, View};
use c_parts::{DONE, Failure, copy_into};
use c_pass::{CacheRequest, PassFacts, Stepped, copy_content, status_line, validation_text};
use std::alloc::Global;

fn begin_in(
    alloc: Global,
    cache: &mut Held,
    request: &CacheRequest<'_>,
    now: u64,
) -> Result<(Stepped, PassFacts), Failure>
    ensures { OnCache (Begins request.entry.now now) (Some cache.old) (Some cache.new)
        result }
{
    match cache {
        Held::Cache(shared) => c_pass::begin(alloc, shared, request, now),
        _ => Err(Failure::Absent),
    }
}

fn resume_in(
    alloc: Global,
    cache: &mut Held,
    pass: &mut Held,
    now: u64,
) -> Result<PassFacts, Failure>
    ensures { OnBoth (Resumes now) (Some cache.old) (Some cache.new) (Some pass.old) (Some pass.new) result }
{
    let Held::Cache(shared) = cache else {
        return Err(Failure::Absent);
    };
    let Held::Pass(stepped) = pass else {
        return Err(Failure::Absent);
    };
    c_pass::resume(alloc, shared, stepped, now)
}

fn came_in(
    alloc: Global,
    cache: &mut Held,
    pass: &mut Held,
    status: u16,
    section: &[u8],
    now: u64,
) -> Result<PassFacts, Failure>
    ensures { OnBoth (λ old before new after. Comes now old before new after status section.now)
        (Some cache.old) (Some cache.new)
        (Some pass.old) (Some pass.new) result }
{
    let Held::Cache(shared) = cache else {
        return Err(Failure::Absent);
    };
    let Held::Pass(stepped) = pass else {
        return Err(Failure::Absent);
    };
    c_pass::came(alloc, shared, stepped, status, section, now)
}

fn failed_in(
    alloc: Global,
    cache: &mut Held,
    pass: &mut Held,
    now: u64,
) -> Result<PassFacts, Failure>
    ensures { OnBoth (Fails now) (Some cache.old) (Some cache.new) (Some pass.old) (Some pass.new) result }
{
    let Held::Cache(shared) = cache else {
        return Err(Failure::Absent);
    };
    let Held::Pass(stepped) = pass else {
        return Err(Failure::Absent);
    };
    c_pass::failed(alloc, shared, stepped, now)
}

fn received_in(pass: &mut Held, piece: &[u8]) -> Result<(), Failure>
    ensures { OnPass (Receives piece.now) (Some pass.old) (Some pass.new) result }
{
    match pass {
        Held::Pass(stepped) => c_pass::received(stepped, piece),
        _ => Err(Failure::Absent),
    }
}

fn ended_in(
    alloc: Global,
    cache: &mut Held,
    pass: &mut Held,
    is_complete: bool,
    now: u64,
) -> Result<Option<u64>, Failure>
    ensures { OnBoth (λ old before new after. Ends now old before new after is_complete)
        (Some cache.old) (Some cache.new)
        (Some pass.old) (Some pass.new) result }
{
    let Held::Cache(shared) = cache else {
        return Err(Failure::Absent);
    };
    let Held::Pass(stepped) = pass else {
        return Err(Failure::Absent);
    };
    c_pass::ended(alloc, shared, stepped, is_complete, now)
}

/// Opens a closed handle with a pass for a request, and makes its first step.
pub fn begin_pass(
    alloc: Global,
    cache: &mut Handle,
    pass: &mut Handle,
    request: &CacheRequest<'_>,
    now: u64,
) -> Result<PassFacts, Failure>
    ensures { BeginsThrough request.entry.now now cache.old.held cache.new.held pass.old.held pass.new.held result }
{
    if let Some(held) = pass.take(alloc) {
        pass.put(held);
        return Err(Failure::Refused);
    }
    let Some(mut held) = cache.take(alloc) else {
        return Err(Failure::Absent);
    };
    let begun = begin_in(alloc, &mut held, request, now);
    cache.put(held);
    let (stepped, facts) = begun?;
    match Box::new(alloc, Held::Pass(stepped)) {
        Ok(held) => {
            pass.put(held);
            Ok(facts)
        }
        Err(_) => Err(Failure::Memory),
    }
}

/// Begins a pass that waits, if it need wait no longer.
pub fn pass_resume(
    alloc: Global,
    cache: &mut Handle,
    pass: &mut Handle,
    now: u64,
) -> Result<PassFacts, Failure>
    ensures { OnBoth (Resumes now) cache.old.held cache.new.held pass.old.held pass.new.held result }
{
    let Some(mut shared) = cache.take(alloc) else {
        return Err(Failure::Absent);
    };
    let Some(mut stepped) = pass.take(alloc) else {
        cache.put(shared);
        return Err(Failure::Absent);
    };
    let facts = resume_in(alloc, &mut shared, &mut stepped, now);
    cache.put(shared);
    pass.put(stepped);
    facts
}

/// Makes the step of a pass at which the status and the fields of the origin's response came.
pub fn pass_came(
    alloc: Global,
    cache: &mut Handle,
    pass: &mut Handle,
    status: u16,
    section: &[u8],
    now: u64,
) -> Result<PassFacts, Failure>
    ensures { OnBoth (λ old before new after. Comes now old before new after status section.now)
        cache.old.held cache.new.held
        pass.old.held pass.new.held result }
{
    let Some(mut shared) = cache.take(alloc) else {
        return Err(Failure::Absent);
    };
    let Some(mut stepped) = pass.take(alloc) else {
        cache.put(shared);
        return Err(Failure::Absent);
    };
    let facts = came_in(alloc, &mut shared, &mut stepped, status, section, now);
    cache.put(shared);
    pass.put(stepped);
    facts
}

/// Makes the step of a pass at which no response of the origin came.
pub fn pass_failed(
    alloc: Global,
    cache: &mut Handle,
    pass: &mut Handle,
    now: u64,
) -> Result<PassFacts, Failure>
    ensures { OnBoth (Fails now) cache.old.held cache.new.held pass.old.held pass.new.held result }
{
    let Some(mut shared) = cache.take(alloc) else {
        return Err(Failure::Absent);
    };
    let Some(mut stepped) = pass.take(alloc) else {
        cache.put(shared);
        return Err(Failure::Absent);
    };
    let facts = failed_in(alloc, &mut shared, &mut stepped, now);
    cache.put(shared);
    pass.put(stepped);
    facts
}

/// Keeps a piece of the content of the response that is forwarded, for the store.
pub fn pass_received(alloc: Global, pass: &mut Handle, piece: &[u8]) -> Result<(), Failure>
    ensures { OnPass (Receives piece.now) pass.old.held pass.new.held result }
{
    let Some(mut stepped) = pass.take(alloc) else {
        return Err(Failure::Absent);
    };
    let received = received_in(&mut stepped, piece);
    pass.put(stepped);
    received
}

/// Makes the last step of a pass, with the content that came of the response that passed on.
pub fn pass_ended(
    alloc: Global,
    cache: &mut Handle,
    pass: &mut Handle,
    is_complete: bool,
    now: u64,
) -> Result<Option<u64>, Failure>
    ensures { OnBoth (λ old before new after. Ends now old before new after is_complete)
        cache.old.held cache.new.held
        pass.old.held pass.new.held result }
{
    let Some(mut shared) = cache.take(alloc) else {
        return Err(Failure::Absent);
    };
    let Some(mut stepped) = pass.take(alloc) else {
        cache.put(shared);
        return Err(Failure::Absent);
    };
    let number = ended_in(alloc, &mut shared, &mut stepped, is_complete, now);
    cache.put(shared);
    pass.put(stepped);
    number
}

fn copy_in(lent: &Lent, from: usize, room: &mut [u8], written: &mut usize) -> Result<(), Failure>
    ensures copies { CopiesContent from room.old room.new written.new (pass_in lent.now.loan.held) result }
    ensures failed { IsErr result → (room.new ≡ room.old) × (written.new ≡ written.old) }
{
    match lent.pass() {
        Some(stepped) => copy_content(stepped, from, room, written),
        None => Err(Failure::Absent),
    }
}

/// Copies the content of the stored response that the last step of a pass named to the front of the room: from a
/// position on, and as much as fits.
pub fn copy_pass_content(
    pass: &mut View,
    from: usize,
    room: &mut [u8],
    written: &mut usize,
) -> Result<(), Failure>
    ensures same { IsSame pass.old pass.new }
    ensures copies { CopiesContent from room.old room.new written.new (pass_in pass.old.held) result }
    ensures failed { IsErr result → (room.new ≡ room.old) × (written.new ≡ written.old) }
{
    let lent = pass.take();
    let copied = copy_in(&lent, from, room, written);
    pass.put(lent);
    copied
}

fn write_in(lent: &Lent, room: &mut [u8], written: &mut usize) -> u8
    ensures { Writes (λ text. text) (λ _. done) (ShowsFields (pass_in lent.now.loan.held))
        room.old room.new written.old written.new result }
{
    match lent.pass() {
        Some(stepped) => copy_into(stepped.text.as_slice(), DONE, room, written),
        None => Failure::Absent.status(),
    }
}

/// Writes the field lines that the last step of a pass takes.
pub fn write_pass_fields(pass: &mut View, room: &mut [u8], written: &mut usize) -> u8
    ensures same { IsSame pass.old pass.new }
    ensures fields { Writes (λ text. text) (λ _. done) (ShowsFields (pass_in pass.old.held))
        room.old room.new written.old written.new result }
{
    let lent = pass.take();
    let status = write_in(&lent, room, written);
    pass.put(lent);
    status
}

fn validation_in(alloc: Global, lent: &Lent) -> Result<Vec<u8>, Failure>
    ensures { ShowsItsValidation (pass_in lent.now.loan.held) result }
{
    match lent.pass() {
        Some(stepped) => validation_text(alloc, stepped),
        None => Err(Failure::Absent),
    }
}

/// The field lines of the request by which what a pass has sent stale is validated for nobody.
pub fn pass_validation(alloc: Global, pass: &mut View) -> Result<Vec<u8>, Failure>
    ensures same { IsSame pass.old pass.new }
    ensures text { ShowsItsValidation (pass_in pass.old.held) result }
{
    let lent = pass.take();
    let text = validation_in(alloc, &lent);
    pass.put(lent);
    text
}

fn status_in(alloc: Global, lent: &Lent, name: &[u8]) -> Result<Vec<u8>, Failure>
    ensures { ShowsItsStatus name.now (pass_in lent.now.loan.held) result }
{
    match lent.pass() {
        Some(stepped) => status_line(alloc, stepped, name),
        None => Err(Failure::Absent),
    }
}

/// The field line of Cache-Status that says what a pass comes to, by a cache of this name.
pub fn pass_status(alloc: Global, pass: &mut View, name: &[u8]) -> Result<Vec<u8>, Failure>
    ensures same { IsSame pass.old pass.new }
    ensures text { ShowsItsStatus name.now (pass_in pass.old.held) result }
{
    let lent = pass.take();
    let text = status_in(alloc, &lent, name);
    pass.put(lent);
    text
}

fn remove_in(alloc: Global, cache: &mut Held, target: &[u8]) -> Result<(), Failure>
    ensures { OnCache (Removes target.now) (Some cache.old) (Some cache.new) result }
{
    match cache {
        Held::Cache(shared) => c_pass::remove(alloc, shared, target),
        _ => Err(Failure::Absent),
    }
}

/// Removes what is stored under a target.
pub fn remove_stored(alloc: Global, cache: &mut Handle, target: &[u8]) -> Result<(), Failure>
    ensures { OnCache (Removes target.now) cache.old.held cache.new.held result }
{
    let Some(mut held) = cache.take(alloc) else {
        return Err(Failure::Absent);
    };
    let removed = remove_in(alloc, &mut held, target);
    cache.put(held);
    removed
}
