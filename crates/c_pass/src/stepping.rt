//! The steps of a pass.
ghost use Rattle.std.specs.Prelude.{◌≡◌, ◌<◌, ◌&&◌, length, IfErr, IfOk, IsSome, OnErr, Some, None, is_some};
ghost use Rattle.std.{specs.Bool.MatchBool, specs.Prelude.option_map};
ghost use Rattle.cache_pass.specs.Passes.{IsNotPassing};
ghost use Rattle.c_parts.specs.declared.status.Failure.TheVariants.{Memory};
ghost use Rattle.c_pass.specs.Steps.{Begins, Comes, Ends, Fails, IsContentStored, IsSilent, IsUnstarted, Tells};
ghost use Rattle.c_pass.{specs.Caches.IsSameBeside, specs.Steps.{Receives, Resumes, content_with}};
ghost use Rattle.c_pass.{specs.Outcomes.first_outcome, specs.Telling.TakesMemory, specs.Waiting.IsPlaced};
ghost use Rattle.c_pass.specs.declared.held.Place.TheVariants.{Apart};

use crate::held::{Place, Shared, Stepped};
use crate::outcome::{PassOutcome, failed_outcome, first_outcome, next_outcome};
use crate::reading::{CacheRequest, read_target};
use crate::status::{Standing, first_standing};
use crate::telling::{PassFacts, tell, waiting};
use crate::waiting::{ahead, enter, settle};
use bytes::Bytes;
use c_decisions::{read_method, read_status};
use c_parts::{Failure, read_map};
use cache_pass::{First, Pass, Phase};
use cache_rules::Reception;
use std::alloc::{AllocError, Global};
use std::mem::replace;

// Shows no content, and takes no field lines.
fn silence(alloc: Global, stepped: &mut Stepped)
    ensures silent { IsSilent stepped.new }
    ensures rest { stepped.new ≡ record stepped.old { shown = stepped.new.shown; text = stepped.new.text } }
{
    stepped.shown = None;
    stepped.text = Vec::new(alloc);
}

// Tells an outcome, and shows the content of the stored response that is sent.
fn tell_step(
    alloc: Global,
    shared: &Shared,
    stepped: &mut Stepped,
    outcome: PassOutcome,
    now: u64,
) -> Result<PassFacts, Failure>
    ensures pass { stepped.new.pass ≡ stepped.old.pass }
    ensures content { stepped.new.content ≡ stepped.old.content }
    ensures most { stepped.new.most ≡ stepped.old.most }
    ensures place { stepped.new.place ≡ stepped.old.place }
    ensures standing { stepped.new.standing ≡ stepped.old.standing }
    ensures ok { IfOk result (Tells now shared.now stepped.new outcome) }
    ensures err { IfErr result (λ failure. (failure ≡ Memory) × TakesMemory outcome × (stepped.new ≡ stepped.old)) }
{
    let told = tell(alloc, &shared.cache, &stepped.pass, &outcome, now)?;
    stepped.shown = told.shown;
    stepped.text = told.text;
    Ok(told.facts)
}

// A pass that nothing was told of.
fn stepped_at(alloc: Global, pass: Pass, place: Place, standing: Standing) -> Stepped
    ensures pass { result.pass ≡ pass }
    ensures place { result.place ≡ place }
    ensures standing { result.standing ≡ standing }
    ensures content { result.content ≡ None }
    ensures silent { IsSilent result }
{
    Stepped {
        pass,
        shown: None,
        text: Vec::new(alloc),
        content: None,
        most: 0,
        place,
        standing,
    }
}

// Has nothing of an earlier step.
fn restart(alloc: Global, stepped: &mut Stepped)
    ensures pass { stepped.new.pass ≡ stepped.old.pass }
    ensures place { stepped.new.place ≡ Apart }
    ensures content { stepped.new.content ≡ None }
    ensures standing { stepped.new.standing ≡ stepped.old.standing }
    ensures silent { IsSilent stepped.new }
{
    silence(alloc, stepped);
    stepped.content = None;
    stepped.place = Place::Apart;
}

// Tells the first step of a pass, which enters the queue if it asks the origin.
fn tell_first(
    alloc: Global,
    shared: &mut Shared,
    stepped: &mut Stepped,
    first: First,
    now: u64,
) -> Result<PassFacts, Failure>
    ensures pass { stepped.new.pass ≡ stepped.old.pass }
    ensures content { stepped.new.content ≡ None }
    ensures standing { stepped.new.standing ≡ stepped.old.standing }
    ensures cache { shared.new.cache ≡ shared.old.cache }
    ensures beside { IsSameBeside shared.old shared.new }
    ensures ok { IfOk result (λ facts. Tells now shared.new stepped.new (first_outcome first) facts
        × IsPlaced stepped.new.pass now shared.old.queue shared.new.queue stepped.new.place) }
    ensures err { IfErr result (λ failure. (failure ≡ Memory) × IsSilent stepped.new × (stepped.new.place ≡ Apart)
        × IsUnstarted stepped.new.pass now shared.old.queue shared.new.queue (first_outcome first)) }
{
    restart(alloc, stepped);
    let facts = tell_step(alloc, shared, stepped, first_outcome(first), now)?;
    match enter(alloc, &mut shared.queue, &stepped.pass, now) {
        Ok(place) => {
            stepped.place = place;
            Ok(facts)
        }
        Err(AllocError) => {
            silence(alloc, stepped);
            Err(Failure::Memory)
        }
    }
}

/// Begins a pass for a request. It waits if another pass asks the origin for the same, and others may wait for it.
pub fn begin(
    alloc: Global,
    shared: &mut Shared,
    request: &CacheRequest<'_>,
    now: u64,
) -> Result<(Stepped, PassFacts), Failure>
    ensures { Begins request.entry.now now shared.old shared.new result }
{
    let target = read_target(request.target)?;
    let method = read_method(alloc, request.method)?;
    let fields = read_map(alloc, request.section, &shared.keys)?;
    let key = String::from_str(alloc, target)?;
    let mut pass = Pass::new(key, method, fields);
    // A new pass can begin.
    let Ok(begun) = pass.begin(&mut shared.cache, alloc, now) else {
        unreachable!()
    };
    let first = begun?;
    let found = first_standing(shared, &pass, &first, now, None);
    match ahead(&shared.queue, &pass, now) {
        Some(number) => {
            let stepped = stepped_at(alloc, pass.anew(), Place::Waiting(number), found);
            return Ok((stepped, waiting()));
        }
        None => {}
    }
    let mut stepped = stepped_at(alloc, pass, Place::Apart, found);
    let facts = tell_first(alloc, shared, &mut stepped, first, now)?;
    Ok((stepped, facts))
}

/// Begins a pass that waits, once others may wait no longer for the one that it waits for. It never waits again.
pub fn resume(
    alloc: Global,
    shared: &mut Shared,
    stepped: &mut Stepped,
    now: u64,
) -> Result<PassFacts, Failure>
    ensures { Resumes now shared.old stepped.old shared.new stepped.new result }
{
    let Place::Waiting(number) = stepped.place else {
        return Err(Failure::Absent);
    };
    if shared.queue.is_open(number, now) {
        return Ok(waiting());
    }
    match stepped.pass.begin(&mut shared.cache, alloc, now) {
        Ok(Ok(first)) => {
            let earlier = stepped.standing.course;
            stepped.standing = first_standing(shared, &stepped.pass, &first, now, Some(earlier));
            tell_first(alloc, shared, stepped, first, now)
        }
        Ok(Err(AllocError)) => {
            restart(alloc, stepped);
            Err(Failure::Memory)
        }
        Err(_) => Err(Failure::Absent),
    }
}

/// Makes the step of a pass at which the status and the fields of the origin's response came.
pub fn came(
    alloc: Global,
    shared: &mut Shared,
    stepped: &mut Stepped,
    status: u16,
    section: &[u8],
    now: u64,
) -> Result<PassFacts, Failure>
    ensures { Comes now shared.old stepped.old shared.new stepped.new status section.now result }
{
    let status = read_status(status)?;
    let response = read_map(alloc, section, &shared.keys)?;
    match stepped
        .pass
        .came(&mut shared.cache, alloc, status, response, now)
    {
        Ok(next) => {
            stepped.content = Some(Vec::new(alloc));
            stepped.most = shared.most;
            stepped.standing.came = Some(status.as_u16());
            stepped.place = settle(&mut shared.queue, stepped.pass.phase(), stepped.place);
            silence(alloc, stepped);
            tell_step(alloc, shared, stepped, next_outcome(next?), now)
        }
        Err(_) => Err(Failure::Absent),
    }
}

/// Makes the step of a pass at which no response of the origin came.
pub fn failed(
    alloc: Global,
    shared: &mut Shared,
    stepped: &mut Stepped,
    now: u64,
) -> Result<PassFacts, Failure>
    ensures { Fails now shared.old stepped.old shared.new stepped.new result }
{
    match stepped.pass.failed(&mut shared.cache, alloc, now) {
        Ok(found) => {
            stepped.place = settle(&mut shared.queue, stepped.pass.phase(), stepped.place);
            silence(alloc, stepped);
            tell_step(alloc, shared, stepped, failed_outcome(found?), now)
        }
        Err(_) => Err(Failure::Absent),
    }
}

// Whether a response is forwarded that is to be stored.
fn is_passing(pass: &Pass) -> bool
    ensures { MatchBool result (¬ (IsNotPassing pass.now.phase)) (IsNotPassing pass.now.phase) }
{
    match pass.phase() {
        Phase::Passing(_, _, _) => true,
        _ => false,
    }
}

// The content with a piece more, if that isn't more than so many bytes. Out of memory only for a byte more.
fn content_with(
    mut content: Vec<u8>,
    piece: &[u8],
    most: usize,
) -> Result<Option<Vec<u8>>, AllocError>
    ensures kept { IfOk result (λ kept.
        option_map (λ bytes. bytes.items) kept ≡ content_with most piece.now (Some content.items)) }
    ensures memory { OnErr result ((0 < length piece.now)
        × IsSome (content_with most piece.now (Some content.items))) }
{
    if most < content.len() || most - content.len() < piece.len() {
        return Ok(None);
    }
    if !piece.is_empty() {
        content.extend_from_slice(piece)?;
    }
    Ok(Some(content))
}

/// Keeps a piece of the content of the response that is forwarded, for the store.
pub fn received(stepped: &mut Stepped, piece: &[u8]) -> Result<(), Failure>
    ensures { Receives piece.now stepped.old stepped.new result }
{
    if !is_passing(&stepped.pass) {
        return Err(Failure::Absent);
    }
    if let Some(content) = replace(&mut stepped.content, None) {
        stepped.content = content_with(content, piece, stepped.most)?;
    }
    Ok(())
}

// What is stored of the content that was kept, and whether memory ran out for it: then as if not all of it came.
fn content_stored(content: Option<Vec<u8>>, is_complete: bool) -> (Bytes, Reception, bool)
    ensures { IsContentStored (option_map (λ bytes. bytes.items) content) (is_complete && is_some content) result.2
        result.0 result.1 }
{
    match content {
        Some(mut content) if is_complete => {
            content.shrink_to_fit();
            match Bytes::from_vec(content) {
                Ok(shared) => (shared, Reception::Complete, false),
                Err(_) => (Bytes::new(), Reception::Incomplete, true),
            }
        }
        _ => (Bytes::new(), Reception::Incomplete, false),
    }
}

/// Makes the last step of a pass, with the content that came of the response that passed on.
pub fn ended(
    alloc: Global,
    shared: &mut Shared,
    stepped: &mut Stepped,
    is_complete: bool,
    now: u64,
) -> Result<Option<u64>, Failure>
    ensures { Ends now shared.old stepped.old shared.new stepped.new is_complete result }
{
    if !is_passing(&stepped.pass) {
        return Err(Failure::Absent);
    }
    let (content, reception, is_lost) = content_stored(
        replace(&mut stepped.content, None),
        is_complete,
    );
    match stepped
        .pass
        .ended(&mut shared.cache, alloc, content, reception, now)
    {
        Ok(number) => {
            stepped.place = settle(&mut shared.queue, stepped.pass.phase(), stepped.place);
            if is_lost {
                return Err(Failure::Memory);
            }
            Ok(number?)
        }
        Err(_) => unreachable!(),
    }
}
