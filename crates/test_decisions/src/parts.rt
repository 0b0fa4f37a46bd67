//! The calls of a store of parts.
use crate::store::{
    StoreRequest, add_fields, add_stored, method, read_came, read_limits, read_options, status,
};
use cache_rules::{Reception, StoredResponse};
use cache_store::parts::{PartAnswer, PartLookup, PartStore, Recorded};
use cache_store::{LookupTimes, Options, Store};
use std::alloc::Global;
use std::hash::RandomState;
use test_rows::{Arguments, CaseAnswer, CaseFailure};

/// The settings of a cache: a store without a part.
pub fn new_parts(alloc: Global, keys: RandomState, limits: &str) -> Result<PartStore, CaseFailure> {
    let mut arguments = Arguments::new(alloc, limits);
    let (kind, limits) = read_limits(&mut arguments)?;
    let options = if arguments.is_empty() {
        Options {
            immutable: false,
            targets: Vec::new(alloc),
        }
    } else {
        read_options(alloc, &mut arguments)?
    };
    Ok(PartStore::new(alloc, kind, options, limits, keys)?)
}

// A whole goes into the ordinary store.
fn add_whole(
    store: &mut Store,
    target: &str,
    whole: StoredResponse,
    answer: &mut CaseAnswer,
) -> Result<(), CaseFailure> {
    answer.word("whole")?;
    add_stored(&whole, answer)?;
    let stored = store.store(answer.alloc(), target, whole, Reception::Complete)?;
    if stored.is_none() {
        answer.word("unstored")?;
    }
    Ok(())
}

// A response, and its request: what becomes of it. A whole is stored in the ordinary store.
fn call_record(
    parts: &mut PartStore,
    store: &mut Store,
    target: &str,
    reception: Reception,
    arguments: &mut Arguments<'_>,
    answer: &mut CaseAnswer,
) -> Result<(), CaseFailure> {
    let came = read_came(arguments)?;
    match parts.record(answer.alloc(), target, came, reception)? {
        Recorded::Unstored => Ok(answer.word("unstored")?),
        Recorded::Stored => Ok(answer.word("stored")?),
        Recorded::Whole(whole) => add_whole(store, target, whole, answer),
        Recorded::Once(once) => {
            answer.word("once")?;
            add_stored(&once, answer)
        }
    }
}

// A 206: the bytes, and the fields.
fn add_part_answer(
    parts: &PartStore,
    target: &str,
    found: &PartAnswer,
    answer: &mut CaseAnswer,
) -> Result<(), CaseFailure> {
    answer.word("serve")?;
    match parts.bytes(answer.alloc(), target, found.number, &found.part) {
        Some(bytes) => answer.bytes(bytes)?,
        None => answer.none()?,
    }
    add_fields(&found.fields, answer)
}

// NOW MOST METHOD REQUEST: what is done with a request.
fn call_look_up_part(
    parts: &mut PartStore,
    target: &str,
    arguments: &mut Arguments<'_>,
    answer: &mut CaseAnswer,
) -> Result<(), CaseFailure> {
    let times = LookupTimes {
        now: arguments.number()?,
        longest_guess: arguments.number()?,
    };
    let asked = StoreRequest::read(arguments)?;
    match parts.lookup(answer.alloc(), target, &asked.head(), times)? {
        PartLookup::Serve(found) => add_part_answer(parts, target, &found, answer),
        PartLookup::Complete(fields) => {
            answer.word("complete")?;
            add_fields(&fields, answer)
        }
        PartLookup::Unavailable => Ok(answer.word("unavailable")?),
        PartLookup::Forward => Ok(answer.word("forward")?),
    }
}

// Above each number that a history's parts have.
const NUMBERS: u64 = 32;

// The part of a target with the least number, or `(none)`.
fn call_part(parts: &PartStore, target: &str, answer: &mut CaseAnswer) -> Result<(), CaseFailure> {
    for number in 1..NUMBERS {
        if let Some(part) = parts.response(target, number) {
            return add_stored(part, answer);
        }
    }
    Ok(answer.none()?)
}

// METHOD STATUS: the first part that is left under the target.
fn call_invalidate_parts(
    parts: &mut PartStore,
    target: &str,
    arguments: &mut Arguments<'_>,
    answer: &mut CaseAnswer,
) -> Result<(), CaseFailure> {
    let (method, status) = (method(arguments)?, status(arguments)?);
    parts.invalidate(answer.alloc(), target, &method, status);
    call_part(parts, target, answer)
}

/// Makes a call of a store of parts, and adds its answer.
pub fn make_part_call(
    parts: &mut PartStore,
    store: &mut Store,
    name: &str,
    target: &str,
    arguments: &mut Arguments<'_>,
    answer: &mut CaseAnswer,
) -> Result<(), CaseFailure> {
    match name {
        "record" => call_record(parts, store, target, Reception::Complete, arguments, answer),
        "record_incomplete" => call_record(
            parts,
            store,
            target,
            Reception::Incomplete,
            arguments,
            answer,
        ),
        "look_up_part" => call_look_up_part(parts, target, arguments, answer),
        "part" => call_part(parts, target, answer),
        "invalidate_parts" => call_invalidate_parts(parts, target, arguments, answer),
        "remove_parts" => {
            parts.remove(answer.alloc(), target);
            call_part(parts, target, answer)
        }
        _ => Err(CaseFailure::NoCall),
    }
}
