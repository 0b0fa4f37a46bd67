//! Calls of header maps: steps, `canonical`, and a map without room.
use crate::items::show_each;
use headers::{
    Age, ApplyError, Encoded, Header, HeaderMap, HeaderMapExt, HeaderName, HeaderValue,
    InsertError, Location, SetCookie, Step, apply, canonical, decode_values, set_all,
};
use std::alloc::Global;
use test_each::{holds, holds_beginning, is_same};
use test_rows::{Arguments, CaseAnswer, CaseFailure, append_lines};

fn is_numbered(name: &str) -> bool {
    name.starts_with("x-")
}

// Whether two maps have the same lines under the name.
fn has_same(one: &HeaderMap, other: &HeaderMap, name: &HeaderName) -> bool {
    let lines = one.get_all(name);
    let others = other.get_all(name);
    let mut are_same = lines.iter().count() == others.iter().count();
    for (line, other) in lines.iter().zip(others.iter()) {
        are_same = are_same && is_same(line, other);
    }
    are_same
}

// Whether each name of a map has the same lines in another, but for one.
fn has_all_but(one: &HeaderMap, other: &HeaderMap, but: Option<&HeaderName>) -> bool {
    let mut are_same = true;
    for name in one.keys() {
        are_same = are_same && (but == Some(name) || has_same(one, other, name));
    }
    are_same
}

/// Whether two maps have the same lines.
pub fn same_lines(one: &HeaderMap, other: &HeaderMap) -> bool {
    has_all_but(one, other, None) && has_all_but(other, one, None)
}

// Whether a map is as it was before a step that ran out of memory, but for lines of that
// step that may have been begun.
fn is_left(map: &HeaderMap, before: &HeaderMap, step: &Step) -> bool {
    if same_lines(map, before) {
        return true;
    }
    let Step::Put(Encoded { name, lines }) = step else {
        return false;
    };
    holds_beginning(map, name, lines.as_slice())
        && has_all_but(map, before, Some(name))
        && has_all_but(before, map, Some(name))
}

// The same of the step after so many that are done.
fn is_left_by(
    alloc: Global,
    map: &HeaderMap,
    text: &str,
    done: usize,
) -> Result<bool, CaseFailure> {
    let (mut before, steps) = Arguments::new(alloc, text).map_and_steps()?;
    let mut first = Vec::new(alloc);
    let mut left = steps.into_iter();
    for _ in 0..done {
        if let Some(step) = left.next() {
            first.push(step)?;
        }
    }
    if apply(&mut before, first).is_err() {
        return Ok(false);
    }
    match left.next() {
        Some(step) => Ok(is_left(map, &before, &step)),
        None => Ok(false),
    }
}

// How the steps end, and the map that they leave.
fn show_applied(arguments: &mut Arguments<'_>, answer: &mut CaseAnswer) -> Result<(), CaseFailure> {
    let alloc = arguments.alloc();
    let text = arguments.rest();
    let (mut map, steps) = Arguments::new(alloc, text).map_and_steps()?;
    if let Err(ApplyError { done, cause }) = apply(&mut map, steps) {
        if cause == InsertError::Full {
            answer.word(format_args!("(full) {done}"))?;
        } else if is_left_by(alloc, &map, text, done)? {
            return Err(CaseFailure::Memory);
        } else {
            answer.word("(left)")?;
        }
    }
    answer.map(&map)
}

// The map once the fields of all `put` are set together.
fn show_set(arguments: &mut Arguments<'_>, answer: &mut CaseAnswer) -> Result<(), CaseFailure> {
    let (mut map, steps) = arguments.map_and_steps()?;
    let mut fields = Vec::new(arguments.alloc());
    for step in steps {
        let Step::Put(field) = step else {
            return Err(CaseFailure::NoCall);
        };
        fields.push(field)?;
    }
    set_all(&mut map, fields).map_err(|_| CaseFailure::Memory)?;
    answer.map(&map)
}

// Puts the header that the lines encode into the map.
fn insert<H: Header>(
    alloc: Global,
    map: &mut HeaderMap,
    lines: &[HeaderValue],
) -> Result<(), CaseFailure> {
    let header: H = decode_values(alloc, lines)?;
    Ok(map.typed_insert(alloc, header)?)
}

fn insert_named(alloc: Global, map: &mut HeaderMap, encoded: &Encoded) -> Result<(), CaseFailure> {
    match encoded.name.as_str() {
        "age" => insert::<Age>(alloc, map, &encoded.lines),
        "location" => insert::<Location>(alloc, map, &encoded.lines),
        "set-cookie" => insert::<SetCookie>(alloc, map, &encoded.lines),
        _ => Err(CaseFailure::NoCall),
    }
}

// The map once the header of the lines of each `put` is inserted.
fn show_inserted(
    arguments: &mut Arguments<'_>,
    answer: &mut CaseAnswer,
) -> Result<(), CaseFailure> {
    let (mut map, steps) = arguments.map_and_steps()?;
    for step in steps {
        let Step::Put(encoded) = step else {
            return Err(CaseFailure::NoCall);
        };
        insert_named(arguments.alloc(), &mut map, &encoded)?;
    }
    answer.map(&map)
}

// The lines of `canonical`, of a map that has these lines under the header's name.
fn show_canonical<H: Header>(
    arguments: &mut Arguments<'_>,
    answer: &mut CaseAnswer,
) -> Result<(), CaseFailure> {
    let alloc = arguments.alloc();
    let mut map = HeaderMap::new(alloc);
    append_lines(&mut map, &H::name(), arguments.lines()?)?;
    match canonical::<H>(alloc, &map)? {
        Some(encoded) if encoded.name == H::name() => show_each(encoded.lines.as_slice(), answer),
        Some(_) => Ok(answer.word("(name)")?),
        None => Ok(answer.none()?),
    }
}

fn show_canonical_of(
    arguments: &mut Arguments<'_>,
    answer: &mut CaseAnswer,
) -> Result<(), CaseFailure> {
    match arguments.word()? {
        "Age" => show_canonical::<Age>(arguments, answer),
        "Location" => show_canonical::<Location>(arguments, answer),
        "SetCookie" => show_canonical::<SetCookie>(arguments, answer),
        _ => Err(CaseFailure::NoCall),
    }
}

// A name `x-7`, whose line is `7`.
fn numbered(alloc: Global, number: usize) -> Result<(HeaderName, HeaderValue), CaseFailure> {
    let name = format!(in alloc; "x-{number}")?;
    let line = format!(in alloc; "{number}")?;
    let name = Arguments::new(alloc, name.as_str()).name()?;
    let line = HeaderValue::from_string(line)?;
    Ok((name, line))
}

// Adds numbered names until the map is full. How many they are.
fn fill(alloc: Global, map: &mut HeaderMap) -> Result<usize, CaseFailure> {
    for number in 0..100_000usize {
        let (name, line) = numbered(alloc, number)?;
        if map.append(name, line).is_err() {
            return Ok(number);
        }
    }
    Err(CaseFailure::NoCall)
}

// Whether the map has so many numbered names, each with its line and no other.
fn is_filled(alloc: Global, map: &HeaderMap, count: usize) -> Result<bool, CaseFailure> {
    let mut names: usize = 0;
    for name in map.keys() {
        names = names.saturating_add(is_numbered(name.as_str()).into());
    }
    let mut is_filled = names == count;
    for number in 0..count {
        let (name, line) = numbered(alloc, number)?;
        is_filled = is_filled && holds(map, &name, &[line]);
    }
    Ok(is_filled)
}

// What is left of a map that was filled with so many numbered names.
fn show_full(map: &HeaderMap, count: usize, answer: &mut CaseAnswer) -> Result<(), CaseFailure> {
    answer.word(count)?;
    if !is_filled(answer.alloc(), map, count)? {
        answer.word("(changed)")?;
    }
    let mut others: Vec<&str> = map
        .keys()
        .map(|name| name.as_str())
        .filter(|name| !is_numbered(name))
        .collect(answer.alloc())?;
    others.sort_unstable();
    answer.fields(map, others.as_slice())
}

fn apply_full(arguments: &mut Arguments<'_>, answer: &mut CaseAnswer) -> Result<(), CaseFailure> {
    let alloc = arguments.alloc();
    let (mut map, steps) = arguments.map_and_steps()?;
    let count = fill(alloc, &mut map)?;
    match apply(&mut map, steps) {
        Ok(()) => {}
        Err(ApplyError { done, cause }) if cause == InsertError::Full => {
            answer.word(format_args!("(full) {done}"))?;
        }
        Err(_) => return Err(CaseFailure::Memory),
    }
    show_full(&map, count, answer)
}

fn insert_full(arguments: &mut Arguments<'_>, answer: &mut CaseAnswer) -> Result<(), CaseFailure> {
    let alloc = arguments.alloc();
    let age = Age::from_secs(arguments.number()?);
    let mut map = arguments.map()?;
    let count = fill(alloc, &mut map)?;
    match map.typed_insert(alloc, age) {
        Ok(()) => {}
        Err(InsertError::Full) => answer.word("(full)")?,
        Err(InsertError::Memory) => return Err(CaseFailure::Memory),
    }
    show_full(&map, count, answer)
}

// The texts of the errors of a step and of an insert.
fn show_errors(arguments: &mut Arguments<'_>, answer: &mut CaseAnswer) -> Result<(), CaseFailure> {
    let alloc = arguments.alloc();
    let cause = match arguments.word()? {
        "memory" => InsertError::Memory,
        "full" => InsertError::Full,
        _ => return Err(CaseFailure::NoCall),
    };
    let Ok(done) = usize::try_from(arguments.number()?) else {
        return Err(CaseFailure::NoCall);
    };
    answer.bytes(format!(in alloc; "{cause}")?.as_bytes())?;
    let error = ApplyError { done, cause };
    if error != (ApplyError { done, cause }) || error == (ApplyError { done: !done, cause }) {
        answer.word("(equal)")?;
    }
    Ok(answer.bytes(format!(in alloc; "{error}")?.as_bytes())?)
}

/// Adds the answer of a call of a map.
///
/// `apply FIELD.. STEP..`: the map that the steps leave, after `(full) DONE` if it has no room;
/// `apply_full`: the same of a map that is filled with names `x-0`, `x-1` .. first, after their
/// number; `insert_full N FIELD..`: a typed insert of an age in such a map; `typed_insert FIELD.. PUT..`:
/// the map after a typed insert for each `(put:NAME) LINE..`; `set_all FIELD.. PUT..`: the map once all
/// of these fields are set together; `canonical TYPE LINE..`;
/// `errors CAUSE DONE`: how the errors of an insert and of steps are printed.
pub fn call_map(
    call: &str,
    arguments: &mut Arguments<'_>,
    answer: &mut CaseAnswer,
) -> Result<(), CaseFailure> {
    match call {
        "apply" => show_applied(arguments, answer),
        "apply_full" => apply_full(arguments, answer),
        "typed_insert" => show_inserted(arguments, answer),
        "set_all" => show_set(arguments, answer),
        "insert_full" => insert_full(arguments, answer),
        "canonical" => show_canonical_of(arguments, answer),
        "errors" => show_errors(arguments, answer),
        _ => Err(CaseFailure::NoCall),
    }
}
