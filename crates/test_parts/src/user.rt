//! Calls of a user's own header and credentials. Fields are written as those of a map.
use crate::map::same_lines;
use headers::authorization::Authorization;
use headers::{HeaderMapExt, InsertError, encoding};
use headers_user::{ForwardError, Forwarded, MaxForwards, forward, key_of};
use test_rows::{Arguments, CaseAnswer, CaseFailure};

/// Adds the map that a typed insert of no limit leaves.
pub fn insert_none(
    arguments: &mut Arguments<'_>,
    answer: &mut CaseAnswer,
) -> Result<(), CaseFailure> {
    let alloc = arguments.alloc();
    let text = arguments.rest();
    let mut map = Arguments::new(alloc, text).map()?;
    let before = Arguments::new(alloc, text).map()?;
    match map.typed_insert(alloc, MaxForwards::none()) {
        Ok(()) => {}
        Err(InsertError::Memory) if same_lines(&map, &before) => {
            return Err(CaseFailure::Memory);
        }
        Err(_) => answer.word("(left)")?,
    }
    answer.map(&map)
}

// What becomes of a request with these fields, and its fields then.
fn show_forwarded(
    arguments: &mut Arguments<'_>,
    answer: &mut CaseAnswer,
) -> Result<(), CaseFailure> {
    let alloc = arguments.alloc();
    let text = arguments.rest();
    let mut map = Arguments::new(alloc, text).map()?;
    let before = Arguments::new(alloc, text).map()?;
    match forward(alloc, &mut map) {
        Ok(Forwarded::Stop) => answer.word("stop")?,
        Ok(Forwarded::Passed(hops)) => answer.word(format_args!("passed {hops}"))?,
        Ok(Forwarded::Unlimited) => answer.word("unlimited")?,
        Err(ForwardError::BadHops) => answer.word(ForwardError::BadHops)?,
        Err(ForwardError::Memory) if same_lines(&map, &before) => {
            return Err(CaseFailure::Memory);
        }
        Err(ForwardError::Memory) => answer.word("(left)")?,
    }
    answer.map(&map)
}

// The key in these fields, and the lines that encode it.
fn show_key(arguments: &mut Arguments<'_>, answer: &mut CaseAnswer) -> Result<(), CaseFailure> {
    let alloc = arguments.alloc();
    let map = arguments.map()?;
    let Some(key) = key_of(alloc, &map)? else {
        return Ok(answer.none()?);
    };
    answer.bytes(key.key().as_bytes())?;
    let encoded = encoding(alloc, &Authorization(key))?;
    for line in &encoded.lines {
        answer.line(line)?;
    }
    Ok(())
}

// How an error is printed: plainly, at a width and a precision, and for a programmer.
fn show_error(error: ForwardError, answer: &mut CaseAnswer) -> Result<(), CaseFailure> {
    let alloc = answer.alloc();
    answer.bytes(format!(in alloc; "{error}")?.as_bytes())?;
    answer.bytes(format!(in alloc; "{error:>40.3}")?.as_bytes())?;
    Ok(answer.bytes(format!(in alloc; "{error:?}")?.as_bytes())?)
}

/// Adds the answer of a call of a user's crate: `forward FIELD..`, `key_of FIELD..`, and
/// `formats NAME`, how an error of `forward` is printed.
pub fn call_user(
    call: &str,
    arguments: &mut Arguments<'_>,
    answer: &mut CaseAnswer,
) -> Result<(), CaseFailure> {
    match call {
        "forward" => show_forwarded(arguments, answer),
        "key_of" => show_key(arguments, answer),
        "formats" => match arguments.word()? {
            "BadHops" => show_error(ForwardError::BadHops, answer),
            "Memory" => show_error(ForwardError::Memory, answer),
            _ => Err(CaseFailure::NoCall),
        },
        _ => Err(CaseFailure::NoCall),
    }
}
