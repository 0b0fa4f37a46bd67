//! Calls of the parts of lines: entity tags and texts.
use headers::{Error, HeaderValue, Refused};
use headers_core::EntityTagRange;
use headers_syntax::{EntityTag, EntityTagRef, HeaderValueString, trim};
use std::alloc::AllocError;
use std::cmp::Ordering;
use test_rows::{Arguments, CaseAnswer, CaseFailure};

fn tag(arguments: &mut Arguments<'_>) -> Result<EntityTag, CaseFailure> {
    let line = HeaderValue::from_vec(arguments.bytes()?)?;
    EntityTag::from_owned(line).ok_or(CaseFailure::Refused)
}

fn show_parts(bytes: &[u8], answer: &mut CaseAnswer) -> Result<(), CaseFailure> {
    let tag = EntityTagRef::parse(bytes).ok_or(CaseFailure::Refused)?;
    answer.word(tag.is_weak())?;
    Ok(answer.bytes(tag.tag())?)
}

fn compare(arguments: &mut Arguments<'_>, answer: &mut CaseAnswer) -> Result<(), CaseFailure> {
    let one = tag(arguments)?;
    let other = tag(arguments)?;
    answer.word(one.view().strong_eq(&other.view()))?;
    Ok(answer.word(one.view().weak_eq(&other.view()))?)
}

// Whether a tag that is copied off its line is weak, and its encoding.
fn show_copy(arguments: &mut Arguments<'_>, answer: &mut CaseAnswer) -> Result<(), CaseFailure> {
    let alloc = arguments.alloc();
    let line = HeaderValue::from_vec(arguments.bytes()?)?;
    let tag = EntityTag::from_val(alloc, &line)?.ok_or(CaseFailure::Refused)?;
    if tag.clone(alloc)? != tag {
        answer.word("(copy)")?;
    }
    answer.word(tag.view().is_weak())?;
    Ok(answer.bytes(tag.into_value().as_bytes())?)
}

/// Adds the answer of a call of entity tags: `parts TEXT`, whether the tag is weak, and its opaque
/// part; `compare TAG TAG`, strongly and weakly; `copy LINE`, of a tag of its own whether it is weak,
/// and its line.
pub fn call_tag(
    call: &str,
    arguments: &mut Arguments<'_>,
    answer: &mut CaseAnswer,
) -> Result<(), CaseFailure> {
    match call {
        "parts" => show_parts(&arguments.bytes()?, answer),
        "compare" => compare(arguments, answer),
        "copy" => show_copy(arguments, answer),
        _ => Err(CaseFailure::NoCall),
    }
}

/// Adds whether the tag of `matches TAG LINE..` is one of those that the lines name, strongly and
/// weakly.
pub fn call_tag_range(
    call: &str,
    arguments: &mut Arguments<'_>,
    answer: &mut CaseAnswer,
) -> Result<(), CaseFailure> {
    if call != "matches" {
        return Err(CaseFailure::NoCall);
    }
    let tag = tag(arguments)?;
    let lines = arguments.lines()?;
    let range = EntityTagRange::from_lines(arguments.alloc(), &mut lines.iter())?;
    answer.word(range.matches_strong(&tag))?;
    Ok(answer.word(range.matches_weak(&tag))?)
}

fn text(arguments: &mut Arguments<'_>) -> Result<HeaderValueString, CaseFailure> {
    let text = arguments.text()?;
    Ok(HeaderValueString::from_str(arguments.alloc(), text.as_str())?)
}

// How an error is printed: of invalid input, or if an allocation fails.
fn refusal(arguments: &mut Arguments<'_>, answer: &mut CaseAnswer) -> Result<(), CaseFailure> {
    let refused: Refused<Error> = match arguments.word() {
        Ok("memory") => Refused::Memory(AllocError),
        Ok(_) => return Err(CaseFailure::NoCall),
        Err(_) => Refused::from(Error::invalid()),
    };
    Ok(answer.bytes(refused.to_string(answer.alloc())?.as_bytes())?)
}

/// Adds the answer of a call of texts: `trim TEXT`; `cmp TEXT TEXT`, how two are ordered; `refusal` and
/// `refusal memory`, how one is printed.
pub fn call_text(
    call: &str,
    arguments: &mut Arguments<'_>,
    answer: &mut CaseAnswer,
) -> Result<(), CaseFailure> {
    match call {
        "refusal" => refusal(arguments, answer),
        "trim" => Ok(answer.bytes(trim(&arguments.bytes()?))?),
        "cmp" => {
            let order = match text(arguments)?.cmp(&text(arguments)?) {
                Ordering::Less => "less",
                Ordering::Equal => "equal",
                Ordering::Greater => "greater",
            };
            Ok(answer.word(order)?)
        }
        _ => Err(CaseFailure::NoCall),
    }
}
