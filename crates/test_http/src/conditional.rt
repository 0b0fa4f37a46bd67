//! Calls of the headers of conditional requests.
use crate::Http;
use headers::{ETag, Header, IfMatch, IfNoneMatch, IfRange, LastModified};
use headers_conditional::{into_tag, tag_of};
use std::alloc::{AllocError, Global};
use test_each::{Getters, say, show, show_back_result, show_made};
use test_rows::{Arguments, CaseAnswer, CaseFailure};

impl Getters<Http> for ETag {
    fn getters(&self, answer: &mut CaseAnswer) -> Result<ETag, CaseFailure> {
        answer.word(self.is_weak())?;
        Ok(self.clone(answer.alloc())?)
    }
}

impl Getters<Http> for IfMatch {
    fn getters(&self, answer: &mut CaseAnswer) -> Result<IfMatch, CaseFailure> {
        answer.word(self.is_any())?;
        Ok(self.clone(answer.alloc())?)
    }
}

impl Getters<Http> for IfNoneMatch {
    fn getters(&self, answer: &mut CaseAnswer) -> Result<IfNoneMatch, CaseFailure> {
        Ok(self.clone(answer.alloc())?)
    }
}

impl Getters<Http> for IfRange {
    fn getters(&self, answer: &mut CaseAnswer) -> Result<IfRange, CaseFailure> {
        Ok(self.clone(answer.alloc())?)
    }
}

// A condition on the tags of a target.
trait Condition: Header + From<ETag> + PartialEq {
    fn any() -> Self;

    fn passes(&self, tag: &ETag) -> bool;
}

impl Condition for IfMatch {
    fn any() -> IfMatch {
        IfMatch::any()
    }

    fn passes(&self, tag: &ETag) -> bool {
        self.precondition_passes(tag)
    }
}

impl Condition for IfNoneMatch {
    fn any() -> IfNoneMatch {
        IfNoneMatch::any()
    }

    fn passes(&self, tag: &ETag) -> bool {
        self.precondition_passes(tag)
    }
}

// Whether a condition on one tag passes for another.
fn passes<C: Condition>(alloc: Global, tag: &ETag, other: &ETag) -> Result<bool, AllocError> {
    Ok(C::from(tag.clone(alloc)?).passes(other))
}

// What two tags are to each other, by each condition.
fn compare(arguments: &mut Arguments<'_>, answer: &mut CaseAnswer) -> Result<(), CaseFailure> {
    let alloc = arguments.alloc();
    let first = arguments.tag()?;
    let second = arguments.tag()?;
    answer.word(passes::<IfMatch>(alloc, &first, &second)?)?;
    answer.word(passes::<IfNoneMatch>(alloc, &first, &second)?)?;
    say(
        IfRange::etag(first).is_modified(Some(&second), None),
        answer,
    )
}

// Whether the condition of the lines after a tag passes for it.
fn call_passes<C: Condition>(
    arguments: &mut Arguments<'_>,
    answer: &mut CaseAnswer,
) -> Result<(), CaseFailure> {
    let tag = arguments.tag()?;
    let header: C = arguments.header_of_rest()?;
    say(header.passes(&tag), answer)
}

/// Adds the answer of a call of its own of a condition on tags.
pub fn call_condition(
    kind: &str,
    word: &str,
    arguments: &mut Arguments<'_>,
    answer: &mut CaseAnswer,
) -> Result<(), CaseFailure> {
    match kind {
        "IfMatch" => call_any_condition::<IfMatch>(word, arguments, answer),
        "IfNoneMatch" => call_any_condition::<IfNoneMatch>(word, arguments, answer),
        _ => Err(CaseFailure::NoCall),
    }
}

fn call_any_condition<C: Condition + Getters<Http>>(
    word: &str,
    arguments: &mut Arguments<'_>,
    answer: &mut CaseAnswer,
) -> Result<(), CaseFailure> {
    match word {
        "any" => show_made(C::any(), answer),
        "from_etag" => show_made(C::from(arguments.tag()?), answer),
        "any_passes" => say(C::any().passes(&arguments.tag()?), answer),
        "precondition_passes" => call_passes::<C>(arguments, answer),
        _ => Err(CaseFailure::NoCall),
    }
}

// The tag and the second that a header names.
fn show_named(header: &IfRange, answer: &mut CaseAnswer) -> Result<(), CaseFailure> {
    match header.named_tag(answer.alloc())? {
        Some(tag) => show(&tag, answer)?,
        None => answer.none()?,
    }
    Ok(answer.option(header.named_date())?)
}

// Whether the target with a tag and a second is modified by the header.
fn is_modified(arguments: &mut Arguments<'_>, answer: &mut CaseAnswer) -> Result<(), CaseFailure> {
    let header: IfRange = arguments.header()?;
    let tag = arguments.optional_tag()?;
    let date = arguments.optional_date()?;
    let date = date.map(LastModified::from_unix_secs);
    say(header.is_modified(tag.as_ref(), date.as_ref()), answer)
}

// The opaque part of a tag, and its line.
fn show_parts(tag: ETag, answer: &mut CaseAnswer) -> Result<(), CaseFailure> {
    answer.bytes(tag_of(&tag).view().tag())?;
    Ok(answer.bytes(into_tag(tag).into_value().as_bytes())?)
}

/// Adds the answer of another call of these headers.
pub fn call_conditional(
    name: &str,
    arguments: &mut Arguments<'_>,
    answer: &mut CaseAnswer,
) -> Result<(), CaseFailure> {
    let alloc = arguments.alloc();
    match name {
        "ETag.from_str" => show_back_result(ETag::from_str(alloc, &arguments.text()?), answer),
        "ETag.compare" => compare(arguments, answer),
        "ETag.parts" => show_parts(arguments.tag()?, answer),
        "IfRange.etag" => show_made(IfRange::etag(arguments.tag()?), answer),
        "IfRange.date" => show_made(IfRange::date(arguments.date()?), answer),
        "IfRange.named" => show_named(&arguments.header()?, answer),
        "IfRange.is_modified" => is_modified(arguments, answer),
        _ => Err(CaseFailure::NoCall),
    }
}
