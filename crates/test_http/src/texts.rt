//! Calls of the headers that are a number, a date, a text or a single value.
use crate::Http;
use headers::{
    AcceptRanges, AccessControlMaxAge, Age, ContentDisposition, ContentLength, Date, Expect,
    Expires, IfModifiedSince, IfUnmodifiedSince, LastModified, Pragma, Referer, RetryAfter, Server,
    UserAgent,
};
use headers_core::{DateHeader, NamedField, ValueHeader};
use std::time::Duration;
use test_each::{Getters, say, show_back_result, show_made, show_text};
use test_rows::{Arguments, CaseAnswer, CaseFailure};

// `Location` and `ContentLocation`.
impl<N: NamedField> Getters<Http> for ValueHeader<N> {
    fn getters(&self, answer: &mut CaseAnswer) -> Result<ValueHeader<N>, CaseFailure> {
        Ok(self.clone(answer.alloc())?)
    }
}

// `Date`, `Expires` and `LastModified`.
impl<N: NamedField + Copy> Getters<Http> for DateHeader<N> {
    fn getters(&self, answer: &mut CaseAnswer) -> Result<DateHeader<N>, CaseFailure> {
        answer.word(self.unix_secs())?;
        Ok(self.clone()?)
    }
}

impl Getters<Http> for IfModifiedSince {
    fn getters(&self, answer: &mut CaseAnswer) -> Result<IfModifiedSince, CaseFailure> {
        answer.word(self.unix_secs())?;
        Ok(self.clone()?)
    }
}

impl Getters<Http> for IfUnmodifiedSince {
    fn getters(&self, answer: &mut CaseAnswer) -> Result<IfUnmodifiedSince, CaseFailure> {
        answer.word(self.unix_secs())?;
        Ok(self.clone()?)
    }
}

impl Getters<Http> for RetryAfter {
    fn getters(&self, _answer: &mut CaseAnswer) -> Result<RetryAfter, CaseFailure> {
        Ok(self.clone()?)
    }
}

impl Getters<Http> for Age {
    fn getters(&self, answer: &mut CaseAnswer) -> Result<Age, CaseFailure> {
        answer.word(self.as_secs())?;
        answer.word(Duration::from(*self).as_secs())?;
        Ok(self.clone()?)
    }
}

impl Getters<Http> for AccessControlMaxAge {
    fn getters(&self, answer: &mut CaseAnswer) -> Result<AccessControlMaxAge, CaseFailure> {
        answer.word(Duration::from(self.clone()?).as_secs())?;
        Ok(self.clone()?)
    }
}

impl Getters<Http> for ContentLength {
    fn getters(&self, answer: &mut CaseAnswer) -> Result<ContentLength, CaseFailure> {
        answer.word(self.0)?;
        Ok(self.clone()?)
    }
}

impl Getters<Http> for AcceptRanges {
    fn getters(&self, answer: &mut CaseAnswer) -> Result<AcceptRanges, CaseFailure> {
        answer.word(self.is_bytes())?;
        answer.word(self.is_none())?;
        Ok(self.clone(answer.alloc())?)
    }
}

impl Getters<Http> for ContentDisposition {
    fn getters(&self, answer: &mut CaseAnswer) -> Result<ContentDisposition, CaseFailure> {
        answer.word(self.is_inline())?;
        answer.word(self.is_attachment())?;
        answer.word(self.is_form_data())?;
        Ok(self.clone(answer.alloc())?)
    }
}

impl Getters<Http> for Expect {
    fn getters(&self, answer: &mut CaseAnswer) -> Result<Expect, CaseFailure> {
        answer.word(*self == Expect::CONTINUE)?;
        Ok(self.clone()?)
    }
}

impl Getters<Http> for Pragma {
    fn getters(&self, answer: &mut CaseAnswer) -> Result<Pragma, CaseFailure> {
        answer.word(self.is_no_cache())?;
        Ok(self.clone(answer.alloc())?)
    }
}

impl Getters<Http> for Referer {
    fn getters(&self, answer: &mut CaseAnswer) -> Result<Referer, CaseFailure> {
        show_text(self, answer)?;
        Ok(self.clone(answer.alloc())?)
    }
}

impl Getters<Http> for Server {
    fn getters(&self, answer: &mut CaseAnswer) -> Result<Server, CaseFailure> {
        answer.bytes(self.as_str().as_bytes())?;
        show_text(self, answer)?;
        Ok(self.clone(answer.alloc())?)
    }
}

impl Getters<Http> for UserAgent {
    fn getters(&self, answer: &mut CaseAnswer) -> Result<UserAgent, CaseFailure> {
        answer.bytes(self.as_str().as_bytes())?;
        show_text(self, answer)?;
        Ok(self.clone(answer.alloc())?)
    }
}

/// Adds the answer of a call of a date of its own. Its first word is a second.
pub fn call_date(
    name: &str,
    arguments: &mut Arguments<'_>,
    answer: &mut CaseAnswer,
) -> Result<(), CaseFailure> {
    let seconds = arguments.date()?;
    match name {
        "Date.from_unix_secs" => show_made(Date::from_unix_secs(seconds), answer),
        "Expires.from_unix_secs" => show_made(Expires::from_unix_secs(seconds), answer),
        "LastModified.from_unix_secs" => show_made(LastModified::from_unix_secs(seconds), answer),
        "IfModifiedSince.from_unix_secs" => {
            show_made(IfModifiedSince::from_unix_secs(seconds), answer)
        }
        "IfUnmodifiedSince.from_unix_secs" => {
            show_made(IfUnmodifiedSince::from_unix_secs(seconds), answer)
        }
        "IfModifiedSince.is_modified" => {
            let header = IfModifiedSince::from_unix_secs(seconds);
            say(header.is_modified(arguments.number()?), answer)
        }
        "IfUnmodifiedSince.precondition_passes" => {
            let header = IfUnmodifiedSince::from_unix_secs(seconds);
            say(header.precondition_passes(arguments.number()?), answer)
        }
        _ => Err(CaseFailure::NoCall),
    }
}

/// Adds the answer of a call of such a header of its own.
pub fn call_text(
    name: &str,
    arguments: &mut Arguments<'_>,
    answer: &mut CaseAnswer,
) -> Result<(), CaseFailure> {
    let alloc = arguments.alloc();
    match name {
        "AcceptRanges.bytes" => show_made(AcceptRanges::bytes(), answer),
        "AcceptRanges.none" => show_made(AcceptRanges::none(), answer),
        "AccessControlMaxAge.from_duration" => {
            show_made(
                AccessControlMaxAge::from_duration(arguments.duration()?),
                answer,
            )
        }
        "Age.from_secs" => show_made(Age::from_secs(arguments.number()?), answer),
        "Age.from_duration" => show_made(Age::from_duration(arguments.duration()?), answer),
        "ContentDisposition.inline" => show_made(ContentDisposition::inline(), answer),
        "ContentLength.new" => show_made(ContentLength(arguments.number()?), answer),
        "Expect.CONTINUE" => show_made(Expect::CONTINUE, answer),
        "Pragma.no_cache" => show_made(Pragma::no_cache(), answer),
        "RetryAfter.date" => show_made(RetryAfter::date(arguments.date()?), answer),
        "RetryAfter.delay" => show_made(RetryAfter::delay(arguments.duration()?), answer),
        "Referer.from_static" => show_made(Referer::from_static("/a"), answer),
        "Server.from_static" => show_made(Server::from_static("b/1"), answer),
        "UserAgent.from_static" => show_made(UserAgent::from_static("c/2"), answer),
        "Referer.from_str" => show_back_result(
            Referer::from_str(alloc, &arguments.text()?),
            answer,
        ),
        "Server.from_str" => show_back_result(Server::from_str(alloc, &arguments.text()?), answer),
        "UserAgent.from_str" => {
            show_back_result(UserAgent::from_str(alloc, &arguments.text()?), answer)
        }
        _ => Err(CaseFailure::NoCall),
    }
}
