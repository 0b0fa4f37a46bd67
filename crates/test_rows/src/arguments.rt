//! The arguments of a call, as words.
ghost use Rattle.std.specs.Prelude.{IfOk, IfSome};
ghost use Rattle.headers_syntax.{specs.Date.IsDated, specs.Durations.IsWholeSeconds};

use crate::failure::CaseFailure;
use crate::word::{NONE, read_bytes};
use headers::{ETag, Header, HeaderName, HeaderValue, decode_values};
use http::Method;
use std::alloc::Global;
use std::ops::Bound;
use std::time::Duration;

/// The first second after the dates of HTTP.
const END_OF_DATES: u64 = 253_402_300_800;

/// The words of a call that aren't taken yet.
#[derive(Clone, Copy)]
pub struct Arguments<'a> {
    alloc: Global,
    pub(crate) rest: &'a str,
}

fn read_value(alloc: Global, word: &str) -> Result<HeaderValue, CaseFailure> {
    Ok(HeaderValue::from_vec(read_bytes(alloc, word)?)?)
}

fn read_number(word: &str) -> Result<u64, CaseFailure> {
    word.parse().map_err(|_| CaseFailure::NoCall)
}

impl<'a> Arguments<'a> {
    /// Makes arguments of the words of a text.
    pub fn new(alloc: Global, rest: &'a str) -> Arguments<'a> {
        Arguments { alloc, rest }
    }

    /// Returns the allocator of the arguments.
    pub fn alloc(&self) -> Global {
        self.alloc
    }

    /// Takes all words that are left, as one text.
    pub fn rest(&mut self) -> &'a str {
        let rest = self.rest;
        self.rest = "";
        rest
    }

    /// Returns whether no word is left.
    pub fn is_empty(&self) -> bool {
        self.rest.is_empty()
    }

    /// Takes the next word. `NoCall` if none is left.
    pub fn word(&mut self) -> Result<&'a str, CaseFailure> {
        let rest = self.rest();
        if rest.is_empty() {
            return Err(CaseFailure::NoCall);
        }
        match rest.split_once(' ') {
            Some((word, others)) => {
                self.rest = others;
                Ok(word)
            }
            None => Ok(rest),
        }
    }

    /// Takes the next word, or `None` if it is `(none)`.
    pub fn option(&mut self) -> Result<Option<&'a str>, CaseFailure> {
        let word = self.word()?;
        Ok(if word == NONE { None } else { Some(word) })
    }

    /// Takes the next word as bytes.
    pub fn bytes(&mut self) -> Result<Vec<u8>, CaseFailure> {
        read_bytes(self.alloc, self.word()?)
    }

    /// Takes the next word as text.
    pub fn text(&mut self) -> Result<String, CaseFailure> {
        String::from_utf8(self.bytes()?).map_err(|_| CaseFailure::NoCall)
    }

    /// Takes the next word as a number.
    pub fn number(&mut self) -> Result<u64, CaseFailure> {
        read_number(self.word()?)
    }

    /// Takes the next word as a number or `(none)`.
    pub fn optional_number(&mut self) -> Result<Option<u64>, CaseFailure> {
        match self.option()? {
            Some(word) => Ok(Some(read_number(word)?)),
            None => Ok(None),
        }
    }

    /// Takes the next word as a port or `(none)`.
    pub fn port(&mut self) -> Result<Option<u16>, CaseFailure> {
        match self.option()? {
            Some(word) => Ok(Some(word.parse().map_err(|_| CaseFailure::NoCall)?)),
            None => Ok(None),
        }
    }

    /// Takes the next word as a time before the year 10000, in seconds since 1970.
    pub fn date(&mut self) -> Result<u64, CaseFailure>
        ensures { IfOk result IsDated }
    {
        let seconds = self.number()?;
        if seconds < END_OF_DATES {
            Ok(seconds)
        } else {
            Err(CaseFailure::NoCall)
        }
    }

    /// Takes the next word as a time before the year 10000, in seconds since 1970, or `(none)`.
    pub fn optional_date(&mut self) -> Result<Option<u64>, CaseFailure>
        ensures { IfOk result (λ found. IfSome found IsDated) }
    {
        match self.optional_number()? {
            Some(seconds) if seconds >= END_OF_DATES => Err(CaseFailure::NoCall),
            found => Ok(found),
        }
    }

    /// Takes the next word as a number of seconds.
    pub fn duration(&mut self) -> Result<Duration, CaseFailure>
        ensures { IfOk result IsWholeSeconds }
    {
        Ok(Duration::from_secs(self.number()?))
    }

    /// Takes the next word as the bound of a range.
    pub fn bound(&mut self) -> Result<Bound<u64>, CaseFailure> {
        let word = self.word()?;
        if let Some(position) = word.strip_prefix('i') {
            return Ok(Bound::Included(read_number(position)?));
        }
        if let Some(position) = word.strip_prefix('e') {
            return Ok(Bound::Excluded(read_number(position)?));
        }
        if word == "u" {
            Ok(Bound::Unbounded)
        } else {
            Err(CaseFailure::NoCall)
        }
    }

    /// Takes the next word as a field name.
    pub fn name(&mut self) -> Result<HeaderName, CaseFailure> {
        Ok(HeaderName::from_bytes(self.alloc, &self.bytes()?)?)
    }

    /// Takes all words that are left as field lines.
    pub fn lines(&mut self) -> Result<Vec<HeaderValue>, CaseFailure> {
        let mut lines = Vec::new(self.alloc);
        for word in self.rest().split_whitespace() {
            lines.push(read_value(self.alloc, word)?)?;
        }
        Ok(lines)
    }

    /// Takes all words that are left as field names.
    pub fn names(&mut self) -> Result<std::vec::IntoIter<HeaderName>, CaseFailure> {
        let mut names = Vec::new(self.alloc);
        for word in self.rest().split_whitespace() {
            let bytes = read_bytes(self.alloc, word)?;
            names.push(HeaderName::from_bytes(self.alloc, &bytes)?)?;
        }
        Ok(names.into_iter())
    }

    /// Takes all words that are left as methods.
    pub fn methods(&mut self) -> Result<std::vec::IntoIter<Method>, CaseFailure> {
        let mut methods = Vec::new(self.alloc);
        for word in self.rest().split_whitespace() {
            let bytes = read_bytes(self.alloc, word)?;
            methods.push(Method::from_bytes(self.alloc, &bytes)?)?;
        }
        Ok(methods.into_iter())
    }

    /// Takes the next word as a field line, and decodes a header of it.
    pub fn header<H: Header>(&mut self) -> Result<H, CaseFailure> {
        let line = read_value(self.alloc, self.word()?)?;
        Ok(decode_values(self.alloc, &[line])?)
    }

    /// Takes all words that are left as field lines, and decodes a header of them.
    pub fn header_of_rest<H: Header>(&mut self) -> Result<H, CaseFailure> {
        Ok(decode_values(self.alloc, &self.lines()?)?)
    }

    /// Takes the next word as an entity tag.
    pub fn tag(&mut self) -> Result<ETag, CaseFailure> {
        self.header()
    }

    /// Takes the next word as an entity tag or `(none)`.
    pub fn optional_tag(&mut self) -> Result<Option<ETag>, CaseFailure> {
        match self.option()? {
            Some(word) => {
                let line = read_value(self.alloc, word)?;
                Ok(Some(decode_values(self.alloc, &[line])?))
            }
            None => Ok(None),
        }
    }
}
