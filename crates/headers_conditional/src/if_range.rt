//! The header `if-range`.
ghost use Rattle.std.{specs.Prelude.{◌≡◌, ◌↔◌, ℕ, true, Some, IsTrue, IfOk, option_map}, specs.Bool.MatchBool};
ghost use Rattle.http_header.specs.FieldValue.{FieldValue};
ghost use Rattle.headers_syntax.{specs.Date.{IsDated, date, fixdate}, specs.EntityTag.is_tag, specs.HeaderLaws.ReadsBy};
ghost use Rattle.headers_syntax.specs.HeaderLaws.{written_by};
ghost use Rattle.headers_conditional.{specs.IfRange.if_range_grammar, specs.Validator.{Tag, Second, unmarked}};
ghost use Rattle.headers_conditional.specs.Validator.{validator, IsModified, ValidatorMatches, named_tag, named_second};

use crate::etag::{ETag, into_tag, tag_of};
use crate::last_modified::LastModified;
use headers_core::{
    AsHeaderValue, Date1, EntityTag, Error, FieldForm, FormHeader, Header, Refused, first,
};
use http_header::{HeaderName, HeaderValue, IF_RANGE};
use std::alloc::{AllocError, Global};
use std::marker::Model;

/// The header `If-Range`: ranges are wanted only if this tag or date is that of the representation,
/// else all of it (RFC 9110, section 13.1.5). The first field line is decoded: an entity tag, or
/// else a date from 1970 to 9999. `decode` rejects any other value, and may run out of memory.
/// Headers are compared by the bytes of the tag, or by the date.
#[derive(Debug, Drop, PartialEq)]
pub struct IfRange {
    named: Named,
}

#[derive(Debug, Drop, PartialEq)]
enum Named {
    Tag(EntityTag),
    Date(Date1),
}

impl Model for IfRange {
    ghost use Rattle.headers_conditional.specs.Validator.{Validator};

    ghost Value = { Validator };

    ghost use Rattle.headers_conditional.specs.ValidatorView.{validator_of, named_of, named_of-validator_of};

    ghost view = { λ own. validator_of own.named };

    ghost inverse = { λ value. record { named = named_of value } };

    ghost inverse_ok = { λ own _. named_of-validator_of own };
}

impl IfRange {
    /// Makes a header of an entity tag.
    pub fn etag(tag: ETag) -> IfRange
        ensures { result ≡ Tag tag }
    {
        IfRange {
            named: Named::Tag(into_tag(tag)),
        }
    }

    /// Makes a header of a modification time, in seconds since 1970. The caller must show that it
    /// is before the year 10000.
    pub fn date(secs: u64) -> IfRange
        requires { IsDated secs }
        ensures { result ≡ Second secs }
    {
        IfRange {
            named: Named::Date(Date1::from_unix_secs(secs)),
        }
    }

    /// Returns whether a representation with this entity tag and modification time matches (RFC 9110,
    /// section 13.1.5). A tag matches a strongly equal tag. A date matches exactly that time, which
    /// must be a strong validator (section 8.8.2.2); if it is none, the caller passes no time.
    pub fn matches(&self, etag: Option<&ETag>, last_modified: Option<&LastModified>) -> bool
        ensures { MatchBool result (ValidatorMatches self.now etag.entry last_modified.entry)
            (¬ (ValidatorMatches self.now etag.entry last_modified.entry)) }
    {
        match &self.named {
            Named::Date(own) => match last_modified {
                Some(modified) => own.unix_secs() == modified.unix_secs(),
                None => false,
            },
            Named::Tag(own) => match etag {
                Some(etag) => own.strong_eq(tag_of(etag)),
                None => false,
            },
        }
    }

    /// Copies the entity tag: `Ok(None)` if the header has a date. Fails only if an allocation
    /// fails.
    pub fn named_tag(&self, alloc: Global) -> Result<Option<ETag>, AllocError>
        ensures { IfOk result (λ tag. tag ≡ named_tag self.now) }
    {
        match &self.named {
            Named::Tag(tag) => Ok(Some(ETag::from_form(tag.clone(alloc)?))),
            Named::Date(_) => Ok(None),
        }
    }

    /// Returns the date in seconds since 1970, or `None` if the header has an entity tag.
    pub fn named_date(&self) -> Option<u64>
        ensures { result ≡ named_second self.now }
    {
        match &self.named {
            Named::Tag(_) => None,
            Named::Date(date) => Some(date.unix_secs()),
        }
    }

    /// Returns whether a representation with this entity tag and modification time has changed. By
    /// a date: the time is absent or later. By a tag: the tag is absent, or the two aren't strongly
    /// equal.
    pub fn is_modified(&self, etag: Option<&ETag>, last_modified: Option<&LastModified>) -> bool
        ensures { IsTrue result ↔ IsModified self.now etag.entry last_modified.entry }
    {
        match &self.named {
            Named::Date(own) => match last_modified {
                Some(modified) => own.unix_secs() < modified.unix_secs(),
                None => true,
            },
            Named::Tag(own) => match etag {
                Some(etag) => !own.strong_eq(tag_of(etag)),
                None => true,
            },
        }
    }

    /// Copies the header. Fails only if an allocation fails.
    pub fn clone(&self, alloc: Global) -> Result<IfRange, AllocError>
        ensures { IfOk result (λ copy. copy ≡ self.now) }
    {
        match &self.named {
            Named::Tag(tag) => Ok(IfRange {
                named: Named::Tag(tag.clone(alloc)?),
            }),
            Named::Date(date) => Ok(IfRange {
                named: Named::Date(*date),
            }),
        }
    }

    // An entity tag. Any other value must be a date.
    fn from_val(alloc: Global, value: &HeaderValue) -> Result<Option<IfRange>, AllocError>
        ensures { IfOk result (λ found. option_map unmarked found ≡ validator value.now.bytes) }
    {
        match EntityTag::from_val(alloc, value)? {
            Some(tag) => Ok(Some(IfRange {
                named: Named::Tag(tag),
            })),
            None => match Date1::from_val(value) {
                Some(date) => Ok(Some(IfRange {
                    named: Named::Date(date),
                })),
                None => Ok(None),
            },
        }
    }
}

impl Header for IfRange {
    ghost use Rattle.std.specs.Prelude.{false, codes};
    ghost use Rattle.headers_syntax.specs.HeaderLaws.{SameBy};
    ghost use Rattle.headers_conditional.specs.IfRangeLaws.{if_range_laws};

    ghost field_name = { codes "if-range" };

    ghost free = { false };

    ghost same = { SameBy if_range_grammar };

    ghost reads = { ReadsBy if_range_grammar };

    ghost writes = { written_by if_range_grammar };

    ghost laws = { if_range_laws };

    fn name() -> HeaderName {
        IF_RANGE
    }

    fn decode<I: Iterator>(alloc: Global, values: &mut I) -> Result<IfRange, Refused<Error>>
    where
        I::Item: AsHeaderValue,
    {
        let line = first(values).ok_or(Error::invalid())?;
        Ok(IfRange::from_val(alloc, line.as_header_value())?.ok_or(Error::invalid())?)
    }

    fn encode(&self, alloc: Global, values: &mut Vec<HeaderValue>) -> Result<(), AllocError> {
        match &self.named {
            Named::Tag(tag) => tag.write_lines(alloc, values),
            Named::Date(date) => date.write_lines(alloc, values),
        }
    }
}

/// Theorem: every entity tag, and every date, survives a round trip.
#[tactic(auto, using(crate::specs::IfRangeLaws::tag_back, crate::specs::IfRangeLaws::second_back))]
pub fn if_range_reads_back()
    ensures tag { (value : FieldValue) → is_tag value.bytes ≡ true
        → ReadsBy if_range_grammar (written_by if_range_grammar (Tag value)) (Tag value) }
    ensures date { (seconds : ℕ) → date (fixdate seconds) ≡ Some seconds
        → ReadsBy if_range_grammar (written_by if_range_grammar (Second seconds)) (Second seconds) }
{}
