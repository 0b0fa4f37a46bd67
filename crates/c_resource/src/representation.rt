//! The representations of a resource, as C hands them in.
ghost use Rattle.std.specs.Prelude.{IfOk};
ghost use Rattle.headers.specs.Lines.{lines_of};
ghost use Rattle.c_resource.specs.Representations.{AreRepresentationsRead, IsRepresentationAnswer, IsContent};
ghost use Rattle.c_resource.specs.Representations.{IsRepresentationsAnswer, IsTagAt, IsValidatorsAnswer, lines_by};

use crate::lists::{copy_at, filled_at, read_list};
use crate::resource::ResourceParts;
use c_decisions::{known, limits_of, read_date, read_line};
use c_parts::Failure;
use decide_preconditions::{Content, Validators};
use decide_resource::Representation;
use headers::{ETag, HeaderValue};
use std::alloc::{AllocError, Global};

/// What is said of a representation beside its lines.
#[repr(C)]
#[derive(Clone, Copy)]
pub struct RepresentationParts {
    /// How many bytes it has, if `has_length`.
    pub length: u64,
    /// When it was last modified, in seconds since the start of 1970, if `has_last_modified`.
    pub last_modified: u64,
    /// Whether its length is known. If not, no ranges are sent.
    pub has_length: bool,
    /// Whether ranges of it are sent.
    pub sends_ranges: bool,
    /// Whether it is known when it was last modified.
    pub has_last_modified: bool,
    /// Whether that date is a strong validator (RFC 9110, section 8.8.2.2).
    pub is_date_strong: bool,
}

// The lines of all representations.
#[derive(Drop)]
struct RepresentationLists {
    media_types: Vec<HeaderValue>,
    languages: Vec<HeaderValue>,
    codings: Vec<HeaderValue>,
    etags: Vec<HeaderValue>,
}

// The entity tag at a place, if there is one.
fn tag_at(alloc: Global, etags: &[HeaderValue], place: usize) -> Result<Option<ETag>, Failure>
    ensures { IsTagAt (lines_of etags.now) place result }
{
    match filled_at(etags, place) {
        Some(line) => Ok(Some(read_line(alloc, line)?)),
        None => Ok(None),
    }
}

// What is known of the content of the representation at a place.
fn content_at(
    alloc: Global,
    media_types: &[HeaderValue],
    place: usize,
    parts: &RepresentationParts,
) -> Result<Content, AllocError>
    ensures { IfOk result (IsContent (lines_of media_types.now) place parts.now) }
{
    Ok(Content {
        len: known(parts.has_length, parts.length),
        media_type: copy_at(alloc, media_types, place)?,
        ranges: limits_of(parts.sends_ranges),
    })
}

// The validators of the representation at a place.
fn validators_at(
    alloc: Global,
    etags: &[HeaderValue],
    place: usize,
    parts: &RepresentationParts,
) -> Result<Validators, Failure>
    ensures { IsValidatorsAnswer (lines_of etags.now) place parts.now result }
{
    let etag = tag_at(alloc, etags, place)?;
    Ok(Validators {
        etag,
        last_modified: read_date(parts.has_last_modified, parts.last_modified)?,
        is_date_strong: parts.is_date_strong,
    })
}

// The representation at a place.
fn representation_at(
    alloc: Global,
    lists: &RepresentationLists,
    place: usize,
    parts: &RepresentationParts,
) -> Result<Representation, Failure>
    ensures { IsRepresentationAnswer (lines_by lists.now) place parts.now result }
{
    let validators = validators_at(alloc, &lists.etags, place, parts)?;
    let content = content_at(alloc, &lists.media_types, place, parts)?;
    Ok(Representation {
        coding: copy_at(alloc, &lists.codings, place)?,
        language: copy_at(alloc, &lists.languages, place)?,
        content,
        validators,
    })
}

// Each representation.
fn representations_by(
    alloc: Global,
    lists: &RepresentationLists,
    numbers: &[RepresentationParts],
) -> Result<Vec<Representation>, Failure>
    ensures { AreRepresentationsRead (lines_by lists.now) numbers.now result }
{
    let mut representations = Vec::new(alloc);
    for (place, parts) in numbers.iter().enumerate() {
        representations.push(representation_at(alloc, lists, place, parts)?)?;
    }
    Ok(representations)
}

/// The representations that are said. Rejected if a line can't be a field line, an entity tag is none,
/// a date lies past the year 9999, or a text has more lines than there are representations.
pub(crate) fn read_representations(
    alloc: Global,
    parts: &ResourceParts<'_>,
    numbers: &[RepresentationParts],
) -> Result<Vec<Representation>, Failure>
    ensures { IsRepresentationsAnswer parts.entry.now numbers.now result }
{
    let count = numbers.len();
    let lists = RepresentationLists {
        media_types: read_list(alloc, parts.media_types, count)?,
        languages: read_list(alloc, parts.languages, count)?,
        codings: read_list(alloc, parts.codings, count)?,
        etags: read_list(alloc, parts.etags, count)?,
    };
    representations_by(alloc, &lists, numbers)
}
