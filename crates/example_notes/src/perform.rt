//! What methods do to the notes.
ghost use Rattle.std.{specs.Prelude.{◌≡◌, ◌+◌, ◌∷◌, [], IfOk, IsTrue, codes}, specs.Bool.MatchBool};
ghost use Rattle.std.specs.String.{string_bytes};
ghost use Rattle.headers.specs.LineMap.{field_of};
ghost use Rattle.example_notes.{specs.Notes.{Writes, next_tag}, specs.Plans.{HasDone, IsJson, Performs, Stores, Takes}};
ghost use Rattle.example_notes.specs.declared.target.Target.TheVariants as target;

use crate::notes::Notes;
use crate::target::Target;
use crate::text::{path_of, tag_of};
use bytes::Bytes;
use headers::{Encoded, HeaderName, HeaderValue};
use http::{Method, StatusCode};
use http_header::{ETAG, LOCATION};
use serde_json::Value;
use std::alloc::{AllocError, Global};

/// The result of a method: the status and the fields of the response.
#[derive(Drop)]
pub struct Done {
    /// The status of the response.
    pub status: StatusCode,
    /// The fields of the response.
    pub fields: Vec<Encoded>,
}

// A field with one field line.
fn field(alloc: Global, name: HeaderName, text: String) -> Result<Encoded, AllocError>
    ensures { IfOk result (λ field. field_of field ≡ (name, string_bytes text ∷ [])) }
{
    match HeaderValue::from_string(text) {
        Ok(line) => Ok(Encoded {
            name,
            lines: vec![in alloc; line]?,
        }),
        Err(_) => Err(AllocError),
    }
}

fn is_json(alloc: Global, content: &[u8]) -> Result<bool, AllocError>
    ensures { IfOk result (λ is. MatchBool is (IsJson content.now) (¬ (IsJson content.now))) }
{
    match Value::from_slice(alloc, content) {
        Ok(_) => Ok(true),
        Err(error) if error.is_memory() => Err(AllocError),
        Err(_) => Ok(false),
    }
}

// Adds a note to the collection.
fn add(alloc: Global, notes: &mut Notes, content: &Bytes) -> Result<Done, AllocError>
    ensures { IfOk result (Stores notes.old target.Notes content.now notes.new) }
{
    let id = notes.add(content.clone()?)?;
    let location = field(alloc, LOCATION, path_of(alloc, id)?)?;
    let etag = field(alloc, ETAG, tag_of(alloc, notes.series, id)?)?;
    Ok(Done {
        status: StatusCode::CREATED,
        fields: vec![in alloc; location, etag]?,
    })
}

// Overwrites a note.
fn write(alloc: Global, notes: &mut Notes, id: u64, content: &Bytes) -> Result<Done, AllocError>
    ensures { IfOk result (λ done. Writes notes.old id content.now notes.new
        × HasDone 204 ((codes "etag", next_tag notes.old ∷ []) ∷ []) done) }
{
    let version = notes.write(id, content.clone()?)?;
    let etag = field(alloc, ETAG, tag_of(alloc, notes.series, version)?)?;
    Ok(Done {
        status: StatusCode::NO_CONTENT,
        fields: vec![in alloc; etag]?,
    })
}

/// Makes a result of a status without fields.
pub fn only(alloc: Global, status: StatusCode) -> Done
    ensures { HasDone status [] result }
{
    Done {
        status,
        fields: Vec::new(alloc),
    }
}

// Stores content at a target, if it is JSON.
fn take(
    alloc: Global,
    notes: &mut Notes,
    target: Target,
    content: &Bytes,
) -> Result<Done, AllocError>
    ensures { IfOk result (Takes notes.old target content.now notes.new) }
{
    if !is_json(alloc, content)? {
        return Ok(only(alloc, StatusCode::BAD_REQUEST));
    }
    match target {
        Target::Note(id) => write(alloc, notes, id, content),
        Target::Notes => add(alloc, notes, content),
        Target::Nowhere | Target::Server => Ok(only(alloc, StatusCode::NOT_FOUND)),
    }
}

/// Performs a method of the target, with this content.
pub fn perform(
    alloc: Global,
    notes: &mut Notes,
    method: &Method,
    target: Target,
    content: &Bytes,
) -> Result<Done, AllocError>
    ensures { IfOk result (Performs notes.old method.now target content.now notes.new) }
{
    match target {
        Target::Note(id) if *method == Method::DELETE => {
            notes.remove(id)?;
            Ok(only(alloc, StatusCode::NO_CONTENT))
        }
        Target::Note(_) => take(alloc, notes, target, content),
        Target::Notes | Target::Nowhere | Target::Server => take(alloc, notes, target, content),
    }
}
