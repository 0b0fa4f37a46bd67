//! The texts of the collection and of the fields.
ghost use Rattle.std.{specs.Prelude.{◌≡◌, IfOk}, specs.String.string_bytes};
ghost use Rattle.example_notes.specs.Notes.{list_text, path_of, tag_of};

use crate::notes::Notes;
use std::alloc::{AllocError, Global};
use std::fmt::Write;

/// Makes the path of a note. Fails only if an allocation fails.
pub fn path_of(alloc: Global, id: u64) -> Result<String, AllocError>
    ensures { IfOk result (λ text. string_bytes text ≡ path_of id) }
{
    let text = format!(in alloc; "/notes/{id}")?;
    Ok(text)
}

/// Makes the entity tag of the text that a change of a series wrote. Fails only if an allocation
/// fails.
pub fn tag_of(alloc: Global, series: u64, version: u64) -> Result<String, AllocError>
    ensures { IfOk result (λ text. string_bytes text ≡ tag_of series version) }
{
    let text = format!(in alloc; "\"{series}-{version}\"")?;
    Ok(text)
}

/// Makes the text of the collection: a JSON list of the paths of its notes.
pub fn list_text(alloc: Global, notes: &Notes) -> Result<String, AllocError>
    ensures { IfOk result (λ text. string_bytes text ≡ list_text notes.now) }
{
    let mut ids = notes.by_id.keys();
    let mut text = String::from_str(alloc, "[")?;
    if let Some(id) = ids.next() {
        write!(text, "\"/notes/{id}\"")?;
    }
    for id in ids {
        write!(text, ",\"/notes/{id}\"")?;
    }
    text.push(']')?;
    Ok(text)
}
