//! Sets a list of fields in a header map.
ghost use Rattle.std.{specs.Prelude.{◌≡◌, ◌≢◌, ℕ, List, OnOk, IfErr}, specs.List.All};
ghost use Rattle.http_header.specs.HeaderMap.{get_all};
ghost use Rattle.headers_map.specs.LineMap.{lines_at, set_all, fields_of, setting, settings, IsFieldOfOther};
ghost use Rattle.headers_map.specs.InsertErrors.{AppliesPart};

use crate::encoded::Encoded;
use crate::steps::{ApplyError, Step, apply_step};
use http_header::HeaderMap;

// The step that sets the field.
fn setting(field: Encoded) -> Step
    ensures { result ≡ setting field }
{
    if field.lines.is_empty() {
        Step::Remove(field.name)
    } else {
        Step::Put(field)
    }
}

/// Sets fields in a header map, in order. The lines of a field replace all lines with its name. A
/// field without lines is removed. If an allocation fails or the map is full, the fields before are
/// set and none after. Fields with other names never change.
pub fn set_all(map: &mut HeaderMap, fields: Vec<Encoded>) -> Result<(), ApplyError>
    ensures ok { OnOk result ((name : List ℕ)
        → lines_at map.new name ≡ set_all (lines_at map.old) (fields_of fields.items) name) }
    ensures err { IfErr result (AppliesPart map.old map.new (settings fields.items)) }
    ensures others { (name : List ℕ) → All (IsFieldOfOther name) fields.items
        → get_all map.new name ≡ get_all map.old name }
{
    let mut done = 0;
    let mut left = fields.into_iter();
    while let Some(field) = left.next() {
        if let Err(cause) = apply_step(map, setting(field)) {
            return Err(ApplyError { done, cause });
        }
        done += 1;
    }
    Ok(())
}
