//! Fields that are set in a map.
ghost use Rattle.std.{specs.Prelude.{◌≡◌, ℕ, List, OnOk, IfErr, IsErrOf}, specs.List.All};
ghost use Rattle.http_header.specs.HeaderMap.{get_all};
ghost use Rattle.headers.specs.LineMap.{IsFieldOfOther, fields_of, lines_at, set_all};
ghost use Rattle.cache_rules.specs.Fields.{IsTooSmallFor, SetsPart};

use headers::{Encoded, HeaderMap, InsertError, set_all};

/// Sets fields in a header map, as `set_all` of `headers` does. The error is the cause alone, without
/// the number of fields that were set before. It is `Full` only if the map has no room for the fields.
pub fn set_fields(map: &mut HeaderMap, fields: Vec<Encoded>) -> Result<(), InsertError>
    ensures ok { OnOk result ((name : List ℕ)
        → lines_at map.new name ≡ set_all (lines_at map.old) (fields_of fields.items) name) }
    ensures err { IfErr result (SetsPart map.old map.new fields.items) }
    ensures full { IsErrOf result InsertError.Full → IsTooSmallFor map.old (fields_of fields.items) }
    ensures others { (name : List ℕ) → All (IsFieldOfOther name) fields.items
        → get_all map.new name ≡ get_all map.old name }
{
    match set_all(map, fields) {
        Ok(()) => Ok(()),
        Err(error) => {
            // It ensures that the map is valid.
            let _names = map.keys_len();
            Err(error.cause)
        }
    }
}
