//! Where the index of a folder is found.
ghost use Rattle.std.specs.Prelude.{◌≡◌, false, IfOk, OnErr, option_copied, string_bytes};
ghost use Rattle.server_files.{specs.Path.ends_in_slash, specs.Redirect.{IsLocation, index_target}};

use crate::path::ends_in_slash;
use headers::HeaderValue;
use http_header::HeaderValueError;
use std::alloc::{AllocError, Global};

/// Where a folder's index is found: at the folder's path with a slash after it, and the query. `None` if
/// the path ends in a slash already, or if no field can hold that. Fails only if the path doesn't end in a
/// slash and an allocation fails.
pub fn index_location(
    alloc: Global,
    path: &str,
    query: Option<&str>,
) -> Result<Option<HeaderValue>, AllocError>
    ensures location { IfOk result (IsLocation path.now (option_copied query.entry)) }
    ensures memory { OnErr result (ends_in_slash path.now ≡ false) }
{
    if ends_in_slash(path.as_bytes()) {
        return Ok(None);
    }
    let text = index_target(alloc, path, query)?;
    match HeaderValue::from_string(text) {
        Ok(value) => Ok(Some(value)),
        Err(HeaderValueError::Invalid) => Ok(None),
        Err(HeaderValueError::OutOfMemory) => Err(AllocError),
    }
}

fn index_target(alloc: Global, path: &str, query: Option<&str>) -> Result<String, AllocError>
    ensures { IfOk result (λ text. string_bytes text ≡ index_target path.now (option_copied query.entry)) }
{
    let mut text = String::new(alloc);
    text.push_str(path)?;
    text.push_str("/")?;
    match query {
        Some(query) => {
            text.push_str("?")?;
            text.push_str(query)?;
            Ok(text)
        }
        None => Ok(text),
    }
}
