//! The canonical text of a media type, written while the text is parsed.
ghost use Rattle.std.{specs.Prelude.{◌≡◌, ◌∷◌, [], ◌++◌, OnOk, vec_items, bytes_eq, codes}, specs.List.list_all};
ghost use Rattle.http_header.specs.Token.{is_token_byte, lowercase};
ghost use Rattle.headers_mime.specs.MediaType.{canonical_value, is_charset_token};
ghost use Rattle.headers_mime.specs.MediaTypeReading.{canonical_of, canonical_rest, optional_canonical, WritesBehind};
ghost use Rattle.headers_mime.specs.MediaTypeReading.{GivesRead};

use crate::reading::{ParameterRef, read_essence, read_segment};
use headers_syntax::{Error, Refused};
use http_header::is_token_char;
use std::alloc::{AllocError, Global};

// Adds the bytes in lower case.
fn push_lowercase(text: &mut Vec<u8>, bytes: &[u8]) -> Result<(), AllocError>
    ensures { OnOk result (text.new.items ≡ text.old.items ++ lowercase bytes.now) }
{
    for byte in bytes {
        text.push(byte.to_ascii_lowercase())?;
    }
    Ok(())
}

fn is_charset(name: &[u8]) -> bool
    ensures { result ≡ bytes_eq (lowercase name.now) (codes "charset") }
{
    name.eq_ignore_ascii_case(b"charset")
}

// Whether each is a byte of a token.
fn are_token_bytes(bytes: &[u8]) -> bool
    ensures { result ≡ list_all is_token_byte bytes.now }
{
    bytes.iter().all(|byte| is_token_char(*byte))
}

// Whether it is a `charset` whose value is a token.
fn is_charset_token(parameter: &ParameterRef<'_>) -> bool
    ensures { result ≡ is_charset_token parameter.now }
{
    is_charset(parameter.name) && are_token_bytes(parameter.value)
}

// Adds the value of a parameter.
fn push_value(text: &mut Vec<u8>, parameter: &ParameterRef<'_>) -> Result<(), AllocError>
    ensures { OnOk result (text.new.items ≡ text.old.items ++ canonical_value parameter.now) }
{
    if is_charset_token(parameter) {
        push_lowercase(text, parameter.value)
    } else {
        text.extend_from_slice(parameter.value)
    }
}

// Adds a parameter, if there is one, after a semicolon and a space.
fn push_parameter(text: &mut Vec<u8>, parameter: Option<ParameterRef<'_>>) -> Result<(), AllocError>
    ensures { OnOk result (text.new.items ≡ text.old.items ++ optional_canonical parameter.entry) }
{
    if let Some(parameter) = parameter {
        text.extend_from_slice(b"; ")?;
        push_lowercase(text, parameter.name)?;
        text.push(b'=')?;
        push_value(text, &parameter)?;
    }
    Ok(())
}

// Adds the parameters that end a text.
fn push_parameters(text: &mut Vec<u8>, bytes: &[u8]) -> Result<(), Refused<Error>>
    ensures { WritesBehind text.old.items (canonical_rest bytes.now) text.new.items result }
{
    let mut rest = bytes;
    while !rest.is_empty() {
        let Some((parameter, left)) = read_segment(rest) else {
            return Err(Refused::Invalid(Error::invalid()));
        };
        push_parameter(text, parameter)?;
        rest = left;
    }
    Ok(())
}

/// The canonical text of a media type (RFC 9110, section 8.3.1).
pub(crate) fn canonical_text(alloc: Global, bytes: &[u8]) -> Result<Vec<u8>, Refused<Error>>
    ensures { GivesRead vec_items (canonical_of bytes.now) result }
{
    let Some((top_level, subtype, rest)) = read_essence(bytes) else {
        return Err(Refused::Invalid(Error::invalid()));
    };
    let mut text = Vec::with_capacity(alloc, bytes.len())?;
    push_lowercase(&mut text, top_level)?;
    text.push(b'/')?;
    push_lowercase(&mut text, subtype)?;
    match push_parameters(&mut text, rest) {
        Ok(()) => Ok(text),
        Err(refused) => Err(refused),
    }
}
