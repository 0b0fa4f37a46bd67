//! Parameters, and texts of parameters whose names end in `*`.
ghost use Rattle.std.specs.{Prelude.{◌≡◌}, Bool.MatchBool, List.list_all, Str.IsUtf8};
ghost use Rattle.http_header.specs.Token.{is_value_byte};
ghost use Rattle.c_typed.specs.Parameters.{FindsParameter, IsText, ShowsExtended, WritesKind, WritesParameter, kind_of};

use c_decisions::{given, values_of};
use c_parts::Failure;
use rfc_fields::is_token;
use rfc_lists::{ParameterKind, extended_text, parameter_text, place_named};
use std::alloc::Global;
use std::str;

/// Returns the text, in UTF-8, that the value of an extended parameter means (RFC 8187, section 3.2.1). `Refused` if it
/// is no such value.
pub fn read_extended(alloc: Global, value: &[u8]) -> Result<Vec<u8>, Failure>
    ensures { ShowsExtended value.now result }
{
    match extended_text(alloc, value) {
        Ok(Some(text)) => Ok(text.into_bytes()),
        Ok(None) => Err(Failure::Refused),
        Err(_) => Err(Failure::Memory),
    }
}

fn are_value_bytes(text: &[u8]) -> bool
    ensures { result ≡ list_all is_value_byte text.now }
{
    text.iter()
        .all(|byte| *byte == b'\t' || (*byte >= b' ' && *byte != 127))
}

// How a parameter is written.
fn kind_of(kind: u8) -> Option<ParameterKind>
    ensures { result ≡ kind_of kind }
{
    match kind {
        0 => Some(ParameterKind::Extended),
        1 => Some(ParameterKind::Plain),
        2 => Some(ParameterKind::Quoted),
        3 => Some(ParameterKind::Challenge),
        _ => None,
    }
}

fn is_utf8(text: &[u8]) -> bool
    ensures { MatchBool result (IsUtf8 text.now) (IsUtf8 text.now → ⊥) }
{
    match str::from_utf8(text) {
        Ok(_) => true,
        Err(_) => false,
    }
}

// Whether a parameter may have this text.
fn is_text(kind: ParameterKind, text: &[u8]) -> bool
    ensures { MatchBool result (IsText kind text.now) (IsText kind text.now → ⊥) }
{
    match kind {
        ParameterKind::Extended => is_utf8(text),
        ParameterKind::Plain | ParameterKind::Quoted | ParameterKind::Challenge => are_value_bytes(
            text,
        ),
    }
}

/// Returns the parameter of a name for a text: 0 as RFC 9110, section 5.6.6, has it if the text is visible ASCII and
/// spaces, else an extended one; 1 as a token or a quoted-string; 2 as a quoted-string; 3 as a challenge has it
/// (`rfc_lists::ParameterKind`). `Refused` for another number, or if the name is no token, the text of an extended one
/// isn't UTF-8, or that of another has a byte that no field value has.
pub fn write_parameter(
    alloc: Global,
    kind: u8,
    name: &[u8],
    text: &[u8],
) -> Result<Vec<u8>, Failure>
    ensures { WritesParameter kind name.now text.now result }
{
    match kind_of(kind) {
        Some(kind) => write_kind(alloc, kind, name, text),
        None => Err(Failure::Refused),
    }
}

fn write_kind(
    alloc: Global,
    kind: ParameterKind,
    name: &[u8],
    text: &[u8],
) -> Result<Vec<u8>, Failure>
    ensures { WritesKind kind name.now text.now result }
{
    if is_token(name) && is_text(kind, text) {
        Ok(parameter_text(alloc, kind, name, text)?)
    } else {
        Err(Failure::Refused)
    }
}

/// Returns the place, from 0, of the first parameter that has a name, in any case (RFC 9110, section 5.6.6). The names
/// of all parameters are one a line. `Absent` if none has it, `Refused` if a line can't be a field value.
pub fn find_parameter(alloc: Global, names: &[u8], name: &[u8]) -> Result<usize, Failure>
    ensures { FindsParameter name.now names.now result }
{
    let names = values_of(alloc, names)?;
    given(place_named(name, names.as_slice()))
}
