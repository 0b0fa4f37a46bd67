//! The canonical text of a header section.
ghost use Rattle.std.specs.Prelude.{◌≡◌, ◌≢◌, ◌<◌, ◌++◌, length, IfOk, IfSome, IfNone, OnOk, All, flat_map};
ghost use Rattle.http_header.specs.HeaderMap.{get_all};
ghost use Rattle.headers.specs.Lines.{lines_of};
ghost use Rattle.headers_section.specs.Section.{section, HasNoField, HasTooManyFields};
ghost use Rattle.headers_section.specs.CanonicalText.{block_text, line_text, HasBlocks, IsCanonicalText};

use crate::block::{Printed, canonical_block};
use crate::field::read_fields;
use crate::status::RunError;
use bytes::Bytes;
use headers::{HeaderMap, HeaderName, HeaderValue};
use std::alloc::{AllocError, Global};
use std::hash::RandomState;

/// The canonical text of a header section, and whether some known header rejected its lines.
#[derive(Drop)]
pub struct CanonicalText {
    /// The text.
    pub bytes: Vec<u8>,
    /// Whether some known header rejected its field lines.
    pub some_refused: bool,
}

/// Appends a field line to the text: the name, a colon, a space, the value and a line feed. Fails
/// only if an allocation fails.
pub fn print_line(
    text: &mut Vec<u8>,
    name: &HeaderName,
    line: &HeaderValue,
) -> Result<(), AllocError>
    ensures { OnOk result (text.new.items ≡ text.old.items ++ line_text name.now line.now.bytes) }
{
    text.extend_from_slice(name.as_bytes())?;
    text.extend_from_slice(b": ")?;
    text.extend_from_slice(line.as_bytes())?;
    text.push(b'\n')?;
    Ok(())
}

/// Appends field lines with one name to the text. Fails only if an allocation fails.
pub fn print_lines(
    text: &mut Vec<u8>,
    name: &HeaderName,
    lines: &[HeaderValue],
) -> Result<(), AllocError>
    ensures { OnOk result (text.new.items ≡ text.old.items ++ flat_map (line_text name.now) (lines_of lines.now)) }
{
    for line in lines {
        print_line(text, name, line)?;
    }
    Ok(())
}

// Prints `! ` and the name.
fn print_refusal(text: &mut Vec<u8>, name: &HeaderName) -> Result<(), AllocError>
    ensures { OnOk result (text.new.items ≡ text.old.items ++ block_text name.now None) }
{
    text.extend_from_slice(b"! ")?;
    text.extend_from_slice(name.as_bytes())?;
    text.push(b'\n')?;
    Ok(())
}

// Prints the values under the name as they came.
fn print_values(text: &mut Vec<u8>, map: &HeaderMap, name: &HeaderName) -> Result<(), AllocError>
    ensures { OnOk result (text.new.items ≡ text.old.items
        ++ flat_map (line_text name.now) (lines_of (get_all map.now name.now))) }
{
    for value in map.get_all(name) {
        print_line(text, name, value)?;
    }
    Ok(())
}

// The block of each name, in the order of the list. Each has a line in the map.
fn print_blocks(
    alloc: Global,
    map: &HeaderMap,
    names: &[HeaderName],
) -> Result<CanonicalText, AllocError>
    requires { All (λ name. 0 < length (get_all map.now name)) names.now }
    ensures { IfOk result (λ text. HasBlocks (λ name. lines_of (get_all map.now name)) names.now
        text.bytes.items text.some_refused) }
{
    let mut bytes = Vec::new(alloc);
    let mut some_refused = false;
    for name in names {
        match canonical_block(alloc, map, name)? {
            Printed::Encoded(lines) => print_lines(&mut bytes, name, lines.as_slice())?,
            Printed::Rejected => {
                print_refusal(&mut bytes, name)?;
                some_refused = true;
            }
            Printed::Kept => print_values(&mut bytes, map, name)?,
        }
    }
    Ok(CanonicalText {
        bytes,
        some_refused,
    })
}

/// Returns the canonical text of an input, or `None` if a line before the first empty one is no
/// field. `Room` if a header map has no room for the fields, `Memory` if an allocation fails. The
/// map hashes with the keys if names collide.
pub fn canonical_text(
    alloc: Global,
    keys: Option<RandomState>,
    input: Bytes,
) -> Result<Option<CanonicalText>, RunError>
    ensures text { IfOk result (λ found. IfSome found
        (λ text. IsCanonicalText input text.bytes.items text.some_refused)) }
    ensures fits { IfOk result (λ found. IfSome found (λ _. ¬ (HasTooManyFields input))) }
    ensures no_field { IfOk result (λ found. IfNone found (HasNoField (section input))) }
    ensures room { result ≡ Err RunError.Room
        → HasTooManyFields input }
    ensures never_io { result ≢ Err RunError.Io }
{
    match read_fields(alloc, keys, input)? {
        Some(fields) => {
            let text = print_blocks(alloc, &fields.map, fields.names.as_slice())?;
            Ok(Some(text))
        }
        None => Ok(None),
    }
}
