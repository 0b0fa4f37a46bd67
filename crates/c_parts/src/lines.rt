//! The lines of a field.
ghost use Rattle.std.specs.Prelude.{◌≡◌, ◌<◌, ◌∷◌, [], length, All, IfOk, IfSome, IfNone, IsErr};
ghost use Rattle.http_header.specs.FieldValue.{IsFieldValue, plain_value};
ghost use Rattle.headers.{specs.Lines.lines_of, specs.Typed.HasLine};
ghost use Rattle.headers_section.specs.Section.{input_lines};
ghost use Rattle.c_parts.specs.FieldText.{without_last, field_lines, FieldDecodes};

use crate::status::Failure;
use headers::{Header, HeaderValue, Refused, decode_values};
use http_header::HeaderValueError;
use memchr::memchr;
use std::alloc::{AllocError, Global};

// The bytes without their last one, if it is this one.
fn without_last(bytes: &[u8], byte: u8) -> &[u8]
    ensures { result.now ≡ without_last byte bytes.now }
{
    match bytes {
        [before @ .., last] if *last == byte => before,
        _ => bytes,
    }
}

/// The first line of a text, and what follows the byte 10 that ends it, if there is one.
pub fn cut_line(text: &[u8]) -> (&[u8], Option<&[u8]>)
    ensures last { IfNone result.1 (input_lines text.now ≡ result.0.now ∷ []) }
    ensures more { IfSome result.1 (λ rest. input_lines text.now ≡ result.0.now ∷ input_lines rest.now) }
    ensures shorter { IfSome result.1 (λ rest. length rest.now < length text.now) }
{
    match memchr(b'\n', text) {
        Some(end) => {
            let (line, rest) = text.split_at(end);
            (without_last(line, b'\r'), Some(&rest[1..]))
        }
        None => (without_last(text, b'\r'), None),
    }
}

// The header value of a line. `None` if it can't be one.
fn read_value(alloc: Global, line: &[u8]) -> Result<Option<HeaderValue>, AllocError>
    ensures some { IfOk result (λ found. IfSome found
        (λ value. (value ≡ plain_value line.now) × IsFieldValue line.now)) }
    ensures none { IfOk result (λ found. IfNone found (¬ (IsFieldValue line.now))) }
{
    match HeaderValue::from_bytes(alloc, line) {
        Ok(value) => Ok(Some(value)),
        Err(HeaderValueError::Invalid) => Ok(None),
        Err(HeaderValueError::OutOfMemory) => Err(AllocError),
    }
}

/// The header values of the lines of a text. `None` if some line can't be one.
pub fn read_values(alloc: Global, text: &[u8]) -> Result<Option<Vec<HeaderValue>>, AllocError>
    ensures some { IfOk result (λ found. IfSome found (λ values. (field_lines text.now ≡ lines_of values.items)
        × All IsFieldValue (field_lines text.now))) }
    ensures none { IfOk result (λ found. IfNone found (¬ (All IsFieldValue (field_lines text.now)))) }
    ensures memory { IsErr result → HasLine (field_lines text.now) }
{
    let mut values = Vec::new(alloc);
    if text.is_empty() {
        return Ok(Some(values));
    }
    let mut rest = without_last(text, b'\n');
    loop {
        let (line, after) = cut_line(rest);
        let Some(value) = read_value(alloc, line)? else {
            return Ok(None);
        };
        values.push(value)?;
        match after {
            Some(after) => rest = after,
            None => return Ok(Some(values)),
        }
    }
}

/// The header that the lines of a text read.
pub fn read_field<H: Header>(alloc: Global, text: &[u8]) -> Result<H, Failure>
    ensures { FieldDecodes H.reads text.now result }
{
    let Some(values) = read_values(alloc, text)? else {
        return Err(Failure::Refused);
    };
    if values.is_empty() {
        return Err(Failure::Absent);
    }
    match decode_values(alloc, values.as_slice()) {
        Ok(header) => Ok(header),
        Err(Refused::Invalid(_)) => Err(Failure::Refused),
        Err(Refused::Memory(_)) => Err(Failure::Memory),
    }
}
