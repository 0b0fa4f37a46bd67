//! Canonical field lines: the encoding of what field lines decode to.
ghost use Rattle.std.specs.Prelude.{◌≡◌, ◌<◌, length, option_map, IfOk, IsErr};
ghost use Rattle.headers.specs.Lines.{lines_of};
ghost use Rattle.http_header.specs.HeaderMap.{get_all};
ghost use Rattle.headers_section.specs.CanonicalText.{IsTypedBlock};
ghost use Rattle.c_parts.specs.Written.{IsCredentialsBlock, IsWrittenAs, IsWrittenBlock, has_credentials, lines_text};

use crate::lines::read_values;
use crate::name::read_name;
use crate::status::Failure;
use headers::authorization::{Basic, Bearer};
use headers::{
    Authorization, Header, HeaderMap, HeaderName, HeaderValue, Refused, decode_values, encoding,
};
use headers_section::read_block;
use http_header::HeaderMapError;
use std::alloc::{AllocError, Global};

/// The lines, each with a byte 10 after it.
pub fn lines_text(alloc: Global, lines: &[HeaderValue]) -> Result<Vec<u8>, AllocError>
    ensures { IfOk result (λ text. text.items ≡ lines_text (lines_of lines.now)) }
{
    let mut text = Vec::new(alloc);
    for line in lines {
        text.extend_from_slice(line.as_bytes())?;
        text.push(b'\n')?;
    }
    Ok(text)
}

/// The map that has the values under the name, and nothing else. Out of memory only if there is a
/// value.
pub fn map_of(
    alloc: Global,
    name: &HeaderName,
    values: Vec<HeaderValue>,
) -> Result<HeaderMap, AllocError>
    ensures map { IfOk result (λ map. get_all map name.now ≡ values.items) }
    ensures memory { IsErr result → 0 < length values.items }
{
    let _count = values.len();
    let mut map = HeaderMap::new(alloc);
    let mut left = values.into_iter();
    while let Some(value) = left.next() {
        match map.append(name, value) {
            Ok(_) => {}
            Err(HeaderMapError::OutOfMemory) => return Err(AllocError),
            // A map takes more values than memory does.
            Err(HeaderMapError::MaxSizeReached) => unreachable!(),
        }
    }
    Ok(map)
}

/// Whether the field of this name has credentials.
pub fn has_credentials(name: &HeaderName) -> bool
    ensures { result ≡ has_credentials name.now }
{
    name.as_bytes() == b"authorization".as_slice()
        || name.as_bytes() == b"proxy-authorization".as_slice()
}

// The lines that encode the header that the values decode to, or `None` if they are rejected.
fn typed_lines<H: Header>(
    alloc: Global,
    values: &[HeaderValue],
) -> Result<Option<Vec<HeaderValue>>, AllocError>
    ensures { IfOk result (λ block. IsTypedBlock H.reads H.writes (lines_of values.now)
        (option_map (λ lines. lines_of lines.items) block)) }
{
    match decode_values::<H>(alloc, values) {
        Ok(header) => Ok(Some(encoding(alloc, &header)?.lines)),
        Err(Refused::Invalid(_)) => Ok(None),
        Err(Refused::Memory(error)) => Err(error),
    }
}

/// The encoding of the credentials that the values decode to, Basic or Bearer. `None` if they are neither.
pub fn credentials_lines(
    alloc: Global,
    values: &[HeaderValue],
) -> Result<Option<Vec<HeaderValue>>, AllocError>
    ensures { IfOk result (λ block. IsCredentialsBlock (lines_of values.now)
        (option_map (λ lines. lines_of lines.items) block)) }
{
    match typed_lines::<Authorization<Basic>>(alloc, values)? {
        Some(lines) => Ok(Some(lines)),
        None => typed_lines::<Authorization<Bearer>>(alloc, values),
    }
}

// The block of a name that has these values.
fn block_of(
    alloc: Global,
    name: &HeaderName,
    values: Vec<HeaderValue>,
) -> Result<Option<Vec<HeaderValue>>, AllocError>
    ensures { 0 < length values.items → IfOk result (λ block. IsWrittenBlock name.now (lines_of values.items)
        (option_map (λ lines. lines_of lines.items) block)) }
{
    if has_credentials(name) {
        return credentials_lines(alloc, values.as_slice());
    }
    let map = map_of(alloc, name, values)?;
    read_block(alloc, &map, name)
}

/// Returns the canonical field lines of the header with this name, for the field lines of a text.
/// The lines of a name that is no known header are unchanged.
pub fn written_lines(alloc: Global, name: &[u8], text: &[u8]) -> Result<Vec<HeaderValue>, Failure>
    ensures { IsWrittenAs name.now text.now result }
{
    let name = read_name(alloc, name)?;
    let Some(values) = read_values(alloc, text)? else {
        return Err(Failure::Refused);
    };
    if values.is_empty() {
        return Err(Failure::Absent);
    }
    match block_of(alloc, &name, values)? {
        Some(lines) => Ok(lines),
        None => Err(Failure::Refused),
    }
}
