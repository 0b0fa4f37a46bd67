//! The media type of `content-type`.
ghost use Rattle.std.specs.Prelude.{◌≡◌};
ghost use Rattle.c_parts.{specs.Endings.{Writes, done}, specs.FieldText.FieldDecodes};
ghost use Rattle.c_library.specs.Fields.{essence, reads_media};

use c_parts::{DONE, Failure, copy_into, read_field};
use headers::{ContentType, HeaderValue, encoding};
use memchr::memchr;
use std::alloc::Global;

/// Decodes the field lines of `content-type` to the canonical text of the media type (RFC 9110,
/// section 8.3).
#[unsafe(no_mangle)]
pub extern "C" fn typed_headers_media_type(
    alloc: Global,
    lines: &[u8],
    room: &mut [u8],
    written: &mut usize,
) -> u8
    ensures { Writes (λ value. value.bytes) (λ _. done) (FieldDecodes reads_media lines.now)
        room.old room.new written.old written.new result }
{
    match read_media_type(alloc, lines) {
        Ok(text) => copy_into(text.as_bytes(), DONE, room, written),
        Err(failure) => failure.status(),
    }
}

/// Decodes the field lines of `content-type` to type and subtype, without parameters.
#[unsafe(no_mangle)]
pub extern "C" fn typed_headers_essence(
    alloc: Global,
    lines: &[u8],
    room: &mut [u8],
    written: &mut usize,
) -> u8
    ensures { Writes (λ value. essence value.bytes) (λ _. done) (FieldDecodes reads_media lines.now)
        room.old room.new written.old written.new result }
{
    match read_media_type(alloc, lines) {
        Ok(text) => copy_into(essence(text.as_bytes()), DONE, room, written),
        Err(failure) => failure.status(),
    }
}

// What stands before the first semicolon.
fn essence(media_type: &[u8]) -> &[u8]
    ensures { result.now ≡ essence media_type.now }
{
    match memchr(b';', media_type) {
        Some(end) => media_type.split_at(end).0,
        None => media_type,
    }
}

// The line that encodes the media type.
fn read_media_type(alloc: Global, lines: &[u8]) -> Result<HeaderValue, Failure>
    ensures { FieldDecodes reads_media lines.now result }
{
    let media_type = read_field::<ContentType>(alloc, lines)?;
    let mut written = encoding(alloc, &media_type)?.lines;
    match written.pop() {
        Some(text) => Ok(text),
        None => unreachable!(),
    }
}
