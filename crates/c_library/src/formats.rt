//! Values, formatted.
ghost use Rattle.c_parts.specs.Formats.{FormatsContentRange, FormatsDate, FormatsTag};
ghost use Rattle.c_parts.specs.Endings.{Writes, done};

use c_parts::{ContentRangeParts, DONE, copy_into, format_content_range, format_date, format_tag};
use std::alloc::Global;

/// Formats a time in seconds since 1970 as IMF-fixdate (RFC 9110, section 5.6.7).
#[unsafe(no_mangle)]
pub extern "C" fn typed_headers_format_date(
    alloc: Global,
    second: u64,
    room: &mut [u8],
    written: &mut usize,
) -> u8
    ensures { Writes (λ value. value.bytes) (λ _. done) (FormatsDate second)
        room.old room.new written.old written.new result }
{
    match format_date(alloc, second) {
        Ok(text) => copy_into(text.as_bytes(), DONE, room, written),
        Err(failure) => failure.status(),
    }
}

/// Formats the field line of `content-range` for a range, for the complete length, or for both (RFC
/// 9110, section 14.4).
#[unsafe(no_mangle)]
pub extern "C" fn typed_headers_format_content_range(
    alloc: Global,
    parts: &ContentRangeParts,
    room: &mut [u8],
    written: &mut usize,
) -> u8
    ensures { Writes (λ value. value.bytes) (λ _. done) (FormatsContentRange parts.entry.now)
        room.old room.new written.old written.new result }
{
    match format_content_range(alloc, parts) {
        Ok(text) => copy_into(text.as_bytes(), DONE, room, written),
        Err(failure) => failure.status(),
    }
}

/// Formats the entity tag with this opaque part (RFC 9110, section 8.8.3).
#[unsafe(no_mangle)]
pub extern "C" fn typed_headers_format_etag(
    alloc: Global,
    is_weak: bool,
    opaque: &[u8],
    room: &mut [u8],
    written: &mut usize,
) -> u8
    ensures { Writes (λ text. text.items) (λ _. done) (FormatsTag is_weak opaque.now)
        room.old room.new written.old written.new result }
{
    match format_tag(alloc, is_weak, opaque) {
        Ok(text) => copy_into(text.as_slice(), DONE, room, written),
        Err(failure) => failure.status(),
    }
}
