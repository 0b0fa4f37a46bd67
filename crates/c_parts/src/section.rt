//! The fields of a header section, as a map.
ghost use Rattle.std.specs.Prelude.{◌≡◌, [], MatchBool};
ghost use Rattle.headers.specs.Typed.{HasLine};
ghost use Rattle.headers_section.specs.Section.{section};
ghost use Rattle.c_parts.specs.SectionMap.{IsMapOf};

use crate::keys::HashKeys;
use crate::lines::cut_line;
use crate::status::Failure;
use bytes::Bytes;
use headers::HeaderMap;
use headers_section::empty_map;
use std::alloc::Global;
use std::hash::RandomState;

/// Whether a section has a line before its first empty one.
pub fn has_line(text: &[u8]) -> bool
    ensures { MatchBool result (HasLine (section text.now)) (section text.now ≡ []) }
{
    let (first, _rest) = cut_line(text);
    !first.is_empty()
}

/// The fields before the first empty line of a section (RFC 9112, section 5). Out of memory only if there is a line
/// before it.
pub fn read_map(alloc: Global, section: &[u8], keys: &HashKeys) -> Result<HeaderMap, Failure>
    ensures { IsMapOf section.now result }
{
    // The keys are always given.
    let state = RandomState::new(keys).ok();
    if !has_line(section) {
        return Ok(empty_map(alloc, state));
    }
    let input = Bytes::copy_from_slice(alloc, section)?;
    match headers_section::read_map(alloc, state, input)? {
        Some(map) => Ok(map),
        None => Err(Failure::Refused),
    }
}
