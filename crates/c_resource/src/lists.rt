//! Lists as texts, with one value a line.
ghost use Rattle.std.{specs.Prelude.{◌≡◌, IfOk, option_map}, specs.List.list_any};
ghost use Rattle.headers.specs.Lines.{lines_of};
ghost use Rattle.c_resource.specs.Lists.{IsListOf, filled_at, is_named};

use c_decisions::values_of;
use c_parts::Failure;
use headers::HeaderValue;
use std::alloc::{AllocError, Global};

/// The lines of a text that has at most so many.
pub(crate) fn read_list(
    alloc: Global,
    text: &[u8],
    most: usize,
) -> Result<Vec<HeaderValue>, Failure>
    ensures { IsListOf most text.now result }
{
    let lines = values_of(alloc, text)?;
    if lines.len() > most {
        return Err(Failure::Refused);
    }
    Ok(lines)
}

/// The line at a place. `None` if it is empty, or if there is none.
pub(crate) fn filled_at(lines: &[HeaderValue], place: usize) -> Option<&HeaderValue>
    ensures { option_map (λ line. line.now.bytes) result ≡ filled_at (lines_of lines.now) place }
{
    let line = lines.get(place)?;
    if line.as_bytes().is_empty() {
        None
    } else {
        Some(line)
    }
}

/// A copy of the line at a place. `None` if it is empty, or if there is none.
pub(crate) fn copy_at(
    alloc: Global,
    lines: &[HeaderValue],
    place: usize,
) -> Result<Option<HeaderValue>, AllocError>
    ensures { IfOk result (λ copy. option_map (λ line. line.bytes) copy ≡ filled_at (lines_of lines.now) place) }
{
    match filled_at(lines, place) {
        Some(line) => Ok(Some(line.clone()?)),
        None => Ok(None),
    }
}

/// Whether a line is this one.
pub(crate) fn is_named(lines: &[HeaderValue], name: &HeaderValue) -> bool
    ensures { result ≡ is_named name.now.bytes (lines_of lines.now) }
{
    lines.iter().any(|line| line.as_bytes() == name.as_bytes())
}
