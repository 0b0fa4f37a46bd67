//! The canonical field lines of a header in a section.
ghost use Rattle.std.specs.Prelude.{◌≡◌, ◌<◌, [], length, option_map, IfOk, MatchBool};
ghost use Rattle.http_header.specs.HeaderMap.{get_all};
ghost use Rattle.headers.specs.Lines.{lines_of};
ghost use Rattle.c_parts.specs.Written.{IsWrittenBlock};
ghost use Rattle.c_handles.{specs.Handles.{OnHeld, section_in}, specs.Sections.IsWrittenOf, specs.Views.IsSame};

use crate::view::{Lent, View};
use c_parts::{Failure, credentials_lines, has_credentials, read_name};
use headers::{HeaderMap, HeaderName, HeaderValue};
use headers_section::read_block;
use std::alloc::{AllocError, Global};

fn has_line(fields: &HeaderMap, name: &HeaderName) -> bool
    ensures { MatchBool result (0 < length (get_all fields.now name.now)) (get_all fields.now name.now ≡ []) }
{
    match fields.get_all(name).iter().next() {
        Some(_) => true,
        None => false,
    }
}

fn values_at(
    alloc: Global,
    fields: &HeaderMap,
    name: &HeaderName,
) -> Result<Vec<HeaderValue>, AllocError>
    ensures { IfOk result (λ values. lines_of values.items ≡ lines_of (get_all fields.now name.now)) }
{
    let mut values = Vec::new(alloc);
    for value in fields.get_all(name) {
        values.push(value.clone()?)?;
    }
    Ok(values)
}

// The block of a name that is there.
fn block_at(
    alloc: Global,
    fields: &HeaderMap,
    name: &HeaderName,
) -> Result<Option<Vec<HeaderValue>>, AllocError>
    ensures { 0 < length (get_all fields.now name.now) → IfOk result (λ block.
        IsWrittenBlock name.now (lines_of (get_all fields.now name.now))
        (option_map (λ lines. lines_of lines.items) block)) }
{
    if has_credentials(name) {
        let values = values_at(alloc, fields, name)?;
        return credentials_lines(alloc, values.as_slice());
    }
    read_block(alloc, fields, name)
}

fn field_of(alloc: Global, fields: &HeaderMap, name: &[u8]) -> Result<Vec<HeaderValue>, Failure>
    ensures { IsWrittenOf fields.now name.now result }
{
    let name = read_name(alloc, name)?;
    if !has_line(fields, &name) {
        return Err(Failure::Absent);
    }
    match block_at(alloc, fields, &name)? {
        Some(lines) => Ok(lines),
        None => Err(Failure::Refused),
    }
}

fn field_in(alloc: Global, lent: &Lent, name: &[u8]) -> Result<Vec<HeaderValue>, Failure>
    ensures { OnHeld (λ fields. IsWrittenOf fields name.now) (section_in lent.now.loan.held) result }
{
    match lent.section() {
        Some(fields) => field_of(alloc, fields, name),
        None => Err(Failure::Absent),
    }
}

/// The canonical field lines of the header with this name: the encoding of the value that its field
/// lines in the section decode to. The lines of a name that is no known header are unchanged.
pub fn written_field(
    alloc: Global,
    section: &mut View,
    name: &[u8],
) -> Result<Vec<HeaderValue>, Failure>
    ensures same { IsSame section.old section.new }
    ensures lines { OnHeld (λ fields. IsWrittenOf fields name.now) (section_in section.old.held) result }
{
    let lent = section.take();
    let lines = field_in(alloc, &lent, name);
    section.put(lent);
    lines
}
