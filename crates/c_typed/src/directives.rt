//! Directives of `cache-control` with arguments that its typed header doesn't have.
ghost use Rattle.std.specs.Prelude.{◌≡◌, IfOk, option_map};
ghost use Rattle.headers.specs.Lines.{lines_of};
ghost use Rattle.rfc_fields.specs.{Members.member_of, Values.value_parts};
ghost use Rattle.c_typed.{specs.Directives.{ShowsArguments, ShowsStale, argument_of, arguments_text, stale_shown}};
ghost use Rattle.c_typed.specs.Shown.{LinesShow};

use c_decisions::{flag_of, request_with};
use c_parts::Failure;
use cache_fields::{Directives, read_directives};
use headers::{HeaderMap, HeaderValue};
use http_header::{CACHE_CONTROL, GetAll};
use rfc_fields::{FieldMembers, Malformed, Value, directive_in, has_line};
use rfc_lists::push_octets;
use std::alloc::{AllocError, Global};

/// For how many seconds a response may be served once it is stale (RFC 5861).
#[repr(C)]
#[derive(Clone, Copy)]
pub struct StaleDirectives {
    /// The seconds of `stale-while-revalidate`, or 0.
    pub while_revalidate: u64,
    /// The seconds of `stale-if-error`, or 0.
    pub if_error: u64,
    /// 1 if the first is set, else 0.
    pub has_while_revalidate: u8,
    /// 1 if the second is set, else 0.
    pub has_if_error: u8,
}

/// Decodes the field lines of `cache-control` to the directives of RFC 5861, as a cache counts them.
pub fn read_stale_directives(alloc: Global, lines: &[u8]) -> Result<StaleDirectives, Failure>
    ensures { LinesShow ShowsStale lines.now result }
{
    let map = request_with(alloc, &CACHE_CONTROL, lines)?;
    if !has_line(&map.get_all(CACHE_CONTROL)) {
        return Err(Failure::Absent);
    }
    Ok(stale_shown(&read_directives(&map)))
}

fn stale_shown(directives: &Directives) -> StaleDirectives
    ensures { result ≡ stale_shown directives.now }
{
    StaleDirectives {
        while_revalidate: directives.stale_while_revalidate.unwrap_or(0),
        if_error: directives.stale_if_error.unwrap_or(0),
        has_while_revalidate: flag_of(directives.stale_while_revalidate.is_some()),
        has_if_error: flag_of(directives.stale_if_error.is_some()),
    }
}

/// Returns the arguments of the directives of this name in `cache-control`, each with a byte 10 after
/// it: those of `no-cache` and `private` are lists of field names (RFC 9111, sections 5.2.2.4 and
/// 5.2.2.7).
pub fn arguments_text(alloc: Global, lines: &[u8], name: &[u8]) -> Result<Vec<u8>, Failure>
    ensures { LinesShow (ShowsArguments name.now) lines.now result }
{
    let map: HeaderMap = request_with(alloc, &CACHE_CONTROL, lines)?;
    let field = map.get_all(CACHE_CONTROL);
    if !has_line(&field) {
        return Err(Failure::Absent);
    }
    Ok(text_of(alloc, &field, name)?)
}

fn text_of(
    alloc: Global,
    field: &GetAll<'_, HeaderValue>,
    name: &[u8],
) -> Result<Vec<u8>, AllocError>
    ensures { IfOk result (λ text. text.items ≡ arguments_text name.now (lines_of field.now)) }
{
    let mut text = Vec::new(alloc);
    for member in FieldMembers::new(field) {
        if let Some(argument) = argument_of(member, name) {
            push_octets(&mut text, &argument)?;
        }
    }
    Ok(text)
}

// The argument of a member, if it is the directive of this name and has one.
fn argument_of<'a>(member: Result<&'a [u8], Malformed>, name: &[u8]) -> Option<Value<'a>>
    ensures { option_map value_parts result ≡ argument_of name.now (member_of member.entry) }
{
    match member {
        Ok(text) => match directive_in(text) {
            Some(directive) if directive.is(name) => directive.argument,
            _ => None,
        },
        Err(Malformed) => None,
    }
}
