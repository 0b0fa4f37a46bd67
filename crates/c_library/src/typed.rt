//! Typed values of fields: credentials, cookies, hosts, origins, policies, ranges and lists.
ghost use Rattle.headers.{specs.ContentRange.content_range_grammar, specs.HeaderLaws.ReadsBy, specs.Host.host_reads};
ghost use Rattle.headers.{specs.Origin.origin_reads, specs.RetryAfter.retry_after_grammar};
ghost use Rattle.headers.specs.StrictTransportSecurityGrammar.{security_grammar};
ghost use Rattle.c_parts.specs.Endings.{Gives, TellsAndWrites, Writes, done};
ghost use Rattle.c_typed.specs.Contents.{ShowsContentRange, ShowsDisposition, reads_disposition};
ghost use Rattle.c_typed.{specs.Cookies.{FindsCookie, ShowsCookies, reads_cookies}, specs.Credentials.ShowsToken};
ghost use Rattle.c_typed.{specs.Credentials.{ShowsUserPassword, basic_reads, bearer_reads}, specs.Hosts.ShowsHost};
ghost use Rattle.c_typed.{specs.Hosts.{ShowsOrigin, is_whole_host, is_whole_origin}, specs.Members.ShowsMembers};
ghost use Rattle.c_typed.{specs.Members.{ShowsMembership, reads_list}, specs.Policies.{ShowsRetryTime, ShowsSecurity}};
ghost use Rattle.c_typed.specs.{Directives.{ShowsArguments, ShowsStale}, Parameters.{ShowsExtended, WritesParameter}};
ghost use Rattle.c_typed.specs.Parameters.{FindsParameter};
ghost use Rattle.c_typed.specs.{Parts.ShowsForm, Shown.{FieldShows, FieldShowsIf, LinesShow}};

use crate::giving::give;
use c_parts::{ContentRangeParts, DONE, copy_into};
use c_typed::{
    OriginParts, PortNumber, RetryTime, StaleDirectives, TransportSecurity, arguments_text,
    cookies_text, find_cookie, find_parameter, has_member, members_text, parts_text,
    read_content_range, read_disposition, read_extended, read_host, read_origin, read_retry_after,
    read_stale_directives, read_token, read_transport_security, read_user_password,
    write_parameter,
};
use std::alloc::Global;

/// Decodes the field lines of `authorization` or of `proxy-authorization` to the user name and the
/// password of Basic (RFC 7617, section 2).
#[unsafe(no_mangle)]
pub extern "C" fn typed_headers_basic(
    alloc: Global,
    lines: &[u8],
    user_length: &mut usize,
    room: &mut [u8],
    written: &mut usize,
) -> u8
    ensures { TellsAndWrites (λ shown. shown.user_length) (λ shown. shown.text.items)
        (FieldShows basic_reads ShowsUserPassword lines.now)
        user_length.old user_length.new room.old room.new written.old written.new result }
{
    match read_user_password(alloc, lines) {
        Ok(shown) => {
            *user_length = shown.user_length;
            copy_into(shown.text.as_slice(), DONE, room, written)
        }
        Err(failure) => failure.status(),
    }
}

/// Decodes the field lines of `authorization` or of `proxy-authorization` to the token of Bearer (RFC
/// 6750, section 2.1).
#[unsafe(no_mangle)]
pub extern "C" fn typed_headers_bearer(
    alloc: Global,
    lines: &[u8],
    room: &mut [u8],
    written: &mut usize,
) -> u8
    ensures { Writes (λ token. token.items) (λ _. done) (FieldShows bearer_reads ShowsToken lines.now)
        room.old room.new written.old written.new result }
{
    match read_token(alloc, lines) {
        Ok(token) => copy_into(token.as_slice(), DONE, room, written),
        Err(failure) => failure.status(),
    }
}

/// Gives the value of the first cookie with a name, by the field lines of `cookie` (RFC 6265, section
/// 5.4).
#[unsafe(no_mangle)]
pub extern "C" fn typed_headers_cookie(
    alloc: Global,
    lines: &[u8],
    name: &[u8],
    room: &mut [u8],
    written: &mut usize,
) -> u8
    ensures { Writes (λ value. value.items) (λ _. done) (FindsCookie name.now lines.now)
        room.old room.new written.old written.new result }
{
    match find_cookie(alloc, lines, name) {
        Ok(value) => copy_into(value.as_slice(), DONE, room, written),
        Err(failure) => failure.status(),
    }
}

/// Gives all cookies of the field lines of `cookie`, one a line (RFC 6265, section 5.4).
#[unsafe(no_mangle)]
pub extern "C" fn typed_headers_cookies(
    alloc: Global,
    lines: &[u8],
    room: &mut [u8],
    written: &mut usize,
) -> u8
    ensures { Writes (λ text. text.items) (λ _. done) (FieldShows reads_cookies ShowsCookies lines.now)
        room.old room.new written.old written.new result }
{
    match cookies_text(alloc, lines) {
        Ok(text) => copy_into(text.as_slice(), DONE, room, written),
        Err(failure) => failure.status(),
    }
}

/// Decodes the field lines of `cache-control` to the directives of RFC 5861.
#[unsafe(no_mangle)]
pub extern "C" fn typed_headers_stale_directives(
    alloc: Global,
    lines: &[u8],
    directives: &mut StaleDirectives,
) -> u8
    ensures { Gives (LinesShow ShowsStale lines.now) directives.old directives.new result }
{
    give(read_stale_directives(alloc, lines), directives)
}

/// Gives the arguments of the directives of a name, by the field lines of `cache-control`, one a
/// line.
#[unsafe(no_mangle)]
pub extern "C" fn typed_headers_directive_arguments(
    alloc: Global,
    lines: &[u8],
    name: &[u8],
    room: &mut [u8],
    written: &mut usize,
) -> u8
    ensures { Writes (λ text. text.items) (λ _. done) (LinesShow (ShowsArguments name.now) lines.now)
        room.old room.new written.old written.new result }
{
    match arguments_text(alloc, lines, name) {
        Ok(text) => copy_into(text.as_slice(), DONE, room, written),
        Err(failure) => failure.status(),
    }
}

/// Decodes the field lines of `host` to host and port (RFC 9110, section 7.2).
#[unsafe(no_mangle)]
pub extern "C" fn typed_headers_host(
    alloc: Global,
    lines: &[u8],
    port: &mut PortNumber,
    room: &mut [u8],
    written: &mut usize,
) -> u8
    ensures { TellsAndWrites (λ shown. shown.port) (λ shown. shown.text.items)
        (FieldShowsIf is_whole_host host_reads ShowsHost lines.now)
        port.old port.new room.old room.new written.old written.new result }
{
    match read_host(alloc, lines) {
        Ok(shown) => {
            *port = shown.port;
            copy_into(shown.text.as_slice(), DONE, room, written)
        }
        Err(failure) => failure.status(),
    }
}

/// Decodes the field lines of `origin` to scheme, host and port (RFC 6454, section 7).
#[unsafe(no_mangle)]
pub extern "C" fn typed_headers_origin(
    alloc: Global,
    lines: &[u8],
    parts: &mut OriginParts,
    room: &mut [u8],
    written: &mut usize,
) -> u8
    ensures { TellsAndWrites (λ shown. shown.parts) (λ shown. shown.text.items)
        (FieldShowsIf is_whole_origin origin_reads ShowsOrigin lines.now)
        parts.old parts.new room.old room.new written.old written.new result }
{
    match read_origin(alloc, lines) {
        Ok(shown) => {
            *parts = shown.parts;
            copy_into(shown.text.as_slice(), DONE, room, written)
        }
        Err(failure) => failure.status(),
    }
}

/// Decodes the field lines of `strict-transport-security` (RFC 6797, section 6.1).
#[unsafe(no_mangle)]
pub extern "C" fn typed_headers_strict_transport_security(
    alloc: Global,
    lines: &[u8],
    policy: &mut TransportSecurity,
) -> u8
    ensures { Gives (FieldShows (ReadsBy security_grammar) ShowsSecurity lines.now) policy.old policy.new result }
{
    give(read_transport_security(alloc, lines), policy)
}

/// Decodes the field lines of `retry-after` to a delay or a date (RFC 9110, section 10.2.3).
#[unsafe(no_mangle)]
pub extern "C" fn typed_headers_retry_after(alloc: Global, lines: &[u8], time: &mut RetryTime) -> u8
    ensures { Gives (FieldShows (ReadsBy retry_after_grammar) ShowsRetryTime lines.now) time.old time.new result }
{
    give(read_retry_after(alloc, lines), time)
}

/// Decodes the field lines of `content-range` to the range and the complete length (RFC 9110, section
/// 14.4).
#[unsafe(no_mangle)]
pub extern "C" fn typed_headers_content_range(
    alloc: Global,
    lines: &[u8],
    range: &mut ContentRangeParts,
) -> u8
    ensures { Gives (FieldShows (ReadsBy content_range_grammar) ShowsContentRange lines.now)
        range.old range.new result }
{
    give(read_content_range(alloc, lines), range)
}

/// Decodes the field lines of `content-disposition` to the kind of the disposition (RFC 6266, section
/// 4.2): 1 for `inline`, 2 for `attachment`, 3 for `form-data`, else 0.
#[unsafe(no_mangle)]
pub extern "C" fn typed_headers_content_disposition(
    alloc: Global,
    lines: &[u8],
    disposition: &mut u8,
) -> u8
    ensures { Gives (FieldShows reads_disposition ShowsDisposition lines.now) disposition.old disposition.new result }
{
    give(read_disposition(alloc, lines), disposition)
}

/// Gives the members of a list between commas, one a line, as those of `allow`, `connection` and
/// `vary` (RFC 9110, section 5.6.1).
#[unsafe(no_mangle)]
pub extern "C" fn typed_headers_members(
    alloc: Global,
    lines: &[u8],
    room: &mut [u8],
    written: &mut usize,
) -> u8
    ensures { Writes (λ text. text.items) (λ _. done) (FieldShows reads_list ShowsMembers lines.now)
        room.old room.new written.old written.new result }
{
    match members_text(alloc, lines) {
        Ok(text) => copy_into(text.as_slice(), DONE, room, written),
        Err(failure) => failure.status(),
    }
}

/// Whether a list between commas has a member: 1 if it has, 0 if not (RFC 9110, section 5.6.1).
#[unsafe(no_mangle)]
pub extern "C" fn typed_headers_has_member(
    alloc: Global,
    lines: &[u8],
    member: &[u8],
    any_case: bool,
    has: &mut u8,
) -> u8
    ensures { Gives (FieldShows reads_list (ShowsMembership any_case member.now) lines.now) has.old has.new result }
{
    give(has_member(alloc, lines, member, any_case), has)
}

/// Gives the parts of field lines of a form, as lines of text.
#[unsafe(no_mangle)]
pub extern "C" fn typed_headers_field_parts(
    alloc: Global,
    form: u8,
    lines: &[u8],
    room: &mut [u8],
    written: &mut usize,
) -> u8
    ensures { Writes (λ text. text.items) (λ _. done) (ShowsForm form lines.now)
        room.old room.new written.old written.new result }
{
    match parts_text(alloc, form, lines) {
        Ok(text) => copy_into(text.as_slice(), DONE, room, written),
        Err(failure) => failure.status(),
    }
}

/// Gives the text that the value of an extended parameter means (RFC 8187, section 3.2.1).
#[unsafe(no_mangle)]
pub extern "C" fn typed_headers_extended_text(
    alloc: Global,
    value: &[u8],
    room: &mut [u8],
    written: &mut usize,
) -> u8
    ensures { Writes (λ text. text.items) (λ _. done) (ShowsExtended value.now)
        room.old room.new written.old written.new result }
{
    match read_extended(alloc, value) {
        Ok(text) => copy_into(text.as_slice(), DONE, room, written),
        Err(failure) => failure.status(),
    }
}

/// Formats the parameter of a name for a text (RFC 9110, section 5.6.6, and RFC 8187, section 3.2).
#[unsafe(no_mangle)]
pub extern "C" fn typed_headers_format_parameter(
    alloc: Global,
    kind: u8,
    name: &[u8],
    text: &[u8],
    room: &mut [u8],
    written: &mut usize,
) -> u8
    ensures { Writes (λ parameter. parameter.items) (λ _. done) (WritesParameter kind name.now text.now)
        room.old room.new written.old written.new result }
{
    match write_parameter(alloc, kind, name, text) {
        Ok(parameter) => copy_into(parameter.as_slice(), DONE, room, written),
        Err(failure) => failure.status(),
    }
}

/// The place of the first parameter that has a name, by the names of all (RFC 9110, section 5.6.6).
#[unsafe(no_mangle)]
pub extern "C" fn typed_headers_parameter_place(
    alloc: Global,
    names: &[u8],
    name: &[u8],
    place: &mut usize,
) -> u8
    ensures { Gives (FindsParameter name.now names.now) place.old place.new result }
{
    give(find_parameter(alloc, names, name), place)
}
