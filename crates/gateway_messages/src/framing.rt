//! How the content of a message is delimited.
ghost use Rattle.std.specs.{Prelude.{◌≡◌, [], IfOk, IfErr, OnErr, codes, true}, Bool.MatchBool, List.list_all};
ghost use Rattle.{headers.specs.{LineMap.lines_at, Lines.lines_of, Typed.HasLine}, rfc_fields.specs.Members.field_left};
ghost use Rattle.{rfc_fields.specs.Members.{field_members, member_of}, gateway_messages.specs.Framing.HasInvalidLength};
ghost use Rattle.gateway_messages.specs.Framing.{HasLength, IsCoded, RejectsFraming, States, ends_chunked};
ghost use Rattle.gateway_messages.specs.Framing.{member_number, says_chunked, writes_length};

use crate::protocol::Protocol;
use crate::rejection::Rejection;
use headers::{HeaderMap, HeaderValue};
use http_header::{CONTENT_LENGTH, TRANSFER_ENCODING};
use rfc_fields::{FieldMembers, Malformed, number};

/// What the fields of a message state about its content (RFC 9112, section 6.3).
#[derive(Clone, Copy, Debug, PartialEq, Eq)]
pub enum Framing {
    /// Nothing: neither Content-Length nor Transfer-Encoding is present.
    Unstated,
    /// The content has this many bytes.
    Length(u64),
    /// The content is sent in chunks.
    Chunked,
}

// What Transfer-Encoding says.
#[derive(Clone, Copy)]
enum Coding {
    Absent,
    Chunked,
    // Ends in `chunked`, and isn't that alone.
    Unknown,
    // Doesn't end in `chunked`.
    Endless,
}

/// Returns what the fields of a message state about its content (RFC 9112, sections 6.1 and 6.3).
/// Rejects what recipients are known to interpret differently.
pub fn stated_framing(protocol: Protocol, message: &HeaderMap) -> Result<Framing, Rejection>
    ensures ok { IfOk result (States protocol (lines_at message.now)) }
    ensures err { IfErr result (RejectsFraming protocol (lines_at message.now)) }
{
    match coding_of(message) {
        Coding::Absent => match length_of(message) {
            Ok(None) => Ok(Framing::Unstated),
            Ok(Some(bytes)) => Ok(Framing::Length(bytes)),
            Err(Malformed) => Err(Rejection::InvalidLength),
        },
        Coding::Unknown => Err(Rejection::UnknownCoding),
        Coding::Endless => Err(Rejection::LastCodingNotChunked),
        Coding::Chunked => {
            if has_length(message) {
                return Err(Rejection::LengthAndCoding);
            }
            match protocol {
                Protocol::Http10 => Err(Rejection::CodingInHttp10),
                Protocol::Http11 => Ok(Framing::Chunked),
            }
        }
    }
}

fn has_length(message: &HeaderMap) -> bool
    ensures { MatchBool result (HasLine (lines_at message.now (codes "content-length")))
        (lines_at message.now (codes "content-length") ≡ []) }
{
    message.get_all(CONTENT_LENGTH).iter().next().is_some()
}

fn says_chunked(line: &HeaderValue) -> bool
    ensures { result ≡ says_chunked line.now.bytes }
{
    line.as_bytes().eq_ignore_ascii_case(b"chunked")
}

fn coding_of(message: &HeaderMap) -> Coding
    ensures { IsCoded (lines_at message.now (codes "transfer-encoding")) result }
{
    let mut lines = message.get_all(TRANSFER_ENCODING).iter();
    let Some(line) = lines.next() else {
        return Coding::Absent;
    };
    if lines.next().is_none() && says_chunked(line) {
        return Coding::Chunked;
    }
    if ends_chunked(message) {
        Coding::Unknown
    } else {
        Coding::Endless
    }
}

// Whether the last transfer coding is `chunked`.
fn ends_chunked(message: &HeaderMap) -> bool
    ensures { result ≡ ends_chunked (lines_at message.now (codes "transfer-encoding")) }
{
    let mut last = None;
    let mut members = FieldMembers::new(&message.get_all(TRANSFER_ENCODING));
    while let Some(member) = members.next() {
        last = Some(member);
    }
    match last {
        Some(Ok(text)) => text.eq_ignore_ascii_case(b"chunked"),
        _ => false,
    }
}

// The number that a member writes.
fn member_number(member: Result<&[u8], Malformed>) -> Option<u64>
    ensures { result ≡ member_number (member_of member.entry) }
{
    match member {
        Ok(text) => number(text),
        Err(Malformed) => None,
    }
}

// Whether a member writes that length.
fn writes_length(member: Result<&[u8], Malformed>, length: u64) -> bool
    ensures { result ≡ writes_length length (member_of member.entry) }
{
    match member_number(member) {
        Some(number) => number == length,
        None => false,
    }
}

// Whether each member that is left writes that length.
fn all_write(mut members: FieldMembers<'_>, length: u64) -> bool
    ensures { result ≡ list_all (writes_length length) (field_left members.entry) }
{
    while let Some(member) = members.next() {
        if !writes_length(member, length) {
            return false;
        }
    }
    true
}

// The length that the members of Content-Length state, if the field is there.
fn length_of(message: &HeaderMap) -> Result<Option<u64>, Malformed>
    ensures ok { IfOk result (HasLength (lines_at message.now (codes "content-length"))) }
    ensures err { OnErr result (HasInvalidLength (lines_at message.now (codes "content-length"))) }
{
    if !has_length(message) {
        return Ok(None);
    }
    let mut members = FieldMembers::new(&message.get_all(CONTENT_LENGTH));
    let Some(member) = members.next() else {
        return Err(Malformed);
    };
    match member_number(member) {
        Some(length) if length <= i64::MAX as u64 && all_write(members, length) => Ok(Some(length)),
        _ => Err(Malformed),
    }
}
