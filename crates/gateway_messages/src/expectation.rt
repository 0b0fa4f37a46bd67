//! The expectation of a client that waits before it sends the content.
ghost use Rattle.std.{specs.Prelude.{◌≡◌, IfOk, codes, true}, specs.List.list_all};
ghost use Rattle.headers.specs.LineMap.{lines_at, fields_of};
ghost use Rattle.rfc_fields.{specs.Directives.is_same_token, specs.Members.{field_left, field_members, member_of}};
ghost use Rattle.gateway_messages.specs.Expectations.{IsExpectation, continue_name, expect_fields, has_content};
ghost use Rattle.gateway_messages.specs.Expectations.{has_known_expectation, is_awaited};

use crate::framing::Framing;
use crate::protocol::Protocol;
use headers::{Encoded, HeaderMap};
use http_header::EXPECT;
use rfc_fields::{FieldMembers, Malformed, contains_token};
use std::alloc::{AllocError, Global};

/// Who sends the 100 (Continue) that the client of a request waits for before it sends the content
/// (RFC 9110, section 10.1.1).
#[derive(Clone, Copy, Debug, PartialEq, Eq)]
pub enum Expectation {
    /// Nobody: the client doesn't wait, or its expectation is ignored, since the request is of
    /// HTTP/1.0 or has no content. Expect isn't forwarded.
    Absent,
    /// The server. Expect is forwarded as received, and so is the 100.
    Forwarded,
    /// The gateway, at once: the server speaks HTTP/1.0 and sends none. Expect isn't forwarded.
    Answered,
}

fn is_continue(member: Result<&[u8], Malformed>) -> bool
    ensures { result ≡ is_same_token continue_name (member_of member.entry) }
{
    match member {
        Ok(text) => text.eq_ignore_ascii_case(b"100-continue"),
        Err(Malformed) => false,
    }
}

/// Returns whether each member of Expect is `100-continue` (RFC 9110, section 10.1.1). A request
/// with another member is answered by 417.
pub fn has_known_expectation(fields: &HeaderMap) -> bool
    ensures { result ≡ has_known_expectation (lines_at fields.now (codes "expect")) }
{
    let mut members = FieldMembers::new(&fields.get_all(EXPECT));
    while let Some(member) = members.next() {
        if !is_continue(member) {
            return false;
        }
    }
    true
}

fn has_content(framing: Framing) -> bool
    ensures { result ≡ has_content framing }
{
    match framing {
        Framing::Unstated => false,
        Framing::Length(bytes) => bytes != 0,
        Framing::Chunked => true,
    }
}

// Whether the client waits for a 100.
fn is_awaited(client: Protocol, framing: Framing, fields: &HeaderMap) -> bool
    ensures { result ≡ is_awaited client framing (lines_at fields.now (codes "expect")) }
{
    match client {
        Protocol::Http10 => false,
        Protocol::Http11 => {
            has_content(framing) && contains_token(&fields.get_all(EXPECT), b"100-continue")
        }
    }
}

/// Decides who sends the 100 (Continue) for a request (RFC 9110, section 10.1.1). `framing` says
/// how its content is delimited, `client` is the version of the request, and `server` the version
/// that the next server is known to speak.
pub fn expectation_of(
    client: Protocol,
    server: Protocol,
    framing: Framing,
    fields: &HeaderMap,
) -> Expectation
    ensures { IsExpectation client server framing (lines_at fields.now) result }
{
    if !is_awaited(client, framing, fields) {
        return Expectation::Absent;
    }
    match server {
        Protocol::Http11 => Expectation::Forwarded,
        Protocol::Http10 => Expectation::Answered,
    }
}

impl Expectation {
    /// Returns the field Expect for the next server, without field lines unless it is forwarded.
    pub fn fields(self, alloc: Global) -> Result<Vec<Encoded>, AllocError>
        ensures { IfOk result (λ fields. fields_of fields.items ≡ expect_fields self) }
    {
        let mut fields = Vec::new(alloc);
        if self != Expectation::Forwarded {
            fields.push(Encoded {
                name: EXPECT,
                lines: Vec::new(alloc),
            })?;
        }
        Ok(fields)
    }
}
