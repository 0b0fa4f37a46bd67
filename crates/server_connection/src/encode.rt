//! From a plan to the bytes around its content.
ghost use Rattle.std.specs.Prelude.{◌≡◌, ◌≢◌, ◌^◌, ◌<◌, ◌++◌, length, IfOk, OnOk};
ghost use Rattle.http1.{specs.Conn.{data_prefix, data_suffix, after_data}, specs.Head.pairs, specs.Server.writing};
ghost use Rattle.http1.specs.Server.{with_writing};
ghost use Rattle.http1_typed.specs.Parts.{reason_of};
ghost use Rattle.http_server.specs.Response.{fields};
ghost use Rattle.server_connection.specs.Encoding.{Frames, WritesHead, plan_size};

use crate::plan::ResponsePlan;
use bytes::BytesMut;
use http::{HeaderName, HeaderValue, StatusCode};
use http1::{BodySize, Header, Server, WriteError};
use std::alloc::{AllocError, Global};

/// Appends the head of the response, and to `tail` what follows its content.
pub(crate) fn encode(
    alloc: Global,
    server: &mut Server,
    output: &mut BytesMut,
    tail: &mut BytesMut,
    plan: &ResponsePlan,
    is_head: bool,
) -> Result<(), WriteError>
    ensures { OnOk result (Frames is_head plan.now server.old output.old.items tail.old.items
        server.new output.new.items tail.new.items) }
{
    write_head(alloc, server, output, plan)?;
    if !is_head {
        frame_content(server, output, tail, plan.len)?;
    }
    server.write_end(tail, &[])
}

// Appends the head alone. An interim status isn't one of a response.
fn write_head(
    alloc: Global,
    server: &mut Server,
    output: &mut BytesMut,
    plan: &ResponsePlan,
) -> Result<(), WriteError>
    ensures { OnOk result (WritesHead plan.now server.old output.old.items server.new output.new.items) }
{
    let status = plan.status.as_u16();
    if status == 101 {
        return Err(WriteError::InvalidStartLine);
    }
    let headers = header_list(alloc, &plan.headers)?;
    let reason = reason(plan.status);
    let size = plan_size(plan);
    server.write_response(output, status, reason, &headers, size)
}

fn header_list<'a>(
    alloc: Global,
    headers: &'a [(HeaderName, HeaderValue)],
) -> Result<Vec<Header<'a>>, AllocError>
    ensures { IfOk result (λ list. pairs list.items ≡ fields headers.now) }
{
    let mut list = Vec::with_capacity(alloc, headers.len())?;
    for header in headers {
        list.push(Header {
            name: header.0.as_bytes(),
            value: header.1.as_bytes(),
        })?;
    }
    Ok(list)
}

fn reason(status: StatusCode) -> &'static [u8]
    ensures { result.now ≡ reason_of status }
{
    status.canonical_reason().unwrap_or("").as_bytes()
}

fn plan_size(plan: &ResponsePlan) -> BodySize
    ensures value { result ≡ plan_size plan.now }
    ensures short { plan.now.len < 2 ^ 64 }
{
    let len = plan.len;
    if len == 0 {
        BodySize::Empty
    } else {
        BodySize::Known(len)
    }
}

// Appends what goes before the content, and to `tail` what goes after it.
fn frame_content(
    server: &mut Server,
    output: &mut BytesMut,
    tail: &mut BytesMut,
    len: u64,
) -> Result<(), WriteError>
    ensures before { OnOk result
        (output.new.items ≡ output.old.items ++ data_prefix (writing server.old) len) }
    ensures after { OnOk result
        (tail.new.items ≡ tail.old.items ++ data_suffix (writing server.old) len) }
    ensures counted { OnOk result
        (server.new ≡ with_writing server.old (after_data (writing server.old) len)) }
{
    let frame = server.frame_data(len as usize)?;
    output.extend_from_slice(frame.prefix())?;
    Ok(tail.extend_from_slice(frame.suffix())?)
}
