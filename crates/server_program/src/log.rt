//! Lines of an access log, in the combined format. What a client chose can't break a line.
ghost use Rattle.std.specs.Prelude.{◌≡◌, ◌++◌, IfOk, OnOk, decimal, option_copied};
ghost use Rattle.http.specs.Request.{head_of};
ghost use Rattle.headers.{specs.Date.fixdate, specs.LineMap.lines_at};
ghost use Rattle.server_connection.specs.Encoding.{content_len};
ghost use Rattle.server_files.specs.Redirect.{query_text};
ghost use Rattle.server_program.specs.Log.{IsLogLine, IsProtocol, first_of, is_plain_byte, is_quotable, log_answered};
ghost use Rattle.server_program.specs.Log.{log_asked, log_end, log_front, log_rejection, log_request, log_size};
ghost use Rattle.server_program.specs.Log.{log_time, logged, logged_byte};

use bytes::Bytes;
use headers::{Date, HeaderMap, HeaderName};
use http::{Method, Request, StatusCode, Uri, Version};
use http_header::{REFERER, USER_AGENT};
use httpdate::HttpDate;
use server_connection::ResponsePlan as Response;
use std::alloc::{AllocError, Global};

fn is_quotable(byte: u8) -> bool
    ensures { result ≡ is_quotable byte }
{
    byte >= b' ' && byte < 127 && byte != b'"'
}

fn is_plain_byte(byte: u8) -> bool
    ensures { result ≡ is_plain_byte byte }
{
    is_quotable(byte) && byte != b'\\'
}

fn push_byte(alloc: Global, text: &mut Vec<u8>, byte: u8) -> Result<(), AllocError>
    ensures { OnOk result (text.new.items ≡ text.old.items ++ logged_byte byte) }
{
    if is_plain_byte(byte) {
        text.push(byte)?;
        return Ok(());
    }
    let digits = hex::encode(alloc, [byte])?;
    text.extend_from_slice(b"\\x")?;
    text.extend_from_slice(digits.as_bytes())?;
    Ok(())
}

// Appends a text that the other end may have chosen.
fn push_logged(alloc: Global, text: &mut Vec<u8>, chosen: &[u8]) -> Result<(), AllocError>
    ensures { OnOk result (text.new.items ≡ text.old.items ++ logged chosen.now) }
{
    for byte in chosen {
        push_byte(alloc, text, *byte)?;
    }
    Ok(())
}

// Appends the first field line under a name, or a hyphen.
fn push_first(
    alloc: Global,
    text: &mut Vec<u8>,
    fields: &HeaderMap,
    name: HeaderName,
) -> Result<(), AllocError>
    ensures { OnOk result (text.new.items ≡ text.old.items ++ first_of (lines_at fields.now name)) }
{
    match fields.get_all(name).iter().next() {
        Some(line) => {
            push_logged(alloc, text, line.as_bytes())?;
            Ok(())
        }
        None => Ok(text.extend_from_slice(b"-")?),
    }
}

// Appends parts of an HTTP-date, or a hyphen.
fn push_time(text: &mut Vec<u8>, now: Option<Date>) -> Result<(), AllocError>
    ensures { OnOk result (text.new.items ≡ text.old.items ++ log_time now) }
{
    let Some(date) = now else {
        return Ok(text.extend_from_slice(b"-")?);
    };
    let bytes = date_bytes(date);
    text.extend_from_slice(&bytes[5..7])?;
    text.extend_from_slice(b"/")?;
    text.extend_from_slice(&bytes[8..11])?;
    text.extend_from_slice(b"/")?;
    text.extend_from_slice(&bytes[12..16])?;
    text.extend_from_slice(b":")?;
    text.extend_from_slice(&bytes[17..25])?;
    text.extend_from_slice(b" +0000")?;
    Ok(())
}

fn date_bytes(date: Date) -> [u8; 29]
    ensures { result ≡ fixdate date }
{
    let Ok(date) = HttpDate::from_unix_secs(date.unix_secs()) else {
        unreachable!();
    };
    date.to_bytes()
}

// Appends what a request asks for.
fn push_request(
    alloc: Global,
    text: &mut Vec<u8>,
    method: &Method,
    uri: &Uri,
) -> Result<(), AllocError>
    ensures { OnOk result (text.new.items ≡ text.old.items ++ log_request method.now uri.now) }
{
    push_logged(alloc, text, method.as_str().as_bytes())?;
    text.extend_from_slice(b" ")?;
    push_logged(alloc, text, uri.path().as_bytes())?;
    push_query(alloc, text, uri.query())
}

fn push_query(alloc: Global, text: &mut Vec<u8>, query: Option<&str>) -> Result<(), AllocError>
    ensures { OnOk result (text.new.items ≡ text.old.items ++ logged (query_text (option_copied query.entry))) }
{
    match query {
        Some(query) => {
            text.push(b'?')?;
            push_logged(alloc, text, query.as_bytes())?;
            Ok(())
        }
        None => Ok(()),
    }
}

fn protocol_of(version: Version) -> &'static str
    ensures { IsProtocol version result.now }
{
    if version == Version::HTTP_10 {
        "HTTP/1.0"
    } else {
        "HTTP/1.1"
    }
}

// Appends how many bytes of content are sent.
fn push_size(alloc: Global, text: &mut Vec<u8>, method: &Method, len: u64) -> Result<(), AllocError>
    ensures { OnOk result (text.new.items ≡ text.old.items ++ log_size method.now len) }
{
    if *method == Method::HEAD || len == 0 {
        return Ok(text.extend_from_slice(b"-")?);
    }
    push_number(alloc, text, len)
}

fn push_front(
    alloc: Global,
    text: &mut Vec<u8>,
    client: &str,
    now: Option<Date>,
) -> Result<(), AllocError>
    ensures { OnOk result (text.new.items ≡ text.old.items ++ log_front client.now now) }
{
    push_logged(alloc, text, client.as_bytes())?;
    text.extend_from_slice(b" - - [")?;
    push_time(text, now)?;
    text.extend_from_slice(b"] \"")?;
    Ok(())
}

fn push_asked(
    alloc: Global,
    text: &mut Vec<u8>,
    request: &Request<Bytes>,
    protocol: &str,
) -> Result<(), AllocError>
    ensures { OnOk result (text.new.items ≡ text.old.items
        ++ log_asked (head_of request.now).method (head_of request.now).uri protocol.now) }
{
    push_request(alloc, text, request.method(), request.uri())?;
    text.extend_from_slice(b" ")?;
    text.extend_from_slice(protocol.as_bytes())?;
    text.extend_from_slice(b"\" ")?;
    Ok(())
}

fn push_number(alloc: Global, text: &mut Vec<u8>, number: u64) -> Result<(), AllocError>
    ensures { OnOk result (text.new.items ≡ text.old.items ++ decimal number) }
{
    let digits = format!(in alloc; "{number}")?;
    Ok(text.extend_from_slice(digits.as_bytes())?)
}

fn push_answered(
    alloc: Global,
    text: &mut Vec<u8>,
    method: &Method,
    response: &Response,
) -> Result<(), AllocError>
    ensures { OnOk result (text.new.items ≡ text.old.items
        ++ log_answered method.now response.now.status (content_len response.now)) }
{
    push_number(alloc, text, u64::from(response.status.as_u16()))?;
    text.extend_from_slice(b" ")?;
    push_size(alloc, text, method, response.len)
}

fn push_end(alloc: Global, text: &mut Vec<u8>, fields: &HeaderMap) -> Result<(), AllocError>
    ensures { OnOk result (text.new.items ≡ text.old.items ++ log_end (lines_at fields.now)) }
{
    text.extend_from_slice(b" \"")?;
    push_first(alloc, text, fields, REFERER)?;
    text.extend_from_slice(b"\" \"")?;
    push_first(alloc, text, fields, USER_AGENT)?;
    text.extend_from_slice(b"\"\n")?;
    Ok(())
}

/// The line of an access log, in the combined format, for a request of this client (an address, or a
/// hyphen) that is answered so at this time. What the client chose is escaped: it ends neither a quoted
/// text nor the line.
pub fn log_line(
    alloc: Global,
    client: &str,
    now: Option<Date>,
    request: &Request<Bytes>,
    response: &Response,
) -> Result<Vec<u8>, AllocError>
    ensures { IfOk result (λ line. IsLogLine client.now now request.now response.now line.items) }
{
    let mut line = Vec::new(alloc);
    let protocol = protocol_of(request.version());
    push_front(alloc, &mut line, client, now)?;
    push_asked(alloc, &mut line, request, protocol)?;
    push_answered(alloc, &mut line, request.method(), response)?;
    push_end(alloc, &mut line, request.headers())?;
    Ok(line)
}

/// The line of an access log, in the combined format, for what came from this client (an address, or a
/// hyphen) at this time and was rejected with this status. Of the request it has hyphens.
pub fn rejection_line(
    alloc: Global,
    client: &str,
    now: Option<Date>,
    status: StatusCode,
) -> Result<Vec<u8>, AllocError>
    ensures { IfOk result (λ line. line.items ≡ log_rejection client.now now status) }
{
    let mut line = Vec::new(alloc);
    push_front(alloc, &mut line, client, now)?;
    line.extend_from_slice(b"-\" ")?;
    push_number(alloc, &mut line, u64::from(status.as_u16()))?;
    line.extend_from_slice(b" - \"-\" \"-\"\n")?;
    Ok(line)
}
