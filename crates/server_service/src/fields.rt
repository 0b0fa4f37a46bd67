//! The fields of a response.
ghost use Rattle.std.specs.Prelude.{◌≡◌, ◌≤◌, false, true, ◌∷◌, ◌++◌, [], IfOk, OnErr, OnOk, bytes_eq};
ghost use Rattle.std.specs.List.{list_all, list_any};
ghost use Rattle.headers.specs.LineMap.{field_of, fields_of as encoded_fields};
ghost use Rattle.headers.specs.Text.{trim};
ghost use Rattle.http_server.specs.Response.{fields};
ghost use Rattle.httparse.specs.Grammar.{is_ows};
ghost use Rattle.server_service.specs.Answer.{closing_fields, sniff_field};
ghost use Rattle.server_service.specs.Response.{fields_of, headers_of, headers_sent, headers_set};
ghost use Rattle.server_service.specs.Response.{is_bare, is_bare_line, is_kept, is_line, is_named, lines_under};
ghost use Rattle.server_service.specs.Response.{lines_unless, trimmed_line, trimmed_lines};

use headers::{Encoded, HeaderName, HeaderValue};
use headers_syntax::trim;
use http_header::{CONNECTION, X_CONTENT_TYPE_OPTIONS};
use server_connection::ResponsePlan as Response;
use std::alloc::{AllocError, Global};
use std::mem::replace;

/// Tells browsers to take the response for what its media type says.
pub(crate) fn put_sniff(response: &mut Response) -> Result<(), AllocError>
    ensures headers { OnOk result (fields_of response.new ≡ fields_of response.old ++ sniff_field ∷ []) }
    ensures pieces { response.new.pieces.items ≡ response.old.pieces.items }
{
    response.add_header(X_CONTENT_TYPE_OPTIONS, HeaderValue::from_static("nosniff"))
}

/// Says that the connection ends, if no more response than this is left. Else it never fails.
pub(crate) fn put_closing(response: &mut Response, left: u64) -> Result<(), AllocError>
    ensures headers { OnOk result (fields_of response.new ≡ fields_of response.old ++ closing_fields left) }
    ensures memory { OnErr result (left ≤ 1) }
    ensures pieces { response.new.pieces.items ≡ response.old.pieces.items }
{
    if left > 1 {
        return Ok(());
    }
    response.add_header(CONNECTION, HeaderValue::from_static("close"))
}

/// Adds the field lines of a field.
pub(crate) fn add_field(response: &mut Response, field: Encoded) -> Result<(), AllocError>
    ensures headers { OnOk result
        (fields_of response.new ≡ fields_of response.old ++ lines_under (field_of field)) }
    ensures status { response.new.status ≡ response.old.status }
    ensures pieces { response.new.pieces.items ≡ response.old.pieces.items }
{
    let Encoded { name, lines } = field;
    for line in lines {
        response.add_header(name.clone()?, line)?;
    }
    Ok(())
}

// Whether a field of this name is among some.
fn any_named(name: &HeaderName, fields: &[Encoded]) -> bool
    ensures { result ≡ list_any (λ field. bytes_eq field.name name.now) fields.now }
{
    fields.iter().any(|field| field.name == *name)
}

fn is_named(name: &HeaderName, fields: &[Encoded]) -> bool
    ensures { result ≡ is_named name.now (encoded_fields fields.now) }
{
    any_named(name, fields)
}

/// Adds the field lines of a field.
pub(crate) fn add_copy(response: &mut Response, field: &Encoded) -> Result<(), AllocError>
    ensures headers { OnOk result
        (fields_of response.new ≡ fields_of response.old ++ lines_under (field_of field.now)) }
    ensures status { response.new.status ≡ response.old.status }
    ensures pieces { response.new.pieces.items ≡ response.old.pieces.items }
{
    for line in &field.lines {
        response.add_header(field.name.clone()?, line.clone()?)?;
    }
    Ok(())
}

// Adds the field lines of a field, unless a later one has its name.
fn set_field(response: &mut Response, field: &Encoded, later: &[Encoded]) -> Result<(), AllocError>
    ensures headers { OnOk result (fields_of response.new ≡ fields_of response.old
        ++ lines_unless (is_named field.now.name (encoded_fields later.now)) (field_of field.now)) }
    ensures status { response.new.status ≡ response.old.status }
    ensures pieces { response.new.pieces.items ≡ response.old.pieces.items }
{
    if is_named(&field.name, later) {
        return Ok(());
    }
    add_copy(response, field)
}

// Adds the field lines of fields that are set in their order: a later field replaces an earlier one of
// the same name.
fn set_fields(response: &mut Response, fields: &[Encoded]) -> Result<(), AllocError>
    ensures headers { OnOk result
        (fields_of response.new ≡ fields_of response.old ++ headers_set (encoded_fields fields.now)) }
    ensures status { response.new.status ≡ response.old.status }
    ensures pieces { response.new.pieces.items ≡ response.old.pieces.items }
{
    let mut rest = fields;
    while let [field, later @ ..] = rest {
        set_field(response, field, later)?;
        rest = later;
    }
    Ok(())
}

// Adds the field lines of fields, in order.
fn append_fields(response: &mut Response, fields: Vec<Encoded>) -> Result<(), AllocError>
    ensures headers { OnOk result
        (fields_of response.new ≡ fields_of response.old ++ headers_of (encoded_fields fields.items)) }
    ensures status { response.new.status ≡ response.old.status }
    ensures pieces { response.new.pieces.items ≡ response.old.pieces.items }
{
    for field in fields {
        add_field(response, field)?;
    }
    Ok(())
}

/// Adds the field lines of an answer's fields. Those of a policy replace others of the same name.
pub(crate) fn add_fields(
    response: &mut Response,
    has_policy: bool,
    fields: Vec<Encoded>,
) -> Result<(), AllocError>
    ensures headers { OnOk result (fields_of response.new
        ≡ fields_of response.old ++ headers_sent has_policy (encoded_fields fields.items)) }
    ensures status { response.new.status ≡ response.old.status }
    ensures pieces { response.new.pieces.items ≡ response.old.pieces.items }
{
    if has_policy {
        set_fields(response, &fields)
    } else {
        append_fields(response, fields)
    }
}

// Whether a field has a tag, or what a policy says, which have no white space at their ends.
fn is_kept(name: &HeaderName) -> bool
    ensures { result ≡ is_kept name.now }
{
    let name = name.as_bytes();
    name == b"etag".as_slice() || name.starts_with(b"access-control-")
}

fn is_white_space(byte: u8) -> bool
    ensures { result ≡ is_ows byte }
{
    byte == b' ' || byte == b'\t'
}

// Whether a text has no white space at its ends.
fn is_bare(text: &[u8]) -> bool
    ensures { result ≡ is_bare text.now }
{
    text.is_empty() || (!is_white_space(text[0]) && !is_white_space(text[text.len() - 1]))
}

// A value without the white space at its ends. What is left of a value is one, so only memory can fail.
fn unpadded(alloc: Global, value: &HeaderValue) -> Result<HeaderValue, AllocError>
    ensures { IfOk result (λ made. made.bytes ≡ trim value.now.bytes) }
{
    match HeaderValue::from_bytes(alloc, trim(value.as_bytes())) {
        Ok(made) => Ok(made),
        Err(_) => Err(AllocError),
    }
}

// The same, without a copy where there is none.
#[tactic(auto, using(crate::proofs::TrimLemmas::trim_bare_text))]
fn trimmed(alloc: Global, value: HeaderValue) -> Result<HeaderValue, AllocError>
    ensures value { IfOk result (λ made. made.bytes ≡ trim value.bytes) }
    ensures memory { OnErr result (is_bare value.bytes ≡ false) }
{
    if is_bare(value.as_bytes()) {
        return Ok(value);
    }
    unpadded(alloc, &value)
}

// The value of a field line as it is sent.
fn value_sent(
    alloc: Global,
    name: &HeaderName,
    value: HeaderValue,
) -> Result<HeaderValue, AllocError>
    ensures { IfOk result (λ made. trimmed_line (name.now, value.bytes) ≡ (name.now, made.bytes)) }
{
    if is_kept(name) {
        return Ok(value);
    }
    trimmed(alloc, value)
}

// What the types of a name and a value say of their bytes.
fn show_line(name: &HeaderName, value: &HeaderValue)
    ensures { is_line (name.now, value.now.bytes) ≡ true }
{
    let _name = name.as_bytes();
    let _value = value.as_bytes();
}

// Adds a field line as it is sent.
fn add_line(
    alloc: Global,
    response: &mut Response,
    name: HeaderName,
    value: HeaderValue,
) -> Result<(), AllocError>
    ensures headers { OnOk result
        (fields_of response.new ≡ fields_of response.old ++ trimmed_line (name, value.bytes) ∷ []) }
    ensures valid { OnOk result (is_line (trimmed_line (name, value.bytes)) ≡ true) }
    ensures pieces { response.new.pieces.items ≡ response.old.pieces.items }
{
    let made = value_sent(alloc, &name, value)?;
    show_line(&name, &made);
    response.add_header(name, made)
}

// What its types say of a field line, and whether its value has no white space at its ends.
fn is_bare_line(line: &(HeaderName, HeaderValue)) -> bool
    ensures { result ≡ is_bare_line (line.now.0, line.now.1.bytes) }
{
    let (name, value) = line;
    show_line(name, value);
    is_bare(value.as_bytes())
}

fn each_is_bare(lines: &[(HeaderName, HeaderValue)]) -> bool
    ensures { result ≡ list_all (λ line. is_bare_line (line.0, line.1.bytes)) lines.now }
{
    lines.iter().all(|line| is_bare_line(line))
}

fn are_bare_lines(lines: &[(HeaderName, HeaderValue)]) -> bool
    ensures { result ≡ list_all is_bare_line (fields lines.now) }
{
    each_is_bare(lines)
}

// Makes the field lines anew, as they are sent.
fn trim_lines(alloc: Global, response: &mut Response) -> Result<(), AllocError>
    ensures headers { OnOk result (fields_of response.new ≡ trimmed_lines (fields_of response.old)) }
    ensures valid { OnOk result (list_all is_line (fields_of response.new) ≡ true) }
    ensures pieces { response.new.pieces.items ≡ response.old.pieces.items }
{
    let room = Vec::with_capacity(alloc, response.headers.len())?;
    let headers = replace(&mut response.headers, room);
    for (name, value) in headers {
        add_line(alloc, response, name, value)?;
    }
    Ok(())
}

/// Removes the white space at the ends of values, which is no part of them (RFC 9110, section 5.5). Fails
/// only if there is some and an allocation fails.
#[tactic(auto, using(crate::proofs::TrimLemmas::lines_same, crate::proofs::TrimLemmas::lines_valid))]
pub(crate) fn trim_values(alloc: Global, response: &mut Response) -> Result<(), AllocError>
    ensures headers { OnOk result (fields_of response.new ≡ trimmed_lines (fields_of response.old)) }
    ensures memory { OnErr result (list_all is_bare_line (fields_of response.old) ≡ false) }
    ensures valid { OnOk result (list_all is_line (fields_of response.new) ≡ true) }
    ensures pieces { response.new.pieces.items ≡ response.old.pieces.items }
{
    // So it is in almost every response, and then nothing is copied.
    if are_bare_lines(&response.headers) {
        return Ok(());
    }
    trim_lines(alloc, response)
}
