//! The response's `Vary`, and `origin` added to it.
ghost use Rattle.std.specs.Prelude.{◌≡◌, ◌∷◌, [], ◌++◌, IfOk, OnOk, codes};
ghost use Rattle.headers.specs.{LineMap.fields_of, LineMap.lines_at, Lines.lines_of};
ghost use Rattle.decide_cors.specs.Fields.{covers_origin, vary_fields};

use headers::{Encoded, HeaderMap, HeaderValue};
use http_header::VARY;
use rfc_fields::contains_token;
use std::alloc::{AllocError, Global};

// Whether `Vary` tells apart all requests that differ in their origin.
fn response_covers_origin(response: &HeaderMap) -> bool
    ensures { result ≡ covers_origin (lines_at response.now (codes "vary")) }
{
    let lines = response.get_all(VARY);
    contains_token(&lines, b"*") || contains_token(&lines, b"origin")
}

// The field lines of the response's `Vary`, and then `origin`.
fn lines_with_origin(alloc: Global, response: &HeaderMap) -> Result<Vec<HeaderValue>, AllocError>
    ensures { IfOk result (λ lines. lines_of lines.items
        ≡ lines_at response.now (codes "vary") ++ codes "origin" ∷ []) }
{
    let mut lines = Vec::new(alloc);
    for line in response.get_all(VARY) {
        lines.push(line.clone()?)?;
    }
    lines.push(HeaderValue::from_static("origin"))?;
    Ok(lines)
}

// Appends the response's `Vary` with `origin` after it, if that isn't there.
pub(crate) fn push_vary(
    alloc: Global,
    fields: &mut Vec<Encoded>,
    response: &HeaderMap,
) -> Result<(), AllocError>
    ensures { OnOk result (fields_of fields.new.items
        ≡ fields_of fields.old.items ++ vary_fields (lines_at response.now (codes "vary"))) }
{
    if response_covers_origin(response) {
        return Ok(());
    }
    let lines = lines_with_origin(alloc, response)?;
    Ok(fields.push(Encoded { name: VARY, lines })?)
}
