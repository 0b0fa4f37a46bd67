//! Bodies of several parts (RFC 9110, section 14.6).
ghost use Rattle.std.specs.Prelude.{◌≡◌, ◌++◌, ◌∷◌, [], All, IfOk, OnOk, codes};
ghost use Rattle.decide_preconditions.specs.Parts.{IsPartOf};
ghost use Rattle.server_service.{specs.File.len_of, specs.Multipart.{closing, header_line, header_text, multipart}};
ghost use Rattle.server_service.specs.Multipart.{opening, part_fields, part_head, part_pieces};
ghost use Rattle.server_service.specs.Parts.{part_extent};

use crate::file::File;
use bytes::Bytes;
use decide_preconditions::Part;
use headers::{Header, HeaderName, HeaderValue, encoding};
use http_header::CONTENT_TYPE;
use server_connection::{OpenRange, Piece, ResponsePlan as Response};
use std::alloc::{AllocError, Global};

// Appends a header line.
fn push_line(text: &mut Vec<u8>, name: &HeaderName, line: &HeaderValue) -> Result<(), AllocError>
    ensures { OnOk result (text.new.items ≡ text.old.items ++ header_line name.now line.now.bytes) }
{
    text.extend_from_slice(name.as_bytes())?;
    text.extend_from_slice(b": ")?;
    text.extend_from_slice(line.as_bytes())?;
    text.extend_from_slice(b"\r\n")?;
    Ok(())
}

// Appends the lines of a header.
fn push_header<H: Header>(alloc: Global, text: &mut Vec<u8>, header: &H) -> Result<(), AllocError>
    ensures { OnOk result (text.new.items ≡ text.old.items ++ header_text H.field_name (H.writes header.now)) }
{
    let encoded = encoding(alloc, header)?;
    let name = H::name();
    for line in encoded.lines {
        push_line(text, &name, &line)?;
    }
    Ok(())
}

// Appends the boundary before a part.
#[tactic(auto, unfolding(crate::specs::Multipart::opening))]
fn push_opening(boundary: &str, text: &mut Vec<u8>) -> Result<(), AllocError>
    ensures { OnOk result (text.new.items ≡ text.old.items ++ opening boundary.now) }
{
    text.extend_from_slice(b"--")?;
    text.extend_from_slice(boundary.as_bytes())?;
    text.extend_from_slice(b"\r\n")?;
    Ok(())
}

fn push_media_type(media_type: &HeaderValue, text: &mut Vec<u8>) -> Result<(), AllocError>
    ensures { OnOk result (text.new.items ≡ text.old.items ++ header_line (codes "content-type") media_type.now.bytes) }
{
    let name = CONTENT_TYPE;
    push_line(text, &name, media_type)
}

// Appends a part's header lines.
#[tactic(auto, unfolding(crate::specs::Multipart::part_fields))]
fn push_fields(alloc: Global, part: Part, file: &File, text: &mut Vec<u8>) -> Result<(), AllocError>
    ensures { OnOk result (text.new.items ≡ text.old.items ++ part_fields file.now part) }
{
    push_media_type(&file.media_type, text)?;
    let len = file.source.len();
    push_header(alloc, text, &part.content_range(len))
}

// What comes before a part's bytes: the boundary, the header lines, and an empty line.
#[tactic(auto, unfolding(crate::specs::Multipart::part_head))]
fn head_of_part(
    alloc: Global,
    boundary: &str,
    part: Part,
    file: &File,
) -> Result<Vec<u8>, AllocError>
    ensures { IfOk result (λ text. text.items ≡ part_head boundary.now file.now part) }
{
    let mut text = Vec::new(alloc);
    push_opening(boundary, &mut text)?;
    push_fields(alloc, part, file, &mut text)?;
    text.extend_from_slice(b"\r\n")?;
    Ok(text)
}

// What follows the last part.
#[tactic(auto, unfolding(crate::specs::Multipart::closing))]
fn closing(alloc: Global, boundary: &str) -> Result<Vec<u8>, AllocError>
    ensures { IfOk result (λ text. text.items ≡ closing boundary.now) }
{
    let mut text = Vec::new(alloc);
    text.extend_from_slice(b"--")?;
    text.extend_from_slice(boundary.as_bytes())?;
    text.extend_from_slice(b"--\r\n")?;
    Ok(text)
}

fn push_text(text: Vec<u8>, response: &mut Response) -> Result<(), AllocError>
    ensures pieces { OnOk result
        (response.new.pieces.items ≡ response.old.pieces.items ++ Piece.Literal text.items ∷ []) }
    ensures headers { response.new.headers ≡ response.old.headers }
{
    let bytes = Bytes::from_vec(text)?;
    response.push(Piece::Literal(bytes))
}

/// Where a part of a file stands.
pub(crate) fn extent_of(file: &File, part: Part) -> OpenRange
    requires { IsPartOf (len_of file.now.source) part }
    ensures { result ≡ part_extent part }
{
    // The length is below 2^64, so the sum is.
    let _len = file.source.len();
    OpenRange {
        start: part.first,
        len: part.last - part.first + 1,
    }
}

// Appends one part.
fn push_part(
    alloc: Global,
    boundary: &str,
    part: Part,
    file: &File,
    response: &mut Response,
) -> Result<(), AllocError>
    requires { IsPartOf (len_of file.now.source) part }
    ensures pieces { OnOk result (response.new.pieces.items
        ≡ response.old.pieces.items ++ part_pieces boundary.now file.now part) }
    ensures headers { response.new.headers ≡ response.old.headers }
{
    let head = head_of_part(alloc, boundary, part, file)?;
    push_text(head, response)?;
    response.push(Piece::Range(extent_of(file, part)))?;
    response.push(Piece::Literal(Bytes::from_static(b"\r\n")))
}

/// Appends the parts and the end.
pub(crate) fn push_parts(
    alloc: Global,
    boundary: &str,
    parts: &[Part],
    file: &File,
    response: &mut Response,
) -> Result<(), AllocError>
    requires { All (IsPartOf (len_of file.now.source)) parts.now }
    ensures pieces { OnOk result (response.new.pieces.items
        ≡ response.old.pieces.items ++ multipart boundary.now file.now parts.now) }
    ensures headers { response.new.headers ≡ response.old.headers }
{
    for part in parts {
        push_part(alloc, boundary, *part, file, response)?;
    }
    let end = closing(alloc, boundary)?;
    push_text(end, response)
}
