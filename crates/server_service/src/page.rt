//! What a response without a representation shows to people.
ghost use Rattle.std.specs.Prelude.{◌≡◌, ◌==◌, ◌∷◌, ◌++◌, [], IfOk, OnOk, find, option_copied};
ghost use Rattle.server_service.specs.Response.{fields_of, html_field, page_fields, page_for, page_of, page_sent};

use crate::settings::Page;
use bytes::Bytes;
use headers::HeaderValue;
use http::StatusCode;
use http_header::CONTENT_TYPE;
use server_connection::{Piece, ResponsePlan as Response};
use server_files::status_page;
use std::alloc::{AllocError, Global};

fn put_type(response: &mut Response) -> Result<(), AllocError>
    ensures headers { OnOk result (fields_of response.new ≡ fields_of response.old ++ html_field ∷ []) }
    ensures pieces { response.new.pieces.items ≡ response.old.pieces.items }
{
    response.add_header(
        CONTENT_TYPE,
        HeaderValue::from_static("text/html; charset=utf-8"),
    )
}

// The site's own page of a status, if it has one.
fn own_page(pages: &[Page], status: StatusCode) -> Option<&Page>
    ensures { option_copied result ≡ find (λ own. own.status == status) pages.now }
{
    pages.iter().find(|own| own.status == status)
}

// The page of a status: the site's own, or the one that names the status.
fn page_for(alloc: Global, pages: &[Page], status: StatusCode) -> Result<Bytes, AllocError>
    ensures { IfOk result (λ content. content ≡ page_for pages.now status) }
{
    match own_page(pages, status) {
        Some(own) => Ok(own.content.clone()?),
        None => {
            let text = status_page(alloc, status)?;
            Ok(Bytes::from_vec(text)?)
        }
    }
}

// Adds the page of a status (RFC 9110, section 15.5).
fn put_page(
    alloc: Global,
    pages: &[Page],
    status: StatusCode,
    response: &mut Response,
) -> Result<(), AllocError>
    requires { response.old.pieces.items ≡ [] }
    ensures headers { OnOk result (fields_of response.new ≡ fields_of response.old ++ html_field ∷ []) }
    ensures pieces { OnOk result (response.new.pieces.items ≡ page_of pages.now status) }
{
    put_type(response)?;
    let content = page_for(alloc, pages, status)?;
    response.push(Piece::Literal(content))
}

/// Explains a status by its page, if its responses have content.
pub(crate) fn explain(
    alloc: Global,
    pages: &[Page],
    status: StatusCode,
    response: &mut Response,
) -> Result<(), AllocError>
    requires { response.old.pieces.items ≡ [] }
    ensures headers { OnOk result (fields_of response.new ≡ fields_of response.old ++ page_fields status) }
    ensures pieces { OnOk result (response.new.pieces.items ≡ page_sent pages.now status) }
{
    if status == StatusCode::NO_CONTENT {
        return Ok(());
    }
    put_page(alloc, pages, status, response)
}
