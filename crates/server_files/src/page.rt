//! Pages that explain statuses to people.
ghost use Rattle.std.specs.Prelude.{◌≡◌, ◌++◌, IfOk, OnOk, codes, decimal, string_bytes};
ghost use Rattle.http1_typed.specs.Parts.{reason_of};
ghost use Rattle.server_files.specs.Pages.{page, page_with};

use http::StatusCode;
use std::alloc::{AllocError, Global};

fn reason(status: StatusCode) -> &'static str
    ensures { result.now ≡ reason_of status }
{
    status.canonical_reason().unwrap_or("")
}

fn title(alloc: Global, code: u16, reason: &str) -> Result<String, AllocError>
    ensures { IfOk result (λ text. string_bytes text ≡ decimal code ++ codes " " ++ reason.now) }
{
    let mut text = format!(in alloc; "{code}")?;
    text.push_str(" ")?;
    text.push_str(reason)?;
    Ok(text)
}

fn push_between(
    text: &mut Vec<u8>,
    before: &[u8],
    title: &[u8],
    after: &[u8],
) -> Result<(), AllocError>
    ensures { OnOk result (text.new.items ≡ text.old.items ++ before.now ++ title.now ++ after.now) }
{
    text.extend_from_slice(before)?;
    text.extend_from_slice(title)?;
    text.extend_from_slice(after)?;
    Ok(())
}

/// A page with this title, which is in HTML.
pub(crate) fn page_with(alloc: Global, title: &[u8]) -> Result<Vec<u8>, AllocError>
    ensures { IfOk result (λ text. text.items ≡ page_with title.now) }
{
    let mut text = Vec::new(alloc);
    push_between(&mut text, b"<!DOCTYPE html>\n<title>", title, b"</title>\n")?;
    push_between(&mut text, b"<h1>", title, b"</h1>\n")?;
    Ok(text)
}

/// The page that explains a status (RFC 9110, section 15.5), in HTML. Nothing of the request is in it, so
/// there is nothing to escape. Fails only if an allocation fails.
pub fn status_page(alloc: Global, status: StatusCode) -> Result<Vec<u8>, AllocError>
    ensures { IfOk result (λ text. text.items ≡ page status) }
{
    let title = title(alloc, status.as_u16(), reason(status))?;
    page_with(alloc, title.as_bytes())
}
