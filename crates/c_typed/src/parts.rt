//! Fields whose values have parts.
ghost use Rattle.std.specs.Prelude.{◌≡◌, ◌≤◌};
ghost use Rattle.c_typed.specs.Parts.{ShowsForm};

use c_decisions::request_with;
use c_parts::Failure;
use headers::HeaderMap;
use http_header::ACCEPT;
use rfc_fields::has_line;
use rfc_lists::{Form, challenges_text, elements_text, links_text, set_cookies_text, values_text};
use std::alloc::Global;

/// Returns the parts of field lines of a form, as lines of text (`rfc_lists`): 0 of a list whose elements may have
/// parameters, 1 of challenges, 2 of links, 3 of cookies to be set, 4 of a disposition in each line, 5 of hops, 6 of
/// what caches did. `Refused` for another number.
pub fn parts_text(alloc: Global, form: u8, lines: &[u8]) -> Result<Vec<u8>, Failure>
    ensures { ShowsForm form lines.now result }
{
    if form > 6 {
        return Err(Failure::Refused);
    }
    // The name of the field has no part in it.
    let map: HeaderMap = request_with(alloc, &ACCEPT, lines)?;
    let field = map.get_all(ACCEPT);
    if !has_line(&field) {
        return Err(Failure::Absent);
    }
    Ok(match form {
        0 => elements_text(alloc, Form::Element, &field)?,
        1 => challenges_text(alloc, &field)?,
        2 => links_text(alloc, &field)?,
        3 => set_cookies_text(alloc, &field)?,
        4 => values_text(alloc, Form::Disposition, &field)?,
        5 => elements_text(alloc, Form::Hop, &field)?,
        _ => elements_text(alloc, Form::Cache, &field)?,
    })
}
