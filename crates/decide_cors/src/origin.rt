//! Which origins may read a response.
ghost use Rattle.std.specs.Prelude.{◌≡◌, IfOk, codes, option_map};
ghost use Rattle.headers.specs.{LineMap.lines_at, Lines.lines_of, Lines.only_line};
ghost use Rattle.decide_cors.specs.Fields.{grant};

use crate::listed::is_listed;
use headers::{HeaderMap, HeaderValue};
use http_header::ORIGIN;
use rfc_fields::only_value;
use std::alloc::AllocError;

// The value of `Access-Control-Allow-Origin`. `None` in place of the listed origins means any origin.
pub(crate) fn granted(
    origins: &Option<Vec<HeaderValue>>,
    request: &HeaderMap,
) -> Result<Option<HeaderValue>, AllocError>
    ensures { IfOk result (λ line. option_map (λ value. value.bytes) line
        ≡ grant (option_map (λ listed. lines_of listed.items) origins.now)
        (only_line (lines_at request.now (codes "origin")))) }
{
    let Some(listed) = origins else {
        return Ok(Some(HeaderValue::from_static("*")));
    };
    let Some(line) = only_value(&request.get_all(ORIGIN)) else {
        return Ok(None);
    };
    if is_listed(listed, line) {
        Ok(Some(line.clone()?))
    } else {
        Ok(None)
    }
}
