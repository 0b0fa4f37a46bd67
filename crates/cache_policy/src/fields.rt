//! Field lines that are compared or copied.
ghost use Rattle.std.specs.{Prelude.◌≡◌, Prelude.◌≢◌, Prelude.IfOk, Bool.MatchBool};
ghost use Rattle.http_header.specs.HeaderMap.{get_all};
ghost use Rattle.headers.specs.Lines.{lines_of};

use headers::{HeaderMap, HeaderValue};
use http_header::{AsHeaderName, GetAll};
use std::alloc::{AllocError, Global};

// Whether both have the same field lines.
pub(crate) fn have_same_lines(
    lines: &GetAll<'_, HeaderValue>,
    others: &GetAll<'_, HeaderValue>,
) -> bool
    ensures { MatchBool result (lines_of lines.now ≡ lines_of others.now) (lines_of lines.now ≢ lines_of others.now) }
{
    lines.eq_values(others)
}

// Copies of the values under a name.
pub(crate) fn values_at<K: AsHeaderName>(
    alloc: Global,
    map: &HeaderMap,
    name: K,
) -> Result<Vec<HeaderValue>, AllocError>
    ensures { IfOk result (λ values. values.items ≡ get_all map.now (K.name name)) }
{
    let mut values = Vec::new(alloc);
    for value in map.get_all(name).iter() {
        let copy = value.clone()?;
        values.push(copy)?;
    }
    Ok(values)
}
