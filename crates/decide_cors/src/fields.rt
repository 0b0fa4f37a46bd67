//! Fields of one field line, or none.
ghost use Rattle.std.specs.Prelude.{◌≡◌, IfOk, is_some, option_map};
ghost use Rattle.headers.specs.LineMap.{field_of};
ghost use Rattle.decide_cors.specs.Fields.{filled_line, lines_if};

use headers::{Encoded, HeaderName, HeaderValue};
use std::alloc::{AllocError, Global};

// The field line, unless it is empty.
pub(crate) fn filled(line: &HeaderValue) -> Option<&HeaderValue>
    ensures { option_map (λ value. value.now.bytes) result ≡ filled_line line.now.bytes }
{
    if line.as_bytes().is_empty() {
        None
    } else {
        Some(line)
    }
}

// The field with this field line. Without a field line it is removed.
pub(crate) fn field(
    alloc: Global,
    name: HeaderName,
    line: Option<HeaderValue>,
) -> Result<Encoded, AllocError>
    ensures { IfOk result (λ field.
        field_of field ≡ (
          name,
          lines_if (is_some (option_map (λ value. value.bytes) line))
              (option_map (λ value. value.bytes) line),
        )) }
{
    let mut lines = Vec::new(alloc);
    if let Some(line) = line {
        lines.push(line)?;
    }
    Ok(Encoded { name, lines })
}

// The field with a copy of this field line, if the condition holds. Otherwise it is removed.
pub(crate) fn field_if(
    alloc: Global,
    name: HeaderName,
    condition: bool,
    line: Option<&HeaderValue>,
) -> Result<Encoded, AllocError>
    ensures { IfOk result (λ field.
        field_of field ≡ (name, lines_if condition (option_map (λ value. value.now.bytes) line.entry))) }
{
    match line {
        Some(line) if condition => {
            let copy = line.clone()?;
            field(alloc, name, Some(copy))
        }
        _ => field(alloc, name, None),
    }
}
