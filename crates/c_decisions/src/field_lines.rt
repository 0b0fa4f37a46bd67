//! The field lines of a decision, as text.
ghost use Rattle.std.specs.Prelude.{◌≡◌, ◌≢◌, [], IfOk, IsErr};
ghost use Rattle.headers.specs.LineMap.{fields_of};
ghost use Rattle.c_decisions.specs.FieldLines.{fields_text};

use headers::Encoded;
use headers_section::print_lines;
use std::alloc::{AllocError, Global};

/// The field lines of the fields, in order, each after its name. Out of memory only if there is a field.
pub fn fields_text(alloc: Global, fields: &[Encoded]) -> Result<Vec<u8>, AllocError>
    ensures text { IfOk result (λ text. text.items ≡ fields_text (fields_of fields.now)) }
    ensures memory { IsErr result → fields_of fields.now ≢ [] }
{
    let mut text = Vec::new(alloc);
    for field in fields {
        print_lines(&mut text, &field.name, field.lines.as_slice())?;
    }
    Ok(text)
}
