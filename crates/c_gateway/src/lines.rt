//! Field lines as text.
ghost use Rattle.std.specs.Prelude.{◌≡◌, IfOk};
ghost use Rattle.gateway_messages.specs.FieldLines.{fields_of};
ghost use Rattle.c_gateway.specs.Lines.{lines_text};

use gateway_messages::FieldLine;
use headers_section::print_line;
use std::alloc::{AllocError, Global};

/// The field lines, in order, each after its name.
pub(crate) fn lines_text(alloc: Global, fields: &[FieldLine]) -> Result<Vec<u8>, AllocError>
    ensures { IfOk result (λ text. text.items ≡ lines_text (fields_of fields.now)) }
{
    let mut text = Vec::new(alloc);
    for field in fields {
        print_line(&mut text, &field.name, &field.value)?;
    }
    Ok(text)
}
