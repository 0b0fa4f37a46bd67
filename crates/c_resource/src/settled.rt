//! Fields that are set in their order.
ghost use Rattle.std.{specs.Prelude.{◌≡◌, ◌++◌, IfOk, OnOk}, specs.List.list_any};
ghost use Rattle.headers.specs.LineMap.{fields_of};
ghost use Rattle.c_decisions.specs.FieldLines.{fields_text};
ghost use Rattle.c_resource.specs.Settled.{is_set_by, settled};

use headers::{Encoded, HeaderName};
use headers_section::print_lines;
use std::alloc::{AllocError, Global};

// Whether one of the fields has this name.
fn is_set_by(name: &HeaderName, fields: &[Encoded]) -> bool
    ensures { result ≡ is_set_by name.now (fields_of fields.now) }
{
    fields.iter().any(|field| field.name == *name)
}

/// The field lines that are left once the fields are set in their order, each after its name.
pub(crate) fn settled_text(alloc: Global, fields: &[Encoded]) -> Result<Vec<u8>, AllocError>
    ensures { IfOk result (λ text. text.items ≡ fields_text (settled (fields_of fields.now))) }
{
    let mut text = Vec::new(alloc);
    let mut left = fields;
    while let [field, rest @ ..] = left {
        if !is_set_by(&field.name, rest) {
            print_lines(&mut text, &field.name, field.lines.as_slice())?;
        }
        left = rest;
    }
    Ok(text)
}
