//! Fields that replace others.
ghost use Rattle.std.specs.Prelude.{◌≡◌, ◌++◌, IfOk, OnOk, bytes_eq, filter, map, not};
ghost use Rattle.std.specs.List.{flat_map, list_any};
ghost use Rattle.headers.specs.LineMap.{field_of, fields_of as encodings_of};
ghost use Rattle.headers.specs.Lines.{lines_of};
ghost use Rattle.gateway_messages.specs.FieldLines.{fields_of};
ghost use Rattle.gateway_hops.specs.Replaced.{has_field, lines_with_name, replaced_by};

use gateway_messages::FieldLine;
use headers::{Encoded, HeaderName, HeaderValue};
use std::alloc::{AllocError, Global};

// Whether one of the fields has the name.
fn has_field(own: &[Encoded], name: &HeaderName) -> bool
    ensures { result ≡ has_field (encodings_of own.now) name.now }
{
    for encoded in own {
        if encoded.name.as_str() == name.as_str() {
            return true;
        }
    }
    false
}

// The field lines of other names.
fn others(
    alloc: Global,
    fields: Vec<FieldLine>,
    own: &[Encoded],
) -> Result<Vec<FieldLine>, AllocError>
    ensures { IfOk result (λ others. fields_of others.items
        ≡ filter (λ field. not (has_field (encodings_of own.now) field.0)) (fields_of fields.items)) }
{
    let mut others = Vec::new(alloc);
    for field in fields {
        if !has_field(own, &field.name) {
            others.push(field)?;
        }
    }
    Ok(others)
}

// Appends field lines of one name.
fn push_values(
    fields: &mut Vec<FieldLine>,
    name: &HeaderName,
    lines: Vec<HeaderValue>,
) -> Result<(), AllocError>
    ensures { OnOk result (fields_of fields.new.items
        ≡ fields_of fields.old.items ++ lines_with_name (name.now, lines_of lines.items)) }
{
    for value in lines {
        let field = FieldLine {
            name: name.clone()?,
            value,
        };
        fields.push(field)?;
    }
    Ok(())
}

// Appends the field lines of a field.
fn push_lines(fields: &mut Vec<FieldLine>, encoded: Encoded) -> Result<(), AllocError>
    ensures { OnOk result (fields_of fields.new.items
        ≡ fields_of fields.old.items ++ lines_with_name (field_of encoded)) }
{
    let Encoded { name, lines } = encoded;
    push_values(fields, &name, lines)
}

// Appends the field lines of some fields.
fn push_all(fields: &mut Vec<FieldLine>, own: Vec<Encoded>) -> Result<(), AllocError>
    ensures { OnOk result (fields_of fields.new.items
        ≡ fields_of fields.old.items ++ flat_map lines_with_name (encodings_of own.items)) }
{
    for encoded in own {
        push_lines(fields, encoded)?;
    }
    Ok(())
}

/// Replaces field lines by those of some fields with the same names. A field without field lines is
/// removed.
pub fn replace_fields(
    alloc: Global,
    fields: Vec<FieldLine>,
    own: Vec<Encoded>,
) -> Result<Vec<FieldLine>, AllocError>
    ensures { IfOk result (λ replaced. fields_of replaced.items
        ≡ replaced_by (encodings_of own.items) (fields_of fields.items)) }
{
    let mut replaced = others(alloc, fields, own.as_slice())?;
    push_all(&mut replaced, own)?;
    Ok(replaced)
}
