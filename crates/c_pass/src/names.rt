//! Names of fields, as a caller hands them in.
ghost use Rattle.headers.specs.Lines.{lines_of};
ghost use Rattle.c_parts.specs.FieldText.{field_lines};
ghost use Rattle.c_pass.specs.Names.{IsNamesOf};

use c_parts::{Failure, read_name, read_values};
use headers::{HeaderName, HeaderValue};
use std::alloc::Global;

fn names_of(alloc: Global, lines: &[HeaderValue]) -> Result<Vec<HeaderName>, Failure>
    ensures { IsNamesOf (lines_of lines.now) result }
{
    let mut names = Vec::new(alloc);
    for line in lines {
        let name = read_name(alloc, line.as_bytes())?;
        names.push(name)?;
    }
    Ok(names)
}

/// The names that the lines of a text are, in lower case.
#[tactic(auto, using(crate::proofs::NameLemmas::names_values))]
pub(crate) fn read_names(alloc: Global, text: &[u8]) -> Result<Vec<HeaderName>, Failure>
    ensures { IsNamesOf (field_lines text.now) result }
{
    match read_values(alloc, text)? {
        Some(lines) => names_of(alloc, lines.as_slice()),
        None => Err(Failure::Refused),
    }
}
