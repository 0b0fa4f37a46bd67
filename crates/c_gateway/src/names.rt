//! Names of fields.
ghost use Rattle.headers.specs.Lines.{lines_of};
ghost use Rattle.c_gateway.specs.Names.{AreNamesOf, ReadsNames};

use c_parts::{Failure, read_name, read_values};
use headers::{HeaderName, HeaderValue};
use std::alloc::Global;

fn names_of(alloc: Global, lines: &[HeaderValue]) -> Result<Vec<HeaderName>, Failure>
    ensures { ReadsNames (lines_of lines.now) result }
{
    let mut names = Vec::new(alloc);
    for line in lines {
        names.push(read_name(alloc, line.as_bytes())?)?;
    }
    Ok(names)
}

/// The names of a text, one a line, in lower case.
pub(crate) fn read_names(alloc: Global, text: &[u8]) -> Result<Vec<HeaderName>, Failure>
    ensures { AreNamesOf text.now result }
{
    match read_values(alloc, text)? {
        Some(lines) => names_of(alloc, lines.as_slice()),
        None => Err(Failure::Refused),
    }
}
