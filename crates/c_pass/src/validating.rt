//! The request by which what a pass has sent stale is validated.
ghost use Rattle.std.specs.Prelude.{◌≡◌, IfOk};
ghost use Rattle.c_pass.specs.Validating.{ShowsValidation, map_text};

use crate::held::Stepped;
use c_parts::Failure;
use headers::{HeaderMap, InsertError};
use headers_section::print_lines;
use std::alloc::{AllocError, Global};

// The field lines of a map, each after its name.
fn map_text(alloc: Global, map: &HeaderMap) -> Result<Vec<u8>, AllocError>
    ensures { IfOk result (λ text. text.items ≡ map_text map.now) }
{
    let mut text = Vec::new(alloc);
    for (name, value) in map.iter() {
        print_lines(&mut text, name, std::slice::from_ref(value))?;
    }
    Ok(text)
}

/// The field lines of the request by which what a pass has sent stale is validated for nobody.
pub fn validation_text(alloc: Global, stepped: &Stepped) -> Result<Vec<u8>, Failure>
    ensures { ShowsValidation stepped.now.pass result }
{
    match stepped.pass.validation(alloc) {
        Ok(validation) => Ok(map_text(alloc, validation.fields())?),
        Err(InsertError::Memory) => Err(Failure::Memory),
        Err(InsertError::Full) => Err(Failure::TooLarge),
    }
}
