//! Lists of origins, as C hands them in.
ghost use Rattle.c_decisions.specs.Origins.{FindsUnsent};

use crate::star::is_any;
use crate::texts::values_of;
use c_parts::Failure;
use decide_cors::check_origins;
use headers::Refused;
use std::alloc::Global;

/// The place of the first origin of a text, one a line, that no browser sends. `Absent` if browsers
/// send each, or if the only line is a star.
pub fn find_unsent(alloc: Global, text: &[u8]) -> Result<usize, Failure>
    ensures { FindsUnsent text.now result }
{
    let values = values_of(alloc, text)?;
    if is_any(values.as_slice()) {
        return Err(Failure::Absent);
    }
    match check_origins(alloc, values.as_slice()) {
        Ok(()) => Err(Failure::Absent),
        Err(Refused::Invalid(unsent)) => Ok(unsent.place),
        Err(Refused::Memory(_)) => Err(Failure::Memory),
    }
}
