//! Which of a server's offers a request is served.
ghost use Rattle.std.specs.Prelude.{◌≡◌};
ghost use Rattle.decide_negotiation.{specs.Choice.Chooses, specs.Lookup.LooksUp, specs.Qualities.quality_in};
ghost use Rattle.c_decisions.specs.Choices.{Finds, given};

use crate::texts::{request_for, request_with, values_of};
use c_parts::Failure;
use decide_negotiation::{Dimension, look_up, negotiate};
use http_header::ACCEPT_LANGUAGE;
use std::alloc::Global;

/// The place that a call gives. `Absent` if there is none.
pub fn given(place: Option<usize>) -> Result<usize, Failure>
    ensures { result ≡ given place }
{
    match place {
        Some(place) => Ok(place),
        None => Err(Failure::Absent),
    }
}

/// Returns the place, counted from 0, of the offer that a request with these field lines prefers
/// (RFC 9110, section 12.5). The offers are one a line, the preferred one first. `Absent` if none
/// is acceptable.
pub fn choose<D: Dimension>(alloc: Global, lines: &[u8], offers: &[u8]) -> Result<usize, Failure>
    ensures { Finds (λ lines. Chooses (quality_in D.gives lines)) lines.now offers.now result }
{
    let request = request_for::<D>(alloc, lines)?;
    let offers = values_of(alloc, offers)?;
    given(negotiate::<D>(&request, offers.as_slice()))
}

/// Returns the place of the language tag that lookup finds (RFC 4647, section 3.4), by the field
/// lines of Accept-Language. `Absent` if it finds none.
pub fn look_up_language(alloc: Global, lines: &[u8], offers: &[u8]) -> Result<usize, Failure>
    ensures { Finds LooksUp lines.now offers.now result }
{
    let request = request_with(alloc, &ACCEPT_LANGUAGE, lines)?;
    let offers = values_of(alloc, offers)?;
    given(look_up(&request, offers.as_slice()))
}
