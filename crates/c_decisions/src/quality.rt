//! How acceptable an offer is.
ghost use Rattle.std.specs.Prelude.{◌≡◌};
ghost use Rattle.decide_negotiation.specs.Qualities.{quality_in};
ghost use Rattle.c_decisions.specs.Ratings.{Rates, shown};

use crate::texts::request_for;
use c_parts::Failure;
use decide_negotiation::{Dimension, Quality, quality};
use std::alloc::Global;

/// How acceptable an offer is, as numbers.
#[repr(C)]
#[derive(Clone, Copy)]
pub struct OfferQuality {
    /// Its weight in thousandths, 1 to 1000; 0 if it isn't acceptable, or no element of the field
    /// names it.
    pub weight: u16,
    /// 1 if it is acceptable, else 0.
    pub is_acceptable: u8,
}

fn shown(quality: Quality) -> OfferQuality
    ensures { result ≡ shown quality }
{
    match quality {
        Quality::NotAcceptable => OfferQuality {
            weight: 0,
            is_acceptable: 0,
        },
        Quality::Unlisted => OfferQuality {
            weight: 0,
            is_acceptable: 1,
        },
        Quality::Weight(thousandths) => OfferQuality {
            weight: thousandths,
            is_acceptable: 1,
        },
    }
}

/// Returns how acceptable an offer is to a request with these field lines.
pub fn rate<D: Dimension>(
    alloc: Global,
    lines: &[u8],
    offer: &[u8],
) -> Result<OfferQuality, Failure>
    ensures { Rates (quality_in D.gives) lines.now offer.now result }
{
    let request = request_for::<D>(alloc, lines)?;
    Ok(shown(quality::<D>(&request, offer)))
}
