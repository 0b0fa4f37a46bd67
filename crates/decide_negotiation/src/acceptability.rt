//! How acceptable offers are.
ghost use Rattle.std.specs.Prelude.{◌≡◌};
ghost use Rattle.decide_negotiation.specs.Qualities.{least, preferred, rank, weighed};

use crate::preference::Preference;

/// How acceptable an offer is to a client, the least first (RFC 9110, section 12.4).
#[derive(Clone, Copy, Debug, PartialEq, Eq)]
pub enum Quality {
    /// Not acceptable: no element matches the offer, or the one that decides has the weight 0 (RFC
    /// 9110, section 12.4.2).
    NotAcceptable,
    /// Acceptable although no element matches it: content without a coding (RFC 9110, section
    /// 12.5.3). Each coding that is listed is preferred to it, whatever its weight.
    Unlisted,
    /// Acceptable with this weight, 1 to 1000 thousandths.
    Weight(u16),
}

impl Quality {
    /// Returns the rank of the quality: a greater rank is preferred, and rank 0 is not acceptable.
    pub fn rank(self) -> u32
        ensures { result ≡ rank self }
    {
        match self {
            Quality::NotAcceptable => 0,
            Quality::Unlisted => 1,
            Quality::Weight(thousandths) => u32::from(thousandths) + 1,
        }
    }
}

/// Returns the quality of a weight, in thousandths.
pub(crate) fn weighed(thousandths: u16) -> Quality
    ensures { result ≡ weighed thousandths }
{
    if thousandths == 0 {
        Quality::NotAcceptable
    } else {
        Quality::Weight(thousandths)
    }
}

/// Returns the lesser of two qualities.
pub(crate) fn least(one: Quality, other: Quality) -> Quality
    ensures { result ≡ least one other }
{
    if one.rank() <= other.rank() {
        one
    } else {
        other
    }
}

/// Returns the quality of an offer by the most specific preference, if any.
pub(crate) fn preferred(said: Option<Preference>) -> Quality
    ensures { result ≡ preferred said }
{
    match said {
        Some(preference) => weighed(preference.quality),
        None => Quality::NotAcceptable,
    }
}
