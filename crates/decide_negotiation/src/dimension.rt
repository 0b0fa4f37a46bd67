//! The choice among a server's offers.
ghost use Rattle.std.specs.Prelude.{◌≡◌, ℕ, true, List};
ghost use Rattle.http_header.specs.FieldValue.{plain_value};
ghost use Rattle.http_header.specs.HeaderMap.{get_all};
ghost use Rattle.headers_syntax.specs.Lines.{lines_of};
ghost use Rattle.rfc_fields.specs.{Members.field_members, Scan.Member};
ghost use Rattle.decide_negotiation.specs.Choice.{Chooses};
ghost use Rattle.decide_negotiation.specs.{Qualities.quality_in, declared.acceptability.Quality.Quality};

use crate::acceptability::Quality;
use crate::choice::{Leader, led};
use http_header::{GetAll, HeaderMap, HeaderName, HeaderValue};

/// A dimension in which the representations of a resource differ, and the field with a client's
/// preferences for it (RFC 9110, section 12.5).
pub trait Dimension {
    // The name of the field, in lower case.
    ghost NAME: { List ℕ };

    // The quality that the members of the field give to an offer.
    ghost gives: { List Member → List ℕ → Quality };

    /// The field name.
    const NAME: HeaderName;

    /// Returns the quality that a field gives to an offer, by all its lines.
    fn quality(field: &GetAll<'_, HeaderValue>, offer: &[u8]) -> Quality
        ensures { result ≡ gives (field_members true (lines_of field.now)) offer.now };
}

// The quality of an offer by a field that may be absent.
fn quality_in<D: Dimension>(field: &GetAll<'_, HeaderValue>, offer: &[u8]) -> Quality
    ensures { result ≡ quality_in D.gives (lines_of field.now) offer.now }
{
    match field.iter().next() {
        Some(_) => D::quality(field, offer),
        None => Quality::Weight(1000),
    }
}

/// Returns the quality of an offer for a request. Without the field each offer has the weight 1000.
pub fn quality<D: Dimension>(request: &HeaderMap, offer: &[u8]) -> Quality
    ensures { result ≡ quality_in D.gives (lines_of (get_all request.now D.NAME)) offer.now }
{
    quality_in::<D>(&request.get_all(D::NAME), offer)
}

/// Returns the place of the offer that a request prefers (RFC 9110, section 12.4). The offers are
/// the server's, with its preferred one first. Of those with the greatest quality the first is
/// chosen; without the field, the first of all. `None` if no offer is acceptable: the server then
/// responds with 406, or sends an offer all the same (section 12.4.1).
pub fn negotiate<D: Dimension>(request: &HeaderMap, offers: &[HeaderValue]) -> Option<usize>
    ensures { Chooses (quality_in D.gives (lines_of (get_all request.now D.NAME))) offers.now result }
{
    let field = request.get_all(D::NAME);
    let mut leader = Leader::NONE;
    for (place, offer) in offers.iter().enumerate() {
        let quality = quality_in::<D>(&field, offer.as_bytes());
        leader = led(leader, Some(place), u64::from(quality.rank()));
    }
    leader.place
}

/// Returns the field name of the dimension as a field line of Vary, to be added to the response
/// (RFC 9110, section 12.5.5).
pub fn varies_by<D: Dimension>() -> HeaderValue
    ensures { result ≡ plain_value D.NAME }
{
    HeaderValue::from_name(D::NAME)
}
