//! The preferences of elements for an offer, and which of them decides.
ghost use Rattle.std.specs.Prelude.{◌≡◌, true, List, ℕ, Option};
ghost use Rattle.headers_syntax.specs.Lines.{lines_of};
ghost use Rattle.rfc_fields.specs.{Members.{field_members, member_of}, Scan.Member};
ghost use Rattle.decide_negotiation.specs.Preferences.{is_below, stronger, strongest};
ghost use Rattle.decide_negotiation.specs.declared.preference.Preference.{Preference};

use http_header::{GetAll, HeaderValue};
use rfc_fields::{FieldMembers, Malformed};

/// The preference of an element of a field for an offer that its range matches.
#[derive(Clone, Copy)]
pub(crate) struct Preference {
    /// How many names the range gives: 0 for `*` and `*/*`, 1 for `text/*`, `gzip` and `en`, 2 for
    /// `text/html`.
    pub(crate) names: u8,
    /// What else the range gives: the number of its parameters, or the length of a language range.
    pub(crate) extent: usize,
    /// The weight of the element, in thousandths.
    pub(crate) quality: u16,
}

/// The ranges of a field, which are matched with offers.
pub(crate) trait Ranges {
    // What a member of the field says of an offer, if it matches.
    ghost says: { List ℕ → Member → Option Preference };

    /// Returns the preference of a member for an offer. `None` if it doesn't match.
    fn preference(offer: &[u8], member: Result<&[u8], Malformed>) -> Option<Preference>
        ensures { result ≡ says offer.now (member_of member.entry) };
}

// Whether the first is less specific than the second, or as specific and of less quality.
#[tactic(auto, unfolding(crate::specs::Preferences::is_below))]
fn is_below(first: Preference, second: Preference) -> bool
    ensures { result ≡ is_below first second }
{
    first.names < second.names
        || first.names == second.names
            && (first.extent < second.extent
                || first.extent == second.extent && first.quality < second.quality)
}

// The strongest, once one more thing is said.
#[tactic(auto, unfolding(crate::specs::Preferences::stronger))]
fn stronger(best: Option<Preference>, said: Preference) -> Option<Preference>
    ensures { result ≡ stronger best said }
{
    match best {
        Some(best) if !is_below(best, said) => Some(best),
        _ => Some(said),
    }
}

/// Returns the preference that decides about an offer, by all members of a field.
pub(crate) fn strongest<R: Ranges>(
    field: &GetAll<'_, HeaderValue>,
    offer: &[u8],
) -> Option<Preference>
    ensures { result ≡ strongest (R.says offer.now) (field_members true (lines_of field.now)) }
{
    FieldMembers::new(field)
        .filter_map(|member| R::preference(offer, member))
        .fold(None, stronger)
}
