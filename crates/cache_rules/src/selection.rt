//! Which of several stored responses answers a request.
ghost use Rattle.std.specs.{Prelude.◌≡◌, Prelude.option_map, Bool.MatchBool};
ghost use Rattle.headers.specs.LineMap.{lines_at};
ghost use Rattle.cache_policy.specs.Requests.{request_of};
ghost use Rattle.cache_rules.specs.Selection.{IsChoice, IsInSearch, IsSelected, IsSought, renewed};

use crate::stored::StoredResponse;
use cache_policy::{RequestHead, is_updated, matches};
use headers::HeaderMap;
use http_header::VARY;
use rfc_fields::has_line;

// The most recent stored response so far, and its place. Its Date is parsed only if another one may
// be more recent.
#[derive(Clone, Copy)]
struct Newest<'a> {
    place: usize,
    response: &'a StoredResponse,
}

// Which stored responses a search is about, of those that match a request.
#[derive(Clone, Copy)]
pub(crate) enum Search<'a> {
    // All of them.
    All,
    // Those with Vary.
    Varying,
    // Those that a 304 with these fields is about.
    Updated(&'a HeaderMap),
}

/// Returns the place of the stored response that answers a request, by method and Vary (RFC 9111,
/// sections 4 and 4.1): of those that match, the most recent by Date. Of several equally recent
/// ones it is the last. If some have Vary, those that omit it don't count.
pub fn select(stored: &[StoredResponse], request: &RequestHead<'_>) -> Option<usize>
    ensures { IsChoice (request_of request.now) stored.now result }
{
    match most_recent(stored, request, Search::Varying) {
        Some(place) => Some(place),
        None => most_recent(stored, request, Search::All),
    }
}

// Whether a search is about the stored response.
pub(crate) fn is_sought(
    stored: &StoredResponse,
    request: &RequestHead<'_>,
    update: Option<&HeaderMap>,
) -> bool
    ensures { MatchBool result
        (IsSought (request_of request.now) (option_map (λ u. lines_at u.now) update.entry) stored.now)
        (¬ (IsSought (request_of request.now) (option_map (λ u. lines_at u.now) update.entry) stored.now)) }
{
    if !matches(&stored.heads(), request) {
        return false;
    }
    match update {
        Some(update) => is_updated(&stored.response, update),
        None => true,
    }
}

// The same of a search for the most recent one.
fn is_in_search(stored: &StoredResponse, request: &RequestHead<'_>, search: Search<'_>) -> bool
    ensures { MatchBool result (IsInSearch (request_of request.now) search.entry stored.now)
        (¬ (IsInSearch (request_of request.now) search.entry stored.now)) }
{
    match search {
        Search::All => is_sought(stored, request, None),
        Search::Varying => {
            is_sought(stored, request, None) && has_line(&stored.response.get_all(VARY))
        }
        Search::Updated(update) => is_sought(stored, request, Some(update)),
    }
}

// The most recent one, once one more is known.
fn renewed<'a>(
    newest: Option<Newest<'a>>,
    place: usize,
    response: &'a StoredResponse,
) -> Option<Newest<'a>>
    ensures { result ≡ renewed newest.entry place response.entry }
{
    match newest {
        Some(newest) if response.made_at() < newest.response.made_at() => Some(newest),
        _ => Some(Newest { place, response }),
    }
}

// The place of the most recent stored response that a search is about.
pub(crate) fn most_recent(
    stored: &[StoredResponse],
    request: &RequestHead<'_>,
    search: Search<'_>,
) -> Option<usize>
    ensures { IsSelected (IsInSearch (request_of request.now) search.entry) stored.now result }
{
    let mut newest = None;
    for (place, response) in stored.iter().enumerate() {
        if is_in_search(response, request, search) {
            newest = renewed(newest, place, response);
        }
    }
    match newest {
        Some(newest) => Some(newest.place),
        None => None,
    }
}
