//! Origins (RFC 6455, sections 4.2.2 and 10.2).
ghost use Rattle.std.specs.{Prelude.◌≡◌, Prelude.{None, Some, IfErr, IfOk}, Bool.MatchBool};
ghost use Rattle.headers.specs.{LineMap.lines_at, Lines.lines_of};
ghost use Rattle.decide_cors.specs.SentOrigins.{RejectsList, unsent_place};
ghost use Rattle.decide_handshake.specs.Origins.{AllowsOrigin, NamesListed, lists_origin};

use decide_cors::{UnsentOrigin, check_origins};
use headers::{HeaderMap, HeaderValue, Refused};
use http_header::ORIGIN;
use rfc_fields::{has_line, only_value};
use std::alloc::Global;
use std::marker::Model;

/// The origins from which a server accepts handshakes (RFC 6455, section 10.2).
///
/// A browser names the origin of the script that opens a connection in `Origin`, and sends the
/// user's cookies along. A server that relies on cookies must list its own origins. Otherwise any
/// site's script acts for its users (cross-site WebSocket hijacking).
#[derive(Debug, Drop)]
pub struct Origins {
    listed: Option<Vec<HeaderValue>>,
}

impl Model for Origins {
    ghost use Rattle.decide_handshake.specs.{Inside.origins_of, Origins.OriginList};

    ghost Value = { OriginList };

    ghost view = { origins_of };
}

impl Origins {
    /// Any origin.
    pub fn any() -> Origins
        ensures { result ≡ None }
    {
        Origins { listed: None }
    }

    /// These origins, serialized as in `Origin`, such as `https://example.com`. They are compared
    /// without the case of ASCII letters. A request without `Origin`, which no browser sends, is
    /// allowed as well.
    ///
    /// `Invalid` names the first that no browser sends (`decide_cors::check_origins`). `Memory` only
    /// if there is an origin.
    pub fn listed(
        alloc: Global,
        origins: Vec<HeaderValue>,
    ) -> Result<Origins, Refused<UnsentOrigin>>
        ensures same { IfOk result (λ listed. listed ≡ Some (lines_of origins.items)) }
        ensures sent { IfOk result (λ _. unsent_place (lines_of origins.items) ≡ None) }
        ensures err { IfErr result (RejectsList (lines_of origins.items)) }
    {
        check_origins(alloc, origins.as_slice())?;
        Ok(Origins {
            listed: Some(origins),
        })
    }
}

// Whether one of the origins is this text.
fn lists_origin(origins: &[HeaderValue], text: &[u8]) -> bool
    ensures { result ≡ lists_origin (lines_of origins.now) text.now }
{
    origins
        .iter()
        .any(|origin| origin.as_bytes().eq_ignore_ascii_case(text))
}

// Whether the only field line of Origin is one of these.
fn names_listed(origins: &[HeaderValue], request: &HeaderMap) -> bool
    ensures { MatchBool result (NamesListed (lines_of origins.now) (lines_at request.now))
        (¬ (NamesListed (lines_of origins.now) (lines_at request.now))) }
{
    match only_value(&request.get_all(ORIGIN)) {
        Some(origin) => lists_origin(origins, origin.as_bytes()),
        None => false,
    }
}

// Whether the request is of an origin that is allowed.
pub(crate) fn allows_origin(origins: &Origins, request: &HeaderMap) -> bool
    ensures { MatchBool result (AllowsOrigin origins.now (lines_at request.now))
        (¬ (AllowsOrigin origins.now (lines_at request.now))) }
{
    match &origins.listed {
        None => true,
        Some(listed) => !has_line(&request.get_all(ORIGIN)) || names_listed(listed, request),
    }
}
