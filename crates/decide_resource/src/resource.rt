//! Resources.

use crate::representation::{Negotiation, Representation};
use decide_cors::CorsPolicy;
use decide_preconditions::Boundary;
use headers::{HeaderMap, HeaderValue};
use http::Method;

/// A method of a resource, and what it requires of a request.
#[derive(Debug, Drop)]
pub struct MethodRule {
    /// The method. GET means HEAD too (RFC 9110, section 9.3.2). Each resource has OPTIONS, and
    /// a rule for HEAD or OPTIONS is ignored.
    pub method: Method,
    /// What content the method takes, as the fields that say so in a response: Accept for its media
    /// types (section 12.5.1), and Accept-Encoding for its codings (section 12.5.3). Without Accept any
    /// media type is taken, and without Accept-Encoding no coding. The field lines of Accept are also
    /// those of Accept-Patch (RFC 5789, section 3.1) and Accept-Post: those of a rule for PATCH should
    /// name media types, without ranges and weights.
    pub takes: HeaderMap,
    /// Whether the method is performed if there is no current representation, as PUT is (section
    /// 9.3.4). Any other method then gets 404, and so does OPTIONS if no method of the resource is.
    pub creates: bool,
    /// Whether the request must name what it may replace, by entity tags in If-Match, by `*` in
    /// If-None-Match, or by a strong date in If-Unmodified-Since (RFC 6585, section 3). GET and HEAD
    /// replace nothing, and need none.
    pub needs_condition: bool,
    /// Whether PUT takes a part of a representation, which Content-Range places (RFC 9110, section
    /// 14.5). Otherwise it gets 400. Other methods ignore Content-Range.
    pub takes_parts: bool,
}

/// Where a resource has moved, and whether the method stays (RFC 9110, section 15.4).
#[derive(Clone, Copy, Debug, PartialEq, Eq)]
pub enum Redirect {
    /// 301: the resource has a new URI. A client may change POST to GET.
    MovedPermanently,
    /// 307: the resource is temporarily under another URI. The method stays.
    Temporary,
    /// 308: the resource has a new URI. The method stays.
    Permanent,
}

/// The state of the target of a request.
#[derive(Debug, Drop)]
pub enum State {
    /// The target has a current representation.
    Current,
    /// The target has no current representation.
    Absent,
    /// The target has none, and none is expected again (RFC 9110, section 15.5.11).
    Gone,
    /// The target is under another URI, that of Location.
    Moved(Redirect, HeaderValue),
    /// The target is the server in general, which `*` names (RFC 9110, section 9.3.7). OPTIONS tells
    /// the methods of the rules, those of the server, and any other method gets 404.
    Server,
}

/// What a server knows about the target of a request before it performs a method.
#[derive(Debug, Drop)]
pub struct Resource {
    /// The hosts that it is served for, as they are written in Host, or `None` for any (RFC 9110,
    /// section 7.4). They are compared without case. One without a port is served at each port.
    pub hosts: Option<Vec<HeaderValue>>,
    /// The methods that the server implements for some resource, beside GET and HEAD, which each does
    /// (section 9.1), and those of the rules. A method that the resource doesn't have is answered by
    /// 405 if it is one of them, and by 501 if not (section 15.6.2).
    pub implemented: Vec<Method>,
    /// The methods of the resource. Of two rules for one method the first counts.
    pub rules: Vec<MethodRule>,
    /// The state of the resource.
    pub state: State,
    /// Its current representations, the most wanted first. There may be none if the server makes
    /// them only as it performs GET.
    pub representations: Vec<Representation>,
    /// By which fields a representation is chosen.
    pub negotiation: Negotiation,
    /// The boundary between several parts. The caller must make sure that no part contains it.
    pub boundary: Boundary,
    /// Whether each change of a representation gives it a later date, so that its dates are strong
    /// validators (RFC 9110, section 8.8.2.2). Then If-Unmodified-Since with the date of the
    /// representation names it. An old date isn't enough: two changes may have come in its second.
    pub has_strong_dates: bool,
    /// Whether content must have a length (RFC 9110, section 15.5.12).
    pub needs_length: bool,
    /// The greatest length of content in bytes, if there is one (section 15.5.14).
    pub limit: Option<u64>,
    /// The policy for cross-origin requests, if there is one.
    pub cors: Option<CorsPolicy>,
}
