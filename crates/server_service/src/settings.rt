//! How files are served.
ghost use Rattle.std.specs.Prelude.{◌≡◌, ◌↔◌, false, IfOk, string_bytes};
ghost use Rattle.headers.specs.Refusal.{IsInvalid};
ghost use Rattle.decide_preconditions.specs.Boundaries.{is_boundary, multipart_type};

use bytes::Bytes;
use decide_cors::CorsPolicy;
use decide_preconditions::{Boundary, InvalidBoundary};
use decide_resource::Resource;
use headers::{HeaderValue, Refused};
use http::StatusCode;
use std::alloc::Global;

/// The boundary between the parts of a `multipart/byteranges` response (RFC 9110, section 14.6). Take
/// digits that nobody can foresee, so that no file can be made to hold them.
#[derive(Debug, Drop)]
pub struct Divider {
    pub(crate) text: String,
    pub(crate) boundary: Boundary,
    ghost is_boundary: { boundary.bytes ≡ multipart_type (string_bytes text) },
}

impl Divider {
    /// A boundary of this text. `Invalid` if it is none; `Memory` if an allocation fails.
    pub fn new(alloc: Global, text: String) -> Result<Divider, Refused<InvalidBoundary>>
        ensures text { IfOk result (λ divider. divider.text ≡ text) }
        ensures invalid { IsInvalid result ↔ (is_boundary (string_bytes text) ≡ false) }
    {
        let boundary = Boundary::new(alloc, text.as_str())?;
        Ok(Divider { text, boundary })
    }
}

/// A page of a site's own, in HTML.
#[derive(Debug, Drop)]
pub struct Page {
    /// The status that it explains.
    pub status: StatusCode,
    /// Its bytes, in UTF-8.
    pub content: Bytes,
}

/// How files are served.
#[derive(Debug, Drop)]
pub struct Settings {
    /// What Cache-Control says of the answers that a cache may use again: 200, 206 and 304.
    pub cache_control: Option<HeaderValue>,
    /// Whether a client may get the precompressed copy of a file, by its Accept-Encoding.
    pub negotiates: bool,
    /// The hosts that are served, in any case and at any port. If there are none, all are. A request for
    /// another one is answered by 421 (RFC 9110, section 15.5.20).
    pub hosts: Vec<HeaderValue>,
    /// What answers say to requests from other origins, if they say anything.
    pub cors: Option<CorsPolicy>,
    /// The boundary between several parts.
    pub divider: Divider,
    /// The site's own pages. Of several for one status the first is sent, and for a status without one a
    /// page that names it.
    pub pages: Vec<Page>,
}

/// What all resources of a store have in common: they are read by GET and HEAD.
#[derive(Debug, Drop)]
pub struct Site {
    /// What Cache-Control says of the answers that a cache may use again: 200, 206 and 304.
    pub cache_control: Option<HeaderValue>,
    /// The boundary between several parts.
    pub divider: String,
    /// The site's own pages.
    pub pages: Vec<Page>,
    /// The resource of the last request. Its state and its representations change with each.
    pub resource: Resource,
}
