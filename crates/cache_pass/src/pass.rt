//! A pass.
ghost use Rattle.std.specs.Prelude.{◌≡◌, string_bytes};
ghost use Rattle.{cache_policy.specs.Requests.request_of, headers.specs.LineMap.lines_at};
ghost use Rattle.cache_pass.specs.{declared.pass.Phase.TheVariants.Began, Passes.{IsSameRequest, request_of_pass}};

use cache_policy::RequestHead;
use headers::HeaderMap;
use http::{Method, StatusCode};

/// When the origin was asked, and how.
#[derive(Clone, Copy, Debug, PartialEq, Eq)]
pub struct Asked {
    /// When the request was made, in seconds since 1970.
    pub requested: u64,
    /// How many removals the cache had noted then.
    pub clock: u64,
    /// Whether it validates a stored response.
    pub validates: bool,
}

/// How far a pass has come.
#[derive(Debug, Drop)]
pub enum Phase {
    /// Nothing was done yet.
    Began,
    /// The origin is asked.
    Asking(Asked),
    /// The origin's response is forwarded, with this status and these fields, and is to be stored.
    Passing(Asked, StatusCode, HeaderMap),
    /// Nothing more comes.
    Ended,
}

/// One client's request through a cache, from its arrival to its last byte.
#[derive(Debug, Drop)]
pub struct Pass {
    pub(crate) key: String,
    pub(crate) method: Method,
    pub(crate) request: HeaderMap,
    pub(crate) phase: Phase,
}

impl Pass {
    /// A pass for a request: the URI of its target, its method and its fields.
    pub fn new(key: String, method: Method, request: HeaderMap) -> Pass
        ensures key { result.key ≡ key }
        ensures request { request_of_pass result ≡ record { method = method; fields = lines_at request } }
        ensures phase { result.phase ≡ Began }
    {
        Pass {
            key,
            method,
            request,
            phase: Phase::Began,
        }
    }

    /// A new pass for the same request.
    pub fn anew(mut self) -> Pass
        ensures request { IsSameRequest self result }
        ensures phase { result.phase ≡ Began }
    {
        self.phase = Phase::Began;
        self
    }

    /// The URI of the target.
    pub fn key(&self) -> &str
        ensures { result.now ≡ string_bytes self.now.key }
    {
        self.key.as_str()
    }

    /// The request.
    pub fn head(&self) -> RequestHead<'_>
        ensures { request_of result ≡ request_of_pass self.now }
    {
        RequestHead {
            method: &self.method,
            fields: &self.request,
        }
    }

    /// The fields of its request.
    pub fn fields(&self) -> &HeaderMap
        ensures { result.now ≡ self.now.request }
    {
        &self.request
    }

    /// How far it has come.
    pub fn phase(&self) -> &Phase
        ensures { result.now ≡ self.now.phase }
    {
        &self.phase
    }
}
