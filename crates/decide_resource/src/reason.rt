//! Why a request is answered as it is.
ghost use Rattle.std.specs.Prelude.{◌≡◌};
ghost use Rattle.decide_resource.specs.Reasons.{stage};

/// Why a request gets its answer: what keeps its method from being performed, or that nothing does.
#[derive(Clone, Copy, Debug, PartialEq, Eq)]
pub enum Reason {
    /// 400: Host is missing, is present twice, or is no host (RFC 9110, section 7.2).
    InvalidHost,
    /// 421: the host isn't one of the resource's (section 7.4).
    Misdirected,
    /// 204: a preflight, where there is a policy for cross-origin requests (Fetch standard).
    Preflight,
    /// 401, 403, 429 or 503: the server denies the request.
    Denied,
    /// 501: the server doesn't implement the method (sections 9.1 and 15.6.2).
    UnknownMethod,
    /// 405: the server implements the method, and the resource doesn't have it (section 15.5.6).
    MethodNotAllowed,
    /// 417: Expect has a member other than `100-continue` (section 10.1.1).
    UnmetExpectation,
    /// 400: PUT with Content-Range, of a resource that takes no parts (section 14.5).
    PartialContent,
    /// 301, 307 or 308: the resource is under another URI (section 15.4).
    Moved,
    /// 410: the resource is gone (section 15.5.11).
    Gone,
    /// 404: there is no current representation, and the method makes none (section 15.5.5). OPTIONS
    /// asks about all methods: it gets 404 if none makes one.
    NotFound,
    /// 204: the method is OPTIONS (section 9.3.7).
    Options,
    /// 411: the length of the content isn't stated (section 15.5.12).
    LengthRequired,
    /// 413: the content is longer than the limit (section 15.5.14).
    ContentTooLarge,
    /// 415: the method doesn't take the media type of the content (section 15.5.16).
    UnsupportedMediaType,
    /// 415: the method doesn't take a coding of the content (sections 12.5.3 and 15.5.16).
    UnsupportedCoding,
    /// 406: no representation is acceptable (section 15.5.7).
    NotAcceptable,
    /// 428: the request doesn't name what it may replace, by entity tags in If-Match, by `*` in
    /// If-None-Match, or by a strong date in If-Unmodified-Since (RFC 6585, section 3).
    PreconditionRequired,
    /// Nothing keeps the method from being performed: the preconditions and Range decide.
    Admitted,
}

impl Reason {
    /// Returns the stage of the reason: of those that apply to a request, the one with the lowest
    /// stage decides. Reasons of one stage exclude each other.
    pub fn stage(self) -> u8
        ensures { result ≡ stage self }
    {
        match self {
            Reason::InvalidHost => 0,
            Reason::Misdirected => 1,
            Reason::Preflight => 2,
            Reason::Denied => 3,
            Reason::UnknownMethod => 4,
            Reason::MethodNotAllowed => 5,
            Reason::UnmetExpectation => 6,
            Reason::PartialContent => 7,
            Reason::Moved | Reason::Gone | Reason::NotFound => 8,
            Reason::Options => 9,
            Reason::LengthRequired | Reason::ContentTooLarge => 10,
            Reason::UnsupportedMediaType => 11,
            Reason::UnsupportedCoding => 12,
            Reason::NotAcceptable => 13,
            Reason::PreconditionRequired => 14,
            Reason::Admitted => 15,
        }
    }
}
