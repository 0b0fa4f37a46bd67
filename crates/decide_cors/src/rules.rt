//! The cross-origin requests that a server allows.
ghost use Rattle.std.specs.{Prelude.◌≡◌, Bool.MatchBool};
ghost use Rattle.decide_cors.specs.{Allowed.IsAny, Allowed.IsAnyName, Rules.AllowsOriginsAlone};

use headers::{HeaderName, Origin};
use http::Method;
use std::alloc::Global;

/// Which values are allowed: any, or those of a list.
#[derive(Debug, Drop)]
pub enum Allowed<T> {
    /// Any value, which is encoded as `*`. Not allowed with credentials.
    Any,
    /// These values.
    Listed(Vec<T>),
}

impl<T> Allowed<T> {
    pub(crate) fn is_any(&self) -> bool
        ensures { MatchBool result (IsAny self.now) (¬ (IsAny self.now)) }
    {
        matches!(self, Allowed::Any)
    }
}

/// Which names of request fields are allowed: any, or those of a list.
#[derive(Debug, Drop)]
pub enum AllowedNames {
    /// Any name but `authorization`, which is encoded as `*`. Not allowed with credentials.
    /// Chromium and Firefox let the star include `authorization`, against the Fetch standard.
    Any,
    /// Any name, which is encoded as `*, authorization`. Not allowed with credentials.
    AnyAndAuthorization,
    /// These names.
    Listed(Vec<HeaderName>),
}

impl AllowedNames {
    pub(crate) fn is_any(&self) -> bool
        ensures { MatchBool result (IsAnyName self.now) (¬ (IsAnyName self.now)) }
    {
        match self {
            AllowedNames::Any | AllowedNames::AnyAndAuthorization => true,
            AllowedNames::Listed(_) => false,
        }
    }
}

impl From<Allowed<HeaderName>> for AllowedNames {
    ghost use Rattle.std.specs.Prelude.{◌≡◌};
    ghost use Rattle.decide_cors.specs.Allowed.{names_of};

    ghost from_gives = { λ allowed names. names ≡ names_of allowed };

    fn from(allowed: Allowed<HeaderName>) -> AllowedNames {
        match allowed {
            Allowed::Any => AllowedNames::Any,
            Allowed::Listed(names) => AllowedNames::Listed(names),
        }
    }
}

/// The cross-origin requests that a server allows, and what scripts may read (Fetch standard).
#[derive(Debug, Drop)]
pub struct CorsRules {
    /// The allowed origins. A listed origin is compared byte for byte with the text that a browser
    /// sends, which has scheme and host in lower case, and no default port. `null` is allowed only
    /// if it is listed, or if any origin is allowed.
    pub origins: Allowed<Origin>,
    /// The allowed methods besides GET, HEAD and POST, which need no permission. Case matters.
    pub methods: Allowed<Method>,
    /// The allowed names of request fields besides the safelisted ones, which need no permission.
    pub names: AllowedNames,
    /// The names of response fields that scripts may read besides the safelisted ones.
    pub exposed: Allowed<HeaderName>,
    /// Whether requests may include credentials.
    pub credentials: bool,
    /// For how many seconds the response to a preflight may be cached. A number above 2^31 - 1 is
    /// encoded as that, since a browser that can't parse the number uses five seconds, as it does
    /// without the field.
    pub max_age: Option<u64>,
}

impl CorsRules {
    /// Makes rules that allow these origins without credentials, and no further method or field.
    pub fn new(alloc: Global, origins: Allowed<Origin>) -> CorsRules
        ensures { AllowsOriginsAlone origins result }
    {
        CorsRules {
            origins,
            methods: Allowed::Listed(Vec::new(alloc)),
            names: AllowedNames::Listed(Vec::new(alloc)),
            exposed: Allowed::Listed(Vec::new(alloc)),
            credentials: false,
            max_age: None,
        }
    }
}
