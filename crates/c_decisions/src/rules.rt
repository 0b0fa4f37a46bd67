//! A server's rules for requests from other origins, as C hands them in.
ghost use Rattle.std.specs.Prelude.{◌≡◌, ◌∷◌, [], ℕ, List};
ghost use Rattle.headers.{specs.Lines.lines_of, specs.Typed.HasLine};
ghost use Rattle.c_decisions.specs.Rules.{Finds, FindsOfLine, FindsOfText, IsPolicyAnswer, IsRulesAnswer, ReadEach};

use crate::method::read_method;
use crate::numbers::known;
use crate::star::is_any;
use c_parts::{Failure, read_name, read_values};
use decide_cors::{Allowed, AllowedNames, CorsPolicy, CorsRules, RulesError};
use headers::{Header, HeaderName, HeaderValue, Origin, Refused, decode_values};
use http::Method;
use std::alloc::Global;

/// The cross-origin requests that a server allows, as C passes them in. A text has one value a
/// line, and the line `*` alone means any value.
#[repr(C)]
#[derive(Clone, Copy)]
pub struct Rules<'a> {
    /// The origins.
    pub origins: &'a [u8],
    /// The methods besides GET, HEAD and POST.
    pub methods: &'a [u8],
    /// The names of request fields besides the safelisted ones.
    pub headers: &'a [u8],
    /// The names of response fields that scripts may read besides the safelisted ones.
    pub exposed: &'a [u8],
    /// For how many seconds the answer to a preflight may be cached, if `has_max_age`.
    pub max_age: u64,
    /// Whether that is said.
    pub has_max_age: bool,
    /// Whether requests may include credentials.
    pub credentials: bool,
}

/// A value of a list, one a line.
pub trait Listed: Drop {
    ghost reads: { List ℕ → Self → Type 0 };

    /// Reads a line.
    fn read(alloc: Global, line: &HeaderValue) -> Result<Self, Failure>
        ensures { FindsOfLine (reads line.now.bytes) result };
}

/// The header whose only field line this is.
pub fn read_line<H: Header>(alloc: Global, line: &HeaderValue) -> Result<H, Failure>
    ensures { FindsOfLine (H.reads (line.now.bytes ∷ [])) result }
{
    match decode_values(alloc, &[line.clone()?]) {
        Ok(header) => Ok(header),
        Err(Refused::Invalid(_)) => Err(Failure::Refused),
        Err(Refused::Memory(_)) => Err(Failure::Memory),
    }
}

impl Listed for Origin {
    ghost use Rattle.c_decisions.specs.Rules.{reads_origin};

    ghost reads = { reads_origin };

    fn read(alloc: Global, line: &HeaderValue) -> Result<Origin, Failure> {
        read_line::<Origin>(alloc, line)
    }
}

impl Listed for Method {
    ghost use Rattle.c_decisions.specs.Rules.{reads_method};

    ghost reads = { reads_method };

    fn read(alloc: Global, line: &HeaderValue) -> Result<Method, Failure> {
        read_method(alloc, line.as_bytes())
    }
}

impl Listed for HeaderName {
    ghost use Rattle.c_decisions.specs.Rules.{reads_name};

    ghost reads = { reads_name };

    fn read(alloc: Global, line: &HeaderValue) -> Result<HeaderName, Failure> {
        read_name(alloc, line.as_bytes())
    }
}

fn read_each<T: Listed>(alloc: Global, lines: &[HeaderValue]) -> Result<Vec<T>, Failure>
    ensures { Finds (HasLine (lines_of lines.now)) (ReadEach T.reads (lines_of lines.now)) result }
{
    let mut values = Vec::new(alloc);
    for line in lines {
        let value = T::read(alloc, line)?;
        values.push(value)?;
    }
    Ok(values)
}

fn read_allowed<T: Listed>(alloc: Global, text: &[u8]) -> Result<Allowed<T>, Failure>
    ensures { FindsOfText T.reads text.now result }
{
    let Some(lines) = read_values(alloc, text)? else {
        return Err(Failure::Refused);
    };
    if is_any(lines.as_slice()) {
        return Ok(Allowed::Any);
    }
    let values = read_each(alloc, lines.as_slice())?;
    Ok(Allowed::Listed(values))
}

fn read_rules(alloc: Global, rules: &Rules<'_>) -> Result<CorsRules, Failure>
    ensures { IsRulesAnswer rules.now result }
{
    let origins = read_allowed::<Origin>(alloc, rules.origins)?;
    let methods = read_allowed::<Method>(alloc, rules.methods)?;
    let names = read_allowed::<HeaderName>(alloc, rules.headers)?;
    let exposed = read_allowed::<HeaderName>(alloc, rules.exposed)?;
    Ok(CorsRules {
        origins,
        methods,
        names: AllowedNames::from(names),
        exposed,
        credentials: rules.credentials,
        max_age: known(rules.has_max_age, rules.max_age),
    })
}

/// Makes the policy of these rules. Rejected also if browsers would take the rules in another sense
/// than they mean, or if no browser sends one of the origins.
pub fn read_policy(alloc: Global, rules: &Rules<'_>) -> Result<CorsPolicy, Failure>
    ensures { IsPolicyAnswer rules.now result }
{
    let rules = read_rules(alloc, rules)?;
    match CorsPolicy::new(alloc, rules) {
        Ok(policy) => Ok(policy),
        Err(RulesError::Memory) => Err(Failure::Memory),
        Err(_) => Err(Failure::Refused),
    }
}
