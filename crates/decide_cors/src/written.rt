//! The encoding of rules.
ghost use Rattle.std.specs.Prelude.{◌≡◌, ◌∷◌, [], decimal, length, map, IfErr, IfOk, IsSome, option_map};
ghost use Rattle.headers.specs.{Lines.lines_of, Origin.origin_text};
ghost use Rattle.headers.specs.ListItem.{method_of, name_of, IsListOf};
ghost use Rattle.decide_cors.specs.Allowed.{IsAny, IsAnyName};
ghost use Rattle.decide_cors.specs.Rules.{IsListLine, IsNamesLine, age_line, greatest_age, texts};

use crate::rules::{Allowed, AllowedNames};
use headers::{
    AccessControlAllowHeaders, AccessControlAllowMethods, AccessControlMaxAge, Header, HeaderName,
    HeaderValue, Origin,
};
use http::Method;
use std::alloc::{AllocError, Global};

// 2^31 - 1.
const GREATEST_AGE: u64 = 2147483647;

// The field line of a header that encodes to exactly one.
fn line_of<H: Header>(alloc: Global, header: &H) -> Result<HeaderValue, AllocError>
    requires { length (H.writes header.now) ≡ 1 }
    ensures { IfOk result (λ line. H.writes header.now ≡ line.bytes ∷ []) }
{
    let mut lines = Vec::new(alloc);
    header.encode(alloc, &mut lines)?;
    match lines.pop() {
        Some(line) => Ok(line),
        None => unreachable!(),
    }
}

// The texts of listed origins, or `None` for any.
pub(crate) fn texts_of(
    alloc: Global,
    origins: &Allowed<Origin>,
) -> Result<Option<Vec<HeaderValue>>, AllocError>
    ensures texts { IfOk result (λ found. option_map (λ listed. lines_of listed.items) found ≡ texts origins.now) }
    ensures memory { IfErr result (λ _. ¬ (IsAny origins.now)) }
{
    match origins {
        Allowed::Any => Ok(None),
        Allowed::Listed(listed) => Ok(Some(lines_of_origins(alloc, listed)?)),
    }
}

fn lines_of_origins(alloc: Global, origins: &[Origin]) -> Result<Vec<HeaderValue>, AllocError>
    ensures { IfOk result (λ lines. lines_of lines.items ≡ map origin_text origins.now) }
{
    let mut lines = Vec::new(alloc);
    for origin in origins {
        lines.push(line_of(alloc, origin)?)?;
    }
    Ok(lines)
}

// A star, or the methods.
pub(crate) fn line_of_methods(
    alloc: Global,
    methods: Allowed<Method>,
) -> Result<HeaderValue, AllocError>
    ensures line { IfOk result (λ line. IsListLine method_of methods line.bytes) }
    ensures memory { IfErr result (λ _. ¬ (IsAny methods)) }
{
    match methods {
        Allowed::Any => Ok(HeaderValue::from_static("*")),
        Allowed::Listed(methods) => line_of_listed_methods(alloc, methods),
    }
}

fn line_of_listed_methods(alloc: Global, methods: Vec<Method>) -> Result<HeaderValue, AllocError>
    ensures { IfOk result (λ line. IsListOf method_of methods.items line.bytes) }
{
    let header = AccessControlAllowMethods::from_iter(alloc, methods.into_iter())?;
    line_of(alloc, &header)
}

// A star, with `authorization` or without, or the names.
pub(crate) fn line_of_names(alloc: Global, names: AllowedNames) -> Result<HeaderValue, AllocError>
    ensures line { IfOk result (λ line. IsNamesLine names line.bytes) }
    ensures memory { IfErr result (λ _. ¬ (IsAnyName names)) }
{
    match names {
        AllowedNames::Any => Ok(HeaderValue::from_static("*")),
        AllowedNames::AnyAndAuthorization => Ok(HeaderValue::from_static("*, authorization")),
        AllowedNames::Listed(names) => line_of_listed_names(alloc, names),
    }
}

// A star, or the names.
pub(crate) fn line_of_exposed(
    alloc: Global,
    names: Allowed<HeaderName>,
) -> Result<HeaderValue, AllocError>
    ensures line { IfOk result (λ line. IsListLine name_of names line.bytes) }
    ensures memory { IfErr result (λ _. ¬ (IsAny names)) }
{
    match names {
        Allowed::Any => Ok(HeaderValue::from_static("*")),
        Allowed::Listed(names) => line_of_listed_names(alloc, names),
    }
}

fn line_of_listed_names(alloc: Global, names: Vec<HeaderName>) -> Result<HeaderValue, AllocError>
    ensures { IfOk result (λ line. IsListOf name_of names.items line.bytes) }
{
    let header = AccessControlAllowHeaders::from_iter(alloc, names.into_iter())?;
    line_of(alloc, &header)
}

pub(crate) fn line_of_age(
    alloc: Global,
    max_age: Option<u64>,
) -> Result<Option<HeaderValue>, AllocError>
    ensures line { IfOk result (λ line. option_map (λ value. value.bytes) line ≡ option_map age_line max_age) }
    ensures memory { IfErr result (λ _. IsSome max_age) }
{
    match max_age {
        Some(seconds) => {
            let written = seconds.min(GREATEST_AGE);
            let line = line_of(alloc, &AccessControlMaxAge::from_secs(written))?;
            Ok(Some(line))
        }
        None => Ok(None),
    }
}
