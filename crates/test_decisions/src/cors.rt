//! Rules for requests from other origins that C has no words for, and what a negotiation varies by.
//!
//! Rules are fields: `(origins)`, `(methods)`, `(names)` and `(exposed)` list values, `(any)` names those of the four
//! that are any, or `names-and-authorization`, and `(credentials)` is `true` or left out. `(max-age)` is a number.
use crate::store::method;
use decide_cors::{
    Allowed, AllowedNames, CorsAnswer, CorsKind, CorsPolicy, CorsRules, RequestHead, RulesError,
};
use decide_negotiation::{Accept, AcceptEncoding, AcceptLanguage, varies_by};
use headers::{HeaderMap, HeaderName, HeaderValue, Origin, decode_values, set_all};
use http::Method;
use std::alloc::Global;
use test_rows::{Arguments, Calls, CaseAnswer, CaseFailure};

// A value of a list.
trait Listed: Sized + Drop {
    fn read(alloc: Global, line: &HeaderValue) -> Result<Self, CaseFailure>;
}

impl Listed for Origin {
    fn read(alloc: Global, line: &HeaderValue) -> Result<Origin, CaseFailure> {
        Ok(decode_values(alloc, &[line.clone()?])?)
    }
}

impl Listed for Method {
    fn read(alloc: Global, line: &HeaderValue) -> Result<Method, CaseFailure> {
        Ok(Method::from_bytes(alloc, line.as_bytes())?)
    }
}

impl Listed for HeaderName {
    fn read(alloc: Global, line: &HeaderValue) -> Result<HeaderName, CaseFailure> {
        Ok(HeaderName::from_bytes(alloc, line.as_bytes())?)
    }
}

fn is_any(rules: &HeaderMap, name: &str) -> bool {
    for any in rules.get_all("any") {
        if any.as_bytes() == name.as_bytes() {
            return true;
        }
    }
    false
}

fn allowed<T: Listed>(
    alloc: Global,
    rules: &HeaderMap,
    name: &str,
) -> Result<Allowed<T>, CaseFailure> {
    if is_any(rules, name) {
        return Ok(Allowed::Any);
    }
    let mut values = Vec::new(alloc);
    for line in rules.get_all(name) {
        values.push(T::read(alloc, line)?)?;
    }
    Ok(Allowed::Listed(values))
}

fn allowed_names(alloc: Global, rules: &HeaderMap) -> Result<AllowedNames, CaseFailure> {
    if is_any(rules, "names-and-authorization") {
        return Ok(AllowedNames::AnyAndAuthorization);
    }
    let names = allowed::<HeaderName>(alloc, rules, "names")?;
    Ok(AllowedNames::from(names))
}

fn max_age(alloc: Global, rules: &HeaderMap) -> Result<Option<u64>, CaseFailure> {
    let Some(line) = rules.get("max-age") else {
        return Ok(None);
    };
    let text = line.to_str().map_err(|_| CaseFailure::NoCall)?;
    Ok(Some(Arguments::new(alloc, text).number()?))
}

// The rules of the fields that are left.
fn read_rules(arguments: &mut Arguments<'_>) -> Result<CorsRules, CaseFailure> {
    let alloc = arguments.alloc();
    let rules = arguments.map()?;
    Ok(CorsRules {
        origins: allowed(alloc, &rules, "origins")?,
        methods: allowed(alloc, &rules, "methods")?,
        names: allowed_names(alloc, &rules)?,
        exposed: allowed(alloc, &rules, "exposed")?,
        credentials: rules.contains_key("credentials"),
        max_age: max_age(alloc, &rules)?,
    })
}

fn kind_word(kind: CorsKind) -> &'static str {
    match kind {
        CorsKind::Preflight => "preflight",
        CorsKind::Plain => "plain",
        CorsKind::NoOrigin => "no-origin",
    }
}

// `CorsPolicy.new RULES`: `made`, or why the rules are no policy.
fn make_new(arguments: &mut Arguments<'_>, answer: &mut CaseAnswer) -> Result<(), CaseFailure> {
    let rules = read_rules(arguments)?;
    match CorsPolicy::new(arguments.alloc(), rules) {
        Ok(_) => Ok(answer.word("made")?),
        Err(RulesError::Memory) => Err(CaseFailure::Memory),
        Err(error) => Ok(answer.word(format_args!("{error:?}"))?),
    }
}

fn read_policy(arguments: &mut Arguments<'_>) -> Result<CorsPolicy, CaseFailure> {
    let rules = read_rules(arguments)?;
    match CorsPolicy::new(arguments.alloc(), rules) {
        Ok(policy) => Ok(policy),
        Err(RulesError::Memory) => Err(CaseFailure::Memory),
        Err(_) => Err(CaseFailure::Refused),
    }
}

// `CorsPolicy.answer RULES (/) METHOD REQUEST (/) RESPONSE`: what the request is, whether it is allowed, and the fields
// of the response once those of the answer are set.
fn make_answer(arguments: &mut Arguments<'_>, answer: &mut CaseAnswer) -> Result<(), CaseFailure> {
    let policy = read_policy(arguments)?;
    let method = method(arguments)?;
    let request = arguments.map()?;
    let request = RequestHead {
        method: &method,
        fields: &request,
    };
    let mut response = arguments.map()?;
    let CorsAnswer {
        kind,
        is_allowed,
        fields,
    } = policy.answer(answer.alloc(), &request, &response)?;
    set_all(&mut response, fields).map_err(|_| CaseFailure::Memory)?;
    answer.word(format_args!("{} {is_allowed}", kind_word(kind)))?;
    answer.map(&response)
}

/// The calls of a policy, and what a negotiation varies by.
pub struct Cors;

impl Calls for Cors {
    fn make(
        name: &str,
        arguments: &mut Arguments<'_>,
        answer: &mut CaseAnswer,
    ) -> Result<(), CaseFailure> {
        match name {
            "CorsPolicy.new" => make_new(arguments, answer),
            "CorsPolicy.answer" => make_answer(arguments, answer),
            "accept.varies" => answer.line(&varies_by::<Accept>()),
            "encoding.varies" => answer.line(&varies_by::<AcceptEncoding>()),
            "language.varies" => answer.line(&varies_by::<AcceptLanguage>()),
            _ => Err(CaseFailure::NoCall),
        }
    }
}
