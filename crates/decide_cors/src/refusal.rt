//! Rules that browsers would take in another sense than they mean.
ghost use Rattle.std.specs.{Prelude.Contains, Bool.MatchBool};
ghost use Rattle.decide_cors.specs.{Allowed.Lists, Allowed.ListsName, Browser.star};
ghost use Rattle.decide_cors.specs.Rules.{HasStar, RefusesAny, RefusesReading};

use crate::error::RulesError;
use crate::rules::{Allowed, AllowedNames, CorsRules};
use headers::HeaderName;
use http::Method;

// Why browsers would take the rules in another sense than they mean, if they would.
pub(crate) fn refusal(rules: &CorsRules) -> Option<RulesError>
    ensures { RefusesReading rules.now result }
{
    match any_with_credentials(rules) {
        Some(error) => Some(error),
        None if has_star(rules) => Some(RulesError::Star),
        None => None,
    }
}

fn any_with_credentials(rules: &CorsRules) -> Option<RulesError>
    ensures { RefusesAny rules.now result }
{
    if !rules.credentials {
        return None;
    }
    if rules.origins.is_any() {
        return Some(RulesError::AnyOriginWithCredentials);
    }
    if rules.methods.is_any() {
        return Some(RulesError::AnyMethodWithCredentials);
    }
    if rules.names.is_any() {
        return Some(RulesError::AnyNameWithCredentials);
    }
    if rules.exposed.is_any() {
        return Some(RulesError::AnyExposedWithCredentials);
    }
    None
}

fn has_star(rules: &CorsRules) -> bool
    ensures { MatchBool result (HasStar rules.now) (¬ (HasStar rules.now)) }
{
    lists_star_method(&rules.methods)
        || lists_star_name(&rules.names)
        || lists_star_exposed(&rules.exposed)
}

fn lists_star_method(methods: &Allowed<Method>) -> bool
    ensures { MatchBool result (Lists methods.now star) (¬ (Lists methods.now star)) }
{
    match methods {
        Allowed::Any => false,
        Allowed::Listed(methods) => has_star_method(methods),
    }
}

fn lists_star_name(names: &AllowedNames) -> bool
    ensures { MatchBool result (ListsName names.now star) (¬ (ListsName names.now star)) }
{
    match names {
        AllowedNames::Any | AllowedNames::AnyAndAuthorization => false,
        AllowedNames::Listed(names) => has_star_name(names),
    }
}

fn lists_star_exposed(names: &Allowed<HeaderName>) -> bool
    ensures { MatchBool result (Lists names.now star) (¬ (Lists names.now star)) }
{
    match names {
        Allowed::Any => false,
        Allowed::Listed(names) => has_star_name(names),
    }
}

fn has_star_method(methods: &[Method]) -> bool
    ensures { MatchBool result (Contains methods.now star) (¬ (Contains methods.now star)) }
{
    methods.iter().any(|method| "*" == method.as_str())
}

fn has_star_name(names: &[HeaderName]) -> bool
    ensures { MatchBool result (Contains names.now star) (¬ (Contains names.now star)) }
{
    names.iter().any(|name| "*" == name.as_str())
}
