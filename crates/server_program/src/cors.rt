//! The policy for requests from other origins.

use crate::value_of;
use decide_cors::{Allowed, AllowedNames, CorsPolicy, CorsRules, RulesError};
use headers::{Header, Origin, Refused};
use http_header::{
    ACCEPT_RANGES, CONTENT_ENCODING, CONTENT_RANGE, ETAG, IF_MATCH, IF_MODIFIED_SINCE,
    IF_NONE_MATCH, IF_RANGE, IF_UNMODIFIED_SINCE, RANGE,
};
use std::alloc::{AllocError, Global};

// The mistake of a text that is no origin.
const NO_ORIGIN: &str = "the value of '--cors-origin' is no origin";

// One origin, or any.
fn origins_of(alloc: Global, text: &str) -> Result<Allowed<Origin>, Refused<&'static str>> {
    if text == "*" {
        return Ok(Allowed::Any);
    }
    let lines = [value_of(alloc, text, NO_ORIGIN)?];
    match Origin::decode(alloc, &mut lines.iter()) {
        Ok(origin) => Ok(Allowed::Listed(vec![in alloc; origin]?)),
        Err(Refused::Invalid(_)) => Err(Refused::Invalid(NO_ORIGIN)),
        Err(Refused::Memory(refused)) => Err(Refused::Memory(refused)),
    }
}

/// Makes the policy for scripts of one origin, or of any origin if the text is `*`. They may ask
/// for ranges and make conditions, and read what a response says about its representation.
/// Credentials aren't allowed. `Invalid` if the text is no origin that a browser sends, `Memory` if
/// an allocation fails.
pub fn policy_for(alloc: Global, text: &str) -> Result<CorsPolicy, Refused<&'static str>> {
    let mut rules = CorsRules::new(alloc, origins_of(alloc, text)?);
    let names = vec![in alloc;
        IF_MATCH,
        IF_MODIFIED_SINCE,
        IF_NONE_MATCH,
        IF_RANGE,
        IF_UNMODIFIED_SINCE,
        RANGE,
    ]?;
    let exposed = vec![in alloc; ACCEPT_RANGES, CONTENT_ENCODING, CONTENT_RANGE, ETAG]?;
    rules.names = AllowedNames::Listed(names);
    rules.exposed = Allowed::Listed(exposed);
    match CorsPolicy::new(alloc, rules) {
        Ok(policy) => Ok(policy),
        Err(RulesError::Memory) => Err(Refused::Memory(AllocError)),
        Err(_) => Err(Refused::Invalid(NO_ORIGIN)),
    }
}
