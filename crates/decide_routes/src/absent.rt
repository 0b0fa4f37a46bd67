//! What all resources of a server have in common, and the answers for what is no resource of its own.
ghost use Rattle.std.specs.Prelude.{◌≡◌, ◌∷◌, IfOk, codes, false, map};
ghost use Rattle.decide_routes.specs.Routes.{IsNowhere, IsServerWide, idle_rule, told_of};

use decide_cors::CorsPolicy;
use decide_preconditions::Boundary;
use decide_resource::{MethodRule, Negotiation, Resource, State};
use headers::{HeaderMap, HeaderValue};
use http::Method;
use std::alloc::{AllocError, Global};

/// What all resources of a server have in common.
#[derive(Debug, Drop)]
pub struct ServerWide {
    /// The hosts that it is served for, as they are written in Host, or `None` for any.
    pub hosts: Option<Vec<HeaderValue>>,
    /// The methods that it implements for some resource, beside GET and HEAD (RFC 9110, section 9.1).
    pub implemented: Vec<Method>,
    /// The boundary between several parts.
    pub boundary: Boundary,
    /// The policy for cross-origin requests, if there is one.
    pub cors: Option<CorsPolicy>,
}

// A method that is never performed on what isn't there.
fn rule_for(alloc: Global, method: Method) -> MethodRule
    ensures { told_of result ≡ (method, false) }
{
    MethodRule {
        method,
        takes: HeaderMap::new(alloc),
        creates: false,
        needs_condition: false,
        takes_parts: false,
    }
}

// The rules of GET and of these methods, which make nothing.
fn idle_rules(alloc: Global, methods: &[Method]) -> Result<Vec<MethodRule>, AllocError>
    ensures { IfOk result (λ rules. map told_of rules.items
        ≡ (codes "GET", false) ∷ map idle_rule methods.now) }
{
    let mut rules = vec![in alloc; rule_for(alloc, Method::GET)]?;
    for method in methods {
        rules.push(rule_for(alloc, method.clone()?))?;
    }
    Ok(rules)
}

// A resource of this state, which has each method of the server and no representation.
fn resource_of(alloc: Global, server: ServerWide, state: State) -> Result<Resource, AllocError>
    ensures rules { IfOk result (λ resource. map told_of resource.rules.items
        ≡ (codes "GET", false) ∷ map idle_rule resource.implemented.items) }
    ensures implemented { IfOk result (λ resource. resource.implemented ≡ server.implemented) }
    ensures state { IfOk result (λ resource. resource.state ≡ state) }
    ensures hosts { IfOk result (λ resource. resource.hosts ≡ server.hosts) }
    ensures cors { IfOk result (λ resource. resource.cors ≡ server.cors) }
{
    let rules = idle_rules(alloc, &server.implemented)?;
    let ServerWide {
        hosts,
        implemented,
        boundary,
        cors,
    } = server;
    Ok(Resource {
        hosts,
        implemented,
        rules,
        state,
        representations: Vec::new(alloc),
        negotiation: Negotiation {
            media_type: false,
            language: false,
            coding: false,
            is_strict: false,
        },
        boundary,
        has_strong_dates: false,
        needs_length: false,
        limit: None,
        cors,
    })
}

/// Makes the resource for each path that has none: each method that the server implements gets 404,
/// and so does OPTIONS. Fails only if an allocation fails.
pub fn nowhere(alloc: Global, server: ServerWide) -> Result<Resource, AllocError>
    ensures nowhere { IfOk result IsNowhere }
    ensures implemented { IfOk result (λ resource. resource.implemented ≡ server.implemented) }
    ensures hosts { IfOk result (λ resource. resource.hosts ≡ server.hosts) }
    ensures cors { IfOk result (λ resource. resource.cors ≡ server.cors) }
{
    resource_of(alloc, server, State::Absent)
}

/// Makes the resource of `*`, which is the server in general (RFC 9110, section 9.3.7). OPTIONS gets
/// the methods that the server implements, and each of the others 404: there is nothing of the server
/// to represent or to replace. Fails only if an allocation fails.
pub fn server_wide(alloc: Global, server: ServerWide) -> Result<Resource, AllocError>
    ensures wide { IfOk result IsServerWide }
    ensures implemented { IfOk result (λ resource. resource.implemented ≡ server.implemented) }
    ensures hosts { IfOk result (λ resource. resource.hosts ≡ server.hosts) }
    ensures cors { IfOk result (λ resource. resource.cors ≡ server.cors) }
{
    resource_of(alloc, server, State::Server)
}
