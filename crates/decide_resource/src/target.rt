//! The target of a request: its host, the method and the state of the resource.
ghost use Rattle.std.specs.Prelude.{◌≡◌, bytes_eq, codes, if◌then◌else◌, option_map, option_copied};
ghost use Rattle.std.specs.{Char.is_ascii_digit, List.{list_all, list_any}, Option.option_map_or};
ghost use Rattle.headers.specs.{LineMap.lines_at, Lines.only_line};
ghost use Rattle.headers_syntax.specs.AsciiCase.{same_name};
ghost use Rattle.decide_resource.specs.Applies.{creates, has_method_by, has_moved, host_named, is_at_host, is_current};
ghost use Rattle.decide_resource.specs.Applies.{is_gone, is_implemented, is_misdirected, is_missing, is_own, is_port};
ghost use Rattle.decide_resource.specs.{Applies.{is_read, rule_for, ruled}, Requests.request_of};

use crate::request::ResourceRequest;
use crate::resource::{MethodRule, Resource, State};
use headers::{HeaderMap, HeaderValue};
use http::Method;
use http_header::HOST;

// The only line of Host.
fn only_host(fields: &HeaderMap) -> Option<&HeaderValue>
    ensures { option_map (λ value. value.now.bytes) result ≡ only_line (lines_at fields.now (codes "host")) }
{
    let mut lines = fields.get_all(HOST).iter();
    let first = lines.next()?;
    match lines.next() {
        Some(_) => None,
        None => Some(first),
    }
}

fn host_named<'a>(request: &ResourceRequest<'a>) -> Option<&'a HeaderValue>
    ensures { option_map (λ value. value.now.bytes) result
        ≡ host_named (request_of request.now).authority (lines_at request.now.fields.now (codes "host")) }
{
    match request.authority {
        Some(authority) => Some(authority),
        None => only_host(request.fields),
    }
}

fn are_digits(text: &[u8]) -> bool
    ensures { result ≡ list_all is_ascii_digit text.now }
{
    text.iter().all(|byte| byte.is_ascii_digit())
}

fn is_port(text: &[u8]) -> bool
    ensures { result ≡ is_port text.now }
{
    text.is_empty() || (text[0] == b':' && are_digits(&text[1..]))
}

fn is_same(own: &[u8], host: &[u8]) -> bool
    ensures { result ≡ same_name own.now host.now }
{
    own.eq_ignore_ascii_case(host)
}

// Whether a host is this one, at any port if this one is written without a port.
fn is_at_host(own: &[u8], host: &[u8]) -> bool
    ensures { result ≡ is_at_host own.now host.now }
{
    own.len() <= host.len() && is_same(own, &host[..own.len()]) && is_port(&host[own.len()..])
}

fn is_listed(hosts: &[HeaderValue], host: &HeaderValue) -> bool
    ensures { result ≡ list_any (λ own. is_at_host own.bytes host.now.bytes) hosts.now }
{
    hosts
        .iter()
        .any(|own| is_at_host(own.as_bytes(), host.as_bytes()))
}

// Whether a resource with these hosts is served for this one.
fn is_own(hosts: &[HeaderValue], host: Option<&HeaderValue>) -> bool
    ensures { result ≡ is_own hosts.now (option_map (λ value. value.now.bytes) host.entry) }
{
    match host {
        Some(host) => is_listed(hosts, host),
        None => true,
    }
}

pub(crate) fn is_misdirected(resource: &Resource, request: &ResourceRequest<'_>) -> bool
    ensures { result ≡ is_misdirected resource.now (request_of request.now) }
{
    match &resource.hosts {
        Some(hosts) => !is_own(hosts, host_named(request)),
        None => false,
    }
}

fn is_named(named: &[Method], method: &str) -> bool
    ensures { result ≡ list_any (λ other. bytes_eq method.now other) named.now }
{
    named.iter().any(|other| method == other.as_str())
}

/// Whether a server that names these methods implements a method.
pub(crate) fn is_implemented(named: &[Method], method: &str) -> bool
    ensures { result ≡ is_implemented named.now method.now }
{
    is_read(method) || is_named(named, method)
}

// The method whose rule counts.
fn ruled(method: &str) -> &str
    ensures { result.now ≡ ruled method.now }
{
    if method == "HEAD" { "GET" } else { method }
}

#[tactic(auto, unfolding(crate::specs::Applies::rule_for))]
pub(crate) fn rule_for<'a>(rules: &'a [MethodRule], method: &str) -> Option<&'a MethodRule>
    ensures { option_copied result ≡ rule_for rules.now method.now }
{
    let name = ruled(method);
    rules.iter().find(|rule| rule.method.as_str() == name)
}

pub(crate) fn is_options(method: &str) -> bool
    ensures { result ≡ bytes_eq method.now (codes "OPTIONS") }
{
    method == "OPTIONS"
}

pub(crate) fn is_read(method: &str) -> bool
    ensures { result ≡ is_read method.now }
{
    method == "GET" || method == "HEAD"
}

pub(crate) fn has_method_by(rule: Option<&MethodRule>, method: &str) -> bool
    ensures { result ≡ has_method_by (option_copied rule.entry) method.now }
{
    is_options(method) || rule.is_some()
}

pub(crate) fn has_moved(state: &State) -> bool
    ensures { result ≡ has_moved state.now }
{
    matches!(state, State::Moved(_, _))
}

pub(crate) fn is_gone(state: &State) -> bool
    ensures { result ≡ is_gone state.now }
{
    matches!(state, State::Gone)
}

pub(crate) fn is_current(state: &State) -> bool
    ensures { result ≡ is_current state.now }
{
    matches!(state, State::Current)
}

fn creates(rule: Option<&MethodRule>) -> bool
    ensures { result ≡ creates (option_copied rule.entry) }
{
    match rule {
        Some(rule) => rule.creates,
        None => false,
    }
}

fn some_creates(rules: &[MethodRule]) -> bool
    ensures { result ≡ list_any (λ r. r.creates) rules.now }
{
    rules.iter().any(|rule| rule.creates)
}

// Whether what is asked for makes a representation: the method, or with OPTIONS one of all.
fn may_create(rules: &[MethodRule], rule: Option<&MethodRule>, method: &str) -> bool
    ensures { result ≡ if bytes_eq method.now (codes "OPTIONS") then list_any (λ r. r.creates) rules.now
        else creates (option_copied rule.entry) }
{
    if is_options(method) {
        some_creates(rules)
    } else {
        creates(rule)
    }
}

/// Whether there is no representation, and the method, where this is its rule, makes none.
pub(crate) fn is_missing(resource: &Resource, rule: Option<&MethodRule>, method: &str) -> bool
    ensures { result ≡ is_missing resource.now.state resource.now.rules.items (option_copied rule.entry) method.now }
{
    match &resource.state {
        State::Absent => !may_create(&resource.rules, rule, method),
        State::Server => !is_options(method),
        State::Current | State::Gone | State::Moved(_, _) => false,
    }
}
