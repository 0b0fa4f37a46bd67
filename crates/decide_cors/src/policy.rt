//! A server's policy, and its answer to a request.
ghost use Rattle.std.specs.Prelude.{◌≡◌, ◌&&◌, ◌++◌, None, Some, IfErr, IfOk, OnOk, option_map, is_some, codes};
ghost use Rattle.headers.specs.{LineMap.{field_of, fields_of, lines_at}, Lines.lines_of};
ghost use Rattle.decide_cors.specs.{Answer.allows, Answer.IsAnswer, Policy.Policy, SentOrigins.unsent_of};
ghost use Rattle.decide_cors.specs.Fields.{filled_line, granted, grant_fields, lines_if, vary_sent};
ghost use Rattle.decide_cors.specs.Rules.{IsErrorOf, IsLawful, IsPolicyOf, IsUnwritten, RejectsTexts, texts};

use crate::error::RulesError;
use crate::fields::{field, field_if, filled};
use crate::kind::{CorsKind, kind_of};
use crate::origin::granted;
use crate::refusal::refusal;
use crate::rules::CorsRules;
use crate::sent::{UnsentOrigin, check_origins};
use crate::vary::push_vary;
use crate::written::{line_of_age, line_of_exposed, line_of_methods, line_of_names, texts_of};
use headers::{Encoded, HeaderMap, HeaderValue, Refused};
use http_header::{
    ACCESS_CONTROL_ALLOW_CREDENTIALS, ACCESS_CONTROL_ALLOW_HEADERS, ACCESS_CONTROL_ALLOW_METHODS,
    ACCESS_CONTROL_ALLOW_ORIGIN, ACCESS_CONTROL_EXPOSE_HEADERS, ACCESS_CONTROL_MAX_AGE,
};
use rfc_fields::RequestHead;
use std::alloc::{AllocError, Global};
use std::marker::Model;

/// The answer of a policy to a request: its kind, whether it is allowed, and the response's fields.
#[derive(Debug, Drop)]
pub struct CorsAnswer {
    /// The kind of the request.
    pub kind: CorsKind,
    /// Whether the policy allows the request's origin. A request without `Origin` is allowed.
    pub is_allowed: bool,
    /// The fields of the response, for `set_all`: one without field lines is removed.
    pub fields: Vec<Encoded>,
}

/// A server's policy for cross-origin requests (Fetch standard).
#[derive(Debug, Drop)]
pub struct CorsPolicy {
    origins: Option<Vec<HeaderValue>>,
    credentials: bool,
    methods: HeaderValue,
    names: HeaderValue,
    exposed: HeaderValue,
    max_age: Option<HeaderValue>,
}

impl Model for CorsPolicy {
    ghost use Rattle.decide_cors.specs.Policy.{Policy};

    ghost Value = { Policy };

    ghost use Rattle.decide_cors.specs.Inside.{policy_of};

    ghost view = { policy_of };
}

impl CorsPolicy {
    /// Makes the policy of these rules, or says why they make none. Rules are rejected if browsers
    /// would take them in another sense than they mean: any origin, method or name with
    /// credentials, and a listed method or name `*`. A listed origin that no browser sends is
    /// rejected as well, with its place. `Memory` only if the rules have a list or a `max_age`, and
    /// browsers take them as they mean.
    pub fn new(alloc: Global, rules: CorsRules) -> Result<CorsPolicy, RulesError>
        ensures ok { IfOk result (λ policy. IsLawful rules × IsPolicyOf rules policy) }
        ensures err { IfErr result (IsErrorOf rules) }
    {
        if let Some(error) = refusal(&rules) {
            return Err(error);
        }
        written_of(alloc, rules)
    }

    /// Decides the response fields of a request, by its method and its fields (Fetch standard).
    /// They replace those that the response has. `origin` is added to `Vary` if the policy lists
    /// its origins, and `Vary` has neither `origin` nor `*`. Fails only if an allocation fails,
    /// which is possible for every request.
    pub fn answer(
        &self,
        alloc: Global,
        request: &RequestHead<'_>,
        response: &HeaderMap,
    ) -> Result<CorsAnswer, AllocError>
        ensures { IfOk result (IsAnswer self.now request.now.method.now (lines_at request.now.fields.now)
            (lines_at response.now)) }
    {
        let kind = kind_of(request.method, request.fields);
        let granted = self.granted(request.fields)?;
        let is_allowed = is_allowed(kind, &granted);
        let mut fields = self.grant_fields(alloc, kind.is_preflight(), granted)?;
        self.push_vary(alloc, &mut fields, response)?;
        Ok(CorsAnswer {
            kind,
            is_allowed,
            fields,
        })
    }

    // The value of `Access-Control-Allow-Origin`, if this request gets the field.
    fn granted(&self, request: &HeaderMap) -> Result<Option<HeaderValue>, AllocError>
        ensures { IfOk result (λ line. option_map (λ value. value.bytes) line
            ≡ granted self.now (lines_at request.now (codes "origin"))) }
    {
        granted(&self.origins, request)
    }

    // Appends Vary: responses differ by their origins if these are listed.
    fn push_vary(
        &self,
        alloc: Global,
        fields: &mut Vec<Encoded>,
        response: &HeaderMap,
    ) -> Result<(), AllocError>
        ensures { OnOk result (fields_of fields.new.items
            ≡ fields_of fields.old.items ++ vary_sent self.now (lines_at response.now (codes "vary"))) }
    {
        if self.origins.is_none() {
            return Ok(());
        }
        push_vary(alloc, fields, response)
    }

    // The fields except `Vary`, given the value of `Access-Control-Allow-Origin`.
    fn grant_fields(
        &self,
        alloc: Global,
        is_preflight: bool,
        granted: Option<HeaderValue>,
    ) -> Result<Vec<Encoded>, AllocError>
        ensures { IfOk result (λ fields. fields_of fields.items
            ≡ grant_fields self.now is_preflight (option_map (λ value. value.bytes) granted)) }
    {
        let grants = has_value(&granted);
        let leaves = both(grants, is_preflight);
        let allow_origin = field(alloc, ACCESS_CONTROL_ALLOW_ORIGIN, granted)?;
        let allow_credentials = self.allow_credentials(alloc, grants)?;
        let exposed = self.exposed(alloc, both(grants, !is_preflight))?;
        let methods = self.methods(alloc, leaves)?;
        let names = self.names(alloc, leaves)?;
        let max_age = self.max_age(alloc, leaves)?;
        Ok(vec![in alloc;
            allow_origin,
            allow_credentials,
            exposed,
            methods,
            names,
            max_age,
        ]?)
    }

    fn allow_credentials(&self, alloc: Global, grants: bool) -> Result<Encoded, AllocError>
        ensures { IfOk result (λ field. field_of field ≡ (
          codes "access-control-allow-credentials",
          lines_if (grants && self.now.credentials) (Some (codes "true")),
        )) }
    {
        let line = HeaderValue::from_static("true");
        let shares = both(grants, self.credentials);
        field_if(alloc, ACCESS_CONTROL_ALLOW_CREDENTIALS, shares, Some(&line))
    }

    fn exposed(&self, alloc: Global, shows: bool) -> Result<Encoded, AllocError>
        ensures { IfOk result (λ field. field_of field ≡ (
          codes "access-control-expose-headers",
          lines_if shows (filled_line self.now.exposed),
        )) }
    {
        let line = filled(&self.exposed);
        field_if(alloc, ACCESS_CONTROL_EXPOSE_HEADERS, shows, line)
    }

    fn methods(&self, alloc: Global, leaves: bool) -> Result<Encoded, AllocError>
        ensures { IfOk result (λ field. field_of field ≡ (
          codes "access-control-allow-methods",
          lines_if leaves (Some self.now.methods),
        )) }
    {
        field_if(
            alloc,
            ACCESS_CONTROL_ALLOW_METHODS,
            leaves,
            Some(&self.methods),
        )
    }

    fn names(&self, alloc: Global, leaves: bool) -> Result<Encoded, AllocError>
        ensures { IfOk result (λ field. field_of field ≡ (
          codes "access-control-allow-headers",
          lines_if leaves (filled_line self.now.names),
        )) }
    {
        let line = filled(&self.names);
        field_if(alloc, ACCESS_CONTROL_ALLOW_HEADERS, leaves, line)
    }

    fn max_age(&self, alloc: Global, leaves: bool) -> Result<Encoded, AllocError>
        ensures { IfOk result (λ field. field_of field ≡ (
          codes "access-control-max-age",
          lines_if leaves self.now.max_age,
        )) }
    {
        field_if(alloc, ACCESS_CONTROL_MAX_AGE, leaves, self.max_age.as_ref())
    }
}

// Whether browsers send each of the listed origins.
fn check_sent(alloc: Global, origins: &Option<Vec<HeaderValue>>) -> Result<(), RulesError>
    ensures ok { IfOk result (λ _. unsent_of (option_map (λ listed. lines_of listed.items) origins.now) ≡ None) }
    ensures err { IfErr result (RejectsTexts (option_map (λ listed. lines_of listed.items) origins.now)) }
{
    let Some(listed) = origins else {
        return Ok(());
    };
    match check_origins(alloc, listed) {
        Ok(()) => Ok(()),
        Err(Refused::Invalid(UnsentOrigin { place })) => Err(RulesError::UnsentOrigin(place)),
        Err(Refused::Memory(_)) => Err(RulesError::Memory),
    }
}

// The policy that the rules write, if browsers send each of the listed origins.
fn written_of(alloc: Global, rules: CorsRules) -> Result<CorsPolicy, RulesError>
    ensures ok { IfOk result (λ policy. (unsent_of (texts rules.origins) ≡ None) × IsPolicyOf rules policy) }
    ensures err { IfErr result (IsUnwritten rules) }
{
    let CorsRules {
        origins,
        methods,
        names,
        exposed,
        credentials,
        max_age,
    } = rules;
    let origins = texts_of(alloc, &origins)?;
    check_sent(alloc, &origins)?;
    let methods = line_of_methods(alloc, methods)?;
    let names = line_of_names(alloc, names)?;
    let exposed = line_of_exposed(alloc, exposed)?;
    let max_age = line_of_age(alloc, max_age)?;
    Ok(CorsPolicy {
        origins,
        credentials,
        methods,
        names,
        exposed,
        max_age,
    })
}

// Whether a request of this kind is allowed, given its value of `Access-Control-Allow-Origin`.
fn is_allowed(kind: CorsKind, line: &Option<HeaderValue>) -> bool
    ensures { result ≡ allows kind (option_map (λ value. value.bytes) line.now) }
{
    match kind {
        CorsKind::NoOrigin => true,
        CorsKind::Preflight | CorsKind::Plain => has_value(line),
    }
}

fn has_value(line: &Option<HeaderValue>) -> bool
    ensures { result ≡ is_some (option_map (λ value. value.bytes) line.now) }
{
    line.is_some()
}

// Without the join of an `&&`, at which later steps lose what the value is.
fn both(left: bool, right: bool) -> bool
    ensures { result ≡ (left && right) }
{
    left && right
}
