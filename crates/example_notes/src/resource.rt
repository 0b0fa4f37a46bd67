//! The collection and its notes as resources: which methods they have, and what they represent.
ghost use Rattle.std.{specs.Prelude.{◌≡◌, IfOk, false, map, option_copied}, specs.Result.result_ok};
ghost use Rattle.example_notes.specs.Resources.{IsJsonOf, IsResource, collection_methods, note_methods};

use crate::notes::Note;
use crate::text::tag_of;
use decide_cors::{Allowed, AllowedNames, CorsPolicy, CorsRules};
use decide_preconditions::{Boundary, Content, Validators};
use decide_resource::{MethodRule, Negotiation, Representation, Resource, State};
use decide_routes::ServerWide;
use headers::{ETag, HeaderMap, HeaderValue, Refused};
use http::Method;
use http_header::{ACCEPT, CONTENT_TYPE, ETAG, IF_MATCH, IF_NONE_MATCH, LOCATION};
use std::alloc::{AllocError, Global};

/// The greatest length of a note, in bytes.
const MAX_LEN: u64 = 65536;

// What an allocation gives, of a text that is known to be valid.
fn allocated<T, E: Drop>(made: Result<T, E>) -> Result<T, AllocError>
    ensures { result_ok result ≡ result_ok made }
{
    match made {
        Ok(value) => Ok(value),
        Err(_) => Err(AllocError),
    }
}

// Makes the policy for cross-origin requests: scripts of any origin may use the notes.
fn policy(alloc: Global) -> Result<CorsPolicy, AllocError> {
    let mut rules = CorsRules::new(alloc, Allowed::Any);
    rules.methods = Allowed::Listed(vec![in alloc; Method::PUT, Method::DELETE]?);
    rules.names = AllowedNames::Listed(vec![in alloc; CONTENT_TYPE, IF_MATCH, IF_NONE_MATCH]?);
    rules.exposed = Allowed::Listed(vec![in alloc; ETAG, LOCATION]?);
    allocated(CorsPolicy::new(alloc, rules))
}

// Makes the boundary between several parts. Ranges aren't sent, so no response has it.
fn boundary(alloc: Global) -> Result<Boundary, AllocError> {
    allocated(Boundary::new(alloc, "part"))
}

// The methods that the notes have, beside GET and HEAD.
fn implemented(alloc: Global) -> Result<Vec<Method>, AllocError> {
    Ok(vec![in alloc; Method::POST, Method::PUT, Method::DELETE]?)
}

/// Makes what all resources of the server have in common.
pub fn server(alloc: Global) -> Result<ServerWide, AllocError> {
    Ok(ServerWide {
        hosts: None,
        implemented: implemented(alloc)?,
        boundary: boundary(alloc)?,
        cors: Some(policy(alloc)?),
    })
}

// A method without content.
fn plain(alloc: Global, method: Method) -> MethodRule
    ensures method { result.method ≡ method }
    ensures free { result.needs_condition ≡ false }
{
    MethodRule {
        method,
        takes: HeaderMap::new(alloc),
        creates: false,
        needs_condition: false,
        takes_parts: false,
    }
}

// A method that takes JSON.
fn taking_json(
    alloc: Global,
    method: Method,
    needs_condition: bool,
) -> Result<MethodRule, AllocError>
    ensures method { IfOk result (λ rule. rule.method ≡ method) }
    ensures condition { IfOk result (λ rule. rule.needs_condition ≡ needs_condition) }
{
    let mut takes = HeaderMap::new(alloc);
    let json = HeaderValue::from_static("application/json");
    allocated(takes.insert(ACCEPT, json))?;
    Ok(MethodRule {
        method,
        takes,
        creates: false,
        needs_condition,
        takes_parts: false,
    })
}

// A text as a representation: JSON, with its change as a strong tag.
fn representation(alloc: Global, text: &Note) -> Result<Representation, AllocError>
    ensures { IfOk result (IsJsonOf text.now) }
{
    let tag = tag_of(alloc, text.series, text.version)?;
    let etag = allocated(ETag::from_str(alloc, tag.as_str()))?;
    Ok(Representation {
        coding: None,
        language: None,
        content: Content {
            len: Some(text.text.len() as u64),
            media_type: Some(HeaderValue::from_static("application/json")),
            ranges: None,
        },
        validators: Validators {
            etag: Some(etag),
            last_modified: None,
            is_date_strong: false,
        },
    })
}

// A resource with these methods, whose current text this is.
fn resource(
    alloc: Global,
    rules: Vec<MethodRule>,
    text: Option<&Note>,
) -> Result<Resource, AllocError>
    ensures { IfOk result (IsResource (map (λ rule. (rule.method, rule.needs_condition)) rules.items)
        (option_copied text.entry)) }
{
    let (state, representations) = match text {
        Some(text) => (
            State::Current,
            vec![in alloc; representation(alloc, text)?]?,
        ),
        None => (State::Absent, Vec::new(alloc)),
    };
    Ok(Resource {
        hosts: None,
        implemented: implemented(alloc)?,
        rules,
        state,
        representations,
        negotiation: Negotiation {
            media_type: true,
            language: false,
            coding: false,
            is_strict: true,
        },
        boundary: boundary(alloc)?,
        has_strong_dates: false,
        needs_length: false,
        limit: Some(MAX_LEN),
        cors: Some(policy(alloc)?),
    })
}

/// Makes the resource of the collection: GET reads it, and POST adds a note.
pub fn collection(alloc: Global, text: Option<&Note>) -> Result<Resource, AllocError>
    ensures { IfOk result (IsResource collection_methods (option_copied text.entry)) }
{
    let get = plain(alloc, Method::GET);
    let post = taking_json(alloc, Method::POST, false)?;
    resource(alloc, vec![in alloc; get, post]?, text)
}

/// Makes the resource of a note: GET reads it, DELETE removes it, and PUT, which needs a
/// precondition, writes it.
pub fn note(alloc: Global, text: Option<&Note>) -> Result<Resource, AllocError>
    ensures { IfOk result (IsResource note_methods (option_copied text.entry)) }
{
    let get = plain(alloc, Method::GET);
    let put = taking_json(alloc, Method::PUT, true)?;
    let delete = plain(alloc, Method::DELETE);
    resource(alloc, vec![in alloc; get, put, delete]?, text)
}
