//! The calls of a store.
use crate::parts::{make_part_call, new_parts};
use bytes::Bytes;
use cache_policy::{Kind, RequestHead};
use cache_rules::{Exchange, Reception, StoredAnswer, StoredResponse};
use cache_store::parts::PartStore;
use cache_store::{Limits, Lookup, LookupTimes, Options, Refreshed, Store, named_targets};
use headers::{Encoded, HeaderMap};
use http::{Method, StatusCode};
use std::alloc::{AllocError, Global};
use std::hash::RandomState;
use test_rows::{Arguments, CaseAnswer, CaseFailure};

/// The stores of a cache: of complete responses, and of parts.
#[derive(Drop)]
pub struct Caches {
    /// The complete responses.
    pub responses: Store,
    /// The parts.
    pub parts: PartStore,
}

/// KIND VARIANTS RESPONSES BYTES, and maybe `immutable` or `plain` with the names of targeted fields: a
/// cache without a response, whose stores have these limits each.
pub fn new_caches(alloc: Global, keys: RandomState, limits: &str) -> Result<Caches, CaseFailure> {
    Ok(Caches {
        responses: new_store(alloc, keys, limits)?,
        parts: new_parts(alloc, keys, limits)?,
    })
}

fn new_store(alloc: Global, keys: RandomState, limits: &str) -> Result<Store, CaseFailure> {
    let mut arguments = Arguments::new(alloc, limits);
    let (kind, limits) = read_limits(&mut arguments)?;
    if arguments.is_empty() {
        return Ok(Store::new(alloc, kind, limits, keys)?);
    }
    let options = read_options(alloc, &mut arguments)?;
    Ok(Store::with_options(alloc, kind, options, limits, keys)?)
}

/// The next word, as a kind of cache.
pub fn kind(arguments: &mut Arguments<'_>) -> Result<Kind, CaseFailure> {
    match arguments.word()? {
        "shared" => Ok(Kind::Shared),
        "private" => Ok(Kind::Private),
        _ => Err(CaseFailure::NoCall),
    }
}

/// The next four words, as whom a cache serves, and its limits.
pub fn read_limits(arguments: &mut Arguments<'_>) -> Result<(Kind, Limits), CaseFailure> {
    let kind = kind(arguments)?;
    let limits = Limits {
        variants: size(arguments)?,
        responses: size(arguments)?,
        bytes: size(arguments)?,
    };
    Ok((kind, limits))
}

/// The next words, as options.
pub fn read_options(alloc: Global, arguments: &mut Arguments<'_>) -> Result<Options, CaseFailure> {
    let immutable = match arguments.word()? {
        "immutable" => true,
        "plain" => false,
        _ => return Err(CaseFailure::NoCall),
    };
    let targets = arguments.names()?.collect(alloc)?;
    Ok(Options { immutable, targets })
}

/// The next word, as a number of bytes or of responses.
pub fn size(arguments: &mut Arguments<'_>) -> Result<usize, CaseFailure> {
    usize::try_from(arguments.number()?).map_err(|_| CaseFailure::NoCall)
}

/// The next word, as a status.
pub fn status(arguments: &mut Arguments<'_>) -> Result<StatusCode, CaseFailure> {
    let code = u16::try_from(arguments.number()?).map_err(|_| CaseFailure::NoCall)?;
    StatusCode::from_u16(code).map_err(|_| CaseFailure::NoCall)
}

/// The next word, as a method.
pub fn method(arguments: &mut Arguments<'_>) -> Result<Method, CaseFailure> {
    Ok(Method::from_bytes(arguments.alloc(), &arguments.bytes()?)?)
}

// The next two words, as the times of a request and of its response.
fn exchange(arguments: &mut Arguments<'_>) -> Result<Exchange, CaseFailure> {
    Ok(Exchange {
        requested: arguments.number()?,
        received: arguments.number()?,
    })
}

/// METHOD REQUEST: a request.
#[derive(Drop)]
pub struct StoreRequest {
    /// The method.
    pub method: Method,
    /// The fields.
    pub fields: HeaderMap,
}

impl StoreRequest {
    /// The next words, as a request.
    pub fn read(arguments: &mut Arguments<'_>) -> Result<StoreRequest, CaseFailure> {
        let method = method(arguments)?;
        let fields = arguments.map()?;
        Ok(StoreRequest { method, fields })
    }

    /// The request as a cache sees it.
    pub fn head(&self) -> RequestHead<'_> {
        RequestHead {
            method: &self.method,
            fields: &self.fields,
        }
    }
}

// REQUESTED RECEIVED METHOD REQUEST UPDATE: what a validating response says, and its request.
#[derive(Drop)]
struct Update {
    exchange: Exchange,
    asked: StoreRequest,
    fields: HeaderMap,
}

impl Update {
    fn read(arguments: &mut Arguments<'_>) -> Result<Update, CaseFailure> {
        let exchange = exchange(arguments)?;
        let asked = StoreRequest::read(arguments)?;
        let fields = arguments.map()?;
        Ok(Update {
            exchange,
            asked,
            fields,
        })
    }
}

// The content of the response with a number, or `(none)`.
fn add_content(
    store: &Store,
    target: &str,
    number: u64,
    answer: &mut CaseAnswer,
) -> Result<(), AllocError> {
    match store.response(target, number) {
        Some(response) => answer.bytes(response.content.as_slice()),
        None => answer.none(),
    }
}

/// Fields, also those without a field line.
pub fn add_fields(fields: &[Encoded], answer: &mut CaseAnswer) -> Result<(), CaseFailure> {
    for field in fields {
        answer.word(format_args!("({})", field.name.as_str()))?;
        for line in field.lines.iter() {
            answer.line(line)?;
        }
    }
    Ok(())
}

fn add_lookup(
    store: &Store,
    target: &str,
    found: &Lookup,
    answer: &mut CaseAnswer,
) -> Result<(), CaseFailure> {
    let (word, number, fields) = match found {
        Lookup::Serve(number, age) => ("serve", *number, std::slice::from_ref(age)),
        Lookup::ServeAndRevalidate(number, age) => {
            ("serve_and_revalidate", *number, std::slice::from_ref(age))
        }
        Lookup::Validate(number, fields) => ("validate", *number, fields.as_slice()),
        Lookup::ValidateOrServe(number, fields) => {
            ("validate_or_serve", *number, fields.as_slice())
        }
        Lookup::Unavailable => return Ok(answer.word("unavailable")?),
        Lookup::Forward => return Ok(answer.word("forward")?),
    };
    answer.word(word)?;
    add_content(store, target, number, answer)?;
    add_fields(fields, answer)
}

fn look_up(
    store: &mut Store,
    target: &str,
    asked: &StoreRequest,
    now: u64,
    guess: Option<u64>,
    answer: &mut CaseAnswer,
) -> Result<(), CaseFailure> {
    let (alloc, request) = (answer.alloc(), asked.head());
    let found = match guess {
        Some(longest_guess) => {
            let times = LookupTimes { now, longest_guess };
            store.lookup_guessing(alloc, target, &request, times)?
        }
        None => store.lookup(alloc, target, &request, now)?,
    };
    add_lookup(store, target, &found, answer)
}

// NOW METHOD REQUEST, and before METHOD the greatest lifetime that is guessed: what is done, the
// content of the response, and Age or the conditions.
fn call_lookup(
    store: &mut Store,
    target: &str,
    guesses: bool,
    arguments: &mut Arguments<'_>,
    answer: &mut CaseAnswer,
) -> Result<(), CaseFailure> {
    let now = arguments.number()?;
    let guess = if guesses {
        Some(arguments.number()?)
    } else {
        None
    };
    let asked = StoreRequest::read(arguments)?;
    look_up(store, target, &asked, now, guess, answer)
}

/// REQUESTED RECEIVED METHOD REQUEST STATUS CONTENT RESPONSE: a response, and its request.
pub fn read_came(arguments: &mut Arguments<'_>) -> Result<StoredResponse, CaseFailure> {
    let Exchange {
        requested,
        received,
    } = exchange(arguments)?;
    let StoreRequest { method, fields } = StoreRequest::read(arguments)?;
    let status = status(arguments)?;
    let content = Bytes::from_vec(arguments.bytes()?)?;
    let response = arguments.map()?;
    Ok(StoredResponse {
        method,
        request: fields,
        status,
        content,
        response,
        requested,
        received,
        number: 0,
    })
}

// The same: whether it is stored.
fn call_store(
    store: &mut Store,
    target: &str,
    reception: Reception,
    arguments: &mut Arguments<'_>,
    answer: &mut CaseAnswer,
) -> Result<(), CaseFailure> {
    let came = read_came(arguments)?;
    let stored = store.store(arguments.alloc(), target, came, reception)?;
    Ok(answer.word(if stored.is_some() {
        "stored"
    } else {
        "unstored"
    })?)
}

// An update: which response is the answer after a 304.
fn call_freshen(
    store: &mut Store,
    target: &str,
    update: &Update,
    answer: &mut CaseAnswer,
) -> Result<(), CaseFailure> {
    let request = update.asked.head();
    match store.freshen(
        answer.alloc(),
        target,
        &request,
        &update.fields,
        update.exchange,
    )? {
        Refreshed::Absent => Ok(answer.word("absent")?),
        Refreshed::Unchanged => Ok(answer.word("unchanged")?),
        Refreshed::Stored(number) => {
            answer.word("stored")?;
            Ok(add_content(store, target, number, answer)?)
        }
        Refreshed::Once(response) => {
            answer.word("once")?;
            add_stored(&response, answer)
        }
    }
}

// An update: how many responses are left under the target after a 200 to HEAD.
fn call_freshen_by_head(
    store: &mut Store,
    target: &str,
    update: &Update,
    answer: &mut CaseAnswer,
) -> Result<(), CaseFailure> {
    let request = update.asked.head();
    store.freshen_by_head(
        answer.alloc(),
        target,
        &request,
        &update.fields,
        update.exchange,
    )?;
    Ok(answer.word(store.responses(target).len())?)
}

// The next word, as whether ranges are answered.
fn ranges(arguments: &mut Arguments<'_>) -> Result<bool, CaseFailure> {
    match arguments.word()? {
        "ranges" => Ok(true),
        "no_ranges" => Ok(false),
        _ => Err(CaseFailure::NoCall),
    }
}

// PLACE NOW RANGES METHOD REQUEST: how the response at the place, in the order of storing, answers the
// conditions.
fn call_answer(
    store: &Store,
    target: &str,
    arguments: &mut Arguments<'_>,
    answer: &mut CaseAnswer,
) -> Result<(), CaseFailure> {
    let (place, now) = (size(arguments)?, arguments.number()?);
    let ranges = ranges(arguments)?;
    let asked = StoreRequest::read(arguments)?;
    let Some(number) = number_at(store.responses(target), place) else {
        return Ok(answer.none()?);
    };
    match store.answer(answer.alloc(), target, number, &asked.head(), now, ranges)? {
        Some(found) => Ok(add_stored_answer(found, answer)?),
        None => Ok(answer.none()?),
    }
}

// The number of the response at a place.
fn number_at(responses: &[StoredResponse], place: usize) -> Option<u64> {
    Some(responses.get(place)?.number)
}

// How a stored response answers conditions and ranges.
fn add_stored_answer(found: StoredAnswer, answer: &mut CaseAnswer) -> Result<(), AllocError> {
    match found {
        StoredAnswer::Whole => answer.word("whole"),
        StoredAnswer::Part(part) => answer.word(format_args!("part {}-{}", part.first, part.last)),
        StoredAnswer::NotModified => answer.word("not_modified"),
        StoredAnswer::Unsatisfiable => answer.word("unsatisfiable"),
        StoredAnswer::Forward => answer.word("forward"),
    }
}

// METHOD STATUS: how many responses are left under the target.
fn call_invalidate(
    store: &mut Store,
    target: &str,
    arguments: &mut Arguments<'_>,
    answer: &mut CaseAnswer,
) -> Result<(), CaseFailure> {
    let (method, status) = (method(arguments)?, status(arguments)?);
    store.invalidate(arguments.alloc(), target, &method, status);
    Ok(answer.word(store.responses(target).len())?)
}

// RESPONSE: how many URLs of its origin the response names, and these.
fn call_named_targets(
    target: &str,
    arguments: &mut Arguments<'_>,
    answer: &mut CaseAnswer,
) -> Result<(), CaseFailure> {
    let response = arguments.map()?;
    let Ok(urls) = named_targets(answer.alloc(), target, &response) else {
        return Err(CaseFailure::Memory);
    };
    answer.word(urls.len())?;
    for url in &urls {
        answer.bytes(url.as_str().as_bytes())?;
    }
    Ok(())
}

/// A stored response: method, status, content, times and fields.
pub fn add_stored(response: &StoredResponse, answer: &mut CaseAnswer) -> Result<(), CaseFailure> {
    answer.word(response.method.as_str())?;
    answer.word(response.status.as_u16())?;
    answer.bytes(response.content.as_slice())?;
    answer.word(response.requested)?;
    answer.word(response.received)?;
    answer.map(&response.response)
}

// How many responses are stored under the target, and each of them.
fn call_responses(store: &Store, target: &str, answer: &mut CaseAnswer) -> Result<(), CaseFailure> {
    let responses = store.responses(target);
    answer.word(responses.len())?;
    for response in responses {
        answer.word("(/)")?;
        add_stored(response, answer)?;
    }
    Ok(())
}

/// Makes a call of a cache, and adds its answer. The first word is the target.
pub fn make(
    caches: &mut Caches,
    name: &str,
    arguments: &mut Arguments<'_>,
    answer: &mut CaseAnswer,
) -> Result<(), CaseFailure> {
    let target = arguments.text()?;
    let target = target.as_str();
    let store = &mut caches.responses;
    match name {
        "lookup" => call_lookup(store, target, false, arguments, answer),
        "lookup_guessing" => call_lookup(store, target, true, arguments, answer),
        "store" => call_store(store, target, Reception::Complete, arguments, answer),
        "store_incomplete" => call_store(store, target, Reception::Incomplete, arguments, answer),
        "freshen" => call_freshen(store, target, &Update::read(arguments)?, answer),
        "freshen_by_head" => {
            call_freshen_by_head(store, target, &Update::read(arguments)?, answer)
        }
        "answer" => call_answer(store, target, arguments, answer),
        "invalidate" => call_invalidate(store, target, arguments, answer),
        "named_targets" => call_named_targets(target, arguments, answer),
        "responses" => call_responses(store, target, answer),
        _ => make_part_call(&mut caches.parts, store, name, target, arguments, answer),
    }
}
