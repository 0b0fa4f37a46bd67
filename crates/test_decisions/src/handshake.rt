//! Calls of the opening handshake. Fields are written as those of a map, with the blanks that a section loses.
use crate::store::{method, status};
use decide_cors::UnsentOrigin;
use decide_handshake::{Checked, HandshakeAnswer as Response, Origins, accept, check};
use headers::{HeaderMap, HeaderValue, Refused, set_all};
use http::Version;
use test_rows::{Arguments, Calls, CaseAnswer, CaseFailure};

/// The calls of the opening handshake.
pub struct Handshake;

// `accept METHOD HTTP/1.1 FIELDS`, and `accept_with` with a subprotocol of the server before them: the status of the
// answer, the fault, and its fields.
fn show_answer(
    own: &[HeaderValue],
    arguments: &mut Arguments<'_>,
    answer: &mut CaseAnswer,
) -> Result<(), CaseFailure> {
    let alloc = arguments.alloc();
    let method = method(arguments)?;
    if arguments.word()? != "HTTP/1.1" {
        return Err(CaseFailure::NoCall);
    }
    let request = arguments.map()?;
    let response = accept(
        alloc,
        &method,
        Version::HTTP_11,
        &request,
        own,
        &Origins::any(),
    )?;
    answer.word(response.status().as_u16())?;
    if let Response::BadRequest(fault) = &response {
        answer.word(format_args!("{fault:?}"))?;
    }
    let mut map = HeaderMap::new(alloc);
    set_all(&mut map, response.fields(alloc)?).map_err(|_| CaseFailure::Memory)?;
    answer.map(&map)
}

// `check SENT (/) STATUS RESPONSE`: what a client that sent these fields finds in a response.
fn show_check(arguments: &mut Arguments<'_>, answer: &mut CaseAnswer) -> Result<(), CaseFailure> {
    let sent = arguments.map()?;
    let status = status(arguments)?;
    match check(&sent, status, &arguments.map()?) {
        Checked::Open => answer.word("open")?,
        Checked::Fail(flaw) => answer.word(format_args!("{flaw:?}"))?,
    }
    Ok(())
}

// `Origins.listed (origin) ORIGIN ..`: `listed`, or the place of the first that no browser sends.
fn show_origins(arguments: &mut Arguments<'_>, answer: &mut CaseAnswer) -> Result<(), CaseFailure> {
    let alloc = arguments.alloc();
    let mut origins = Vec::new(alloc);
    for origin in arguments.map()?.get_all("origin") {
        origins.push(origin.clone()?)?;
    }
    match Origins::listed(alloc, origins) {
        Ok(_) => answer.word("listed")?,
        Err(Refused::Invalid(UnsentOrigin { place })) => {
            answer.word(format_args!("UnsentOrigin {place}"))?;
        }
        Err(Refused::Memory(_)) => return Err(CaseFailure::Memory),
    }
    Ok(())
}

impl Calls for Handshake {
    fn make(
        name: &str,
        arguments: &mut Arguments<'_>,
        answer: &mut CaseAnswer,
    ) -> Result<(), CaseFailure> {
        match name {
            "accept" => show_answer(&[], arguments, answer),
            "accept_with" => {
                let own = HeaderValue::from_str(arguments.alloc(), arguments.word()?)?;
                show_answer(&[own], arguments, answer)
            }
            "check" => show_check(arguments, answer),
            "Origins.listed" => show_origins(arguments, answer),
            _ => Err(CaseFailure::NoCall),
        }
    }
}
