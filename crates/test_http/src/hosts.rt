//! Calls of the headers of hosts, and of cookies.
use crate::Http;
use headers::{Cookie, Header, Host, Origin, SetCookie};
use http_uri::{Authority, UriError};
use test_each::{Getters, show_made, show_result, show_text, writes};
use test_rows::{Arguments, CaseAnswer, CaseFailure};

/// Adds what the getters of an origin give, and whether its text is what the header writes.
pub fn show_origin<H: Header>(
    origin: &Origin,
    header: &H,
    answer: &mut CaseAnswer,
) -> Result<(), CaseFailure> {
    answer.word(origin.is_null())?;
    answer.bytes(origin.scheme().as_bytes())?;
    answer.bytes(origin.hostname().as_bytes())?;
    answer.option(origin.port())?;
    let text = origin.to_string(answer.alloc())?;
    Ok(answer.word(writes(answer.alloc(), header, text.as_str())?)?)
}

impl Getters<Http> for Host {
    fn getters(&self, answer: &mut CaseAnswer) -> Result<Host, CaseFailure> {
        answer.bytes(self.hostname().as_bytes())?;
        answer.option(self.port())?;
        show_text(self, answer)?;
        Ok(self.clone(answer.alloc())?)
    }
}

impl Getters<Http> for Origin {
    fn getters(&self, answer: &mut CaseAnswer) -> Result<Origin, CaseFailure> {
        show_origin(self, self, answer)?;
        Ok(self.clone(answer.alloc())?)
    }
}

impl Getters<Http> for Cookie {
    fn getters(&self, answer: &mut CaseAnswer) -> Result<Cookie, CaseFailure> {
        answer.word(self.len())?;
        for (key, text) in self.iter() {
            answer.bytes(key.as_bytes())?;
            answer.bytes(text.as_bytes())?;
        }
        Ok(self.clone(answer.alloc())?)
    }
}

impl Getters<Http> for SetCookie {
    fn getters(&self, answer: &mut CaseAnswer) -> Result<SetCookie, CaseFailure> {
        Ok(self.clone(answer.alloc())?)
    }
}

// The host of an authority.
fn of_authority(arguments: &mut Arguments<'_>) -> Result<Host, CaseFailure> {
    match Authority::from_bytes(arguments.alloc(), &arguments.bytes()?) {
        Ok(authority) => Ok(Host::from(authority)),
        Err(UriError::OutOfMemory) => Err(CaseFailure::Memory),
        Err(_) => Err(CaseFailure::Refused),
    }
}

// The origin of a scheme, a host and a port.
fn from_parts(arguments: &mut Arguments<'_>) -> Result<Origin, CaseFailure> {
    let scheme = arguments.text()?;
    let host = arguments.text()?;
    let port = arguments.port()?;
    Ok(Origin::try_from_parts(arguments.alloc(), scheme.as_str(), host.as_str(), port)?)
}

/// Adds the answer of a call of these headers of its own.
pub fn call_host(
    name: &str,
    arguments: &mut Arguments<'_>,
    answer: &mut CaseAnswer,
) -> Result<(), CaseFailure> {
    match name {
        "Cookie.get" => {
            let key = arguments.text()?;
            let header: Cookie = arguments.header_of_rest()?;
            match header.get(key.as_str()) {
                Some(text) => Ok(answer.bytes(text.as_bytes())?),
                None => Ok(answer.none()?),
            }
        }
        "Host.from_authority" => show_result(of_authority(arguments), answer),
        "Origin.NULL" => show_made(Origin::NULL, answer),
        "Origin.try_from_parts" => show_result(from_parts(arguments), answer),
        _ => Err(CaseFailure::NoCall),
    }
}
