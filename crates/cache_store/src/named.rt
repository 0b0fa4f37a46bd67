//! The further targets that a response invalidates: those in its Location and Content-Location (RFC
//! 9111, section 4.4).
ghost use Rattle.std.specs.Prelude.{◌++◌, ◌≡◌, IfErr, IfOk, List, MatchOption, Ok, OnOk, option_to_list, Some};
ghost use Rattle.std.specs.Bool.{MatchBool};
ghost use Rattle.headers.specs.LineMap.{lines_at};
ghost use Rattle.url.specs.{Parser.{IsOutOfRoom, parse_url}, Parts.Parts};
ghost use Rattle.cache_store.specs.Named.{AreNamed, AreNamedBy, IsSameOrigin, Names};

use headers::{HeaderMap, HeaderName, HeaderValue};
use headers_syntax::read_text;
use http_header::{CONTENT_LOCATION, LOCATION};
use std::alloc::{AllocError, Global};
use url::{ParseError, Url};

// Whether a URL couldn't be parsed because memory ran out, or because it is longer than 4 GB.
fn is_out_of_room(error: ParseError) -> bool
    ensures { MatchBool result (IsOutOfRoom error) (¬ (IsOutOfRoom error)) }
{
    error == ParseError::OutOfMemory || error == ParseError::Overflow
}

// Whether both URLs have the same origin.
fn is_same_origin(base: &Url, url: &Url) -> Result<bool, ParseError>
    ensures same { IfOk result (λ same. MatchBool same (IsSameOrigin base.now url.now)
        (¬ (IsSameOrigin base.now url.now))) }
    ensures room { IfErr result IsOutOfRoom }
{
    let origin = base.origin()?;
    Ok(origin.is_same_origin(&url.origin()?))
}

// The URL that a text refers to, if it refers to one.
fn resolved(base: &Url, text: &str) -> Result<Option<Url>, ParseError>
    ensures url { IfOk result (λ found. MatchOption found
        ((url : Parts) → ¬ (parse_url (Some base.now) text.now ≡ Ok url))
        (λ url. parse_url (Some base.now) text.now ≡ Ok url)) }
    ensures room { IfErr result IsOutOfRoom }
{
    match base.join(text) {
        Ok(url) => Ok(Some(url)),
        Err(error) => {
            if is_out_of_room(error) {
                Err(error)
            } else {
                Ok(None)
            }
        }
    }
}

// The target that a text names, if it has the origin of the base.
fn named_by(base: &Url, value: &HeaderValue) -> Result<Option<Url>, ParseError>
    ensures target { IfOk result (Names base.now value.now.bytes) }
    ensures room { IfErr result IsOutOfRoom }
{
    let Some(text) = read_text(value) else {
        return Ok(None);
    };
    let Some(url) = resolved(base, text)? else {
        return Ok(None);
    };
    if !is_same_origin(base, &url)? {
        return Ok(None);
    }
    let mut target = url;
    target.set_fragment(None)?;
    Ok(Some(target))
}

// Appends a URL, if there is one.
fn append(urls: &mut Vec<Url>, url: Option<Url>) -> Result<(), AllocError>
    ensures { OnOk result (urls.new.items ≡ urls.old.items ++ option_to_list url) }
{
    if let Some(url) = url {
        urls.push(url)?;
    }
    Ok(())
}

// Appends the targets that a field names.
fn append_named(
    base: &Url,
    response: &HeaderMap,
    name: HeaderName,
    urls: &mut Vec<Url>,
) -> Result<(), ParseError>
    ensures room { IfErr result IsOutOfRoom }
    ensures named { OnOk result ((named : List Parts) × AreNamedBy base.now (lines_at response.now name) named
        × (urls.new.items ≡ urls.old.items ++ named)) }
{
    for value in response.get_all(name).iter() {
        let found = named_by(base, value)?;
        append(urls, found)?;
    }
    Ok(())
}

/// Returns the URLs in Location and Content-Location of a response that have the origin of the
/// request's target (RFC 9111, section 4.4; RFC 9110, sections 8.7 and 10.2.2). They have no
/// fragments, and are in the order of the field lines, those of Location first. A reference is
/// resolved against the target, by the URL Standard. A field line that is no reference is skipped;
/// if the target is no URL, the list is empty.
///
/// After a request that isn't safe and a response that is no error, a cache may remove what it has
/// stored for them. It must not remove what it has for URLs of other origins.
///
/// Fails only if an allocation fails, or if a URL is longer than 4 GB.
pub fn named_targets(
    alloc: Global,
    target: &str,
    response: &HeaderMap,
) -> Result<Vec<Url>, ParseError>
    ensures targets { IfOk result (λ urls. AreNamed target.now (lines_at response.now) urls.items) }
    ensures room { IfErr result IsOutOfRoom }
{
    let mut urls = Vec::new(alloc);
    match Url::parse(alloc, target) {
        Ok(base) => {
            append_named(&base, response, LOCATION, &mut urls)?;
            append_named(&base, response, CONTENT_LOCATION, &mut urls)?;
            Ok(urls)
        }
        Err(error) => {
            if is_out_of_room(error) {
                Err(error)
            } else {
                Ok(urls)
            }
        }
    }
}
