//! What the attributes of a cookie mean.
ghost use Rattle.std.specs.Prelude.{◌≡◌, ◌++◌, option_map, decimal, OnOk};
ghost use Rattle.std.specs.{Char.is_ascii_digit, List.list_all};
ghost use Rattle.http_header.specs.Token.{lowercase};
ghost use Rattle.rfc_lists.specs.Attributes.{absolute, after_dot, anywhere_line, attribute_in, begins_with};
ghost use Rattle.rfc_lists.specs.Attributes.{broken_lines, domain_line, domain_of, enforcement, expires_line};
ghost use Rattle.rfc_lists.specs.Attributes.{expires_of, fits, flag_line, has};
ghost use Rattle.rfc_lists.specs.Attributes.{host_line, is_anywhere, is_bound, is_root, is_seconds, last_of};
ghost use Rattle.rfc_lists.specs.Attributes.{max_age_line};
ghost use Rattle.rfc_lists.specs.Attributes.{max_age_of, meaning_lines, name_of, path_line, path_of, same_site_line};
ghost use Rattle.rfc_lists.specs.Attributes.{same_site_of, secure_line, some_host, value_of};

use crate::cookie_dates::{CookieDate, cookie_date, push_date};
use crate::lines::{push_line, push_valued};
use headers_syntax::trim;
use rfc_fields::{cut, number};
use std::alloc::{AllocError, Global};

/// An attribute that means something.
#[derive(Clone, Copy)]
pub(crate) enum Known {
    /// `Path`
    Path,
    /// `Domain`
    Domain,
    /// `Max-Age`
    MaxAge,
    /// `Expires`
    Expires,
    /// `Secure`
    Secure,
    /// `HttpOnly`
    HttpOnly,
    /// `SameSite`
    SameSite,
}

/// Returns the name of an attribute.
pub(crate) fn name_of(known: Known) -> &'static [u8]
    ensures { result.now ≡ name_of known }
{
    match known {
        Known::Path => b"Path",
        Known::Domain => b"Domain",
        Known::MaxAge => b"Max-Age",
        Known::Expires => b"Expires",
        Known::Secure => b"Secure",
        Known::HttpOnly => b"HttpOnly",
        Known::SameSite => b"SameSite",
    }
}

fn are_digits(text: &[u8]) -> bool
    ensures { result ≡ list_all is_ascii_digit text.now }
{
    text.iter().all(|byte| byte.is_ascii_digit())
}

// A digit or `-`, and then digits alone.
fn is_seconds(value: &[u8]) -> bool
    ensures { result ≡ is_seconds value.now }
{
    match value {
        [] => false,
        [first, rest @ ..] => (*first == b'-' || first.is_ascii_digit()) && are_digits(rest),
    }
}

// Whether an attribute with this value counts, and isn't ignored.
fn fits(known: Known, value: &[u8]) -> bool
    ensures { result ≡ fits known value.now }
{
    match known {
        Known::Domain => !value.is_empty(),
        Known::MaxAge => is_seconds(value),
        Known::Expires => cookie_date(value).is_some(),
        Known::Path | Known::Secure | Known::HttpOnly | Known::SameSite => true,
    }
}

/// Returns a name and its value around the first `=`, without the blanks around them. The value is empty if there's
/// none.
pub(crate) fn attribute_in(text: &[u8]) -> (&[u8], &[u8])
    ensures { (result.0.now, result.1.now) ≡ attribute_in text.now }
{
    match cut(b'=', text) {
        Some((name, value)) => (trim(name), trim(value)),
        None => (trim(text), &[]),
    }
}

// The value of an attribute, if it is this one and counts.
fn value_of(known: Known, text: &[u8]) -> Option<&[u8]>
    ensures { option_map (λ value. value.now) result ≡ value_of known text.now }
{
    let (name, value) = attribute_in(text);
    if name.eq_ignore_ascii_case(name_of(known)) && fits(known, value) {
        Some(value)
    } else {
        None
    }
}

// That of the last of the attributes.
fn last_of(known: Known, attributes: &[u8]) -> Option<&[u8]>
    ensures { option_map (λ value. value.now) result ≡ last_of known attributes.now }
{
    let mut last = None;
    let mut left = attributes;
    while let Some((attribute, others)) = cut(b';', left) {
        last = value_of(known, attribute).or(last);
        left = others;
    }
    value_of(known, left).or(last)
}

fn has(known: Known, attributes: &[u8]) -> bool
    ensures { result ≡ has known attributes.now }
{
    last_of(known, attributes).is_some()
}

fn absolute(path: &[u8]) -> Option<&[u8]>
    ensures { option_map (λ path. path.now) result ≡ absolute path.now }
{
    match path {
        [b'/', ..] => Some(path),
        _ => None,
    }
}

fn path_of(attributes: &[u8]) -> Option<&[u8]>
    ensures { option_map (λ path. path.now) result ≡ path_of attributes.now }
{
    match last_of(Known::Path, attributes) {
        Some(value) => absolute(value),
        None => None,
    }
}

// A host without the dot that it may begin with.
fn after_dot(host: &[u8]) -> &[u8]
    ensures { result.now ≡ after_dot host.now }
{
    match host {
        [b'.', rest @ ..] => rest,
        _ => host,
    }
}

fn some_host(host: &[u8]) -> Option<&[u8]>
    ensures { option_map (λ host. host.now) result ≡ some_host host.now }
{
    if host.is_empty() { None } else { Some(host) }
}

fn domain_of(attributes: &[u8]) -> Option<&[u8]>
    ensures { option_map (λ host. host.now) result ≡ domain_of attributes.now }
{
    match last_of(Known::Domain, attributes) {
        Some(value) => some_host(after_dot(value)),
        None => None,
    }
}

fn max_age_of(attributes: &[u8]) -> Option<u64>
    ensures { result ≡ max_age_of attributes.now }
{
    match last_of(Known::MaxAge, attributes) {
        Some(value) => Some(number(value).unwrap_or(0)),
        None => None,
    }
}

fn expires_of(attributes: &[u8]) -> Option<CookieDate>
    ensures { result ≡ expires_of attributes.now }
{
    match last_of(Known::Expires, attributes) {
        Some(value) => cookie_date(value),
        None => None,
    }
}

// One of the three words, in any case.
fn enforcement(value: &[u8]) -> Option<&'static [u8]>
    ensures { option_map (λ word. word.now) result ≡ enforcement value.now }
{
    if value.eq_ignore_ascii_case(b"Strict") {
        Some(b"Strict")
    } else if value.eq_ignore_ascii_case(b"Lax") {
        Some(b"Lax")
    } else if value.eq_ignore_ascii_case(b"None") {
        Some(b"None")
    } else {
        None
    }
}

fn same_site_of(attributes: &[u8]) -> Option<&'static [u8]>
    ensures { option_map (λ word. word.now) result ≡ same_site_of attributes.now }
{
    match last_of(Known::SameSite, attributes) {
        Some(value) => enforcement(value),
        None => None,
    }
}

fn push_path(text: &mut Vec<u8>, attributes: &[u8]) -> Result<(), AllocError>
    ensures { OnOk result (text.new.items ≡ text.old.items ++ path_line attributes.now) }
{
    match path_of(attributes) {
        Some(path) => push_valued(text, b'p', b"Path", path),
        None => Ok(()),
    }
}

/// Appends bytes, with each letter in lower case.
pub(crate) fn push_lowercase(text: &mut Vec<u8>, bytes: &[u8]) -> Result<(), AllocError>
    ensures { OnOk result (text.new.items ≡ text.old.items ++ lowercase bytes.now) }
{
    for byte in bytes {
        text.push(byte.to_ascii_lowercase())?;
    }
    Ok(())
}

fn push_domain(text: &mut Vec<u8>, attributes: &[u8]) -> Result<(), AllocError>
    ensures { OnOk result (text.new.items ≡ text.old.items ++ domain_line attributes.now) }
{
    let Some(host) = domain_of(attributes) else {
        return Ok(());
    };
    text.extend_from_slice(b"pDomain=")?;
    push_lowercase(text, host)?;
    text.push(b'\n')?;
    Ok(())
}

fn push_max_age(alloc: Global, text: &mut Vec<u8>, attributes: &[u8]) -> Result<(), AllocError>
    ensures { OnOk result (text.new.items ≡ text.old.items ++ max_age_line attributes.now) }
{
    let Some(age) = max_age_of(attributes) else {
        return Ok(());
    };
    let digits = format!(in alloc; "{age}")?;
    push_valued(text, b'p', b"Max-Age", digits.as_bytes())
}

fn push_expires(text: &mut Vec<u8>, attributes: &[u8]) -> Result<(), AllocError>
    ensures { OnOk result (text.new.items ≡ text.old.items ++ expires_line attributes.now) }
{
    let Some(date) = expires_of(attributes) else {
        return Ok(());
    };
    text.extend_from_slice(b"pExpires=")?;
    push_date(text, &date)?;
    text.push(b'\n')?;
    Ok(())
}

fn push_flag(text: &mut Vec<u8>, known: Known, attributes: &[u8]) -> Result<(), AllocError>
    ensures { OnOk result (text.new.items ≡ text.old.items ++ flag_line known attributes.now) }
{
    if has(known, attributes) {
        push_line(text, b'n', name_of(known))
    } else {
        Ok(())
    }
}

fn push_same_site(text: &mut Vec<u8>, attributes: &[u8]) -> Result<(), AllocError>
    ensures { OnOk result (text.new.items ≡ text.old.items ++ same_site_line attributes.now) }
{
    match same_site_of(attributes) {
        Some(word) => push_valued(text, b'p', b"SameSite", word),
        None => Ok(()),
    }
}

/// Appends the lines of what the attributes of a cookie mean.
pub(crate) fn push_meaning(
    alloc: Global,
    text: &mut Vec<u8>,
    attributes: &[u8],
) -> Result<(), AllocError>
    ensures { OnOk result (text.new.items ≡ text.old.items ++ meaning_lines attributes.now) }
{
    push_path(text, attributes)?;
    push_domain(text, attributes)?;
    push_max_age(alloc, text, attributes)?;
    push_expires(text, attributes)?;
    push_flag(text, Known::Secure, attributes)?;
    push_flag(text, Known::HttpOnly, attributes)?;
    push_same_site(text, attributes)
}

fn is_root(path: Option<&[u8]>) -> bool
    ensures { result ≡ is_root (option_map (λ text. text.now) path.entry) }
{
    match path {
        Some(text) => text == b"/".as_slice(),
        None => false,
    }
}

// Whether the attributes are what `__Host-` promises.
fn is_bound(attributes: &[u8]) -> bool
    ensures { result ≡ is_bound attributes.now }
{
    has(Known::Secure, attributes)
        && domain_of(attributes).is_none()
        && is_root(path_of(attributes))
}

// Whether a name begins with a prefix, in any case.
fn begins_with(name: &[u8], prefix: &[u8]) -> bool
    ensures { result ≡ begins_with name.now prefix.now }
{
    name.len() >= prefix.len() && name[..prefix.len()].eq_ignore_ascii_case(prefix)
}

fn push_secure(text: &mut Vec<u8>, name: &[u8], attributes: &[u8]) -> Result<(), AllocError>
    ensures { OnOk result (text.new.items ≡ text.old.items ++ secure_line name.now attributes.now) }
{
    if begins_with(name, b"__Secure-") && !has(Known::Secure, attributes) {
        push_line(text, b'r', b"__Secure-")
    } else {
        Ok(())
    }
}

fn push_host(text: &mut Vec<u8>, name: &[u8], attributes: &[u8]) -> Result<(), AllocError>
    ensures { OnOk result (text.new.items ≡ text.old.items ++ host_line name.now attributes.now) }
{
    if begins_with(name, b"__Host-") && !is_bound(attributes) {
        push_line(text, b'r', b"__Host-")
    } else {
        Ok(())
    }
}

fn is_anywhere(word: Option<&[u8]>) -> bool
    ensures { result ≡ is_anywhere (option_map (λ text. text.now) word.entry) }
{
    match word {
        Some(text) => text == b"None".as_slice(),
        None => false,
    }
}

fn push_anywhere(text: &mut Vec<u8>, attributes: &[u8]) -> Result<(), AllocError>
    ensures { OnOk result (text.new.items ≡ text.old.items ++ anywhere_line attributes.now) }
{
    if is_anywhere(same_site_of(attributes)) && !has(Known::Secure, attributes) {
        push_line(text, b'r', b"SameSite")
    } else {
        Ok(())
    }
}

/// Appends a line for each rule that a cookie of this name breaks.
pub(crate) fn push_broken(
    text: &mut Vec<u8>,
    name: &[u8],
    attributes: &[u8],
) -> Result<(), AllocError>
    ensures { OnOk result (text.new.items ≡ text.old.items ++ broken_lines name.now attributes.now) }
{
    push_secure(text, name, attributes)?;
    push_host(text, name, attributes)?;
    push_anywhere(text, attributes)
}
