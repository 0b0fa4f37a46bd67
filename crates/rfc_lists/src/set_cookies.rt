//! Cookies to be set.
ghost use Rattle.std.specs.Prelude.{◌≡◌, ◌++◌, IfOk, OnOk};
ghost use Rattle.headers_syntax.specs.Lines.{lines_of};
ghost use Rattle.rfc_lists.specs.SetCookies.{cookie_lines, has_name, is_known, is_other, other_line, other_lines};
ghost use Rattle.rfc_lists.specs.SetCookies.{pair_line, set_cookies_text, shown_cookie, sides_of};

use crate::attributes::{Known, attribute_in, name_of, push_broken, push_meaning};
use crate::lines::{push_line, push_malformed, push_valued};
use headers_syntax::trim;
use http_header::{GetAll, HeaderValue};
use rfc_fields::cut;
use std::alloc::{AllocError, Global};

/// Returns the cookies of all lines of `set-cookie` in order (RFC 6265, section 5.2): for each the line of its name and
/// its value, those of what its attributes mean, those of its other attributes, one for each rule that browsers reject
/// it by, and an empty line. A line without a name is malformed. Fails only if an allocation fails.
pub fn set_cookies_text(
    alloc: Global,
    field: &GetAll<'_, HeaderValue>,
) -> Result<Vec<u8>, AllocError>
    ensures { IfOk result (λ text. text.items ≡ set_cookies_text (lines_of field.now)) }
{
    let mut text = Vec::new(alloc);
    for value in field.iter() {
        push_shown(alloc, &mut text, value.as_bytes())?;
    }
    Ok(text)
}

fn push_shown(alloc: Global, text: &mut Vec<u8>, line: &[u8]) -> Result<(), AllocError>
    ensures { OnOk result (text.new.items ≡ text.old.items ++ shown_cookie line.now) }
{
    let (pair, attributes) = sides_of(line);
    push_cookie(alloc, text, pair, attributes)?;
    text.push(b'\n')?;
    Ok(())
}

// What is before the first semicolon of a line, and after it.
fn sides_of(line: &[u8]) -> (&[u8], &[u8])
    ensures { (result.0.now, result.1.now) ≡ sides_of line.now }
{
    match cut(b';', line) {
        Some(sides) => sides,
        None => (line, &[]),
    }
}

fn push_cookie(
    alloc: Global,
    text: &mut Vec<u8>,
    pair: &[u8],
    attributes: &[u8],
) -> Result<(), AllocError>
    ensures { OnOk result (text.new.items ≡ text.old.items ++ cookie_lines pair.now attributes.now) }
{
    if !has_name(pair) {
        return push_malformed(text);
    }
    push_pair(text, pair)?;
    push_meaning(alloc, text, attributes)?;
    push_others(text, attributes)?;
    push_broken(text, attribute_in(pair).0, attributes)
}

fn push_others(text: &mut Vec<u8>, attributes: &[u8]) -> Result<(), AllocError>
    ensures { OnOk result (text.new.items ≡ text.old.items ++ other_lines attributes.now) }
{
    let mut left = attributes;
    while let Some((attribute, others)) = cut(b';', left) {
        push_other(text, attribute)?;
        left = others;
    }
    push_other(text, left)
}

fn push_other(text: &mut Vec<u8>, attribute: &[u8]) -> Result<(), AllocError>
    ensures { OnOk result (text.new.items ≡ text.old.items ++ other_line attribute.now) }
{
    if is_other(attribute_in(attribute).0) {
        push_pair(text, attribute)
    } else {
        Ok(())
    }
}

// Whether a name is one of those that mean something.
fn is_known(name: &[u8]) -> bool
    ensures { result ≡ is_known name.now }
{
    name.eq_ignore_ascii_case(name_of(Known::Path))
        || name.eq_ignore_ascii_case(name_of(Known::Domain))
        || name.eq_ignore_ascii_case(name_of(Known::MaxAge))
        || name.eq_ignore_ascii_case(name_of(Known::Expires))
        || name.eq_ignore_ascii_case(name_of(Known::Secure))
        || name.eq_ignore_ascii_case(name_of(Known::HttpOnly))
        || name.eq_ignore_ascii_case(name_of(Known::SameSite))
}

fn is_other(name: &[u8]) -> bool
    ensures { result ≡ is_other name.now }
{
    !name.is_empty() && !is_known(name)
}

// Whether there is a name before an `=`.
fn has_name(pair: &[u8]) -> bool
    ensures { result ≡ has_name pair.now }
{
    match cut(b'=', pair) {
        Some((name, _)) => !trim(name).is_empty(),
        None => false,
    }
}

// Appends the line of a name and its value, or of a name alone.
fn push_pair(text: &mut Vec<u8>, pair: &[u8]) -> Result<(), AllocError>
    ensures { OnOk result (text.new.items ≡ text.old.items ++ pair_line pair.now) }
{
    match cut(b'=', pair) {
        Some((name, value)) => push_valued(text, b'p', trim(name), trim(value)),
        None => push_line(text, b'n', trim(pair)),
    }
}
