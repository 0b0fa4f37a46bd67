//! Cookies of `cookie`.
ghost use Rattle.std.specs.Prelude.{◌≡◌, option_map, IfOk};
ghost use Rattle.headers_items.specs.Pairs.{first_value, pairs};
ghost use Rattle.headers.specs.Places.{items, semicolon};
ghost use Rattle.c_typed.specs.Cookies.{FindsCookie, ShowsCookies, cookies_text, reads_cookies};
ghost use Rattle.c_typed.specs.Shown.{FieldShows};

use c_parts::{Failure, read_field};
use headers::Cookie;
use std::alloc::{AllocError, Global};

/// Returns the value of the first cookie with this name, compared byte for byte (RFC 6265, section
/// 5.4). `Absent` if there is none.
pub fn find_cookie(alloc: Global, lines: &[u8], name: &[u8]) -> Result<Vec<u8>, Failure>
    ensures { FindsCookie name.now lines.now result }
{
    match read_field::<Cookie>(alloc, lines) {
        Ok(cookies) => match value_of(&cookies, name) {
            Some(value) => match Vec::from_slice(alloc, value.as_bytes()) {
                Ok(copy) => Ok(copy),
                Err(_) => Err(Failure::Memory),
            },
            None => Err(Failure::Absent),
        },
        Err(failure) => Err(failure),
    }
}

// The value of the first cookie with this name. `Cookie::get` takes no name that isn't UTF-8.
fn value_of<'a>(cookies: &'a Cookie, name: &[u8]) -> Option<&'a str>
    ensures { option_map (λ value. value.now) result
        ≡ first_value name.now (pairs (items semicolon cookies.now)) }
{
    for (key, value) in cookies.iter() {
        if key.as_bytes() == name {
            return Some(value);
        }
    }
    None
}

/// Returns all cookies in order, each as its name, `=`, its value and a byte 10. A name has no `=`.
pub fn cookies_text(alloc: Global, lines: &[u8]) -> Result<Vec<u8>, Failure>
    ensures { FieldShows reads_cookies ShowsCookies lines.now result }
{
    match read_field::<Cookie>(alloc, lines) {
        Ok(cookies) => match text_of(alloc, &cookies) {
            Ok(text) => Ok(text),
            Err(_) => Err(Failure::Memory),
        },
        Err(failure) => Err(failure),
    }
}

fn text_of(alloc: Global, cookies: &Cookie) -> Result<Vec<u8>, AllocError>
    ensures { IfOk result (λ text. text.items ≡ cookies_text (pairs (items semicolon cookies.now))) }
{
    let mut text = Vec::new(alloc);
    for (name, value) in cookies.iter() {
        text.extend_from_slice(name.as_bytes())?;
        text.push(b'=')?;
        text.extend_from_slice(value.as_bytes())?;
        text.push(b'\n')?;
    }
    Ok(text)
}
