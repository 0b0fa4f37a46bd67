//! Parameters as they are written.
ghost use Rattle.std.specs.Prelude.{◌≡◌, ◌++◌, IfOk, OnOk};
ghost use Rattle.std.specs.List.{list_all};
ghost use Rattle.rfc_lists.specs.Parameters.{is_extended, is_plain, is_quoted, is_quoted_name, parameter_text};
ghost use Rattle.rfc_lists.specs.Parameters.{plain_value, quoted_octet, quoted_string, value_text};

use crate::extended::push_extended;
use rfc_fields::is_token;
use std::alloc::{AllocError, Global};

fn are_plain(text: &[u8]) -> bool
    ensures { result ≡ list_all is_plain text.now }
{
    text.iter().all(|byte| *byte >= b' ' && *byte < 127)
}

fn push_quoted_octet(text: &mut Vec<u8>, byte: u8) -> Result<(), AllocError>
    ensures { OnOk result (text.new.items ≡ text.old.items ++ quoted_octet byte) }
{
    if byte == b'"' || byte == b'\\' {
        text.push(b'\\')?;
    }
    text.push(byte)?;
    Ok(())
}

fn push_quoted(text: &mut Vec<u8>, given: &[u8]) -> Result<(), AllocError>
    ensures { OnOk result (text.new.items ≡ text.old.items ++ quoted_string given.now) }
{
    text.push(b'"')?;
    for byte in given {
        push_quoted_octet(text, *byte)?;
    }
    text.push(b'"')?;
    Ok(())
}

fn push_plain(text: &mut Vec<u8>, given: &[u8]) -> Result<(), AllocError>
    ensures { OnOk result (text.new.items ≡ text.old.items ++ plain_value given.now) }
{
    if is_token(given) {
        text.extend_from_slice(given)?;
        Ok(())
    } else {
        push_quoted(text, given)
    }
}

/// How a parameter is written.
#[derive(Clone, Copy)]
pub enum ParameterKind {
    /// As a token or a quoted-string (RFC 9110, section 5.6.6) if each byte is a space or visible ASCII, else as an
    /// extended parameter (RFC 8187, section 3.2).
    Extended,
    /// As a token or a quoted-string.
    Plain,
    /// As a quoted-string.
    Quoted,
    /// As a challenge has it: `realm` (RFC 9110, section 11.5), `domain`, `nonce`, `opaque` and `qop` (RFC 7616,
    /// section 3.3) as a quoted-string, others as a token or a quoted-string.
    Challenge,
}

fn is_quoted_name(name: &[u8]) -> bool
    ensures { result ≡ is_quoted_name name.now }
{
    name.eq_ignore_ascii_case(b"realm")
        || name.eq_ignore_ascii_case(b"domain")
        || name.eq_ignore_ascii_case(b"nonce")
        || name.eq_ignore_ascii_case(b"opaque")
        || name.eq_ignore_ascii_case(b"qop")
}

fn is_quoted(kind: ParameterKind, name: &[u8]) -> bool
    ensures { result ≡ is_quoted kind name.now }
{
    match kind {
        ParameterKind::Extended | ParameterKind::Plain => false,
        ParameterKind::Quoted => true,
        ParameterKind::Challenge => is_quoted_name(name),
    }
}

fn is_extended(kind: ParameterKind, given: &[u8]) -> bool
    ensures { result ≡ is_extended kind given.now }
{
    matches!(kind, ParameterKind::Extended) && !are_plain(given)
}

fn push_value(text: &mut Vec<u8>, quoted: bool, given: &[u8]) -> Result<(), AllocError>
    ensures { OnOk result (text.new.items ≡ text.old.items ++ value_text quoted given.now) }
{
    if quoted {
        push_quoted(text, given)
    } else {
        push_plain(text, given)
    }
}

/// Returns the parameter of a name for a text, which for an extended one is in UTF-8. Fails only if an allocation
/// fails.
pub fn parameter_text(
    alloc: Global,
    kind: ParameterKind,
    name: &[u8],
    given: &[u8],
) -> Result<Vec<u8>, AllocError>
    ensures { IfOk result (λ text. text.items ≡ parameter_text kind name.now given.now) }
{
    let mut text = Vec::from_slice(alloc, name)?;
    if is_extended(kind, given) {
        text.extend_from_slice(b"*=")?;
        push_extended(&mut text, given)?;
    } else {
        text.push(b'=')?;
        push_value(&mut text, is_quoted(kind, name), given)?;
    }
    Ok(text)
}
