//! Credentials of an authentication scheme.
ghost use Rattle.std.specs.Prelude.{◌≡◌, ◌↔◌, List, ℕ, IfOk, IsTrue, MatchOption};
ghost use Rattle.headers_syntax.{specs.DecodesTo.DecodesTo, specs.OfLines.OfLines, specs.Lines.Line};
ghost use Rattle.headers_authorization.{specs.CredentialLaws.CredentialLaws, specs.Scheme.{HasScheme, FirstReads}};

use headers_core::{AsHeaderValue, Error, Refused, first};
use http_header::HeaderValue;
use std::alloc::{AllocError, Global};

/// The credentials of an authentication scheme: how a field line decodes, and how they encode (RFC
/// 9110, section 11.4).
pub trait Credentials: Drop {
    // The scheme's name.
    ghost scheme: { List ℕ };

    // Whether two are the same value.
    ghost same: { Self → Self → Type 0 };

    // Whether a field line decodes to this value.
    ghost reads: { Line → Self → Type 0 };

    // The field line that encodes a value.
    ghost writes: { Self → Line };

    /// The name of the scheme, with which each field line of its credentials begins.
    const SCHEME: &'static str;

    /// Returns the name of the scheme, as contracts see it: the value of `SCHEME`.
    fn scheme_name() -> &'static str
        ensures { result.now ≡ scheme };

    /// Decodes the credentials of a field line: `Ok(None)` if it has none. The caller must show
    /// that the line begins with the scheme, in any case, and a space. Fails only if an allocation
    /// fails.
    fn decode(alloc: Global, value: &HeaderValue) -> Result<Option<Self>, AllocError>
        requires { HasScheme scheme value.now.bytes }
        ensures { IfOk result (λ read. MatchOption read ((v : Self) → ¬ (reads value.now.bytes v))
            (λ v. reads value.now.bytes v)) };

    /// Encodes the credentials as a field line. Fails only if an allocation fails.
    fn encode(&self, alloc: Global) -> Result<HeaderValue, AllocError>
        ensures { IfOk result (λ value. value.bytes ≡ writes self.now) };

    // The laws of credentials: `same` is an equivalence that decoding and encoding respect, a line
    // decodes to at most one value, and the encoding of a decoded value has the scheme and decodes
    // to it.
    ghost laws: { CredentialLaws scheme same reads writes };
}

// Whether the line begins with the scheme, in any case, and a space.
fn has_scheme(line: &[u8], scheme: &str) -> bool
    ensures { IsTrue result ↔ HasScheme scheme.now line.now }
{
    let end = scheme.len();
    end < line.len() && line[end] == b' ' && line[..end].eq_ignore_ascii_case(scheme.as_bytes())
}

// The credentials that the first line decodes to, if it has their scheme.
pub(crate) fn first_credentials<C: Credentials, I: Iterator>(
    alloc: Global,
    values: &mut I,
) -> Result<C, Refused<Error>>
where
    I::Item: AsHeaderValue,
    requires { I.can_next values.old }
    ensures { OfLines I.Item.shown I.next_gives values.old values.new
        (λ lines. DecodesTo (FirstReads C.scheme C.reads) lines result) }
{
    let item = first(values).ok_or(Error::invalid())?;
    let value = item.as_header_value();
    if !has_scheme(value.as_bytes(), C::scheme_name()) {
        return Err(Refused::Invalid(Error::invalid()));
    }
    Ok(C::decode(alloc, value)?.ok_or(Error::invalid())?)
}
