//! Credentials of the scheme `Basic`.
ghost use Rattle.std.{specs.Prelude.{◌≡◌, ◌↔◌, ◌≤◌, length, IfOk}, specs.List.{Contains, prefix_len}};
ghost use Rattle.headers_authorization.specs.Basic.{colon as colon_byte, is_space, user_pass, user_of, password_of};
ghost use Rattle.headers_authorization.{specs.Basic.{basic_scheme, ReadsBasic, basic_writes}, specs.Scheme.IsReadBack};

use crate::authorization::Authorization;
use crate::base64_values::{base64_value, read_base64};
use crate::credentials::Credentials;
use crate::proxy_authorization::ProxyAuthorization;
use http_header::HeaderValue;
use memchr::memchr;
use std::alloc::{AllocError, Global};
use std::marker::Model;

/// Credentials of the scheme `Basic`: a user name and a password (RFC 7617, section 2). After the
/// scheme and any spaces follows the base64 of both, with a colon between them, in UTF-8.
/// Credentials are compared by these bytes and by the place of the colon.
#[derive(Debug, Drop)]
pub struct Basic {
    decoded: String,
    colon: usize,
}

impl Model for Basic {
    ghost use Rattle.std.specs.Prelude.{◌≡◌, ◌<◌, string_bytes, length, slice_index};
    ghost use Rattle.headers_authorization.specs.Basic.{UserPass, colon as colon_byte};

    ghost Value = { UserPass };

    ghost view = { λ b. record { bytes = string_bytes b.decoded; place = b.colon } };

    ghost invariant = { λ b. (b.colon < length (string_bytes b.decoded))
        × (slice_index (string_bytes b.decoded) b.colon ≡ colon_byte) };
}

// How many spaces the bytes begin with.
fn leading_spaces(bytes: &[u8]) -> usize
    ensures within { result ≤ length bytes.now }
    ensures value { result ≡ prefix_len is_space bytes.now }
{
    for (i, byte) in bytes.iter().enumerate() {
        if *byte != b' ' {
            return i;
        }
    }
    bytes.len()
}

impl Basic {
    /// Returns the user name: what is before the first colon.
    pub fn username(&self) -> &str
        ensures { result.now ≡ user_of self.now }
    {
        &self.decoded.as_str()[..self.colon]
    }

    /// Returns the password: what is after the first colon.
    pub fn password(&self) -> &str
        ensures { result.now ≡ password_of self.now }
    {
        &self.decoded.as_str()[self.colon + 1..]
    }

    /// Copies the credentials. Fails only if an allocation fails.
    pub fn clone(&self, alloc: Global) -> Result<Basic, AllocError>
        ensures { IfOk result (λ copy. copy ≡ self.now) }
    {
        Ok(Basic {
            decoded: String::from_str(alloc, self.decoded.as_str())?,
            colon: self.colon,
        })
    }
}

impl PartialEq for Basic {
    ghost use Rattle.std.{specs.Prelude.nat_eq, specs.Ordering.{on, eq_of_both}, specs.Cmp.{and_per, on_per}};
    ghost use Rattle.std.{specs.Cmp.{partial_equiv_from_equiv, nat_eq_equiv}, specs.Cmp.Lexicographic.pointwise};
    ghost use Rattle.std.specs.Cmp.Lexicographic.{nat_list_eq_equiv};

    ghost eq = { eq_of_both (on (λ v. v.bytes) (pointwise nat_eq)) (on (λ v. v.place) nat_eq) };

    ghost laws = { and_per (on_per (λ v. v.bytes) (partial_equiv_from_equiv nat_list_eq_equiv))
        (on_per (λ v. v.place) (partial_equiv_from_equiv nat_eq_equiv)) };

    fn eq(&self, other: &Basic) -> bool {
        self.decoded == other.decoded && self.colon == other.colon
    }
}

impl Credentials for Basic {
    ghost use Rattle.headers_authorization.specs.Basic.{basic_scheme, SameBasic, ReadsBasic, basic_writes};
    ghost use Rattle.headers_authorization.specs.BasicLaws.{basic_laws};

    ghost scheme = { basic_scheme };

    ghost same = { SameBasic };

    ghost reads = { ReadsBasic };

    ghost writes = { basic_writes };

    ghost laws = { basic_laws };

    const SCHEME: &'static str = "Basic";

    fn scheme_name() -> &'static str {
        Self::SCHEME
    }

    fn decode(alloc: Global, value: &HeaderValue) -> Result<Option<Basic>, AllocError> {
        let rest = &value.as_bytes()["Basic ".len()..];
        let Some(bytes) = read_base64(alloc, &rest[leading_spaces(rest)..])? else {
            return Ok(None);
        };
        let Ok(decoded) = String::from_utf8(bytes) else {
            return Ok(None);
        };
        match memchr(b':', decoded.as_bytes()) {
            Some(colon) => Ok(Some(Basic { decoded, colon })),
            None => Ok(None),
        }
    }

    fn encode(&self, alloc: Global) -> Result<HeaderValue, AllocError> {
        base64_value(alloc, "Basic ", self.decoded.as_bytes())
    }
}

impl Authorization<Basic> {
    /// Makes the header of a user name and a password (RFC 7617, section 2). Fails only if an
    /// allocation fails. A user name with a colon decodes to another one: what is before its first
    /// colon.
    pub fn basic(
        alloc: Global,
        username: &str,
        password: &str,
    ) -> Result<Authorization<Basic>, AllocError>
        ensures value { IfOk result (λ made. made.0 ≡ user_pass username.now password.now) }
        ensures back { IfOk result (λ made. IsReadBack basic_scheme ReadsBasic basic_writes made.0
            ↔ ¬ (Contains username.now colon_byte)) }
    {
        let mut decoded = String::from_str(alloc, username)?;
        decoded.push_str(":")?;
        decoded.push_str(password)?;
        Ok(Authorization(Basic {
            decoded,
            colon: username.len(),
        }))
    }

    /// Returns the user name: what is before the first colon.
    pub fn username(&self) -> &str
        ensures { result.now ≡ user_of self.now.0 }
    {
        self.0.username()
    }

    /// Returns the password: what is after the first colon.
    pub fn password(&self) -> &str
        ensures { result.now ≡ password_of self.now.0 }
    {
        self.0.password()
    }

    /// Copies the header. Fails only if an allocation fails.
    pub fn clone(&self, alloc: Global) -> Result<Authorization<Basic>, AllocError>
        ensures { IfOk result (λ copy. copy ≡ self.now) }
    {
        Ok(Authorization(self.0.clone(alloc)?))
    }
}

impl ProxyAuthorization<Basic> {
    /// Copies the header. Fails only if an allocation fails.
    pub fn clone(&self, alloc: Global) -> Result<ProxyAuthorization<Basic>, AllocError>
        ensures { IfOk result (λ copy. copy ≡ self.now) }
    {
        Ok(ProxyAuthorization(self.0.clone(alloc)?))
    }
}
