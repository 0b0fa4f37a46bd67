//! Credentials that are a key.
ghost use Rattle.std.{specs.Prelude.{◌≡◌, codes}, specs.List.list_all};
ghost use Rattle.headers.{specs.LineMap.lines_at, specs.Typed.IsTypedRead};
ghost use Rattle.headers_user.specs.ApiKey.{is_key, is_key_byte, CarryKey};

use headers::authorization::{Authorization, Credentials};
use headers::{Error, HeaderMap, HeaderMapExt, HeaderValue, Refused};
use http_header::HeaderValueError;
use std::alloc::{AllocError, Global};
use std::marker::Model;
use std::str;

/// Credentials of the scheme `ApiKey`: a key of letters, digits, `-` and `_`. A field line is the
/// scheme, in any case, one space, and at least one such character.
#[derive(Drop)]
pub struct ApiKey {
    text: String,
}

impl Model for ApiKey {
    ghost use Rattle.std.specs.Prelude.{◌≡◌, ℕ, List, true, string_bytes};
    ghost use Rattle.headers_user.specs.ApiKey.{is_key};

    ghost Value = { List ℕ };

    ghost view = { λ key. string_bytes key.text };

    ghost invariant = { λ key. is_key (string_bytes key.text) ≡ true };
}

impl ApiKey {
    /// Returns the key, as in the field line.
    pub fn key(&self) -> &str
        ensures { result.now ≡ self.now }
    {
        self.text.as_str()
    }
}

fn is_key_byte(byte: u8) -> bool
    ensures { result ≡ is_key_byte byte }
{
    byte.is_ascii_alphanumeric() || byte == b'-' || byte == b'_'
}

fn are_key_bytes(bytes: &[u8]) -> bool
    ensures { result ≡ list_all is_key_byte bytes.now }
{
    bytes.iter().all(|byte| is_key_byte(*byte))
}

fn is_key(bytes: &[u8]) -> bool
    ensures { result ≡ is_key bytes.now }
{
    !bytes.is_empty() && are_key_bytes(bytes)
}

impl Credentials for ApiKey {
    ghost use Rattle.headers_user.specs.ApiKey.{api_key_scheme, ReadsApiKey, api_key_writes};
    ghost use Rattle.headers_user.specs.ApiKeyLaws.{api_key_laws};

    ghost scheme = { api_key_scheme };

    ghost same = { λ v w. v ≡ w };

    ghost reads = { ReadsApiKey };

    ghost writes = { api_key_writes };

    ghost laws = { api_key_laws };

    const SCHEME: &'static str = "ApiKey";

    fn scheme_name() -> &'static str {
        Self::SCHEME
    }

    fn decode(alloc: Global, value: &HeaderValue) -> Result<Option<ApiKey>, AllocError> {
        let bytes = &value.as_bytes()["ApiKey ".len()..];
        if !is_key(bytes) {
            return Ok(None);
        }
        let Ok(text) = str::from_utf8(bytes) else {
            return Ok(None);
        };
        Ok(Some(ApiKey {
            text: String::from_str(alloc, text)?,
        }))
    }

    fn encode(&self, alloc: Global) -> Result<HeaderValue, AllocError> {
        let mut line = String::from_str(alloc, "ApiKey ")?;
        line.push_str(self.text.as_str())?;
        match HeaderValue::from_string(line) {
            Ok(value) => Ok(value),
            Err(HeaderValueError::Invalid) => unreachable!(),
            Err(HeaderValueError::OutOfMemory) => Err(AllocError),
        }
    }
}

/// Returns the key in the header `authorization` of a map: `Ok(None)` if there is no line.
/// `Invalid` if the lines encode no key, `Memory` if an allocation fails.
pub fn key_of(alloc: Global, map: &HeaderMap) -> Result<Option<ApiKey>, Refused<Error>>
    ensures { IsTypedRead CarryKey (lines_at map.now (codes "authorization")) result }
{
    match map.typed_try_get::<Authorization<ApiKey>>(alloc) {
        Ok(Some(header)) => Ok(Some(header.0)),
        Ok(None) => Ok(None),
        Err(refused) => Err(refused),
    }
}
