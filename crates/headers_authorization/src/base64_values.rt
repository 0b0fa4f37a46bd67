//! Header values in base64, padded and in the standard alphabet (RFC 4648, section 4).
ghost use Rattle.std.specs.Prelude.{◌≡◌, ◌++◌, ℕ, List, IfOk, IsTrue, MatchOption};
ghost use Rattle.http_header.specs.FieldValue.{plain_value, is_visible_text};
ghost use Rattle.base64.specs.GeneralPurpose.{IsBytes};
ghost use Rattle.headers_authorization.specs.Base64.{base64};

use base64::DecodeAllocError;
use base64::engine::general_purpose::STANDARD;
use bytes::Bytes;
use http_header::HeaderValue;
use std::alloc::{AllocError, Global};

/// Makes a header value of a prefix and the base64 of the bytes (RFC 4648, section 4). The caller
/// must show that the prefix is visible ASCII, spaces and tabs. Fails only if an allocation fails.
pub fn base64_value(alloc: Global, prefix: &str, bytes: &[u8]) -> Result<HeaderValue, AllocError>
    requires { IsTrue (is_visible_text prefix.now) }
    ensures { IfOk result (λ value. value ≡ plain_value (prefix.now ++ base64 bytes.now)) }
{
    // Base64 writes four characters for each three bytes, and for what is left of them.
    let room = prefix.len().saturating_add(bytes.len() / 3 * 4 + 4);
    let mut text = String::with_capacity(alloc, room)?;
    text.push_str(prefix)?;
    STANDARD.encode_string(bytes, &mut text)?;
    Ok(HeaderValue::from_known_valid(Bytes::from_string(text)?))
}

/// Decodes base64 with padding, in the standard alphabet (RFC 4648, section 4). `Ok(None)` if
/// padding is missing, if bits after the last byte are set, or if the text has another byte. Fails
/// only if an allocation fails.
pub fn read_base64(alloc: Global, text: &[u8]) -> Result<Option<Vec<u8>>, AllocError>
    ensures { IfOk result (λ read. MatchOption read
        ((bytes : List ℕ) → IsBytes bytes → ¬ (text.now ≡ base64 bytes))
        (λ bytes. IsBytes bytes.items × (text.now ≡ base64 bytes.items))) }
{
    match STANDARD.decode(alloc, text) {
        Ok(bytes) => Ok(Some(bytes)),
        Err(DecodeAllocError::DecodeError(_)) => Ok(None),
        Err(DecodeAllocError::OutOfMemory) => Err(AllocError),
    }
}
