//! The entity tag of bytes in memory.
ghost use Rattle.std.specs.Prelude.{◌≡◌, true, IfOk, string_bytes};
ghost use Rattle.http_header.specs.FieldValue.{plain_value};
ghost use Rattle.decide_preconditions.specs.Boundaries.{is_boundary};
ghost use Rattle.server_files.specs.Tags.{content_digest, strong_tag};

use headers::{ETag, Refused};
use sha2::{Digest, Sha256};
use std::alloc::{AllocError, Global};

// A strong entity tag as it is written.
fn tag_text(alloc: Global, digits: &str) -> Result<String, AllocError>
    ensures { IfOk result (λ text. string_bytes text ≡ strong_tag digits.now) }
{
    let mut text = String::new(alloc);
    text.push_str("\"")?;
    text.push_str(digits)?;
    text.push_str("\"")?;
    Ok(text)
}

// The tag with these digits.
fn strong_tag(alloc: Global, digits: &str) -> Result<ETag, AllocError>
    requires { is_boundary digits.now ≡ true }
    ensures { IfOk result (λ tag. tag ≡ plain_value (strong_tag digits.now)) }
{
    let text = tag_text(alloc, digits)?;
    match ETag::from_str(alloc, text.as_str()) {
        Ok(tag) => Ok(tag),
        Err(Refused::Memory(refused)) => Err(refused),
        Err(Refused::Invalid(_)) => unreachable!(),
    }
}

// The digits of the digest of a content.
#[tactic(auto, unfolding(crate::specs::Tags::content_digest))]
fn digits_of(alloc: Global, content: &[u8]) -> Result<String, AllocError>
    ensures { IfOk result (λ text. string_bytes text ≡ content_digest content.now) }
{
    Ok(hex::encode(alloc, Sha256::digest(content))?)
}

/// The tag of a content, which says its SHA-256.
#[tactic(auto, using(crate::proofs::DigestLemmas::digest_is_boundary))]
pub(crate) fn content_tag(alloc: Global, content: &[u8]) -> Result<ETag, AllocError>
    ensures { IfOk result (λ tag. tag ≡ plain_value (strong_tag (content_digest content.now))) }
{
    let digits = digits_of(alloc, content)?;
    strong_tag(alloc, digits.as_str())
}
