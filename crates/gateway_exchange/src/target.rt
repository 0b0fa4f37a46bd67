//! The target of a request (RFC 9112, section 3.2).
ghost use Rattle.std.{specs.Prelude.{◌≡◌, IfOk}, specs.List.list_all};
ghost use Rattle.gateway_exchange.specs.Targets.{is_target_byte, origin_form, target_of, target_parts};

use bytes::{Bytes, BytesMut};
use gateway_messages::{authority_len, scheme_len};
use std::alloc::{AllocError, Global};

/// The parts of a target.
#[derive(Clone, Copy)]
pub(crate) struct TargetParts<'a> {
    /// The authority, if the target is in absolute-form.
    pub(crate) authority: Option<&'a [u8]>,
    /// What follows it.
    pub(crate) path: &'a [u8],
}

fn is_target_byte(byte: u8) -> bool
    ensures { result ≡ is_target_byte byte }
{
    33 <= byte && byte <= 126 && byte != b'#'
}

fn are_target_bytes(target: &[u8]) -> bool
    ensures { result ≡ list_all is_target_byte target.now }
{
    target.iter().all(|byte| is_target_byte(*byte))
}

/// The parts of a target in origin-form, absolute-form or asterisk-form. `None` if it is in no such form,
/// or in asterisk-form though the method isn't OPTIONS, or has a fragment or a byte that isn't visible ASCII.
pub(crate) fn target_of(is_options: bool, target: &[u8]) -> Option<TargetParts<'_>>
    ensures { target_parts result ≡ target_of is_options target.now }
{
    if !are_target_bytes(target) {
        return None;
    }
    let scheme = scheme_len(target);
    if scheme != 0 {
        let rest = &target[scheme..];
        let (authority, path) = rest.split_at(authority_len(rest));
        return Some(TargetParts {
            authority: Some(authority),
            path,
        });
    }
    if target.starts_with(b"/") || (is_options && target == b"*".as_slice()) {
        return Some(TargetParts {
            authority: None,
            path: target,
        });
    }
    None
}

/// The target that is sent to the origin server: an empty path is sent as `/`, or for OPTIONS as `*`.
pub(crate) fn origin_form(
    alloc: Global,
    is_options: bool,
    target: &TargetParts<'_>,
) -> Result<Bytes, AllocError>
    ensures { IfOk result (λ sent. sent ≡ origin_form is_options target.now.path.now) }
{
    let path = target.path;
    if path.is_empty() {
        return Ok(Bytes::from_static(if is_options { b"*" } else { b"/" }));
    }
    let mut sent = BytesMut::new(alloc);
    if path[0] == b'?' {
        sent.extend_from_slice(b"/")?;
    }
    sent.extend_from_slice(path)?;
    match sent.freeze() {
        Ok(sent) => Ok(sent),
        Err(_) => Err(AllocError),
    }
}
