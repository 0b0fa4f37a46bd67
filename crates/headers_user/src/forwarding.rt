//! A proxy's step: the fields of a request that it forwards.
ghost use Rattle.std.specs.Prelude.{◌↔◌, Some, codes, IfOk, OnErr, IsErrOf};
ghost use Rattle.headers.specs.LineMap.{lines_at};
ghost use Rattle.headers_user.specs.Forward.{HasBadHops, HasHops, SameLines, IsForwarded};

use crate::max_forwards::MaxForwards;
use headers::{ApplyError, HeaderMap, HeaderMapExt, Refused, Step, apply, encoding};
use http_header::PROXY_AUTHORIZATION;
use std::alloc::{AllocError, AllocFailed, Global};
use std::error::Error;
use std::fmt;

/// Whether a proxy forwards a request.
#[derive(Clone, Copy, Debug, PartialEq, Eq)]
pub enum Forwarded {
    /// The request has no hop left: this proxy is its final recipient.
    Stop,
    /// The request is forwarded, with this many hops left.
    Passed(u64),
    /// The request is forwarded, with no limit of hops.
    Unlimited,
}

/// Why a request isn't forwarded.
#[derive(Clone, Copy, Debug, PartialEq, Eq)]
pub enum ForwardError {
    /// The lines of `max-forwards` encode no number.
    BadHops,
    /// Out of memory: an allocation failed.
    Memory,
}

impl fmt::Display for ForwardError {
    ghost use Rattle.headers_user.specs.ForwardErrors.{forward_error_text};

    ghost output = { λ e. Some (forward_error_text e) };

    ghost styled_output = { λ e _. Some (forward_error_text e) };

    fn fmt<W: fmt::Write>(&self, f: &mut fmt::Formatter<W>) -> fmt::Result {
        f.write_str(match self {
            ForwardError::BadHops => "BadHops",
            ForwardError::Memory => "Memory",
        })
    }
}

impl Error for ForwardError {}

impl From<AllocError> for ForwardError {
    ghost use Rattle.std.specs.Prelude.{◌≡◌};
    ghost use Rattle.headers_user.specs.declared.forwarding.ForwardError.TheVariants.{Memory};

    ghost from_gives = { λ _ e. e ≡ Memory };

    fn from(_error: AllocError) -> ForwardError {
        ForwardError::Memory
    }
}

impl<T: Drop> From<AllocFailed<T>> for ForwardError {
    ghost use Rattle.std.specs.Prelude.{◌≡◌};
    ghost use Rattle.headers_user.specs.declared.forwarding.ForwardError.TheVariants.{Memory};

    ghost from_gives = { λ _ e. e ≡ Memory };

    fn from(_failed: AllocFailed<T>) -> ForwardError {
        ForwardError::Memory
    }
}

// The steps of `forward` always have room.
impl From<ApplyError> for ForwardError {
    ghost use Rattle.std.specs.Prelude.{◌≡◌};
    ghost use Rattle.headers_user.specs.declared.forwarding.ForwardError.TheVariants.{Memory};

    ghost from_gives = { λ _ e. e ≡ Memory };

    fn from(_error: ApplyError) -> ForwardError {
        ForwardError::Memory
    }
}

/// Changes the fields of a request for the next hop (RFC 9110, sections 7.6.2 and 11.7.2). It
/// counts a hop of `max-forwards`, and removes the credentials for this proxy. `BadHops` if the
/// lines of `max-forwards` encode no number, `Memory` if an allocation fails; the map is then
/// unchanged.
pub fn forward(alloc: Global, map: &mut HeaderMap) -> Result<Forwarded, ForwardError>
    ensures ok { IfOk result (IsForwarded (lines_at map.old) (lines_at map.new)) }
    ensures bad { IsErrOf result ForwardError.BadHops ↔ HasBadHops (lines_at map.old) }
    ensures err { OnErr result (SameLines (lines_at map.old) (lines_at map.new)) }
{
    match read_hops(alloc, map)? {
        None => {
            apply(map, vec![in alloc; Step::Remove(PROXY_AUTHORIZATION)]?)?;
            Ok(Forwarded::Unlimited)
        }
        Some(0) => Ok(Forwarded::Stop),
        Some(hops) => {
            let left = hops - 1;
            let header = encoding(alloc, &MaxForwards::new(left))?;
            let steps = vec![in alloc; Step::Put(header), Step::Remove(PROXY_AUTHORIZATION)]?;
            apply(map, steps)?;
            Ok(Forwarded::Passed(left))
        }
    }
}

// The hops that are left, or `None` if there is no limit.
fn read_hops(alloc: Global, map: &HeaderMap) -> Result<Option<u64>, ForwardError>
    ensures ok { IfOk result (HasHops (lines_at map.now)) }
    ensures bad { IsErrOf result ForwardError.BadHops ↔ HasBadHops (lines_at map.now) }
{
    match map.typed_try_get::<MaxForwards>(alloc) {
        Ok(None) => Ok(None),
        Ok(Some(header)) => Ok(header.hops()),
        Err(Refused::Invalid(_)) => Err(ForwardError::BadHops),
        Err(Refused::Memory(refused)) => Err(ForwardError::from(refused)),
    }
}
