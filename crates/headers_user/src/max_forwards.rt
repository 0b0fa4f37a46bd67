//! The header `max-forwards`.
ghost use Rattle.std.specs.Prelude.{◌≡◌, Some, None};

use headers::{Age, AsHeaderValue, Error, Header, HeaderName, HeaderValue, Refused};
use http_header::MAX_FORWARDS;
use std::alloc::{AllocError, Global};
use std::marker::Model;

/// The header `Max-Forwards`: how often a request may still be forwarded (RFC 9110, section 7.6.2).
/// The only field line is decoded, a number below 2^64. `decode` rejects any other value, and no or
/// several lines, and never allocates. Headers are compared by the number.
#[derive(Clone, Copy, Debug, PartialEq, Eq)]
pub struct MaxForwards {
    limit: Option<u64>,
}

impl Model for MaxForwards {
    ghost use Rattle.std.specs.Prelude.{ℕ, Option};

    ghost Value = { Option ℕ };

    ghost view = { λ header. header.limit };

    ghost inverse = { λ limit. record { limit = limit } };
}

impl MaxForwards {
    /// Makes a header of this many hops.
    pub fn new(hops: u64) -> MaxForwards
        ensures { result ≡ Some hops }
    {
        MaxForwards { limit: Some(hops) }
    }

    /// Makes a header without a limit, which is encoded as no field line.
    pub fn none() -> MaxForwards
        ensures { result ≡ None }
    {
        MaxForwards { limit: None }
    }

    /// Returns the number of hops, or `None` if there is no limit.
    pub fn hops(&self) -> Option<u64>
        ensures { result ≡ self.now }
    {
        self.limit
    }
}

impl Header for MaxForwards {
    ghost use Rattle.std.specs.Prelude.{true, codes};
    ghost use Rattle.headers_user.specs.MaxForwards.{max_forwards_reads, max_forwards_writes};
    ghost use Rattle.headers_user.specs.MaxForwardsLaws.{max_forwards_laws};

    ghost field_name = { codes "max-forwards" };

    ghost free = { true };

    ghost same = { λ v w. v ≡ w };

    ghost reads = { max_forwards_reads };

    ghost writes = { max_forwards_writes };

    ghost laws = { max_forwards_laws };

    fn name() -> HeaderName {
        MAX_FORWARDS
    }

    fn decode<I: Iterator>(alloc: Global, values: &mut I) -> Result<MaxForwards, Refused<Error>>
    where
        I::Item: AsHeaderValue,
    {
        match Age::decode(alloc, values) {
            Ok(age) => Ok(MaxForwards::new(age.as_secs())),
            Err(refused) => Err(refused),
        }
    }

    fn encode(&self, alloc: Global, values: &mut Vec<HeaderValue>) -> Result<(), AllocError> {
        match self.limit {
            Some(hops) => Age::from_secs(hops).encode(alloc, values),
            None => Ok(()),
        }
    }
}
