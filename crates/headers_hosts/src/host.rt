//! The header `host`.
ghost use Rattle.std.specs.Prelude.{◌≡◌, ◌≤◌, ◌↔◌, length, IfOk, Some};
ghost use Rattle.http_uri.{specs.Grammar.authority_host, specs.Port.IsPortNumberOf};
ghost use Rattle.headers_hosts.{specs.OneLine.LineDecodesTo, specs.Host.{host_bytes, host_reads, host_writes}};
ghost use Rattle.headers_hosts.specs.Host.{IsHostLine};

use headers_core::{AsHeaderValue, Error, Header, Refused, first};
use http_header::{HOST, HeaderName, HeaderValue, HeaderValueError};
use http_uri::Authority;
use std::alloc::{AllocError, Global};
use std::fmt;

/// The header `Host`: the host, and perhaps the port, of the request's target (RFC 9110, section
/// 7.2).
///
/// The first field line is stored. `decode` rejects a line that is no authority of at most 65,534
/// bytes, as `http_uri` parses it, and may run out of memory. Headers are compared, ordered and
/// hashed without the case of ASCII letters.
#[derive(Debug, PartialEq, Eq, PartialOrd, Hash, Drop)]
pub struct Host {
    authority: Authority,
}

// The longest line that is read.
pub(crate) const MAX_LEN: usize = 65534;

impl Host {
    /// Returns the host: what follows the last `@`, up to the port. An IPv6 address includes its
    /// brackets.
    pub fn hostname(&self) -> &str
        ensures { result.now ≡ authority_host (host_bytes self.now) }
    {
        self.authority.host()
    }

    /// Returns the port: what follows the last colon, if it is a number below 65,536.
    pub fn port(&self) -> Option<u16>
        ensures { IsPortNumberOf (host_bytes self.now) result }
    {
        self.authority.port_u16()
    }

    /// Copies the header. Fails only if an allocation fails.
    pub fn clone(&self, _alloc: Global) -> Result<Host, AllocError>
        ensures { IfOk result (λ copy. copy ≡ self.now) }
    {
        Ok(Host {
            authority: self.authority.clone()?,
        })
    }

    fn from_val(value: &HeaderValue) -> Result<Host, Refused<Error>>
        ensures { LineDecodesTo IsHostLine value.now.bytes result }
    {
        if value.as_bytes().len() > MAX_LEN {
            return Err(Refused::Invalid(Error::invalid()));
        }
        match Authority::from_shared(value.as_shared().clone()?) {
            Ok(authority) => Ok(Host { authority }),
            Err(_) => Err(Refused::Invalid(Error::invalid())),
        }
    }

    fn to_value(&self, alloc: Global) -> Result<HeaderValue, AllocError>
        ensures { IfOk result (λ value. value.bytes ≡ host_bytes self.now) }
    {
        match HeaderValue::from_str(alloc, self.authority.as_str()) {
            Ok(value) => Ok(value),
            Err(HeaderValueError::Invalid) => unreachable!(),
            Err(HeaderValueError::OutOfMemory) => Err(AllocError),
        }
    }
}

/// Theorem: a host survives a round trip exactly if it has at most 65,534 bytes.
pub fn hosts_read_back(host: &Host)
    ensures { host_reads (host_writes host.now) host.now ↔ (length (host_bytes host.now) ≤ 65534) }
{
    let _text = host.authority.as_str();
}

impl From<Authority> for Host {
    ghost from_gives = { λ authority host. host_bytes host ≡ authority };

    fn from(authority: Authority) -> Host {
        Host { authority }
    }
}

impl fmt::Display for Host {
    ghost output = { λ host. Some (host_bytes host) };

    ghost styled_output = { λ host _. Some (host_bytes host) };

    fn fmt<W: fmt::Write>(&self, f: &mut fmt::Formatter<W>) -> fmt::Result {
        f.write_str(self.authority.as_str())
    }
}

impl Header for Host {
    ghost use Rattle.std.specs.Prelude.{false, codes};
    ghost use Rattle.headers_hosts.{specs.OneLine.Same, specs.Host.{host_reads, host_writes}, specs.HostLaws.host_laws};

    ghost field_name = { codes "host" };

    ghost free = { false };

    ghost same = { Same };

    ghost reads = { host_reads };

    ghost writes = { host_writes };

    ghost laws = { host_laws };

    fn name() -> HeaderName {
        HOST
    }

    fn decode<I: Iterator>(_alloc: Global, values: &mut I) -> Result<Host, Refused<Error>>
    where
        I::Item: AsHeaderValue,
    {
        let line = first(values).ok_or(Error::invalid())?;
        Host::from_val(line.as_header_value())
    }

    fn encode(&self, alloc: Global, values: &mut Vec<HeaderValue>) -> Result<(), AllocError> {
        values.push(self.to_value(alloc)?)?;
        Ok(())
    }
}
