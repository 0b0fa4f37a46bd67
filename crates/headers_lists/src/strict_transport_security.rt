//! The header `strict-transport-security`.
ghost use Rattle.std.specs.Prelude.{◌≡◌, ◌/◌, true, false, IfOk, string_bytes, filter, count_by};
ghost use Rattle.std.{specs.Option.option_and_then, specs.Duration.as_nanos};
ghost use Rattle.http_header.specs.FieldValue.{IsFieldValue};
ghost use Rattle.headers_syntax.{specs.Durations.{IsWholeSeconds, LastsSeconds}, specs.HeaderLaws.ReadsBy};
ghost use Rattle.headers_syntax.{specs.HeaderLaws.written_by, specs.Lines.only_line};
ghost use Rattle.headers_lists.specs.StrictTransportSecurityGrammar.{security_grammar};
ghost use Rattle.headers_lists.specs.StrictTransportSecurity.{names_subdomains, carries_age, age_in, read_security};
ghost use Rattle.headers_lists.{specs.StrictTransportSecurity.print_security, specs.SecurityParts.{pieces, age_of}};

use bytes::Bytes;
use headers_core::{
    AsHeaderValue, Error, Header, Refused, just_one, parse_number, read_text, same_but_for_case,
    trim_text, unquoted,
};
use http_header::{HeaderName, HeaderValue, STRICT_TRANSPORT_SECURITY};
use std::alloc::{AllocError, Global};
use std::fmt::Write;
use std::marker::Model;
use std::time::Duration;

/// The header `Strict-Transport-Security`: for how many seconds a host may be reached only by
/// secure transport, and whether its subdomains are included (RFC 6797, section 6.1). The only
/// field line is cut at every semicolon. `decode` rejects it unless exactly one part is an age,
/// that age is a number below 2^64, and at most one part is `includeSubdomains`; it rejects no or
/// several lines, and never allocates. Headers are compared by the age and by whether subdomains
/// are included.
#[derive(Clone, Debug, PartialEq, Drop)]
pub struct StrictTransportSecurity {
    include_subdomains: bool,
    max_age: u64,
}

impl Model for StrictTransportSecurity {
    ghost use Rattle.headers_lists.specs.StrictTransportSecurity.{TransportSecurity};

    ghost Value = { TransportSecurity };

    ghost view = { λ s. record { include_subdomains = s.include_subdomains; max_age = s.max_age } };

    ghost inverse = { λ s. record { include_subdomains = s.include_subdomains; max_age = s.max_age } };
}

impl StrictTransportSecurity {
    /// Makes a header for a host and its subdomains. The caller must show that the duration has no
    /// part of a second.
    pub fn including_subdomains(max_age: Duration) -> StrictTransportSecurity
        requires { IsWholeSeconds max_age }
        ensures { result ≡ record { include_subdomains = true; max_age = as_nanos max_age / 1_000_000_000 } }
    {
        StrictTransportSecurity {
            include_subdomains: true,
            max_age: max_age.as_secs(),
        }
    }

    /// Makes a header for a host without its subdomains. The caller must show that the duration has
    /// no part of a second.
    pub fn excluding_subdomains(max_age: Duration) -> StrictTransportSecurity
        requires { IsWholeSeconds max_age }
        ensures { result ≡ record { include_subdomains = false; max_age = as_nanos max_age / 1_000_000_000 } }
    {
        StrictTransportSecurity {
            include_subdomains: false,
            max_age: max_age.as_secs(),
        }
    }

    /// Returns whether the subdomains are included.
    pub fn include_subdomains(&self) -> bool
        ensures { result ≡ self.now.include_subdomains }
    {
        self.include_subdomains
    }

    /// Returns the duration, in whole seconds.
    pub fn max_age(&self) -> Duration
        ensures { LastsSeconds result self.now.max_age }
    {
        Duration::from_secs(self.max_age)
    }
}

// The age that the part carries, if it carries one: a number, or none if it can't be read.
fn age_of(part: &str) -> Option<Option<u64>>
    ensures { result ≡ age_of part.now }
{
    let (name, value) = part.split_once('=')?;
    if !same_but_for_case(trim_text(name), "max-age") {
        return None;
    }
    Some(parse_number(unquoted(trim_text(value))))
}

// The number of parts that name `includeSubdomains`.
fn subdomains_named(text: &str) -> usize
    ensures { result ≡ count_by names_subdomains (pieces text.now) }
{
    text.split(';')
        .map(|part| trim_text(part))
        .filter(|part| same_but_for_case(part, "includeSubdomains"))
        .count()
}

// The number of the only part that carries an age. If two carry one, neither counts.
fn only_age(text: &str) -> Option<u64>
    ensures { result ≡ option_and_then age_in (only_line (filter carries_age (pieces text.now))) }
{
    text.split(';')
        .filter_map(|part| age_of(trim_text(part)))
        .reduce(|_, _| None)
        .flatten()
}

// Reads a line.
#[tactic(auto, using(crate::proofs::SecurityLemmas::subdomains_counted))]
fn read_security(line: &HeaderValue) -> Option<StrictTransportSecurity>
    ensures { result ≡ read_security line.now.bytes }
{
    let text = read_text(line)?;
    let named = subdomains_named(text);
    if named > 1 {
        return None;
    }
    let max_age = only_age(text)?;
    Some(StrictTransportSecurity {
        include_subdomains: named > 0,
        max_age,
    })
}

// The age, and then `includeSubdomains` if it is set.
fn print_security(
    alloc: Global,
    include_subdomains: bool,
    max_age: u64,
) -> Result<String, AllocError>
    ensures text { IfOk result (λ text. string_bytes text
        ≡ print_security (record { include_subdomains = include_subdomains; max_age = max_age })) }
    ensures valid { IfOk result (λ text. IsFieldValue (string_bytes text)) }
{
    // The most that is printed: 8 bytes, 20 digits and 19 bytes.
    let mut text = String::with_capacity(alloc, 47)?;
    write!(text, "max-age={max_age}")?;
    if include_subdomains {
        text.push_str("; includeSubdomains")?;
    }
    Ok(text)
}

impl Header for StrictTransportSecurity {
    ghost use Rattle.std.specs.Prelude.{true, codes};
    ghost use Rattle.headers_syntax.specs.HeaderLaws.{SameBy, ReadsBy, written_by};
    ghost use Rattle.headers_lists.specs.StrictTransportSecurityGrammar.{security_grammar};
    ghost use Rattle.headers_lists.specs.StrictTransportSecurityLaws.{security_laws};

    ghost field_name = { codes "strict-transport-security" };

    ghost free = { true };

    ghost same = { SameBy security_grammar };

    ghost reads = { ReadsBy security_grammar };

    ghost writes = { written_by security_grammar };

    ghost laws = { security_laws };

    fn name() -> HeaderName {
        STRICT_TRANSPORT_SECURITY
    }

    fn decode<I: Iterator>(
        _alloc: Global,
        values: &mut I,
    ) -> Result<StrictTransportSecurity, Refused<Error>>
    where
        I::Item: AsHeaderValue,
    {
        let line = just_one(values).ok_or(Error::invalid())?;
        Ok(read_security(line.as_header_value()).ok_or(Error::invalid())?)
    }

    fn encode(&self, alloc: Global, values: &mut Vec<HeaderValue>) -> Result<(), AllocError> {
        let text = print_security(alloc, self.include_subdomains, self.max_age)?;
        let value = HeaderValue::from_known_valid(Bytes::from_string(text)?);
        values.push(value)?;
        Ok(())
    }
}

/// Theorem: every value of `StrictTransportSecurity` survives a round trip.
#[tactic(auto, using(crate::specs::StrictTransportSecurityLaws::built_back))]
pub fn security_reads_back(header: &StrictTransportSecurity)
    ensures { ReadsBy security_grammar (written_by security_grammar header.now) header.now }
{
    let _max_age = header.max_age;
}
