//! The directives of Cache-Control, for a cache.
ghost use Rattle.std.specs.Prelude.{◌≡◌, ◌||◌, option_map};
ghost use Rattle.headers_map.specs.LineMap.{lines_at};
ghost use Rattle.rfc_fields.{specs.Directives.directive_parts, specs.Members.member_of, specs.Numbers.number_within};
ghost use Rattle.rfc_fields.specs.Values.{octets_of, value_parts};
ghost use Rattle.cache_fields.specs.Directives.{asks_always, directed, directs, is_alone, is_argued, nothing, said_in};
ghost use Rattle.cache_fields.specs.Directives.{seconds_if, stores_nothing, strictest, with_later};
ghost use Rattle.cache_fields.specs.Fields.{greatest};

use http_header::{CACHE_CONTROL, HeaderMap};
use rfc_fields::{Directive, FieldMembers, Malformed, directive_in};

/// The directives of Cache-Control, for a cache (RFC 9111, section 5.2, RFC 5861 and RFC 8246).
/// Numbers are seconds.
///
/// The names of directives ignore case. If a directive is given twice, the first counts. An
/// argument is a token or a quoted-string, which mean the same. `no-cache` and `private` with field
/// names count as if they had none.
#[derive(Clone, Copy, Debug, PartialEq, Eq)]
pub struct Directives {
    /// `no-cache`: no answer without asking the origin.
    pub no_cache: bool,
    /// `no-store`: nothing is stored.
    pub no_store: bool,
    /// `only-if-cached`: the origin isn't asked.
    pub only_if_cached: bool,
    /// `must-revalidate` without an argument: no stale answer. With one it counts as `no-cache`.
    pub must_revalidate: bool,
    /// `proxy-revalidate`: no stale answer from a shared cache.
    pub proxy_revalidate: bool,
    /// `must-understand` without an argument: stored only if the cache understands the status. With one it
    /// counts as `no-store`.
    pub must_understand: bool,
    /// `public` without an argument: stored by any cache.
    pub public: bool,
    /// `private`: stored by no shared cache.
    pub private: bool,
    /// `immutable`: not updated while it is fresh (RFC 8246).
    pub immutable: bool,
    /// `max-age`: 0 without a valid number.
    pub max_age: Option<u64>,
    /// `s-maxage`: 0 without a valid number.
    pub s_max_age: Option<u64>,
    /// `max-stale`: the greatest number without an argument, 0 if that is no number.
    pub max_stale: Option<u64>,
    /// `min-fresh`: the greatest number without a valid number.
    pub min_fresh: Option<u64>,
    /// `stale-while-revalidate`: 0 without a valid number.
    pub stale_while_revalidate: Option<u64>,
    /// `stale-if-error`: 0 without a valid number.
    pub stale_if_error: Option<u64>,
}

/// Parses all field lines of Cache-Control of a message. Without a line no directive is set.
///
/// If a line is malformed, or a member is no directive, exactly `no-cache`, `no-store`, `private`,
/// `must-revalidate` and `max-age=0` are set. An unknown directive is ignored (RFC 9111, section
/// 5.2.3).
pub fn read_directives(message: &HeaderMap) -> Directives
    ensures { result ≡ directed (lines_at message.now) }
{
    let mut directives = nothing();
    for member in FieldMembers::new(&message.get_all(CACHE_CONTROL)) {
        match said_in(member) {
            Some(directive) => directives = with_later(directives, directs(&directive)),
            None => return strictest(),
        }
    }
    directives
}

// The directive that a member is.
fn said_in<'a>(member: Result<&'a [u8], Malformed>) -> Option<Directive<'a>>
    ensures { option_map directive_parts result ≡ said_in (member_of member.entry) }
{
    match member {
        Ok(text) => directive_in(text),
        Err(Malformed) => None,
    }
}

pub(crate) fn nothing() -> Directives
    ensures { result ≡ nothing }
{
    Directives {
        no_cache: false,
        no_store: false,
        only_if_cached: false,
        must_revalidate: false,
        proxy_revalidate: false,
        must_understand: false,
        public: false,
        private: false,
        immutable: false,
        max_age: None,
        s_max_age: None,
        max_stale: None,
        min_fresh: None,
        stale_while_revalidate: None,
        stale_if_error: None,
    }
}

// What a field directs that isn't well formed.
fn strictest() -> Directives
    ensures { result ≡ strictest }
{
    Directives {
        no_cache: true,
        no_store: true,
        must_revalidate: true,
        private: true,
        max_age: Some(0),
        ..nothing()
    }
}

// What one directive directs.
fn directs(directive: &Directive<'_>) -> Directives
    ensures { result ≡ directs (directive_parts directive.now) }
{
    Directives {
        no_cache: asks_always(directive),
        no_store: stores_nothing(directive),
        only_if_cached: directive.is(b"only-if-cached"),
        must_revalidate: is_alone(directive, b"must-revalidate"),
        proxy_revalidate: directive.is(b"proxy-revalidate"),
        must_understand: is_alone(directive, b"must-understand"),
        public: is_alone(directive, b"public"),
        private: directive.is(b"private"),
        immutable: directive.is(b"immutable"),
        max_age: seconds_if(directive, b"max-age", 0, 0),
        s_max_age: seconds_if(directive, b"s-maxage", 0, 0),
        max_stale: seconds_if(directive, b"max-stale", u64::MAX, 0),
        min_fresh: seconds_if(directive, b"min-fresh", u64::MAX, u64::MAX),
        stale_while_revalidate: seconds_if(directive, b"stale-while-revalidate", 0, 0),
        stale_if_error: seconds_if(directive, b"stale-if-error", 0, 0),
    }
}

// Whether it is the directive of this name, without an argument.
fn is_alone(directive: &Directive<'_>, name: &[u8]) -> bool
    ensures { result ≡ is_alone name.now (directive_parts directive.now) }
{
    directive.is(name) && directive.argument.is_none()
}

// Whether it is the directive of this name, with an argument.
fn is_argued(directive: &Directive<'_>, name: &[u8]) -> bool
    ensures { result ≡ is_argued name.now (directive_parts directive.now) }
{
    directive.is(name) && directive.argument.is_some()
}

// Whether no response is used without asking the origin.
fn asks_always(directive: &Directive<'_>) -> bool
    ensures { result ≡ asks_always (directive_parts directive.now) }
{
    directive.is(b"no-cache") || is_argued(directive, b"must-revalidate")
}

// Whether nothing is stored.
fn stores_nothing(directive: &Directive<'_>) -> bool
    ensures { result ≡ stores_nothing (directive_parts directive.now) }
{
    directive.is(b"no-store") || is_argued(directive, b"must-understand")
}

// The seconds of a directive, if it has this name: `bad` if its argument is no number, `bare` if it
// has none.
fn seconds_if(directive: &Directive<'_>, name: &[u8], bare: u64, bad: u64) -> Option<u64>
    ensures { result ≡ seconds_if name.now bare bad (directive_parts directive.now) }
{
    if !directive.is(name) {
        return None;
    }
    match directive.argument {
        Some(value) => Some(value.number().unwrap_or(bad)),
        None => Some(bare),
    }
}

// What both direct. Of two numbers the first counts.
fn with_later(first: Directives, later: Directives) -> Directives
    ensures { result ≡ with_later first later }
{
    Directives {
        no_cache: either(first.no_cache, later.no_cache),
        no_store: either(first.no_store, later.no_store),
        only_if_cached: either(first.only_if_cached, later.only_if_cached),
        must_revalidate: either(first.must_revalidate, later.must_revalidate),
        proxy_revalidate: either(first.proxy_revalidate, later.proxy_revalidate),
        must_understand: either(first.must_understand, later.must_understand),
        public: either(first.public, later.public),
        private: either(first.private, later.private),
        immutable: either(first.immutable, later.immutable),
        max_age: first.max_age.or(later.max_age),
        s_max_age: first.s_max_age.or(later.s_max_age),
        max_stale: first.max_stale.or(later.max_stale),
        min_fresh: first.min_fresh.or(later.min_fresh),
        stale_while_revalidate: first
            .stale_while_revalidate
            .or(later.stale_while_revalidate),
        stale_if_error: first.stale_if_error.or(later.stale_if_error),
    }
}

fn either(first: bool, later: bool) -> bool
    ensures { result ≡ (first || later) }
{
    first || later
}
