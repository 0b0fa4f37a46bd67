//! The directives of `cache-control`.
ghost use Rattle.std.specs.Prelude.{◌≡◌, ℕ, Option};
ghost use Rattle.headers.specs.CacheControl.{GivesSeconds};
ghost use Rattle.c_library.specs.CacheDirectives.{reads_directives, seconds_of, shown};
ghost use Rattle.c_parts.{specs.Endings.Gives, specs.FieldText.FieldDecodes};

use c_decisions::flag_of;
use c_parts::{DONE, Failure, has_flag, read_values};
use headers::{CacheControl, Refused, decode_values};
use std::alloc::Global;
use std::time::Duration;

/// The number of seconds of a directive, if it is set.
#[repr(C)]
#[derive(Clone, Copy)]
pub struct DirectiveSeconds {
    /// The seconds, or 0 if the directive isn't set.
    pub seconds: u64,
    /// 1 if the directive is set, else 0.
    pub is_set: u8,
}

/// The directives that are set (RFC 9111, section 5.2, and RFC 8246). A flag is 1 if it is set, else
/// 0.
#[repr(C)]
#[derive(Clone, Copy)]
pub struct CacheDirectives {
    pub max_age: DirectiveSeconds,
    pub max_stale: DirectiveSeconds,
    pub min_fresh: DirectiveSeconds,
    pub s_maxage: DirectiveSeconds,
    pub no_cache: u8,
    pub no_store: u8,
    pub no_transform: u8,
    pub only_if_cached: u8,
    pub must_revalidate: u8,
    pub must_understand: u8,
    pub is_public: u8,
    pub is_private: u8,
    pub immutable: u8,
    pub proxy_revalidate: u8,
}

/// Decodes the field lines of `cache-control` to the directives that are set.
#[unsafe(no_mangle)]
pub extern "C" fn typed_headers_cache_control(
    alloc: Global,
    lines: &[u8],
    directives: &mut CacheDirectives,
) -> u8
    ensures { Gives (FieldDecodes reads_directives lines.now) directives.old directives.new result }
{
    match read_directives(alloc, lines) {
        Ok(read) => {
            *directives = read;
            DONE
        }
        Err(failure) => failure.status(),
    }
}

fn read_directives(alloc: Global, lines: &[u8]) -> Result<CacheDirectives, Failure>
    ensures { FieldDecodes reads_directives lines.now result }
{
    let Some(values) = read_values(alloc, lines)? else {
        return Err(Failure::Refused);
    };
    if values.is_empty() {
        return Err(Failure::Absent);
    }
    match decode_values::<CacheControl>(alloc, values.as_slice()) {
        Ok(cache) => Ok(shown(&cache, has_flag(values.as_slice(), "proxy-revalidate"))),
        Err(Refused::Invalid(_)) => Err(Failure::Refused),
        Err(Refused::Memory(_)) => Err(Failure::Memory),
    }
}

fn seconds_of(duration: Option<Duration>) -> DirectiveSeconds
    ensures { (number : Option ℕ) → GivesSeconds duration number → result ≡ seconds_of number }
{
    match duration {
        Some(duration) => DirectiveSeconds {
            seconds: duration.as_secs(),
            is_set: 1,
        },
        None => DirectiveSeconds {
            seconds: 0,
            is_set: 0,
        },
    }
}

fn shown(cache: &CacheControl, proxy_revalidate: bool) -> CacheDirectives
    ensures { cache.now.proxy_revalidate ≡ proxy_revalidate → result ≡ shown cache.now }
{
    CacheDirectives {
        max_age: seconds_of(cache.max_age()),
        max_stale: seconds_of(cache.max_stale()),
        min_fresh: seconds_of(cache.min_fresh()),
        s_maxage: seconds_of(cache.s_max_age()),
        no_cache: flag_of(cache.no_cache()),
        no_store: flag_of(cache.no_store()),
        no_transform: flag_of(cache.no_transform()),
        only_if_cached: flag_of(cache.only_if_cached()),
        must_revalidate: flag_of(cache.must_revalidate()),
        must_understand: flag_of(cache.must_understand()),
        is_public: flag_of(cache.public()),
        is_private: flag_of(cache.private()),
        immutable: flag_of(cache.immutable()),
        proxy_revalidate: flag_of(proxy_revalidate),
    }
}
