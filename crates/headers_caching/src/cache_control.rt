//! The header `cache-control`.
ghost use Rattle.std.specs.Prelude.{◌≡◌, ◌↔◌, ◌<◌, ◌^◌, ◌/◌, ◌∷◌, ◌++◌, List, [], ℕ, true, Some, IfOk, OnOk, IsTrue};
ghost use Rattle.std.{specs.Prelude.{false, IsErr, string_bytes}, specs.Duration.as_nanos, specs.List.list_any};
ghost use Rattle.std.specs.List.{before_first, after_first};
ghost use Rattle.http_header.specs.FieldValue.{IsFieldValue};
ghost use Rattle.headers_syntax.{specs.Durations.IsWholeSeconds, specs.HeaderLaws.{ReadsBy, written_by}};
ghost use Rattle.headers_items.{specs.Answers.SurvivesCuts, specs.Entries.line_entries, specs.Pairs.is_equals};
ghost use Rattle.headers_items.{specs.Merge.merge, specs.Places.comma};
ghost use Rattle.headers_caching.specs.CacheControl.{GivesSeconds, directives, is_bad, is_bad_for, flag_rows};
ghost use Rattle.headers_caching.specs.CacheControl.{number_rows, print_flag, print_number, printed, Steps, next_flag};
ghost use Rattle.headers_caching.{specs.CacheControl.next_number, specs.CacheControlGrammar.cache_grammar};
ghost use Rattle.headers_caching.specs.CacheControlLaws.{FitRows, FitsOption, behind_commas};

use bytes::Bytes;
use headers_core::{
    AsHeaderValue, Entries, Error, Header, Refused, parse_number, same_but_for_case, unquoted,
};
use http_header::{CACHE_CONTROL, HeaderName, HeaderValue};
use std::alloc::{AllocError, Global};
use std::fmt::Write;
use std::marker::Model;
use std::time::Duration;

/// The header `Cache-Control`: whether a message may be stored, and how it may be reused (RFC 9111,
/// section 5.2, with `immutable` of RFC 8246).
///
/// All field lines that are text are decoded, entry by entry; without lines the header has no
/// directives. `decode` rejects the lines if an entry has a `max-age`, `max-stale`, `min-fresh` or
/// `s-maxage` that is no number below 2^64, and never allocates. `proxy-revalidate` is decoded and
/// encoded, but no call gets or sets it. Headers are compared by their encoding.
#[derive(Clone, Debug, PartialEq, Drop)]
pub struct CacheControl {
    no_cache: bool,
    no_store: bool,
    no_transform: bool,
    only_if_cached: bool,
    must_revalidate: bool,
    public: bool,
    private: bool,
    immutable: bool,
    must_understand: bool,
    proxy_revalidate: bool,
    max_age: Option<u64>,
    max_stale: Option<u64>,
    min_fresh: Option<u64>,
    s_max_age: Option<u64>,
}

impl Model for CacheControl {
    ghost use Rattle.headers_caching.specs.CacheControl.{Directives};

    ghost Value = { Directives };

    ghost view = { λ c. record {
      no_cache = c.no_cache;
      no_store = c.no_store;
      no_transform = c.no_transform;
      only_if_cached = c.only_if_cached;
      must_revalidate = c.must_revalidate;
      public = c.public;
      private = c.private;
      immutable = c.immutable;
      must_understand = c.must_understand;
      proxy_revalidate = c.proxy_revalidate;
      max_age = c.max_age;
      max_stale = c.max_stale;
      min_fresh = c.min_fresh;
      s_max_age = c.s_max_age;
    } };

    ghost inverse = { λ d. record {
      no_cache = d.no_cache;
      no_store = d.no_store;
      no_transform = d.no_transform;
      only_if_cached = d.only_if_cached;
      must_revalidate = d.must_revalidate;
      public = d.public;
      private = d.private;
      immutable = d.immutable;
      must_understand = d.must_understand;
      proxy_revalidate = d.proxy_revalidate;
      max_age = d.max_age;
      max_stale = d.max_stale;
      min_fresh = d.min_fresh;
      s_max_age = d.s_max_age;
    } };
}

// Sets the flag if the entry is its name.
fn set_flag(set: &mut bool, flag: &str, entry: &str)
    ensures { set.new ≡ next_flag entry.now flag.now set.old }
{
    *set |= same_but_for_case(entry, flag);
}

// Puts the number that the entry carries for the directive in place of an old one. The two sides of
// the entry's first `=` say which directive and which number.
fn set_number(
    number: &mut Option<u64>,
    directive: &str,
    name: &str,
    value: &str,
) -> Result<(), Error>
    ensures ok { IfOk result (λ _. (entry : List ℕ) → before_first is_equals entry ≡ name.now
        → after_first is_equals entry ≡ value.now → (is_bad_for directive.now entry ≡ false)
        × (number.new ≡ next_number entry directive.now number.old)) }
    ensures refused { IsErr result → (entry : List ℕ) → before_first is_equals entry ≡ name.now
        → after_first is_equals entry ≡ value.now → IsTrue (is_bad_for directive.now entry) }
{
    if value.is_empty() || !same_but_for_case(name, directive) {
        return Ok(());
    }
    let Some(given) = parse_number(unquoted(value)) else {
        return Err(Error::invalid());
    };
    *number = Some(given);
    Ok(())
}

impl CacheControl {
    /// Makes a header without directives.
    pub fn new() -> CacheControl
        ensures { result ≡ directives [] }
    {
        CacheControl {
            no_cache: false,
            no_store: false,
            no_transform: false,
            only_if_cached: false,
            must_revalidate: false,
            public: false,
            private: false,
            immutable: false,
            must_understand: false,
            proxy_revalidate: false,
            max_age: None,
            max_stale: None,
            min_fresh: None,
            s_max_age: None,
        }
    }

    /// Returns whether `no-cache` is set.
    pub fn no_cache(&self) -> bool
        ensures { result ≡ self.now.no_cache }
    {
        self.no_cache
    }

    /// Returns whether `no-store` is set.
    pub fn no_store(&self) -> bool
        ensures { result ≡ self.now.no_store }
    {
        self.no_store
    }

    /// Returns whether `no-transform` is set.
    pub fn no_transform(&self) -> bool
        ensures { result ≡ self.now.no_transform }
    {
        self.no_transform
    }

    /// Returns whether `only-if-cached` is set.
    pub fn only_if_cached(&self) -> bool
        ensures { result ≡ self.now.only_if_cached }
    {
        self.only_if_cached
    }

    /// Returns whether `public` is set.
    pub fn public(&self) -> bool
        ensures { result ≡ self.now.public }
    {
        self.public
    }

    /// Returns whether `private` is set.
    pub fn private(&self) -> bool
        ensures { result ≡ self.now.private }
    {
        self.private
    }

    /// Returns whether `immutable` is set.
    pub fn immutable(&self) -> bool
        ensures { result ≡ self.now.immutable }
    {
        self.immutable
    }

    /// Returns whether `must-revalidate` is set.
    pub fn must_revalidate(&self) -> bool
        ensures { result ≡ self.now.must_revalidate }
    {
        self.must_revalidate
    }

    /// Returns whether `must-understand` is set.
    pub fn must_understand(&self) -> bool
        ensures { result ≡ self.now.must_understand }
    {
        self.must_understand
    }

    /// Returns the duration of `max-age`, in whole seconds, if it is set.
    pub fn max_age(&self) -> Option<Duration>
        ensures { GivesSeconds result self.now.max_age }
    {
        self.max_age.map(Duration::from_secs)
    }

    /// Returns the duration of `max-stale`, in whole seconds, if it is set.
    pub fn max_stale(&self) -> Option<Duration>
        ensures { GivesSeconds result self.now.max_stale }
    {
        self.max_stale.map(Duration::from_secs)
    }

    /// Returns the duration of `min-fresh`, in whole seconds, if it is set.
    pub fn min_fresh(&self) -> Option<Duration>
        ensures { GivesSeconds result self.now.min_fresh }
    {
        self.min_fresh.map(Duration::from_secs)
    }

    /// Returns the duration of `s-maxage`, in whole seconds, if it is set.
    pub fn s_max_age(&self) -> Option<Duration>
        ensures { GivesSeconds result self.now.s_max_age }
    {
        self.s_max_age.map(Duration::from_secs)
    }

    /// Sets `no-cache`.
    pub fn with_no_cache(mut self) -> CacheControl
        ensures { result ≡ record self { no_cache = true } }
    {
        self.no_cache = true;
        self
    }

    /// Sets `no-store`.
    pub fn with_no_store(mut self) -> CacheControl
        ensures { result ≡ record self { no_store = true } }
    {
        self.no_store = true;
        self
    }

    /// Sets `no-transform`.
    pub fn with_no_transform(mut self) -> CacheControl
        ensures { result ≡ record self { no_transform = true } }
    {
        self.no_transform = true;
        self
    }

    /// Sets `only-if-cached`.
    pub fn with_only_if_cached(mut self) -> CacheControl
        ensures { result ≡ record self { only_if_cached = true } }
    {
        self.only_if_cached = true;
        self
    }

    /// Sets `public`.
    pub fn with_public(mut self) -> CacheControl
        ensures { result ≡ record self { public = true } }
    {
        self.public = true;
        self
    }

    /// Sets `private`.
    pub fn with_private(mut self) -> CacheControl
        ensures { result ≡ record self { private = true } }
    {
        self.private = true;
        self
    }

    /// Sets `immutable`.
    pub fn with_immutable(mut self) -> CacheControl
        ensures { result ≡ record self { immutable = true } }
    {
        self.immutable = true;
        self
    }

    /// Sets `must-revalidate`.
    pub fn with_must_revalidate(mut self) -> CacheControl
        ensures { result ≡ record self { must_revalidate = true } }
    {
        self.must_revalidate = true;
        self
    }

    /// Sets `must-understand`.
    pub fn with_must_understand(mut self) -> CacheControl
        ensures { result ≡ record self { must_understand = true } }
    {
        self.must_understand = true;
        self
    }

    /// Sets `max-age` to a duration in whole seconds, and replaces an earlier one.
    pub fn with_max_age(mut self, dur: Duration) -> CacheControl
        requires { IsWholeSeconds dur }
        ensures { result ≡ record self { max_age = Some (as_nanos dur / 1_000_000_000) } }
    {
        self.max_age = Some(dur.as_secs());
        self
    }

    /// Sets `max-stale` to a duration in whole seconds, and replaces an earlier one.
    pub fn with_max_stale(mut self, dur: Duration) -> CacheControl
        requires { IsWholeSeconds dur }
        ensures { result ≡ record self { max_stale = Some (as_nanos dur / 1_000_000_000) } }
    {
        self.max_stale = Some(dur.as_secs());
        self
    }

    /// Sets `min-fresh` to a duration in whole seconds, and replaces an earlier one.
    pub fn with_min_fresh(mut self, dur: Duration) -> CacheControl
        requires { IsWholeSeconds dur }
        ensures { result ≡ record self { min_fresh = Some (as_nanos dur / 1_000_000_000) } }
    {
        self.min_fresh = Some(dur.as_secs());
        self
    }

    /// Sets `s-maxage` to a duration in whole seconds, and replaces an earlier one.
    pub fn with_s_max_age(mut self, dur: Duration) -> CacheControl
        requires { IsWholeSeconds dur }
        ensures { result ≡ record self { s_max_age = Some (as_nanos dur / 1_000_000_000) } }
    {
        self.s_max_age = Some(dur.as_secs());
        self
    }

    // Sets the flag that the entry names, if any.
    fn add_flag(&mut self, entry: &str)
        ensures flags { Steps (next_flag entry.now) flag_rows self.old self.new }
        ensures numbers { Steps (λ _ number. number) number_rows self.old self.new }
    {
        set_flag(&mut self.no_cache, "no-cache", entry);
        set_flag(&mut self.no_store, "no-store", entry);
        set_flag(&mut self.no_transform, "no-transform", entry);
        set_flag(&mut self.only_if_cached, "only-if-cached", entry);
        set_flag(&mut self.must_revalidate, "must-revalidate", entry);
        set_flag(&mut self.public, "public", entry);
        set_flag(&mut self.private, "private", entry);
        set_flag(&mut self.immutable, "immutable", entry);
        set_flag(&mut self.must_understand, "must-understand", entry);
        set_flag(&mut self.proxy_revalidate, "proxy-revalidate", entry);
    }

    // Puts the number that the entry carries in place of an old one.
    fn add_number(&mut self, name: &str, value: &str) -> Result<(), Error>
        ensures flags { Steps (λ _ set. set) flag_rows self.old self.new }
        ensures ok { IfOk result (λ _. (entry : List ℕ) → before_first is_equals entry ≡ name.now
            → after_first is_equals entry ≡ value.now → (is_bad entry ≡ false)
            × Steps (next_number entry) number_rows self.old self.new) }
        ensures refused { IsErr result → (entry : List ℕ) → before_first is_equals entry ≡ name.now
            → after_first is_equals entry ≡ value.now → IsTrue (is_bad entry) }
    {
        set_number(&mut self.max_age, "max-age", name, value)?;
        set_number(&mut self.max_stale, "max-stale", name, value)?;
        set_number(&mut self.min_fresh, "min-fresh", name, value)?;
        set_number(&mut self.s_max_age, "s-maxage", name, value)
    }

    // Adds what an entry directs. The entry is cut once, not once for each number, and is compared
    // only with names of its kind.
    fn add_entry(&mut self, entry: &str) -> Result<(), Error>
        ensures ok { IfOk result (λ _. (is_bad entry.now ≡ false) × ((es : List (List ℕ)) → self.old ≡ directives es
            → self.new ≡ directives (es ++ entry.now ∷ []))) }
        ensures refused { IsErr result → IsTrue (is_bad entry.now) }
    {
        let Some((name, value)) = entry.split_once('=') else {
            self.add_flag(entry);
            return Ok(());
        };
        self.add_number(name, value)?;
        Ok(())
    }

    // Adds what the entries of a line direct.
    fn with_line(self, line: &HeaderValue) -> Result<CacheControl, Error>
        ensures ok { IfOk result (λ after. (list_any is_bad (line_entries line.now.bytes) ≡ false)
            × ((es : List (List ℕ)) → self ≡ directives es → after ≡ directives (es ++ line_entries line.now.bytes))) }
        ensures refused { IsErr result → IsTrue (list_any is_bad (line_entries line.now.bytes)) }
    {
        let mut after = self;
        for entry in Entries::new(line) {
            after.add_entry(entry)?;
        }
        Ok(after)
    }

    // Each number is in the range of its type.
    fn numbers_fit(&self)
        ensures { FitRows self.now number_rows }
    {
        number_fits(self.max_age);
        number_fits(self.max_stale);
        number_fits(self.min_fresh);
        number_fits(self.s_max_age);
    }

    // The directives that are set, joined by a comma and a space.
    fn print(&self, alloc: Global) -> Result<Bytes, AllocError>
        ensures text { IfOk result (λ text. text ≡ merge comma (printed self.now)) }
        ensures valid { IfOk result (λ text. IsFieldValue text) }
    {
        self.numbers_fit();
        let mut text = String::with_capacity(alloc, 32)?;
        push_flag(&mut text, "no-cache", self.no_cache)?;
        push_flag(&mut text, "no-store", self.no_store)?;
        push_flag(&mut text, "no-transform", self.no_transform)?;
        push_flag(&mut text, "only-if-cached", self.only_if_cached)?;
        push_flag(&mut text, "must-revalidate", self.must_revalidate)?;
        push_flag(&mut text, "public", self.public)?;
        push_flag(&mut text, "private", self.private)?;
        push_flag(&mut text, "immutable", self.immutable)?;
        push_flag(&mut text, "must-understand", self.must_understand)?;
        push_flag(&mut text, "proxy-revalidate", self.proxy_revalidate)?;
        push_number(&mut text, "max-age", self.max_age)?;
        push_number(&mut text, "max-stale", self.max_stale)?;
        push_number(&mut text, "min-fresh", self.min_fresh)?;
        push_number(&mut text, "s-maxage", self.s_max_age)?;
        let mut bytes = Bytes::from_string(text)?;
        let first = bytes.len().min(2);
        bytes.advance(first);
        Ok(bytes)
    }
}

/// Compares two headers: they are equal exactly if their encodings are equal, byte for byte.
pub fn equal_by_encoding(a: &CacheControl, b: &CacheControl) -> bool
    ensures equal { IsTrue result ↔ a.now ≡ b.now }
    ensures encoded { IsTrue result ↔ written_by cache_grammar a.now ≡ written_by cache_grammar b.now }
{
    a.numbers_fit();
    b.numbers_fit();
    a == b
}

/// Theorem: every value of `CacheControl` survives a round trip.
#[tactic(auto, using(crate::specs::CacheControlLaws::reads_written))]
pub fn directives_read_back(header: &CacheControl)
    ensures { ReadsBy cache_grammar (written_by cache_grammar header.now) header.now }
{
    header.numbers_fit();
}

// A number that is set is in the range of its type.
fn number_fits(number: Option<u64>)
    ensures { FitsOption number }
{}

// The flag after a comma and a space, if it is set.
fn push_flag(text: &mut String, flag: &str, set: bool) -> Result<(), AllocError>
    ensures { OnOk result (string_bytes text.new
        ≡ string_bytes text.old ++ behind_commas (print_flag flag.now set)) }
{
    if set {
        text.push_str(", ")?;
        text.push_str(flag)?;
    }
    Ok(())
}

// The directive and its number after a comma and a space, if it is set.
fn push_number(text: &mut String, directive: &str, number: Option<u64>) -> Result<(), AllocError>
    ensures { OnOk result (string_bytes text.new
        ≡ string_bytes text.old ++ behind_commas (print_number directive.now number)) }
{
    if let Some(number) = number {
        write!(text, ", {directive}={number}")?;
    }
    Ok(())
}

impl Header for CacheControl {
    ghost use Rattle.std.specs.Prelude.{true, codes};
    ghost use Rattle.headers_syntax.specs.HeaderLaws.{SameBy, ReadsBy, written_by, laws_by};
    ghost use Rattle.headers_caching.{specs.CacheControlLaws.directives_back, specs.CacheControlGrammar.cache_grammar};

    ghost field_name = { codes "cache-control" };

    ghost free = { true };

    ghost same = { SameBy cache_grammar };

    ghost reads = { ReadsBy cache_grammar };

    ghost writes = { written_by cache_grammar };

    ghost laws = { laws_by cache_grammar directives_back };

    fn name() -> HeaderName {
        CACHE_CONTROL
    }

    fn decode<I: Iterator>(_alloc: Global, values: &mut I) -> Result<CacheControl, Refused<Error>>
    where
        I::Item: AsHeaderValue,
    {
        let mut directives = CacheControl::new();
        while let Some(line) = values.next() {
            directives = directives.with_line(line.as_header_value())?;
        }
        Ok(directives)
    }

    fn encode(&self, alloc: Global, values: &mut Vec<HeaderValue>) -> Result<(), AllocError> {
        let value = HeaderValue::from_known_valid(self.print(alloc)?);
        values.push(value)?;
        Ok(())
    }
}

/// Theorem: joining or splitting field lines changes neither the decoded value nor a rejection.
pub fn cache_control_survives_cuts()
    ensures { SurvivesCuts comma (ReadsBy cache_grammar) }
{}
