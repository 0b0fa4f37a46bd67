//! Calls of `Cache-Control`.
use crate::Http;
use headers::{CacheControl, equal_by_encoding};
use std::time::Duration;
use test_each::{Getters, say, show_back_result};
use test_rows::{Arguments, CaseAnswer, CaseFailure};

impl Getters<Http> for CacheControl {
    fn getters(&self, answer: &mut CaseAnswer) -> Result<CacheControl, CaseFailure> {
        for flag in [
            self.no_cache(),
            self.no_store(),
            self.no_transform(),
            self.only_if_cached(),
            self.public(),
            self.private(),
            self.immutable(),
            self.must_revalidate(),
            self.must_understand(),
        ] {
            answer.word(flag)?;
        }
        for number in [
            self.max_age(),
            self.max_stale(),
            self.min_fresh(),
            self.s_max_age(),
        ] {
            answer.option(number.map(|number| number.as_secs()))?;
        }
        Ok(self.clone()?)
    }
}

// The value with one more setter, if there is such a one.
fn with_setter(value: CacheControl, setter: &str, seconds: u64) -> Option<CacheControl> {
    Some(match setter {
        "no_cache" => value.with_no_cache(),
        "no_store" => value.with_no_store(),
        "no_transform" => value.with_no_transform(),
        "only_if_cached" => value.with_only_if_cached(),
        "public" => value.with_public(),
        "private" => value.with_private(),
        "immutable" => value.with_immutable(),
        "must_revalidate" => value.with_must_revalidate(),
        "must_understand" => value.with_must_understand(),
        "max_age" => value.with_max_age(Duration::from_secs(seconds)),
        "max_stale" => value.with_max_stale(Duration::from_secs(seconds)),
        "min_fresh" => value.with_min_fresh(Duration::from_secs(seconds)),
        "s_max_age" => value.with_s_max_age(Duration::from_secs(seconds)),
        _ => return None,
    })
}

// The value with the setters of the words, in their order.
fn with_setters(arguments: &mut Arguments<'_>) -> Result<CacheControl, CaseFailure> {
    let mut value = CacheControl::new();
    for word in arguments.rest().split_whitespace() {
        let (setter, number) = word.split_once('=').unwrap_or((word, "0"));
        let seconds = number.parse().map_err(|_| CaseFailure::NoCall)?;
        value = with_setter(value, setter, seconds).ok_or(CaseFailure::NoCall)?;
    }
    Ok(value)
}

/// Adds the answer of a call of its own.
pub fn call_caching(
    name: &str,
    arguments: &mut Arguments<'_>,
    answer: &mut CaseAnswer,
) -> Result<(), CaseFailure> {
    match name {
        "CacheControl.with" => show_back_result(with_setters(arguments), answer),
        "CacheControl.equal_by_encoding" => {
            let first: CacheControl = arguments.header()?;
            let second: CacheControl = arguments.header()?;
            say(equal_by_encoding(&first, &second), answer)
        }
        _ => Err(CaseFailure::NoCall),
    }
}
