//! The header `referrer-policy`.
ghost use Rattle.std.{specs.Prelude.{◌≡◌, map}, specs.List.{filter_map, last_or}};
ghost use Rattle.headers_syntax.specs.Parts.{parts};
ghost use Rattle.headers_lists.specs.ReferrerPolicy.{policy_named, word_of, words};
ghost use Rattle.headers_items.specs.Places.{comma};

use headers_core::{AsHeaderValue, Error, Header, Refused, read_text, trim_text};
use http_header::{HeaderName, HeaderValue, REFERRER_POLICY};
use std::alloc::{AllocError, Global};
use std::marker::Model;

#[derive(Clone, Copy, Debug, PartialEq, Eq, Hash)]
enum Policy {
    NoReferrer,
    NoReferrerWhenDowngrade,
    SameOrigin,
    Origin,
    OriginWhenCrossOrigin,
    UnsafeUrl,
    StrictOrigin,
    StrictOriginWhenCrossOrigin,
}

/// The header `Referrer-Policy`: how much of its page a request reveals (W3C Referrer Policy,
/// section 8.1). All field lines that are text are cut at every comma, and the last known word is
/// the value. `decode` rejects lines without a known word, and never allocates.
#[derive(Clone, Debug, PartialEq, Eq, Hash, Drop)]
pub struct ReferrerPolicy {
    policy: Policy,
}

impl Model for ReferrerPolicy {
    ghost use Rattle.headers_lists.specs.declared.referrer_policy.Policy.{Policy};

    ghost Value = { Policy };

    ghost view = { λ r. r.policy };

    ghost inverse = { λ p. record { policy = p } };
}

impl ReferrerPolicy {
    /// The policy `no-referrer`, also decoded from `never`.
    pub const NO_REFERRER: ReferrerPolicy = ReferrerPolicy {
        policy: Policy::NoReferrer,
    };

    /// The policy `no-referrer-when-downgrade`, also decoded from `default`.
    pub const NO_REFERRER_WHEN_DOWNGRADE: ReferrerPolicy = ReferrerPolicy {
        policy: Policy::NoReferrerWhenDowngrade,
    };

    /// The policy `same-origin`.
    pub const SAME_ORIGIN: ReferrerPolicy = ReferrerPolicy {
        policy: Policy::SameOrigin,
    };

    /// The policy `origin`.
    pub const ORIGIN: ReferrerPolicy = ReferrerPolicy {
        policy: Policy::Origin,
    };

    /// The policy `origin-when-cross-origin`.
    pub const ORIGIN_WHEN_CROSS_ORIGIN: ReferrerPolicy = ReferrerPolicy {
        policy: Policy::OriginWhenCrossOrigin,
    };

    /// The policy `unsafe-url`, also decoded from `always`.
    pub const UNSAFE_URL: ReferrerPolicy = ReferrerPolicy {
        policy: Policy::UnsafeUrl,
    };

    /// The policy `strict-origin`.
    pub const STRICT_ORIGIN: ReferrerPolicy = ReferrerPolicy {
        policy: Policy::StrictOrigin,
    };

    /// The policy `strict-origin-when-cross-origin`.
    pub const STRICT_ORIGIN_WHEN_CROSS_ORIGIN: ReferrerPolicy = ReferrerPolicy {
        policy: Policy::StrictOriginWhenCrossOrigin,
    };

    /// Returns the eight constants, each of which is encoded as the word that its name says.
    pub fn all() -> [ReferrerPolicy; 8]
        ensures { map word_of result ≡ words }
    {
        [
            ReferrerPolicy::NO_REFERRER,
            ReferrerPolicy::NO_REFERRER_WHEN_DOWNGRADE,
            ReferrerPolicy::SAME_ORIGIN,
            ReferrerPolicy::ORIGIN,
            ReferrerPolicy::ORIGIN_WHEN_CROSS_ORIGIN,
            ReferrerPolicy::UNSAFE_URL,
            ReferrerPolicy::STRICT_ORIGIN,
            ReferrerPolicy::STRICT_ORIGIN_WHEN_CROSS_ORIGIN,
        ]
    }
}

// The policy of a known word.
fn policy_named(word: &str) -> Option<Policy>
    ensures { result ≡ policy_named word.now }
{
    match word {
        "no-referrer" | "never" => Some(Policy::NoReferrer),
        "no-referrer-when-downgrade" | "default" => Some(Policy::NoReferrerWhenDowngrade),
        "same-origin" => Some(Policy::SameOrigin),
        "origin" => Some(Policy::Origin),
        "origin-when-cross-origin" => Some(Policy::OriginWhenCrossOrigin),
        "unsafe-url" | "always" => Some(Policy::UnsafeUrl),
        "strict-origin" => Some(Policy::StrictOrigin),
        "strict-origin-when-cross-origin" => Some(Policy::StrictOriginWhenCrossOrigin),
        _ => None,
    }
}

impl Policy {
    fn word(self) -> &'static str
        ensures { result.now ≡ word_of self }
    {
        match self {
            Policy::NoReferrer => "no-referrer",
            Policy::NoReferrerWhenDowngrade => "no-referrer-when-downgrade",
            Policy::SameOrigin => "same-origin",
            Policy::Origin => "origin",
            Policy::OriginWhenCrossOrigin => "origin-when-cross-origin",
            Policy::UnsafeUrl => "unsafe-url",
            Policy::StrictOrigin => "strict-origin",
            Policy::StrictOriginWhenCrossOrigin => "strict-origin-when-cross-origin",
        }
    }
}

// The last policy that the line names, or the one before if it names none.
fn last_policy(line: &HeaderValue, before: Option<Policy>) -> Option<Policy>
    ensures { result ≡ last_or before (filter_map policy_named (parts comma line.now.bytes)) }
{
    let Some(text) = read_text(line) else {
        return before;
    };
    text.split(',').fold(before, |last, part| policy_named(trim_text(part)).or(last))
}

impl Header for ReferrerPolicy {
    ghost use Rattle.std.specs.Prelude.{true, codes};
    ghost use Rattle.headers_syntax.specs.HeaderLaws.{SameBy, ReadsBy, written_by, laws_by};
    ghost use Rattle.headers_lists.{specs.ReferrerPolicy.referrer_grammar, specs.ReferrerPolicyLaws.referrer_back};

    ghost field_name = { codes "referrer-policy" };

    ghost free = { true };

    ghost same = { SameBy referrer_grammar };

    ghost reads = { ReadsBy referrer_grammar };

    ghost writes = { written_by referrer_grammar };

    ghost laws = { laws_by referrer_grammar referrer_back };

    fn name() -> HeaderName {
        REFERRER_POLICY
    }

    fn decode<I: Iterator>(_alloc: Global, values: &mut I) -> Result<ReferrerPolicy, Refused<Error>>
    where
        I::Item: AsHeaderValue,
    {
        let mut last = None;
        while let Some(line) = values.next() {
            last = last_policy(line.as_header_value(), last);
        }
        let policy = last.ok_or(Error::invalid())?;
        Ok(ReferrerPolicy { policy })
    }

    fn encode(&self, _alloc: Global, values: &mut Vec<HeaderValue>) -> Result<(), AllocError> {
        values.push(HeaderValue::from_static(self.policy.word()))?;
        Ok(())
    }
}

/// Theorem: every value of `ReferrerPolicy` survives a round trip.
#[tactic(auto, using(crate::specs::ReferrerPolicyLaws::referrer_back))]
pub fn policies_read_back()
    ensures { (policy : ReferrerPolicy)
        → ⟦<ReferrerPolicy as Header>⟧.reads (⟦<ReferrerPolicy as Header>⟧.writes policy) policy }
{}
