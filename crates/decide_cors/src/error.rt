//! Why rules make no policy.
use crate::sent::UnsentOrigin;
use std::alloc::AllocError;
use std::error::Error;
use std::fmt;

/// Why rules make no policy.
#[derive(Clone, Copy, Debug, PartialEq, Eq)]
pub enum RulesError {
    /// Any origin would be allowed with credentials, which browsers don't accept.
    AnyOriginWithCredentials,
    /// Any method would be allowed with credentials, but browsers then take the star for a method's
    /// name.
    AnyMethodWithCredentials,
    /// Any request field would be allowed with credentials, but browsers then take the star for a
    /// field's name.
    AnyNameWithCredentials,
    /// Any response field would be exposed with credentials, but browsers then take the star for a
    /// field's name.
    AnyExposedWithCredentials,
    /// A listed method or field name is `*`, which browsers take for any.
    Star,
    /// The listed origin at this place, from 0, has a text that no browser sends, so no request
    /// would match it. It is the first such origin.
    UnsentOrigin(usize),
    /// Out of memory: an allocation failed.
    Memory,
}

impl fmt::Display for RulesError {
    ghost use Rattle.std.specs.Prelude.{Some};
    ghost use Rattle.decide_cors.specs.Errors.{rules_error_text};

    ghost output = { λ e. Some (rules_error_text e) };

    fn fmt<W: fmt::Write>(&self, f: &mut fmt::Formatter<W>) -> fmt::Result {
        f.write_str(match self {
            RulesError::UnsentOrigin(place) => {
                return fmt::Display::fmt(&UnsentOrigin { place: *place }, f);
            }
            RulesError::AnyOriginWithCredentials => "any origin with credentials",
            RulesError::AnyMethodWithCredentials => "any method with credentials",
            RulesError::AnyNameWithCredentials => "any request field with credentials",
            RulesError::AnyExposedWithCredentials => "any response field with credentials",
            RulesError::Star => "a star in a list",
            RulesError::Memory => "out of memory",
        })
    }
}

impl Error for RulesError {}

impl From<AllocError> for RulesError {
    ghost use Rattle.std.specs.Prelude.{◌≡◌};
    ghost use Rattle.decide_cors.specs.declared.error.RulesError.TheVariants.{Memory};

    ghost from_gives = { λ _ e. e ≡ Memory };

    fn from(_error: AllocError) -> RulesError {
        RulesError::Memory
    }
}
