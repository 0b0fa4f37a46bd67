//! How a store decides.
ghost use Rattle.std.specs.Prelude.{◌≡◌};
ghost use Rattle.cache_policy.specs.Policies.{policy_of};
ghost use Rattle.cache_store.specs.Kept.{policy_of_store};

use crate::store::Store;
use cache_policy::Policy;

impl Store {
    /// Returns the policy by which it decides.
    pub fn policy(&self) -> Policy<'_>
        ensures { policy_of result ≡ policy_of_store self.now }
    {
        Policy {
            kind: self.kind,
            immutable: self.immutable,
            targets: self.targeted.as_slice(),
        }
    }
}
