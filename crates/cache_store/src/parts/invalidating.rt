//! Removal of what is stored.
ghost use Rattle.std.specs.Prelude.{◌≡◌};
ghost use Rattle.cache_store.specs.{Contents.without, Parts.History.{Step, PartCall.{Answered, Removed}}};
ghost use Rattle.cache_store.specs.Parts.Kept.{limits_of_parts, parts_of, policy_of_parts};
ghost use Rattle.cache_rules.specs.Invalidation.{Invalidates};

use crate::parts::store::PartStore;
use http::{Method, StatusCode};
use std::alloc::Global;

impl PartStore {
    /// Removes what is stored under the target of a request, if the response to it invalidates that
    /// (RFC 9111, section 4.4): the method isn't safe, and the status is 2xx or 3xx.
    pub fn invalidate(&mut self, alloc: Global, key: &str, method: &Method, status: StatusCode)
        ensures invalid { Invalidates method.now status
            → parts_of self.new ≡ without key.now (parts_of self.old) }
        ensures valid { ¬ (Invalidates method.now status) → parts_of self.new ≡ parts_of self.old }
        ensures step { Step (policy_of_parts self.old) (limits_of_parts self.old) (Answered key.now method.now status)
            (parts_of self.old) (parts_of self.new) }
        ensures policy { policy_of_parts self.new ≡ policy_of_parts self.old }
        ensures limits { limits_of_parts self.new ≡ limits_of_parts self.old }
    {
        self.store.invalidate(alloc, key, method, status);
    }

    /// Removes what is stored under a key.
    pub fn remove(&mut self, alloc: Global, key: &str)
        ensures parts { parts_of self.new ≡ without key.now (parts_of self.old) }
        ensures step { Step (policy_of_parts self.old) (limits_of_parts self.old) (Removed key.now) (parts_of self.old)
            (parts_of self.new) }
        ensures policy { policy_of_parts self.new ≡ policy_of_parts self.old }
        ensures limits { limits_of_parts self.new ≡ limits_of_parts self.old }
    {
        self.store.remove(alloc, key);
    }
}
