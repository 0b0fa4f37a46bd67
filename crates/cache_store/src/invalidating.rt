//! Removal of what is stored, by a request that isn't safe.
ghost use Rattle.std.specs.Prelude.{◌≡◌};
ghost use Rattle.cache_rules.specs.Invalidation.{Invalidates};
ghost use Rattle.cache_store.specs.{Contents.without, History.{GoOn, Step, Call.{Answered, Removed}}, Kept.contents_of};
ghost use Rattle.cache_store.specs.Kept.{policy_of_store};

use crate::store::Store;
use cache_rules::invalidates;
use http::{Method, StatusCode};
use std::alloc::Global;

impl Store {
    /// Removes what is stored under the target of a request, if the response to it invalidates that
    /// (RFC 9111, section 4.4): the method isn't safe, and the status is 2xx or 3xx.
    pub fn invalidate(&mut self, alloc: Global, target: &str, method: &Method, status: StatusCode)
        ensures invalid { Invalidates method.now status
            → contents_of self.new ≡ without target.now (contents_of self.old) }
        ensures step { Step (policy_of_store self.old) self.old.limits (Answered target.now method.now status)
            (contents_of self.old)
            (contents_of self.new) }
        ensures valid { ¬ (Invalidates method.now status) → contents_of self.new ≡ contents_of self.old }
        ensures policy { policy_of_store self.new ≡ policy_of_store self.old }
        ensures numbers { GoOn self.old.next (contents_of self.old) self.new.next (contents_of self.new) }
        ensures limits { self.new.limits ≡ self.old.limits }
    {
        if invalidates(method, status) {
            self.remove(alloc, target);
        }
    }

    /// Removes what is stored under a target, such as one in Location or Content-Location of a
    /// response that invalidates (RFC 9111, section 4.4).
    pub fn remove(&mut self, alloc: Global, target: &str)
        ensures contents { contents_of self.new ≡ without target.now (contents_of self.old) }
        ensures step { Step (policy_of_store self.old) self.old.limits (Removed target.now) (contents_of self.old)
            (contents_of self.new) }
        ensures policy { policy_of_store self.new ≡ policy_of_store self.old }
        ensures numbers { GoOn self.old.next (contents_of self.old) self.new.next (contents_of self.new) }
        ensures limits { self.new.limits ≡ self.old.limits }
    {
        drop(self.take_out(alloc, target));
    }
}
