//! A new store.
ghost use Rattle.std.specs.Prelude.{[], ◌≡◌, IfOk};
ghost use Rattle.cache_store.specs.{Kept.policy_with, Parts.{History.Run, Kept.{limits_of_parts, parts_of}}};
ghost use Rattle.cache_store.specs.Parts.Kept.{policy_of_parts};

use crate::limits::Limits;
use crate::making::Options;
use crate::parts::store::PartStore;
use crate::store::Store;
use cache_policy::Kind;
use std::alloc::{AllocError, Global};
use std::hash::RandomState;

impl PartStore {
    /// Makes an empty store of parts. The options are those of the store of complete responses, and the
    /// limits count parts and their bytes. The keys should be random, since clients choose the targets.
    pub fn new(
        alloc: Global,
        kind: Kind,
        options: Options,
        limits: Limits,
        keys: RandomState,
    ) -> Result<PartStore, AllocError>
        ensures parts { IfOk result (λ store. parts_of store ≡ []) }
        ensures run { IfOk result (λ store. Run (policy_with kind options) limits [] (parts_of store)) }
        ensures policy { IfOk result (λ store. policy_of_parts store ≡ policy_with kind options) }
        ensures limits { IfOk result (λ store. limits_of_parts store ≡ limits) }
    {
        let store = Store::with_options(alloc, kind, options, limits, keys)?;
        Ok(PartStore { store })
    }
}
