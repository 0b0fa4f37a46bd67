//! The store.
use crate::store::Store;

/// Parts of representations by the URIs of their targets, in bounded memory.
#[derive(Drop)]
pub struct PartStore {
    pub(super) store: Store,
}
