//! What a cache and a pass are behind handles.

use crate::status::Standing;
use bytes::Bytes;
use c_parts::HashKeys;
use cache_pass::{Cache, Pass, Queue};

/// What passes share.
#[derive(Drop)]
pub struct Shared {
    /// The cache.
    pub cache: Cache,
    /// The requests for which the origin is asked.
    pub queue: Queue,
    /// The keys of the maps of sections.
    pub keys: HashKeys,
    /// How many bytes the store may have in all.
    pub most: usize,
    /// For how many seconds the cache guesses at most that a response is fresh.
    pub guess: u64,
}

/// Where a pass is in the queue of its cache.
#[derive(Clone, Copy)]
pub enum Place {
    /// Nobody waits for it, and it for nobody.
    Apart,
    /// It asks the origin: others may wait for it, by this number.
    Ahead(u64),
    /// It waits for the request with this number.
    Waiting(u64),
}

/// A pass.
#[derive(Drop)]
pub struct Stepped {
    /// The pass.
    pub pass: Pass,
    /// The content of the stored response that its last step names, which is shared with the store.
    pub shown: Option<Bytes>,
    /// The field lines that its last step takes.
    pub text: Vec<u8>,
    /// What came so far of the content of the response that is forwarded, if it may still be stored.
    pub content: Option<Vec<u8>>,
    /// How many bytes of it the store may have: a pass keeps no more.
    pub most: usize,
    /// Where it is in the queue.
    pub place: Place,
    /// What it comes to, as Cache-Status says it.
    pub standing: Standing,
}
